//! What accounts must cover for their orders.
ghost use Rattle.std.specs.Prelude.{◌≡◌, ℕ, ◌≤ℤ◌, ◌↔◌, IsTrue};
ghost use Rattle.flow_accounts.specs.Balances.{IsAccount, IsAsset, money_with_credit, units_with_credit};
ghost use Rattle.flow_accounts.specs.Lawful.{AreLawful};
ghost use Rattle.flow_orders.specs.Orders.{needed_money, needed_units};
ghost use Rattle.fill_caps.specs.Covers.{CoversNeeds};
ghost use Rattle.market_parts.specs.Tests.{CoversAccount};

use flow_accounts::{Accounts, grains_of};
use order_book::Book;

// Returns whether each account holds, with its credit, at least what its orders need.
pub(crate) fn covers_needs(accounts: &Accounts, book: &Book) -> bool
    ensures { IsTrue result ↔ CoversNeeds accounts.now book.now.orders }
{
    for place in 0..accounts.count() {
        if !covers_account(accounts, book, place + 1) {
            return false;
        }
    }
    true
}

fn covers_account(accounts: &Accounts, book: &Book, account: u32) -> bool
    requires lawful { AreLawful accounts.now }
    requires account { IsAccount accounts.now account }
    ensures { IsTrue result ↔ CoversAccount accounts.now book.now.orders account }
{
    if !covers_money(accounts, book, account) {
        return false;
    }
    covers_units(accounts, book, account)
}

fn covers_money(accounts: &Accounts, book: &Book, account: u32) -> bool
    requires lawful { AreLawful accounts.now }
    requires account { IsAccount accounts.now account }
    ensures { IsTrue result ↔ (needed_money book.now.orders account ≤ℤ money_with_credit accounts.now account) }
{
    book.money_needed(account) <= money_with_credit(accounts, account)
}

fn covers_units(accounts: &Accounts, book: &Book, account: u32) -> bool
    requires lawful { AreLawful accounts.now }
    requires account { IsAccount accounts.now account }
    ensures { IsTrue result ↔ ((asset : ℕ) → IsAsset accounts.now asset →
        needed_units book.now.orders account asset ≤ℤ units_with_credit accounts.now account asset) }
{
    for asset in 0..accounts.assets() {
        if book.units_needed(account, asset) > units_with_credit(accounts, account, asset) {
            return false;
        }
    }
    true
}

// Returns the money of an account and its credit together, in grains.
fn money_with_credit(accounts: &Accounts, account: u32) -> i128
    requires lawful { AreLawful accounts.now }
    requires account { IsAccount accounts.now account }
    ensures { result ≡ money_with_credit accounts.now account }
{
    let held = accounts.money(account).unwrap();
    let ticks = accounts.money_credit(account).unwrap();
    held + grains_of(ticks)
}

// Returns the units of an asset in an account and its credit together.
fn units_with_credit(accounts: &Accounts, account: u32, asset: u16) -> i128
    requires lawful { AreLawful accounts.now }
    requires account { IsAccount accounts.now account }
    requires asset { IsAsset accounts.now asset }
    ensures { result ≡ units_with_credit accounts.now account asset }
{
    let held = accounts.units(account, asset).unwrap();
    let credit = accounts.unit_credit(account, asset).unwrap();
    i128::from(held) + i128::from(credit)
}
