//! The answer to what an account has.
ghost use Rattle.std.specs.Prelude.{◌≡◌, ◌<◌, ◌++◌, ℕ, length, if◌then◌else◌, None, Some, OnOk};
ghost use Rattle.pair_text.specs.Texts.{◌then◌};
ghost use Rattle.flow_accounts.specs.Balances.{IsAccount, IsAsset, money_of, units_of, money_credit_of, unit_credit_of, asset_count};
ghost use Rattle.answer_text.specs.Texts.{listed, separated, comma};
ghost use Rattle.answer_text.specs.Answers.{leg_member, terms_members};
ghost use Rattle.answer_text.specs.Accounts.{last_of, request_of, order_text, account_orders, holding_member, account_members};

use crate::commands::put_last;
use crate::quoted::{put_comma, put_ticker};
use flow_accounts::Accounts;
use flow_orders::Order;
use order_book::Book;
use pair_text::Text;
use ticker_table::TickerTable;
use weight_rows::Entry;
use wire_records::Memory;

// Returns the money of an account that is there, in grains.
fn money_held(accounts: &Accounts, account: u32) -> i128
    requires { IsAccount accounts.now account }
    ensures { result ≡ money_of accounts.now account }
{
    accounts.money(account).unwrap()
}

// Returns the credit in money of an account that is there, in ticks.
fn money_credit(accounts: &Accounts, account: u32) -> u64
    requires { IsAccount accounts.now account }
    ensures { result ≡ money_credit_of accounts.now account }
{
    accounts.money_credit(account).unwrap()
}

// Returns the units of an asset in an account, where both are there.
fn units_held(accounts: &Accounts, account: u32, asset: u16) -> i64
    requires account { IsAccount accounts.now account }
    requires asset { IsAsset accounts.now asset }
    ensures { result ≡ units_of accounts.now account asset }
{
    accounts.units(account, asset).unwrap()
}

// Returns the credit in units of an asset of an account, where both are there.
fn unit_credit(accounts: &Accounts, account: u32, asset: u16) -> u64
    requires account { IsAccount accounts.now account }
    requires asset { IsAsset accounts.now asset }
    ensures { result ≡ unit_credit_of accounts.now account asset }
{
    accounts.unit_credit(account, asset).unwrap()
}

// Appends what an account has of an asset, with the comma before it.
fn put_holding(
    tickers: &TickerTable,
    accounts: &Accounts,
    book: &Book,
    account: u32,
    asset: u16,
    out: &mut Text,
) -> Result<(), Memory>
    requires account { IsAccount accounts.now account }
    requires asset { IsAsset accounts.now asset }
    ensures before { out.new.before ≡ out.old.before }
    ensures put { OnOk result (out.new.text ≡ out.old.text
        ++ (comma asset then holding_member tickers.now accounts.now book.now.orders account asset)) }
{
    put_comma(asset as usize, out)?;
    put_ticker(tickers, asset, out)?;
    out.put_number(b":[", units_held(accounts, account, asset))?;
    out.put_number(b",", book.units_needed(account, asset))?;
    out.put_number(b",", unit_credit(accounts, account, asset))?;
    out.put(b"]")
}

// Appends what an account has of all assets.
fn put_holdings(
    tickers: &TickerTable,
    accounts: &Accounts,
    book: &Book,
    account: u32,
    out: &mut Text,
) -> Result<(), Memory>
    requires account { IsAccount accounts.now account }
    ensures before { out.new.before ≡ out.old.before }
    ensures put { OnOk result (out.new.text ≡ out.old.text
        ++ listed (holding_member tickers.now accounts.now book.now.orders account) (asset_count accounts.now)) }
{
    for asset in 0..accounts.assets() {
        put_holding(tickers, accounts, book, account, asset, out)?;
    }
    Ok(())
}

// Appends a leg, with the comma before it.
fn put_leg(tickers: &TickerTable, row: &[Entry], place: usize, out: &mut Text) -> Result<(), Memory>
    requires { place < length row.now }
    ensures before { out.new.before ≡ out.old.before }
    ensures put { OnOk result (out.new.text ≡ out.old.text ++ (comma place then leg_member tickers.now row.now place)) }
{
    let leg = row[place];
    put_comma(place, out)?;
    put_ticker(tickers, leg.asset, out)?;
    out.put_number(b":", leg.weight)
}

// Appends legs.
fn put_legs(tickers: &TickerTable, row: &[Entry], out: &mut Text) -> Result<(), Memory>
    ensures before { out.new.before ≡ out.old.before }
    ensures put { OnOk result (out.new.text ≡ out.old.text ++ listed (leg_member tickers.now row.now) (length row.now)) }
{
    for place in 0..row.len() {
        put_leg(tickers, row, place, out)?;
    }
    Ok(())
}

// Appends the terms of an order.
fn put_terms(tickers: &TickerTable, order: &Order, out: &mut Text) -> Result<(), Memory>
    ensures before { out.new.before ≡ out.old.before }
    ensures put { OnOk result (out.new.text ≡ out.old.text ++ terms_members tickers.now (request_of order.now)) }
{
    out.put_number(b"\"low\":", order.low())?;
    out.put_number(b",\"high\":", order.high())?;
    out.put_number(b",\"rate\":", order.rate())?;
    out.put_number(b",\"cap\":", order.cap())?;
    out.put(b",\"weights\":{")?;
    put_legs(tickers, order.row().entries(), out)?;
    out.put(b"}")
}

// Returns the number of the last batch of an order, if it has one.
fn last_of(order: &Order) -> Option<u32>
    ensures { result ≡ last_of order.now }
{
    match order.last() {
        0 => None,
        last => Some(last),
    }
}

// Appends an order.
fn put_order(tickers: &TickerTable, order: &Order, out: &mut Text) -> Result<(), Memory>
    ensures before { out.new.before ≡ out.old.before }
    ensures put { OnOk result (out.new.text ≡ out.old.text ++ order_text tickers.now order.now) }
{
    out.put(b"{")?;
    put_last(last_of(order), out)?;
    put_terms(tickers, order, out)?;
    out.put_number(b",\"order\":", order.number())?;
    out.put_number(b",\"filled\":", order.filled())?;
    out.put(b"}")
}

// Appends the live orders of an account.
fn put_orders(
    tickers: &TickerTable,
    book: &Book,
    account: u32,
    out: &mut Text,
) -> Result<(), Memory>
    ensures before { out.new.before ≡ out.old.before }
    ensures put { OnOk result (out.new.text ≡ out.old.text
        ++ separated (order_text tickers.now) (account_orders account book.now.orders)) }
{
    let mut count = 0;
    for order in book.live() {
        if order.account() == account {
            put_comma(count, out)?;
            put_order(tickers, order, out)?;
            count += 1;
        }
    }
    Ok(())
}

/// Appends the members that answer what an account has that is there: its money and what its orders reserve of it, in grains, and its
/// credit, in ticks; of each asset, by the assets' numbers, its units, what its orders reserve of them, and its credit, in units; and its
/// live orders by ascending numbers, each with the members of its placement, its number, and what is filled of it.
///
/// It costs one pass over the live orders of all accounts.
pub fn put_account(
    tickers: &TickerTable,
    accounts: &Accounts,
    book: &Book,
    account: u32,
    out: &mut Text,
) -> Result<(), Memory>
    requires { IsAccount accounts.now account }
    ensures before { out.new.before ≡ out.old.before }
    ensures put { OnOk result (out.new.text ≡ out.old.text
        ++ account_members tickers.now accounts.now book.now.orders account) }
{
    out.put_number(b"\"ask\":\"account\",\"account\":", account)?;
    out.put_number(b",\"money\":\"", money_held(accounts, account))?;
    out.put_number(b"\",\"reserved\":\"", book.money_needed(account))?;
    out.put_number(b"\",\"credit\":", money_credit(accounts, account))?;
    out.put(b",\"units\":{")?;
    put_holdings(tickers, accounts, book, account, out)?;
    out.put(b"},\"orders\":[")?;
    put_orders(tickers, book, account, out)?;
    out.put(b"]")
}
