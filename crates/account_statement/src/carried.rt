//! What a statement that begins in a market copies: what its account has there.
ghost use Rattle.std.specs.Prelude.{◌≡◌, ◌<◌, ◌≤◌, ◌↔◌, ℕ, [], ◌∷◌, ◌++◌, length, map, slice_index_or, vec_len, All, AllPairs, IsTrue, IfOk, OnOk, OnErr};
ghost use Rattle.std.specs.List.{range_with_len};
ghost use Rattle.flow_accounts.specs.Balances.{IsAccount, IsAsset, asset_count, money_of, units_of};
ghost use Rattle.flow_orders.specs.Orders.{Order as order_value, most_orders};
ghost use Rattle.statement_rules.specs.Holdings.{own_orders};
ghost use Rattle.account_statement.specs.Private.{HasOwnOrder};

use flow_accounts::Accounts;
use flow_orders::Order;
use order_book::Book;
use std::alloc::Global;
use ticker_table::TickerTable;
use weight_rows::{EntryList, WeightRow};
use wire_records::Memory;

// Returns a copy of the table of tickers. `Memory` comes only if it has a ticker.
pub(crate) fn copied_tickers(alloc: Global, tickers: &TickerTable) -> Result<TickerTable, Memory>
    ensures same { IfOk result (λ copy. copy ≡ tickers.now) }
    ensures some { OnErr result (0 < length tickers.now) }
{
    let mut copy = TickerTable::new(alloc);
    for asset in 0..tickers.len() {
        copy_ticker(tickers, asset, &mut copy)?;
    }
    Ok(copy)
}

// Appends the ticker of this asset, which is the next one, to the copy.
fn copy_ticker(tickers: &TickerTable, asset: u16, copy: &mut TickerTable) -> Result<(), Memory>
    requires { asset < length tickers.now }
    ensures { OnOk result (copy.new ≡ copy.old ++ slice_index_or tickers.now asset [] ∷ []) }
{
    match copy.add(tickers.ticker(asset).unwrap()) {
        Ok(_) => Ok(()),
        Err(_) => Err(Memory),
    }
}

// Returns whether there is an account of this number.
pub(crate) fn has_account(accounts: &Accounts, account: u32) -> bool
    ensures { IsTrue result ↔ IsAccount accounts.now account }
{
    1 <= account && account <= accounts.count()
}

// Returns the money of an account, in grains, or 0 if there is no such account.
pub(crate) fn money_in(accounts: &Accounts, account: u32) -> i128
    ensures { 0 < account → result ≡ money_of accounts.now account }
{
    match accounts.money(account) {
        Some(money) => money,
        None => 0,
    }
}

// Returns how many units of an asset an account has, or 0 if there is no such account.
fn units_in(accounts: &Accounts, account: u32, asset: u16) -> i64
    requires { IsAsset accounts.now asset }
    ensures { 0 < account → result ≡ units_of accounts.now account asset }
{
    match accounts.units(account, asset) {
        Some(units) => units,
        None => 0,
    }
}

// Returns the units that an account has of each asset, by the assets' numbers. `Memory` comes only if there is an asset.
pub(crate) fn all_units(
    alloc: Global,
    accounts: &Accounts,
    account: u32,
) -> Result<Vec<i64>, Memory>
    ensures count { IfOk result (λ units. vec_len units ≡ asset_count accounts.now) }
    ensures each { IfOk result (λ units. 0 < account →
        units.items ≡ map (units_of accounts.now account) (range_with_len 0 (asset_count accounts.now))) }
    ensures some { OnErr result (0 < asset_count accounts.now) }
{
    let count = accounts.assets();
    let mut units = Vec::new(alloc);
    units.reserve(usize::from(count))?;
    for asset in 0..count {
        units.push_reserved(units_in(accounts, account, asset));
    }
    Ok(units)
}

// Returns a copy of a weight vector.
fn copied_row(alloc: Global, row: &WeightRow) -> Result<WeightRow, Memory>
    ensures { IfOk result (λ copy. copy ≡ row.now) }
{
    let entries = row.entries();
    let mut copy = Vec::with_capacity(alloc, entries.len())?;
    copy.extend_from_slice(entries)?;
    Ok(WeightRow::new(EntryList::new(copy)))
}

// Returns a copy of an order with its weight vector.
fn copied_order(alloc: Global, order: &Order) -> Result<Order, Memory>
    ensures { IfOk result (λ copy. copy ≡ order.now) }
{
    let row = copied_row(alloc, order.row())?;
    Ok(Order::restore(
        order.number(),
        order.account(),
        order.low(),
        order.high(),
        order.rate(),
        order.cap(),
        order.filled(),
        order.last(),
        row,
    ))
}

// Adds a copy of an order to a book, in which all orders have lower numbers. The book must have room for one more.
fn copy_order(alloc: Global, order: &Order, book: &mut Book) -> Result<(), Memory>
    requires few { length book.old.orders < most_orders }
    requires above { All (λ (o : order_value). o.number < order.now.number) book.old.orders }
    ensures { OnOk result (book.new.orders ≡ book.old.orders ++ order.now ∷ []) }
{
    let copy = copied_order(alloc, order)?;
    book.reserve_one()?;
    book.add(copy);
    Ok(())
}

// Returns a book with copies of those orders that are the account's own. `Memory` comes only if there is one. Costs one pass over all
// orders, and a copy of each own one.
pub(crate) fn own_book(alloc: Global, orders: &[Order], account: u32) -> Result<Book, Memory>
    requires ascending { AllPairs (λ (o : order_value) (later : order_value). o.number < later.number) orders.now }
    requires few { length orders.now ≤ most_orders }
    ensures own { IfOk result (λ book. book.orders ≡ own_orders account orders.now) }
    ensures some { OnErr result (HasOwnOrder account orders.now) }
{
    let mut book = Book::new(alloc);
    for order in orders {
        if order.account() == account {
            copy_order(alloc, order, &mut book)?;
        }
    }
    Ok(book)
}
