//! What a market holds.
use check_lines::Told;
use flow_accounts::Accounts;
use market_core::Market;
use residual_account::ResidualAccount;
use std::alloc::Global;
use ticker_table::TickerTable;

fn put_ticker(ticker: &[u8; 8], told: &mut Told) {
    match str::from_utf8(ticker) {
        Ok(name) => {
            told.put(" ");
            told.put(name.trim_end());
        }
        Err(_) => told.give_up(),
    }
}

fn put_tickers(tickers: &TickerTable, told: &mut Told) {
    told.put("  tickers");
    for asset in 0..tickers.len() {
        match tickers.ticker(asset) {
            Some(ticker) => put_ticker(&ticker, told),
            None => told.give_up(),
        }
    }
    told.put("\n");
}

fn put_numbers(numbers: &[i64], told: &mut Told) {
    for number in numbers {
        told.put_number(" ", i128::from(*number));
    }
}

fn put_prices(alloc: Global, market: &Market, told: &mut Told) {
    told.put("  prices");
    match market.start_prices(alloc) {
        Ok(prices) => put_numbers(prices.as_slice(), told),
        Err(_) => told.give_up(),
    }
    told.put("\n");
}

fn put_units(units: Option<i64>, told: &mut Told) {
    match units {
        Some(units) => told.put_number(" ", i128::from(units)),
        None => told.give_up(),
    }
}

fn put_money(money: Option<i128>, told: &mut Told) {
    match money {
        Some(money) => told.put_number(": ", money),
        None => told.give_up(),
    }
}

fn put_account(accounts: &Accounts, account: u32, told: &mut Told) {
    told.put_number("  account ", i128::from(account));
    put_money(accounts.money(account), told);
    told.put(",");
    for asset in 0..accounts.assets() {
        put_units(accounts.units(account, asset), told);
    }
    told.put("\n");
}

fn put_accounts(accounts: &Accounts, told: &mut Told) {
    for account in 0..accounts.count() {
        put_account(accounts, account + 1, told);
    }
}

fn put_exchange(exchange: &ResidualAccount, told: &mut Told) {
    told.put_number("  exchange: ", exchange.money());
    told.put(",");
    for asset in 0..exchange.assets() {
        told.put_number(" ", i128::from(exchange.units(asset)));
    }
    told.put("\n");
}

fn put_orders(market: &mut Market, told: &mut Told) {
    told.put("  orders");
    for order in market.orders() {
        told.put_number(" ", i128::from(order.number()));
    }
    told.put("\n");
}

fn put_counts(market: &Market, told: &mut Told) {
    told.put_number("  next ", i128::from(market.next_number()));
    told.put_number(", batches ", i128::from(market.batches()));
    told.put("\n");
}

// Appends the rows of a market.
pub(crate) fn put_market(alloc: Global, market: &mut Market, told: &mut Told) {
    put_tickers(market.tickers(), told);
    put_prices(alloc, market, told);
    put_accounts(market.accounts(), told);
    put_exchange(market.exchange(), told);
    put_orders(market, told);
    put_counts(market, told);
}
