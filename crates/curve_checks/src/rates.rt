//! Rates of orders: demands rounded down, roundings that are chosen, and certificates of those that are given.
ghost use Rattle.std.specs.Prelude.{◌≡◌, length, IsTrue, All};
ghost use Rattle.weight_rows.specs.Rows.{IsPrice, IsPricedBy};
ghost use Rattle.demand_curve.specs.Demand.{IsRounding};
ghost use Rattle.flow_orders.specs.Orders.{terms_of};
ghost use Rattle.flow_orders.specs.Excess.{price_for};
ghost use Rattle.flow_orders.specs.Trades.{trades};

use crate::batches::put_cleared;
use crate::books::Book;
use crate::telling::{add_numbers, put_rates};
use batch_certificate::certify;
use batch_outcome::{Cleared, PriceList, RateList};
use check_lines::Told;
use flow_orders::Order;
use rate_rounding::{chosen_rates, floor_rates};
use std::alloc::Global;

// Prints each order's demand, rounded down.
pub(crate) fn put_floors(alloc: Global, book: &Book<'_>, told: &mut Told) {
    match floor_rates(alloc, book.orders, book.prices) {
        Ok(rates) => put_rates(&rates, told),
        Err(_) => told.give_up(),
    }
}

// Prints the rates at which the orders trade.
pub(crate) fn put_chosen(alloc: Global, book: &Book<'_>, told: &mut Told) {
    match chosen_rates(alloc, book.orders, book.prices) {
        Ok(rates) => put_rates(&rates, told),
        Err(_) => told.give_up(),
    }
}

// Returns whether the rate is a rounding of the order's demand at the prices.
fn is_rounding(order: &Order, rate: u32, prices: &[i64]) -> bool
    requires range { All IsPrice prices.now }
    requires priced { IsPricedBy order.now.row prices.now }
    ensures { IsTrue result → IsRounding (terms_of order.now) rate (price_for prices.now order.now) }
{
    order.curve().is_rounded(rate, order.row().price(prices))
}

// Returns whether each rate is a rounding of its order's demand at the prices.
fn are_roundings(orders: &[Order], prices: &[i64], rates: &[u32]) -> bool
    requires range { All IsPrice prices.now }
    requires priced { All (λ o. IsPricedBy o.row prices.now) orders.now }
    requires one_each { length rates.now ≡ length orders.now }
    ensures { IsTrue result → All
        (λ t. IsRounding (terms_of t.order) t.traded (price_for prices.now t.order))
        (trades orders.now rates.now) }
{
    for (place, order) in orders.iter().enumerate() {
        if !is_rounding(order, rates[place], prices) {
            return false;
        }
    }
    true
}

// Returns what is certified, or `None` if memory ran out.
fn certified(alloc: Global, book: &Book<'_>, rates: &[u32]) -> Option<Cleared>
    requires one_each { length rates.now ≡ length book.now.orders.now }
    requires roundings { All
        (λ t. IsRounding (terms_of t.order) t.traded (price_for book.now.prices.now t.order))
        (trades book.now.orders.now rates.now) }
{
    let prices = PriceList::new(Vec::from_slice(alloc, book.prices).ok()?);
    let rates = RateList::new(Vec::from_slice(alloc, rates).ok()?);
    certify(alloc, book.orders, prices, rates).ok()
}

// Prints the certificate of these rates.
fn put_certified(alloc: Global, rates: &[u32], book: &Book<'_>, told: &mut Told) {
    if rates.len() != book.orders.len() {
        return told.give_up();
    }
    if !are_roundings(book.orders, book.prices, rates) {
        return told.put(" no roundings");
    }
    match certified(alloc, book, rates) {
        Some(cleared) => put_cleared(&cleared, told),
        None => told.give_up(),
    }
}

// Prints the certificate of rates, if they are roundings.
pub(crate) fn put_certificate(alloc: Global, list: &str, book: &Book<'_>, told: &mut Told) {
    let mut rates = Vec::new(alloc);
    add_numbers(list, &mut rates, told);
    put_certified(alloc, &rates, book, told)
}
