//! The book of live orders, and what accounts need as orders are cancelled and filled.
ghost use Rattle.std.specs.Prelude.{◌≡◌, ◌≤◌, length, All, IsTrue};
ghost use Rattle.flow_orders.specs.Orders.{terms_of};
ghost use Rattle.flow_orders.specs.Trades.{trades};

use crate::places::{Place, place_of};
use crate::placing::order_of;
use crate::telling::{put, put_name};
use check_lines::Told;
use flow_orders::Order;
use order_book::{Book, Memory};
use std::alloc::Global;

// How many orders there may be.
const MOST_ORDERS: usize = flow_orders::MOST_ORDERS as usize;

// Adds the order, if the book can take it.
#[tactic(auto, using(flow_orders::proofs::Limits::orders_are))]
fn add(book: &mut Book, order: Order) -> Option<()> {
    let number = order.number();
    if book.len() >= MOST_ORDERS || !book.orders().iter().all(|other| other.number() < number) {
        return None;
    }
    match book.reserve_one() {
        Ok(()) => book.add(order),
        Err(Memory) => return None,
    }
    Some(())
}

fn put_placed(alloc: Global, book: &mut Book, words: &str, told: &mut Told) {
    match order_of(alloc, words) {
        Some(order) => {
            told.keep(add(book, order));
            put("placed", &[], told)
        }
        None => put("faulty", &[], told),
    }
}

// Returns the account and the order of `ACCOUNT NUMBER`.
fn live_of(words: &str) -> Option<(u32, u64)> {
    let (account, number) = words.split_once(' ')?;
    Some((account.parse().ok()?, number.parse().ok()?))
}

fn put_there(there: bool, told: &mut Told) {
    put(if there { "there" } else { "none" }, &[], told)
}

fn put_live(book: &mut Book, name: &str, words: &str, told: &mut Told) {
    match (name, live_of(words)) {
        ("cancel", Some((account, number))) => put_there(book.cancel(account, number), told),
        ("has", Some((account, number))) => put_there(book.has_order(account, number), told),
        _ => told.give_up(),
    }
}

// Returns whether there is one rate for each order, and none above its batch maximum.
fn are_within(orders: &[Order], rates: &[u32]) -> bool
    ensures count { IsTrue result → length rates.now ≡ length orders.now }
    ensures within { IsTrue result →
        All (λ t. t.traded ≤ (terms_of t.order).room) (trades orders.now rates.now) }
{
    if rates.len() != orders.len() {
        return false;
    }
    for place in 0..orders.len() {
        if rates[place] > orders[place].curve().room {
            return false;
        }
    }
    true
}

fn rates_of(alloc: Global, list: &str) -> Option<Vec<u32>> {
    let mut rates = Vec::new(alloc);
    for rate in list.split(',') {
        rates.push(rate.parse().ok()?).ok()?;
    }
    Some(rates)
}

// Fills the orders, if the rates are within their batch maximums.
fn fill(book: &mut Book, rates: &[u32], told: &mut Told) {
    if are_within(book.orders(), rates) {
        book.fill(rates);
        put("filled", &[], told)
    } else {
        put("refused", &[], told)
    }
}

fn put_filled(alloc: Global, book: &mut Book, list: &str, told: &mut Told) {
    match rates_of(alloc, list) {
        Some(rates) => fill(book, &rates, told),
        None => told.give_up(),
    }
}

fn put_need(book: &Book, place: Place, told: &mut Told) {
    match place.asset {
        Some(asset) => told.put_number(" ", book.units_needed(place.account, asset)),
        None => told.put_number(" ", book.money_needed(place.account)),
    }
}

// Prints what accounts need, of money or of an asset, and how many orders there are.
fn put_needs(book: &Book, places: &str, told: &mut Told) {
    for place in places.split_whitespace() {
        match place_of(place) {
            Some(place) => put_need(book, place, told),
            None => told.give_up(),
        }
    }
    told.put_number(" of ", book.len() as i128)
}

fn put_orders(orders: &[Order], told: &mut Told) {
    for order in orders {
        told.put_number(" ", order.number().into());
    }
}

fn put_call(alloc: Global, book: &mut Book, call: &str, told: &mut Told) {
    put_name(call, told);
    let (name, words) = call.split_once(' ').unwrap_or((call, ""));
    match name {
        "place" => put_placed(alloc, book, words, told),
        "fill" => put_filled(alloc, book, words, told),
        "needs" => put_needs(book, words, told),
        "orders" => put_orders(book.orders(), told),
        _ => put_live(book, name, words, told),
    }
    told.put("\n");
}

fn put_each(alloc: Global, book: &mut Book, calls: &str, told: &mut Told) {
    for call in calls.split(';') {
        put_call(alloc, book, call.trim(), told);
    }
}

// Makes each call on a book, which has no order at first.
pub(crate) fn put_calls(alloc: Global, calls: &str, told: &mut Told) {
    let mut book = Book::new(alloc);
    put_each(alloc, &mut book, calls, told)
}
