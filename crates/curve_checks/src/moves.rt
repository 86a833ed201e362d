//! Moves of prices, one asset at a time: single moves, searches, and traces that are followed again.
ghost use Rattle.std.specs.Prelude.{◌≡◌, ◌^◌, ◌<◌, ◌≤◌, ◌≤ℤ◌, ◌+ℤ◌, ◌-ℤ◌, ◌↔◌, pos, neg_ℤ, true, [], length, vec_capacity, IsTrue, All};
ghost use Rattle.weight_rows.specs.Rows.{price_of};
ghost use Rattle.demand_curve.specs.Demand.{IsWithin};
ghost use Rattle.flow_orders.specs.Outcomes.{are_single};

use crate::books::{Book, are_starts};
use crate::telling::{add_numbers, put, put_moves, put_prices, put_word};
use check_lines::Told;
use coordinate_search::{Found, Retraced, retrace, search, settle_single, step};
use excess_bounds::Workspace;
use flow_orders::Order;
use std::alloc::Global;

// The most moves of a search.
const MOST: u32 = 65_536;

// Returns whether each order names one asset.
#[tactic(auto, using(coordinate_search::proofs::Settling::single_all))]
fn are_all_single(orders: &[Order]) -> bool
    ensures { IsTrue result → are_single orders.now ≡ true }
{
    orders.iter().all(|order| order.row().entries().len() == 1)
}

// Settles a book of orders of one asset each.
fn settle(orders: &[Order], parts: u16, work: &mut Workspace<'_>, told: &mut Told)
    requires some_parts { 1 ≤ parts }
    requires few_parts { parts ≤ 256 }
    requires start { All (IsWithin (2 ^ 60)) work.old.prices }
    requires same { work.old.orders ≡ orders.now }
{
    if !are_all_single(orders) {
        return told.give_up();
    }
    settle_single(work, parts)
}

// Returns whether a price is within 2^61 grains of 0.
fn is_near(price: i64) -> bool
    ensures { IsTrue result ↔ ((neg_ℤ (pos (2 ^ 61)) ≤ℤ price) × (price ≤ℤ pos (2 ^ 61))) }
{
    -(1 << 61) <= price && price <= 1 << 61
}

// Returns whether the price of the first asset may be moved by at most `reach`.
fn may_move(work: &Workspace<'_>, reach: i64) -> bool
    ensures asset { IsTrue result → 0 < length work.now.prices }
    ensures some { IsTrue result → pos 1 ≤ℤ reach }
    ensures far { IsTrue result → reach ≤ℤ pos (2 ^ 61) }
    ensures room_below { IsTrue result → neg_ℤ (pos (2 ^ 62)) ≤ℤ (price_of work.now.prices 0 -ℤ reach) }
    ensures room_above { IsTrue result → (price_of work.now.prices 0 +ℤ reach) ≤ℤ pos (2 ^ 62) }
{
    if work.prices().is_empty() || reach < 1 || reach > 1 << 61 {
        return false;
    }
    is_near(work.prices()[0])
}

// Moves the price of the first asset by at most `reach`.
fn move_first(parts: u16, reach: i64, work: &mut Workspace<'_>, told: &mut Told)
    requires some_parts { 1 ≤ parts }
    requires few_parts { parts ≤ 256 }
{
    if !may_move(work, reach) || work.is_settled(0) {
        return told.give_up();
    }
    step(work, parts, 0, reach)
}

fn put_step(parts: u16, reach: &str, work: &mut Workspace<'_>, told: &mut Told)
    requires some_parts { 1 ≤ parts }
    requires few_parts { parts ≤ 256 }
{
    match reach.parse() {
        Ok(reach) => move_first(parts, reach, work, told),
        Err(_) => told.give_up(),
    }
}

// Searches from the prices, and prints what is found, and the moves.
fn put_search(
    parts: u16,
    budget: u32,
    trace: &mut Vec<u8>,
    work: &mut Workspace<'_>,
    told: &mut Told,
)
    requires some_parts { 1 ≤ parts }
    requires few_parts { parts ≤ 256 }
    requires start { All (IsWithin (2 ^ 60)) work.old.prices }
    requires empty { trace.old.items ≡ [] }
    requires room { budget ≤ vec_capacity trace.old }
    requires most { budget ≤ 65536 }
{
    match search(work, parts, budget, trace) {
        Found::Settled => put_word("settled", told),
        Found::Spent => put_word("spent", told),
    }
    put_moves(trace, told)
}

// Searches by at most so many moves.
fn put_search_of(alloc: Global, parts: u16, budget: u32, work: &mut Workspace<'_>, told: &mut Told)
    requires some_parts { 1 ≤ parts }
    requires few_parts { parts ≤ 256 }
    requires start { All (IsWithin (2 ^ 60)) work.old.prices }
{
    if budget > MOST {
        return told.give_up();
    }
    match Vec::with_capacity(alloc, budget as usize) {
        Ok(mut trace) => put_search(parts, budget, &mut trace, work, told),
        Err(_) => told.give_up(),
    }
}

fn put_found(alloc: Global, parts: u16, budget: &str, work: &mut Workspace<'_>, told: &mut Told)
    requires some_parts { 1 ≤ parts }
    requires few_parts { parts ≤ 256 }
    requires start { All (IsWithin (2 ^ 60)) work.old.prices }
{
    match budget.parse() {
        Ok(budget) => put_search_of(alloc, parts, budget, work, told),
        Err(_) => told.give_up(),
    }
}

// Makes moves again, and prints whether they are valid.
fn put_made(parts: u16, trace: &[u8], work: &mut Workspace<'_>, told: &mut Told)
    requires some_parts { 1 ≤ parts }
    requires few_parts { parts ≤ 256 }
    requires start { All (IsWithin (2 ^ 60)) work.old.prices }
{
    if trace.len() > MOST as usize {
        return told.give_up();
    }
    match retrace(work, parts, trace) {
        Retraced::Legal => put_word("legal", told),
        Retraced::Illegal(place) => {
            put_word("illegal", told);
            put(place.into(), told)
        }
    }
}

// Makes the moves of a list again.
fn put_retraced(alloc: Global, parts: u16, list: &str, work: &mut Workspace<'_>, told: &mut Told)
    requires some_parts { 1 ≤ parts }
    requires few_parts { parts ≤ 256 }
    requires start { All (IsWithin (2 ^ 60)) work.old.prices }
{
    let mut trace = Vec::new(alloc);
    add_numbers(list, &mut trace, told);
    put_made(parts, &trace, work, told)
}

// Makes a call, and prints at which prices it ends.
fn put_call(
    alloc: Global,
    words: (&str, &str),
    parts: u16,
    orders: &[Order],
    work: &mut Workspace<'_>,
    told: &mut Told,
)
    requires some_parts { 1 ≤ parts }
    requires few_parts { parts ≤ 256 }
    requires start { All (IsWithin (2 ^ 60)) work.old.prices }
    requires same { work.old.orders ≡ orders.now }
{
    let (call, with) = words;
    match call {
        "settle" => settle(orders, parts, work, told),
        "step" => put_step(parts, with, work, told),
        "search" => put_found(alloc, parts, with, work, told),
        _ => put_retraced(alloc, parts, with, work, told),
    }
    put_word("at", told);
    put_prices(work.prices(), told)
}

fn put_over(alloc: Global, words: (&str, &str), parts: u16, book: &Book<'_>, told: &mut Told) {
    if parts == 0 || parts > 256 || !are_starts(book.prices) {
        return told.give_up();
    }
    match Workspace::new(alloc, book.orders, book.prices) {
        Ok(mut work) => put_call(alloc, words, parts, book.orders, &mut work, told),
        Err(_) => told.give_up(),
    }
}

// Makes a call that moves prices, over the parts of a unit and what else it is called with.
pub(crate) fn put_moved(alloc: Global, call: &str, words: &str, book: &Book<'_>, told: &mut Told) {
    let (parts, with) = words.split_once(' ').unwrap_or((words, ""));
    match parts.parse() {
        Ok(parts) => put_over(alloc, (call, with), parts, book, told),
        Err(_) => told.give_up(),
    }
}
