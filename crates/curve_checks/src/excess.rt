//! The excess of assets, as prices move.
ghost use Rattle.std.specs.Prelude.{◌≤◌, ◌<◌, ◌^◌, unsigned_abs, IsTrue};

use crate::books::Book;
use crate::telling::{pair_of, put, put_answer, put_pair, put_prices};
use check_lines::Told;
use excess_bounds::{Direction, Excess, Workspace};
use std::alloc::Global;

// The price farthest from 0, in grains.
const FAR: u64 = 1 << 62;

// The price farthest from 0 that is moved, and how far at most, in grains.
const NEAR: u64 = 1 << 61;

fn put_excess(excess: Excess, told: &mut Told) {
    put(excess.low.into(), told);
    put(excess.high.into(), told);
}

// Sets the price of an asset, and prints its excess at that price, before and after it is set, and whether it is settled then.
fn put_change(work: &mut Workspace<'_>, asset: u16, price: i64, told: &mut Told) {
    if usize::from(asset) >= work.prices().len() || price.unsigned_abs() > FAR {
        return told.give_up();
    }
    put_excess(work.excess_at(1, asset, price), told);
    work.set_price(asset, price);
    put_excess(work.excess(asset), told);
    put_answer(work.is_settled(asset), told);
}

fn put_all_changes(work: &mut Workspace<'_>, list: &str, told: &mut Told) {
    put_prices(work.prices(), told);
    for item in list.split(',') {
        told.put("\n ");
        match pair_of(item) {
            Some((asset, price)) => put_change(work, asset, price, told),
            None => told.give_up(),
        }
    }
}

// Prints the prices, and a row for each change of one.
pub(crate) fn put_changes(alloc: Global, list: &str, book: &Book<'_>, told: &mut Told) {
    match Workspace::new(alloc, book.orders, book.prices) {
        Ok(mut work) => put_all_changes(&mut work, list, told),
        Err(_) => told.give_up(),
    }
}

// Prints the excess of an asset at a price, in parts of a unit.
fn put_excess_at(work: &Workspace<'_>, parts: u16, asset: u16, price: i64, told: &mut Told) {
    if parts == 0
        || parts > 256
        || usize::from(asset) >= work.prices().len()
        || price.unsigned_abs() > FAR
    {
        return told.give_up();
    }
    put_excess(work.excess_at(parts, asset, price), told)
}

fn put_told(work: &Workspace<'_>, words: &str, told: &mut Told) {
    let (parts, item) = words.split_once(' ').unwrap_or((words, ""));
    match (parts.parse(), pair_of(item)) {
        (Ok(parts), Some((asset, price))) => put_excess_at(work, parts, asset, price, told),
        _ => told.give_up(),
    }
}

// Prints the excess of an asset at another price, in parts of a unit.
pub(crate) fn put_excess_in(alloc: Global, words: &str, book: &Book<'_>, told: &mut Told) {
    match Workspace::new(alloc, book.orders, book.prices) {
        Ok(work) => put_told(&work, words, told),
        Err(_) => told.give_up(),
    }
}

// Returns whether a price may be moved by at most `reach` grains.
fn may_move(price: i64, reach: u64) -> bool
    ensures some { IsTrue result → 0 < reach }
    ensures far { IsTrue result → reach ≤ 2 ^ 61 }
    ensures near { IsTrue result → unsigned_abs price ≤ 2 ^ 61 }
{
    0 < reach && reach <= NEAR && price.unsigned_abs() <= NEAR
}

// Prints by how many grains the price of an asset moves in a direction.
fn put_amount(
    work: &mut Workspace<'_>,
    parts: u16,
    asset: u16,
    direction: Direction,
    reach: u64,
    told: &mut Told,
) {
    if parts == 0
        || parts > 256
        || usize::from(asset) >= work.prices().len()
        || !may_move(work.prices()[usize::from(asset)], reach)
    {
        return told.give_up();
    }
    put(
        work.move_amount(parts, asset, direction, reach).into(),
        told,
    )
}

// Returns a direction and a reach.
fn way_of(words: &str) -> Option<(Direction, u64)> {
    let (way, reach) = words.split_once(' ')?;
    let reach = reach.parse().ok()?;
    match way {
        "rise" => Some((Direction::Rise, reach)),
        "fall" => Some((Direction::Fall, reach)),
        _ => None,
    }
}

fn put_asked(work: &mut Workspace<'_>, words: &str, told: &mut Told) {
    let (place, words) = words.split_once(' ').unwrap_or((words, ""));
    match (pair_of(place), way_of(words)) {
        (Some((parts, asset)), Some((direction, reach))) => {
            put_amount(work, parts, asset, direction, reach, told)
        }
        _ => told.give_up(),
    }
}

// Prints how far the price of an asset moves.
pub(crate) fn put_move(alloc: Global, words: &str, book: &Book<'_>, told: &mut Told) {
    match Workspace::new(alloc, book.orders, book.prices) {
        Ok(mut work) => put_asked(&mut work, words, told),
        Err(_) => told.give_up(),
    }
}

// Prints the rounding bound and the slope bound of an asset, and the places of the orders that name it, with its weights.
fn put_column(work: &Workspace<'_>, asset: u16, told: &mut Told) {
    if usize::from(asset) >= work.prices().len() {
        return told.give_up();
    }
    put(work.spread(asset).into(), told);
    put(work.steepness(asset).into(), told);
    for cell in work.column(asset) {
        put_pair(cell.place.into(), cell.weight.into(), told);
    }
}

fn put_column_of(work: &Workspace<'_>, asset: &str, told: &mut Told) {
    match asset.parse() {
        Ok(asset) => put_column(work, asset, told),
        Err(_) => told.give_up(),
    }
}

// Prints the bounds and the column of an asset.
pub(crate) fn put_asset(alloc: Global, asset: &str, book: &Book<'_>, told: &mut Told) {
    match Workspace::new(alloc, book.orders, book.prices) {
        Ok(work) => put_column_of(&work, asset, told),
        Err(_) => told.give_up(),
    }
}
