//! Weight vectors, their weights and their prices.
ghost use Rattle.std.specs.Prelude.{All, IsTrue};
ghost use Rattle.weight_rows.specs.Rows.{IsPrice, IsPricedBy};

use crate::telling::{put, put_item};
use check_lines::Told;
use std::alloc::Global;
use weight_rows::{Entry, EntryList, RowFault, WeightRow, place_fault, row_fault};

// The price farthest from 0.
const FAR: u64 = 1 << 62;

fn entry_of(item: &str) -> Option<Entry> {
    let (asset, weight) = item.split_once('/')?;
    Some(Entry {
        asset: asset.parse().ok()?,
        weight: weight.parse().ok()?,
    })
}

// Returns the legs of a list.
fn entries_of(alloc: Global, list: &str) -> Option<EntryList> {
    let mut entries = Vec::new(alloc);
    if list != "-" {
        for item in list.split(',') {
            entries.push(entry_of(item)?).ok()?;
        }
    }
    Some(EntryList::new(entries))
}

pub(crate) fn put_row_fault(fault: Option<RowFault>, told: &mut Told) {
    match fault {
        None => put("lawful", &[], told),
        Some(RowFault::Empty) => put("empty", &[], told),
        Some(RowFault::TooMany) => put("too_many", &[], told),
        Some(RowFault::Unordered(place)) => put("unordered", &[place.into()], told),
        Some(RowFault::BadWeight(place)) => put("bad_weight", &[place.into()], told),
    }
}

fn put_entries(entries: Vec<Entry>, told: &mut Told) {
    for entry in entries {
        put_item(entry.asset.into(), entry.weight.into(), told);
    }
}

// Prints why legs are no weight vector, and then each of them.
pub(crate) fn put_legs(alloc: Global, list: &str, told: &mut Told) {
    match entries_of(alloc, list) {
        Some(entries) => {
            put_row_fault(row_fault(entries.as_slice()), told);
            put_entries(entries.into_vec(), told)
        }
        None => told.give_up(),
    }
}

// Returns the fault of a leg at a place, after one of this asset, or of none if it is `-`.
fn fault_at(words: &str) -> Option<Option<RowFault>> {
    let (place, words) = words.split_once(' ')?;
    let (before, leg) = words.split_once(' ')?;
    let before = if before == "-" {
        None
    } else {
        Some(before.parse().ok()?)
    };
    Some(place_fault(place.parse().ok()?, before, entry_of(leg)?))
}

pub(crate) fn put_leg(words: &str, told: &mut Told) {
    match fault_at(words) {
        Some(fault) => put_row_fault(fault, told),
        None => told.give_up(),
    }
}

// Returns the weight vector of a list of legs.
fn row_of(alloc: Global, list: &str) -> Option<WeightRow> {
    let entries = entries_of(alloc, list)?;
    if row_fault(entries.as_slice()).is_some() {
        return None;
    }
    Some(WeightRow::new(entries))
}

fn prices_of(alloc: Global, list: &str) -> Option<Vec<i64>> {
    let mut prices = Vec::new(alloc);
    for item in list.split(',') {
        prices.push(item.parse().ok()?).ok()?;
    }
    Some(prices)
}

// Returns whether these are prices of all assets that the weight vector names.
fn may_price(row: &WeightRow, prices: &[i64]) -> bool
    ensures priced { IsTrue result → IsPricedBy row.now prices.now }
    ensures range { IsTrue result → All IsPrice prices.now }
{
    row.entries()
        .iter()
        .all(|entry| usize::from(entry.asset) < prices.len())
        && prices.iter().all(|price| price.unsigned_abs() <= FAR)
}

// Prints what a portfolio costs, and its weights in the assets from 0 on, and in the one after these.
fn put_price_of(row: &WeightRow, prices: &[i64], told: &mut Told) {
    if !may_price(row, prices) {
        return told.give_up();
    }
    put("price", &[row.price(prices)], told);
    put(
        if row.is_single() { "single" } else { "several" },
        &[],
        told,
    );
    let past = prices.len().min(65_535) as u16;
    for asset in 0..past {
        told.put_number(" ", row.weight_of(asset).into());
    }
    told.put_number(" ", row.weight_of(past).into());
}

fn put_changed(row: &WeightRow, prices: &[i64], asset: u16, price: i64, told: &mut Told) {
    if !may_price(row, prices) || usize::from(asset) >= prices.len() || price.unsigned_abs() > FAR {
        return told.give_up();
    }
    put("price", &[row.price_with(prices, asset, price)], told);
}

pub(crate) fn put_price(alloc: Global, words: &str, told: &mut Told) {
    let (legs, prices) = words.split_once(' ').unwrap_or((words, ""));
    match (row_of(alloc, legs), prices_of(alloc, prices)) {
        (Some(row), Some(prices)) => put_price_of(&row, &prices, told),
        _ => told.give_up(),
    }
}

// Returns the asset and the price of words.
fn change_of(words: &str) -> Option<(u16, i64)> {
    let (asset, price) = words.split_once('/')?;
    Some((asset.parse().ok()?, price.parse().ok()?))
}

// Prints what a portfolio costs if one asset has another price.
pub(crate) fn put_price_with(alloc: Global, words: &str, told: &mut Told) {
    let (change, words) = words.split_once(' ').unwrap_or((words, ""));
    let (legs, prices) = words.split_once(' ').unwrap_or((words, ""));
    match (
        change_of(change),
        row_of(alloc, legs),
        prices_of(alloc, prices),
    ) {
        (Some((asset, price)), Some(row), Some(prices)) => {
            put_changed(&row, &prices, asset, price, told)
        }
        _ => told.give_up(),
    }
}
