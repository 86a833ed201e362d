//! Answers that are made of plain values.
use crate::answers::{put_members, table_of};
use answer_text::{FillCost, put_exchange, put_fills, put_market};
use check_lines::Told;
use pair_text::Text;
use std::alloc::Global;
use wire_records::Version;

// More numbers than a case has.
const MOST_NUMBERS: usize = 1000;

// Returns the number before the first blank, and what follows it.
pub(crate) fn number_first(words: &str) -> Option<(i128, &str)> {
    let (number, rest) = words.split_once(' ').unwrap_or((words, ""));
    Some((number.parse().ok()?, rest))
}

// Returns the number of batches before the first blank, and what follows it.
fn batch_first(words: &str) -> Option<(u32, &str)> {
    let (number, rest) = words.split_once(' ').unwrap_or((words, ""));
    Some((number.parse().ok()?, rest))
}

// Returns the numbers of a list.
fn numbers_of(alloc: Global, list: &str) -> Option<Vec<i64>> {
    let mut numbers = Vec::new(alloc);
    if list == "-" {
        return Some(numbers);
    }
    for number in list.split(',') {
        numbers.push(number.parse().ok()?).ok()?;
    }
    Some(numbers)
}

// Returns the rate of an order that a word states.
fn fill_of(word: &str) -> Option<FillCost> {
    let (order, rest) = word.split_once('/')?;
    let (rate, cost) = rest.split_once('/')?;
    Some(FillCost {
        order: order.parse().ok()?,
        rate: rate.parse().ok()?,
        cost: cost.parse().ok()?,
    })
}

fn fills_of(alloc: Global, list: &str) -> Option<Vec<FillCost>> {
    let mut fills = Vec::new(alloc);
    if list == "-" {
        return Some(fills);
    }
    for word in list.split(',') {
        fills.push(fill_of(word)?).ok()?;
    }
    Some(fills)
}

fn put_rates(alloc: Global, batch: u32, fills: &[FillCost], told: &mut Told) {
    let mut bytes = Vec::new(alloc);
    let mut text = Text::following(&mut bytes);
    let put = put_fills(batch, fills, &mut text);
    put_members(text, put, told);
}

pub(crate) fn put_account_fills(alloc: Global, words: &str, told: &mut Told) {
    told.put("\n");
    match batch_first(words) {
        Some((batch, list)) => match fills_of(alloc, list) {
            Some(fills) => put_rates(alloc, batch, &fills, told),
            None => told.give_up(),
        },
        None => told.give_up(),
    }
}

// Returns the version of a number.
pub(crate) fn version_of(number: i128) -> Option<Version> {
    match number {
        1 => Some(Version::One),
        2 => Some(Version::Two),
        3 => Some(Version::Three),
        4 => Some(Version::Four),
        _ => None,
    }
}

fn put_prices(
    alloc: Global,
    version: Version,
    batches: u32,
    prices: &[i64],
    names: &str,
    told: &mut Told,
) {
    if prices.len() > MOST_NUMBERS {
        return told.give_up();
    }
    let tickers = table_of(alloc, names, told);
    let mut bytes = Vec::new(alloc);
    let mut text = Text::following(&mut bytes);
    let put = put_market(&tickers, version, batches, prices, &mut text);
    put_members(text, put, told);
}

// Prints what a market of this version is, by the words that follow it.
fn put_version(alloc: Global, version: Version, words: &str, told: &mut Told) {
    match batch_first(words) {
        Some((batches, rest)) => {
            let (list, names) = rest.split_once(' ').unwrap_or((rest, ""));
            match numbers_of(alloc, list) {
                Some(prices) => put_prices(alloc, version, batches, &prices, names, told),
                None => told.give_up(),
            }
        }
        None => told.give_up(),
    }
}

pub(crate) fn put_market_of(alloc: Global, words: &str, told: &mut Told) {
    told.put("\n");
    match number_first(words) {
        Some((number, rest)) => match version_of(number) {
            Some(version) => put_version(alloc, version, rest, told),
            None => told.give_up(),
        },
        None => told.give_up(),
    }
}

fn put_held(alloc: Global, money: i128, units: &[i64], names: &str, told: &mut Told) {
    if units.len() > MOST_NUMBERS {
        return told.give_up();
    }
    let tickers = table_of(alloc, names, told);
    let mut bytes = Vec::new(alloc);
    let mut text = Text::following(&mut bytes);
    let put = put_exchange(&tickers, money, units, &mut text);
    put_members(text, put, told);
}

pub(crate) fn put_exchange_of(alloc: Global, words: &str, told: &mut Told) {
    told.put("\n");
    match number_first(words) {
        Some((money, rest)) => {
            let (list, names) = rest.split_once(' ').unwrap_or((rest, ""));
            match numbers_of(alloc, list) {
                Some(units) => put_held(alloc, money, &units, names, told),
                None => told.give_up(),
            }
        }
        None => told.give_up(),
    }
}
