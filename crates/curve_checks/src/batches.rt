//! Batches from orders and start prices to their outcomes.
use crate::books::{Book, are_starts};
use crate::telling::{pair_of, put, put_moves, put_prices, put_rates, put_word};
use batch_engine::clear;
use batch_outcome::{Cleared, Outcome, Skipped};
use check_lines::Told;
use dual_value::dual_floor;
use flow_orders::Search;
use std::alloc::Global;

// Prints what the book gains at most at the prices.
pub(crate) fn put_dual(book: &Book<'_>, told: &mut Told) {
    put(dual_floor(book.orders, book.prices), told)
}

// Prints prices, rates, imbalances and the gap.
pub(crate) fn put_cleared(cleared: &Cleared, told: &mut Told) {
    put_word("cleared", told);
    put_prices(cleared.prices.as_slice(), told);
    put_word("rates", told);
    put_rates(cleared.rates.as_slice(), told);
    put_word("imbalances", told);
    put_prices(cleared.residuals.as_slice(), told);
    put_word("gap", told);
    put(cleared.gap, told)
}

// Prints the moves, and the dual values before and after them.
fn put_skipped(skipped: &Skipped, told: &mut Told) {
    put_word("skipped", told);
    put(skipped.start_dual, told);
    put(skipped.end_dual, told);
    put_word("moves", told);
    put_moves(skipped.trace.as_slice(), told)
}

fn put_outcome(outcome: &Outcome, told: &mut Told) {
    match outcome {
        Outcome::Cleared(cleared) => put_cleared(cleared, told),
        Outcome::Skipped(skipped) => put_skipped(skipped, told),
    }
}

// Returns how prices are searched for, and by how many moves.
fn search_of(words: &str) -> Option<(Search, u32)> {
    let (way, words) = words.split_once(' ')?;
    let (parts, budget) = pair_of(words)?;
    let joint = match way {
        "joint" => true,
        "walks" => false,
        _ => return None,
    };
    Some((Search { parts, joint }, budget))
}

fn put_held(alloc: Global, search: Search, budget: u32, book: &Book<'_>, told: &mut Told) {
    if search.parts == 0
        || search.parts > 256
        || budget == 0
        || budget > 65_536
        || !are_starts(book.prices)
    {
        return told.give_up();
    }
    match clear(alloc, search, book.orders, book.prices, budget) {
        Ok(outcome) => put_outcome(&outcome, told),
        Err(_) => told.give_up(),
    }
}

// Prints the outcome of a batch.
pub(crate) fn put_batch(alloc: Global, words: &str, book: &Book<'_>, told: &mut Told) {
    match search_of(words) {
        Some((search, budget)) => put_held(alloc, search, budget, book, told),
        None => told.give_up(),
    }
}
