//! Benchmarks of what a batch is made of. Each argument is a task, a word and its numbers, and has a line of the output:
//!
//! | task | what is done | printed |
//! |---|---|---|
//! | `cut PASSES`, `uncut PASSES` | each of 16,384 curves is asked for both roundings in each pass, at a price that moves from ask to ask; most prices lie where the demand is cut, to nothing or to the batch maximum, or where it isn't | a checksum of the answers |
//! | `check PASSES` | the check of a published clearing of 16,384 orders with 16 legs each | how often it was admissible |
//! | `clear PASSES` | a batch of these orders, which clears where it starts | how often it cleared |
//! | `floors PASSES`, `chosen PASSES` | all demands of these orders rounded down, or the chosen rates | how many units all orders trade together |
//! | `search ASSETS ORDERS MOVES PARTS` | prices are searched for so many orders of 1 to 3 assets each, from prices of 0, by so many moves at most, which end by so many parts of a unit, 1 to 256 | how many moves were made, whether all assets were settled then, and a sum of the prices |
//!
//! `tools/dev/benchmark` times it.
#![tactic(auto)]

mod asks;
mod book;
mod clearings;
mod curves;
mod drawn;
mod draws;
mod published;
mod rates;
mod searches;

use asks::Kind;
use rates::Rounding;
use std::alloc::Global;
use std::process::ExitCode;
use std::{env, io};

// Appends the result of a task over the fixed books. `None` if the word is none, or memory ran out.
fn put_pass(alloc: Global, word: &str, passes: u32, row: &mut String) -> Option<()> {
    let kind = match word {
        "cut" => Kind::Cut,
        "uncut" => Kind::Uncut,
        _ => return put_clearing(alloc, word, passes, row),
    };
    let curves = curves::fixed(alloc).ok()?;
    write!(row, "{}", asks::checksum(curves.as_slice(), kind, passes)).ok()
}

// Appends the result of a task over the fixed orders. `None` if the word is none, or memory ran out.
fn put_clearing(alloc: Global, word: &str, passes: u32, row: &mut String) -> Option<()> {
    let orders = book::fixed(alloc).ok()?;
    let found = match word {
        "check" => u64::from(clearings::checks(alloc, orders.as_slice(), passes)?),
        "clear" => u64::from(clearings::clearings(alloc, orders.as_slice(), passes)?),
        "floors" => rates::traded(alloc, orders.as_slice(), Rounding::Floors, passes)?,
        "chosen" => rates::traded(alloc, orders.as_slice(), Rounding::Chosen, passes)?,
        _ => return None,
    };
    write!(row, "{found}").ok()
}

// Appends the result of a search. `None` if memory ran out.
fn put_search(
    alloc: Global,
    assets: u16,
    orders: u32,
    moves: u32,
    parts: u16,
    row: &mut String,
) -> Option<()> {
    let orders = drawn::drawn(alloc, assets, orders).ok()?;
    let (made, is_settled, sum) = searches::found(alloc, orders.as_slice(), moves, parts).ok()?;
    write!(row, "{made} {is_settled} {sum}").ok()
}

// Appends the result of a task. `None` if it isn't one, or memory ran out.
fn put_task(alloc: Global, task: &str, row: &mut String) -> Option<()> {
    let mut words = task.split_whitespace();
    let word = words.next()?;
    let first = words.next()?;
    if word != "search" {
        return put_pass(alloc, word, first.parse().ok()?, row);
    }
    let orders = words.next()?.parse().ok()?;
    let moves = words.next()?.parse().ok()?;
    let parts = words.next()?.parse().ok()?;
    put_search(alloc, first.parse().ok()?, orders, moves, parts, row)
}

fn run(rt: &HostRuntime) -> io::Result<ExitCode> {
    for task in env::args(rt)?.skip(1) {
        let mut row = String::new(rt.alloc());
        if put_task(rt.alloc(), task.as_str(), &mut row).is_none() {
            eprintln!(rt;
                "usage: batch_benchmark 'cut|uncut|check|clear|floors|chosen PASSES' 'search ASSETS ORDERS MOVES PARTS' .."
            )?;
            return Ok(ExitCode::FAILURE);
        }
        println!(rt; "{row}")?;
    }
    Ok(ExitCode::SUCCESS)
}

fn main(rt: HostRuntime) -> ExitCode {
    run(&rt).unwrap_or(ExitCode::FAILURE)
}
