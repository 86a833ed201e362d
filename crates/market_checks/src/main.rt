//! Calls of the market and of the crates between it and the program: one call on each line of standard input, and its result on
//! standard output. One more case costs no proof.
//!
//! A line is a remark, a name for bytes, or a case, as `check_lines` says; remarks are passed on as they are. A case is a call and its
//! bytes; each begins with the empty market:
//!
//! | case | what is done, and what is printed |
//! |---|---|
//! | `market: RECORDS` | each record is read and served: the reply that the market says it will get, and the one that it gets; or why it is unread, or whether its batch is allowed, which isn't held. Then the market |
//! | `batches N N ..:` | batches are skipped until so many were held, and each time budgets of 0, 1, 65,536 and 65,537 are asked for: the code of the refusal, or `allowed` |
//! | `serve: RECORDS` | a session serves each record: its entry. Then the market |
//! | `audit: PAIRS` | each entry is judged: `legal` or `illegal`. Then the market |
//! | `explain: PAIRS` | each entry that isn't valid: its number, and why |
//! | `report: PAIRS` | each entry is judged and, if it is valid, reported: the text |
//! | `ending: JOURNAL` | the entries after the magic are audited: how the reading ends. Then the market. With `ending more:` there are more bytes after these |
//! | `replay: JOURNAL` | the market, or the text of the fault |
//! | `resume: JOURNAL` | the journal is cut after each of its entries in turn, the magic alone first, and replayed, and a session over its market serves the commands of the entries after the cut: how many bytes the new entries have, and whether they are as they were |
//! | `snapshot: BYTES` | the bytes are read as a checkpoint: `not sound`, or how many of them it has, and whether its market is written so again. Then the market |
//! | `checkpoint: JOURNAL` | the journal is replayed and its market written, and these bytes are read, as by `snapshot` |
//! | `turned N: BYTES` | the bits of N are flipped in each of the bytes in turn: how many of the results are checkpoints, of markets that are written so again, and how many aren't |
//! | `faults N:` | the texts of all faults of a replay, with this number |
//!
//! So
//!
//! ```text
//! let account = 02 00000000
//! market: $account 09 00000004 00000000
//! ```
//!
//! opens an account and asks for a batch with a budget of 0. What is printed of it begins with
//!
//! ```text
//! market:
//!   account 1, account 1
//!   batch: refused 18
//! ```
//!
//! Of a market are printed, one row each: the tickers; the prices at which a batch would start, in grains; what each
//! account and then the exchange hold, the money in grains and after the comma the units of each asset; the numbers of the
//! live orders; the number that the next order gets, and how many batches were held.
//!
//! What is in `stdout` comes from the formats of the files and the rules of the market, by hand; the numbers of batches
//! are computed outside.
#![tactic(auto)]

mod batches;
mod checkpoints;
mod commands;
mod explaining;
mod journals;
mod judging;
mod resuming;
mod serving;
mod state;

use check_lines::{Line, Names, Told};
use std::alloc::Global;
use std::io;

// No case places as many orders.
const MANY: u64 = 1 << 32;

fn put_faults(alloc: Global, number: &str, told: &mut Told) {
    match number.parse() {
        Ok(number) => journals::put_faults(alloc, number, told),
        Err(_) => told.give_up(),
    }
}

fn put_turned(alloc: Global, bits: &str, bytes: &mut [u8], told: &mut Told) {
    match bits.parse() {
        Ok(bits) => checkpoints::put_turned(alloc, bits, bytes, told),
        Err(_) => told.give_up(),
    }
}

// Appends the result of a case.
fn put_case(alloc: Global, words: &str, bytes: &mut [u8], told: &mut Told) {
    let (call, with) = words.split_once(' ').unwrap_or((words, ""));
    match call {
        "market" => commands::put_served(alloc, bytes, told),
        "batches" => batches::put_allowed(alloc, with, told),
        "serve" => serving::put_pairs(alloc, bytes, told),
        "audit" => judging::put_judged(alloc, bytes, told),
        "explain" => explaining::put_explained(alloc, bytes, told),
        "report" => judging::put_report(alloc, bytes, told),
        "ending" => journals::put_ended(alloc, bytes, with == "more", told),
        "replay" => journals::put_replayed(alloc, bytes, told),
        "resume" => resuming::put_resumed(alloc, bytes, told),
        "checkpoint" => checkpoints::put_kept(alloc, bytes, told),
        "snapshot" => checkpoints::put_read(alloc, bytes, told),
        "turned" => put_turned(alloc, with, bytes, told),
        "faults" => put_faults(alloc, with, told),
        _ => told.give_up(),
    }
}

// Appends the result of a line.
fn put_line(alloc: Global, names: &mut Names, line: &str, told: &mut Told) {
    match names.read(line) {
        Some(Line::Remark) => {
            told.put(line);
            told.put("\n");
        }
        Some(Line::Named) => (),
        Some(Line::Case(words, mut bytes)) => {
            told.put(words);
            told.put(":\n");
            put_case(alloc, words, &mut bytes, told);
        }
        None => told.give_up(),
    }
}

fn main(rt: HostRuntime) -> io::Result<()> {
    let mut names = Names::new(rt.alloc());
    for line in rt.lines(rt.alloc()) {
        let mut told = Told::new(rt.alloc());
        put_line(rt.alloc(), &mut names, line?.as_str(), &mut told);
        match told.rows() {
            Some(rows) => print!(rt; "{rows}")?,
            None => println!(rt; "not done")?,
        }
    }
    Ok(())
}
