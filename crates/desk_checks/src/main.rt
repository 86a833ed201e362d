//! Calls over lines with a sender, and over the answers to them: one call on each line of standard input, and its result on standard
//! output. One more case costs no proof.
//!
//! A line is a remark, a name for bytes, or a case, as `check_lines` says; remarks are passed on as they are. A case is a call, what it is
//! called with, and bytes. What is printed begins with the words before the colon.
//!
//! | case | calls | printed |
//! |---|---|---|
//! | `envelope: LINE` | `read_envelope` | `from NUMBER`, `id NUMBER` if it is stated, and a row with the text; or `none` |
//! | `question: TEXT` | `read_question` | `market`, `own`, `account NUMBER` or `exchange`; or `none` |
//! | `echo TICKERS: TEXT` | `ask_line` in the highest version, with these tickers, `put_command` of each command | a row for each: its members; or `none` |
//! | `reply TICKERS: RECORD` | `put_reply` of what the record answers, with these tickers | a row: its members, if there are any; or `none` |
//! | `batch TICKERS: RECORD` | `put_cleared_batch` or `put_skipped_batch` of what the record answers | a row: its members; or `none` |
//! | `fills BATCH FILLS:` | `put_fills` | a row: its members |
//! | `market VERSION BATCHES PRICES TICKERS:` | `put_market` | a row: its members |
//! | `exchange MONEY UNITS TICKERS:` | `put_exchange` | a row: its members |
//! | `account VERSION NUMBER: RECORDS` | `put_account`, in the market of a version that these commands make | a row: its members; or `none` |
//! | `head TO NUMBER LINE ENTRY:` | `put_head`, `put_end` | a row; LINE and ENTRY may be `-` |
//!
//! TO is `operator`, `all` or the number of an account. PRICES and UNITS are numbers with commas, and FILLS such a list of orders, each as
//! `ORDER/RATE/COST`; an empty list is `-`.
#![tactic(auto)]

mod accounts;
mod answers;
mod lines;
mod values;

use check_lines::{Line, Names, Told};
use std::alloc::Global;
use std::io;

// Prints the result of a call.
fn put_case(alloc: Global, words: (&str, &str), bytes: &[u8], told: &mut Told) {
    match words.0 {
        "envelope" => lines::put_envelope(alloc, bytes, told),
        "question" => lines::put_question(alloc, bytes, told),
        "echo" => answers::put_echo(alloc, words.1, bytes, told),
        "reply" => answers::put_answer(alloc, words.1, bytes, told),
        "batch" => answers::put_outcome(alloc, words.1, bytes, told),
        "fills" => values::put_account_fills(alloc, words.1, told),
        "market" => values::put_market_of(alloc, words.1, told),
        "exchange" => values::put_exchange_of(alloc, words.1, told),
        "account" => accounts::put_account_of(alloc, words.1, bytes, told),
        "head" => answers::put_heading(alloc, words.1, told),
        _ => told.give_up(),
    }
}

// Prints the result of a line.
fn put_line(alloc: Global, names: &mut Names, line: &str, told: &mut Told) {
    match names.read(line) {
        Some(Line::Remark) => {
            told.put(line);
            told.put("\n");
        }
        Some(Line::Named) => (),
        Some(Line::Case(words, bytes)) => {
            told.put(words);
            told.put(":");
            let words = words.split_once(' ').unwrap_or((words, ""));
            put_case(alloc, words, &bytes, told);
        }
        None => told.give_up(),
    }
}

fn main(rt: HostRuntime) -> io::Result<()> {
    let mut names = Names::new(rt.alloc());
    for line in rt.lines(rt.alloc()) {
        let mut told = Told::new(rt.alloc());
        put_line(rt.alloc(), &mut names, line?.as_str(), &mut told);
        match told.rows() {
            Some(rows) => print!(rt; "{rows}")?,
            None => println!(rt; "not done")?,
        }
    }
    Ok(())
}
