//! Complete calls of the exchange over a source and sinks in memory: one call on each line of standard input, and its result on standard
//! output. One more case costs no proof.
//!
//! A line is a remark, a name for bytes, or a case, as `check_lines` says; remarks are passed on as they are. A case is
//! `WORDS OPTIONS: PIECES`: the words of the command line, with `''` for an empty one, and the bytes of the input. An option
//! is a name, `=` and a number:
//!
//! | option | what it says |
//! |---|---|
//! | `limit=N` | the most bytes of input that are considered; without it `flow` is called, and with it `flow_limited` |
//! | `piece=N` | a read gives at most so many bytes; else 65,536 |
//! | `read=N`, `out=N`, `notes=N` | the read, the write to the output or the write to standard error that fails, counted from 1 |
//! | `reads=N`, `outs=N` | the call is made once, and then once more for each of the first N reads, and of the first N writes to the output, which fails in it. Of each call is printed how it ends and how many bytes it wrote, as `other bytes` if these are no prefix of what the first call wrote, and not the bytes themselves |
//! | `rows=N` | of the records in the output only the last N are printed; else 64 |
//! | `left=1` | the number of bytes left in the source is printed |
//!
//! A write that fails writes the first half of its bytes. So
//!
//! ```text
//! let account = 02 00000000
//! run limit=40 rows=2: 'FLOWCMD1' 3x$account
//! ```
//!
//! runs a command file of three accounts. Printed are words and options, the number that the program would exit with, how many bytes were
//! written, for a faulty command line how many are left in the source, and the line on standard error, if there is one. Then come the
//! rows of the output: lines if it is a text, and else its magic and its records.
//!
//! ```text
//! run limit=40 rows=2: 0, 50 bytes
//!   FLOWJNL1
//!   02 00000000
//!   82 00000004 00000003
//! ```
//!
//! The case `statuses:` is no call: it prints the number and the line of each way in which the program can end, with 1 for
//! what is counted there.
//!
//! What is in `stdout` comes from the formats of the files and the rules of the market, by hand; the numbers of batches
//! are computed outside.
#![tactic(auto)]

mod asked;
mod calling;
mod statuses;
mod telling;

use check_lines::{Line, Names};
use std::alloc::Global;
use std::io;

// Returns the result of a case, or `None` if it is faulty or memory ran out.
fn told_of(alloc: Global, words: &str, input: Vec<u8>) -> Option<String> {
    let mut rows = format!(in alloc; "{words}:").ok()?;
    match words {
        "statuses" => statuses::put_all(alloc, &mut rows)?,
        _ => calling::put_call(alloc, words, input, &mut rows)?,
    }
    Some(rows)
}

// Returns the result of a line, or `None` if it is faulty or memory ran out.
fn told(alloc: Global, names: &mut Names, line: &str) -> Option<String> {
    match names.read(line)? {
        Line::Remark => format!(in alloc; "{line}\n").ok(),
        Line::Named => Some(String::new(alloc)),
        Line::Case(words, input) => told_of(alloc, words, input),
    }
}

fn main(rt: HostRuntime) -> io::Result<()> {
    let mut names = Names::new(rt.alloc());
    for line in rt.lines(rt.alloc()) {
        match told(rt.alloc(), &mut names, line?.as_str()) {
            Some(rows) => print!(rt; "{rows}")?,
            None => println!(rt; "not done")?,
        }
    }
    Ok(())
}
