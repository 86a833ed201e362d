//! Complete calls of the exchange with a kept journal, over a source, sinks and a disk in memory: one call on each line of standard
//! input, and its result on standard output. One more case costs no proof.
//!
//! A line is a remark, a name for bytes, or a case, as `check_lines` says; remarks are passed on as they are. A case is
//! `OPTIONS: PIECES`: the bytes that the disk holds, and after them those of the source. An option is a name, `=` and a number:
//!
//! | option | what it says |
//! |---|---|
//! | `lines=1` | the source has lines of JSON, which `serve` answers; else records, for `keep` |
//! | `disk=N` | so many of the bytes are the disk's; else none |
//! | `limit=N` | the most bytes of the source that are considered; else 2^40 |
//! | `read=N`, `out=N`, `notes=N` | the read, the write to the output or the write to standard error that fails, counted from 1 |
//! | `fail=N` | the call of the disk that fails, counted from 1 |
//! | `calls=N` | the disk's calls after the first N fail; without it N is 1,000 |
//! | `fails=N` | the call is made once for each of the disk's first N calls, which fails in it |
//! | `stops=1` | the call is made, and then once more on what a stop in each of the disk's calls leaves: of each write that isn't synced the first 0, 1 or 3 bytes, and 00, 01 or FF in place of the rest |
//!
//! Printed are the options, the number that the program would exit with, how many bytes were written, the line on standard error, if there
//! is one, the records or the lines in the output, and what the disk holds. With `fails` and `stops` it is printed how often each number came with each
//! output.
//!
//! Two kinds of cases call what is below the exchange:
//!
//! | case | what is done, and what is printed |
//! |---|---|
//! | `memory ROOM CALLS FAILING; CALL; CALL ..: BYTES` | calls of a disk in memory that holds the bytes, with so much room for writes, so many calls, and the number of the call that fails, or 0: `write PLACE TEXT`, `cut LENGTH`, `sync`, `length`, `read PLACE COUNT`, `holds`, `recorded`; and `stop CALL PART FILL`, what a stop in this call leaves |
//! | `point MAGICS: BYTES` | a new disk is made whose first entry has the bytes: what it holds. Then a first entry is looked for by each magic: its bytes, or `none` |
//!
//! What is in `stdout` comes from the formats of the files and the rules of the market, by hand.
#![tactic(auto)]

mod asked;
mod calling;
mod counting;
mod memory;
mod points;

use check_lines::{Line, Names, Told};
use std::alloc::Global;
use std::io;

// Appends the result of a case.
fn put_case(alloc: Global, words: &str, bytes: &[u8], told: &mut Told) {
    let (call, with) = words.split_once(' ').unwrap_or((words, ""));
    match call {
        "memory" => memory::put_calls(alloc, with, bytes, told),
        "point" => points::put_found(alloc, with, bytes, told),
        _ => calling::put_case(alloc, words, bytes, told),
    }
}

// Appends the result of a line.
fn put_line(alloc: Global, names: &mut Names, line: &str, told: &mut Told) {
    match names.read(line) {
        Some(Line::Remark) => {
            told.put(line);
            told.put("\n");
        }
        Some(Line::Named) => (),
        Some(Line::Case(words, bytes)) => {
            told.put(words);
            told.put(":");
            put_case(alloc, words, &bytes, told);
        }
        None => told.give_up(),
    }
}

fn main(rt: HostRuntime) -> io::Result<()> {
    let mut names = Names::new(rt.alloc());
    for line in rt.lines(rt.alloc()) {
        let mut told = Told::new(rt.alloc());
        put_line(rt.alloc(), &mut names, line?.as_str(), &mut told);
        match told.rows() {
            Some(rows) => print!(rt; "{rows}")?,
            None => println!(rt; "not done")?,
        }
    }
    Ok(())
}
