//! Markets that are written as bytes, and read again.
use crate::state::put_market;
use check_lines::Told;
use journal_replay::replay;
use market_core::Market;
use market_snapshot::{SnapshotFault, read_market, write_market};
use std::alloc::Global;

// The next number of a checkpoint's market is below this.
const NUMBERS: u64 = 1 << 63;

// Appends the checkpoint of a market.
fn write(market: &mut Market, bytes: &mut Vec<u8>) -> Option<()> {
    if market.next_number() >= NUMBERS {
        return None;
    }
    write_market(market, bytes).ok()
}

// Returns whether the market is written as these bytes, or `None` if memory ran out.
fn is_written_so(alloc: Global, market: &mut Market, bytes: &[u8]) -> Option<bool> {
    let mut written = Vec::new(alloc);
    write(market, &mut written)?;
    Some(written.as_slice() == bytes)
}

// Returns whether a market is written as the first `taken` bytes.
fn is_written_again(
    alloc: Global,
    market: &mut Market,
    taken: usize,
    bytes: &[u8],
) -> Option<bool> {
    is_written_so(alloc, market, bytes.get(..taken)?)
}

// Appends how many bytes a market was read from, and whether it is written so again. Then come the rows of the market.
fn put_again(alloc: Global, market: &mut Market, taken: usize, bytes: &[u8], told: &mut Told) {
    told.put_number("  ", taken as i128);
    told.put_number(" of ", bytes.len() as i128);
    match is_written_again(alloc, market, taken, bytes) {
        Some(true) => told.put(" bytes, written so again\n"),
        Some(false) => told.put(" bytes, written otherwise\n"),
        None => told.give_up(),
    }
    put_market(alloc, market, told);
}

// Appends what the bytes are read as.
pub(crate) fn put_read(alloc: Global, bytes: &[u8], told: &mut Told) {
    match read_market(alloc, bytes) {
        Err(SnapshotFault::NotSound) => told.put("  not sound\n"),
        Err(SnapshotFault::Memory) => told.give_up(),
        Ok((mut market, taken)) => put_again(alloc, &mut market, taken, bytes, told),
    }
}

// Appends the checkpoint of a journal's market.
fn write_replayed(alloc: Global, journal: &[u8], bytes: &mut Vec<u8>) -> Option<()> {
    match replay(alloc, journal) {
        Ok(mut market) => write(&mut market, bytes),
        Err(_) => None,
    }
}

// Appends what the checkpoint of a journal's market is read as.
pub(crate) fn put_kept(alloc: Global, journal: &[u8], told: &mut Told) {
    let mut bytes = Vec::new(alloc);
    told.keep(write_replayed(alloc, journal, &mut bytes));
    put_read(alloc, &bytes, told);
}

// Returns whether a market is read from bytes. If it isn't written so again, there is no answer.
fn is_consistent(alloc: Global, bytes: &[u8]) -> Option<bool> {
    match read_market(alloc, bytes) {
        Err(SnapshotFault::NotSound) => Some(false),
        Err(SnapshotFault::Memory) => None,
        Ok((mut market, taken)) => match is_written_again(alloc, &mut market, taken, bytes) {
            Some(true) => Some(true),
            _ => None,
        },
    }
}

// How many byte strings are checkpoints, and how many aren't.
#[derive(Drop)]
struct Counts {
    consistent: u32,
    others: u32,
}

impl Counts {
    // Counts one more, or returns `None` if it isn't known.
    fn add(&mut self, is_consistent: Option<bool>) -> Option<()> {
        match is_consistent {
            Some(true) => self.consistent = self.consistent.wrapping_add(1),
            Some(false) => self.others = self.others.wrapping_add(1),
            None => return None,
        }
        Some(())
    }
}

// Flips the bits of a byte that are set in `bits`.
fn turn(bytes: &mut [u8], place: usize, bits: u8) {
    if place < bytes.len() {
        bytes[place] ^= bits;
    }
}

// Flips bits of each byte in turn, and back again, and counts what is read then.
fn count_turned(alloc: Global, bits: u8, bytes: &mut [u8], counts: &mut Counts, told: &mut Told) {
    for place in 0..bytes.len() {
        turn(bytes, place, bits);
        told.keep(counts.add(is_consistent(alloc, bytes)));
        turn(bytes, place, bits);
    }
}

// Flips bits of each byte in turn, and appends how many of the results are checkpoints, and how many aren't.
pub(crate) fn put_turned(alloc: Global, bits: u8, bytes: &mut [u8], told: &mut Told) {
    let mut counts = Counts {
        consistent: 0,
        others: 0,
    };
    count_turned(alloc, bits, bytes, &mut counts, told);
    told.put_number("  ", i128::from(counts.consistent));
    told.put_number(" sound, ", i128::from(counts.others));
    told.put(" not sound\n");
}
