//! A call, over a source, sinks and a disk in memory.
use crate::asked::Asked;
use crate::counting::Counts;
use check_lines::Told;
use exit_status::{INPUT_LIMIT, Status};
use kept_exchange::{flow_disk, flow_disk_limited, flow_lines, flow_lines_limited};
use memory_io::{MemoryDisk, MemorySink, MemorySource};
use std::alloc::Global;

// More bytes than a case writes to the output.
const MOST_OUT: usize = 4096;

// More bytes than a case writes to standard error.
const MOST_NOTES: usize = 64;

// More bytes than all writes of a case to the disk have.
const ROOM: usize = 1 << 16;

// How many of the first bytes a stop leaves of a write that isn't synced.
const PARTS: [u64; 3] = [0, 1, 3];

// What a stop leaves in place of each other byte of such a write.
const FILLS: [u8; 3] = [0x00, 0x01, 0xFF];

// How a call ended, and what it left.
#[derive(Drop)]
struct Ended {
    status: Status,
    out: MemorySink,
    notes: MemorySink,
    disk: MemoryDisk,
}

// Returns the call that fails, if one does.
fn failing(alloc: Global, call: u64) -> Option<Vec<u64>> {
    let mut calls = Vec::new(alloc);
    if call > 0 {
        calls.push(call).ok()?;
    }
    Some(calls)
}

fn source_of(alloc: Global, bytes: &[u8], fails: u64) -> Option<MemorySource> {
    let fails = failing(alloc, fails)?;
    Some(MemorySource::new(bytes.to_vec(alloc).ok()?, 7, fails))
}

fn sink_of(alloc: Global, most: usize, fails: u64) -> Option<MemorySink> {
    MemorySink::new(alloc, most, failing(alloc, fails)?).ok()
}

// Returns a disk in memory with these bytes and this room, so many calls, and the call that fails, if one does.
pub(crate) fn disk_from(
    alloc: Global,
    bytes: &[u8],
    room: usize,
    calls: u32,
    fails: u64,
) -> Option<MemoryDisk> {
    let fails = failing(alloc, fails)?;
    MemoryDisk::new(alloc, bytes.to_vec(alloc).ok()?, room, calls, fails).ok()
}

// Makes the call of a subcommand with this source, this disk and these sinks.
fn call(
    alloc: Global,
    asked: &Asked,
    source: &mut MemorySource,
    disk: &mut MemoryDisk,
    out: &mut MemorySink,
    notes: &mut MemorySink,
) -> Status {
    match (asked.limit, asked.lines) {
        (Some(limit), false) => {
            flow_disk_limited(alloc, limit.min(INPUT_LIMIT), source, disk, out, notes)
        }
        (Some(limit), true) => {
            flow_lines_limited(alloc, limit.min(INPUT_LIMIT), source, disk, out, notes)
        }
        (None, false) => flow_disk(alloc, source, disk, out, notes),
        (None, true) => flow_lines(alloc, source, disk, out, notes),
    }
}

// Makes the call with these bytes on the disk and in the source.
fn end_of(alloc: Global, asked: &Asked, held: &[u8], given: &[u8]) -> Option<Ended> {
    let mut source = source_of(alloc, given, asked.read)?;
    let mut out = sink_of(alloc, MOST_OUT, asked.out)?;
    let mut notes = sink_of(alloc, MOST_NOTES, asked.notes)?;
    let mut disk = disk_from(alloc, held, ROOM, asked.calls, asked.fail)?;
    let status = call(alloc, asked, &mut source, &mut disk, &mut out, &mut notes);
    Some(Ended {
        status,
        out,
        notes,
        disk,
    })
}

// Appends the line on standard error, if there is one.
fn put_note(notes: &[u8], told: &mut Told) {
    match str::from_utf8(notes) {
        Ok("") => (),
        Ok(line) => {
            told.put(", ");
            told.put(line.trim_end());
        }
        Err(_) => told.give_up(),
    }
}

// Appends the digits of bytes, and the end of the row.
pub(crate) fn put_digits(alloc: Global, bytes: &[u8], told: &mut Told) {
    match hex::encode(alloc, bytes) {
        Ok(digits) => told.put(&digits),
        Err(_) => told.give_up(),
    }
    told.put("\n");
}

// Appends how a call ended, and what it left.
fn put_ended(alloc: Global, asked: &Asked, ended: &Ended, told: &mut Told) {
    told.put_number(" ", i128::from(ended.status.exit()));
    told.put_number(", ", ended.out.bytes().len() as i128);
    told.put(" bytes");
    put_note(ended.notes.bytes(), told);
    told.put("\n");
    if asked.lines {
        told.put_text(ended.out.bytes());
    } else {
        told.put_records(ended.out.bytes(), 64);
    }
    told.put("  disk ");
    put_digits(alloc, ended.disk.bytes(), told);
}

// Makes the call, and counts how it ended.
fn count_call(
    alloc: Global,
    asked: &Asked,
    held: &[u8],
    given: &[u8],
    counts: &mut Counts,
) -> Option<()> {
    let ended = end_of(alloc, asked, held, given)?;
    counts.add(alloc, ended.status.exit(), ended.out.bytes())
}

// Makes the call once for each of the disk's first calls, which fails in it.
fn count_fails(
    alloc: Global,
    asked: &Asked,
    held: &[u8],
    given: &[u8],
    counts: &mut Counts,
) -> Option<()> {
    for call in 1..=asked.fails {
        let mut one = *asked;
        one.fail = call;
        count_call(alloc, &one, held, given, counts)?;
    }
    Some(())
}

// Makes the call on what a stop after so many calls of a disk leaves, by the part that is left of a write and what fills the rest.
fn count_stop(
    alloc: Global,
    asked: &Asked,
    disk: &MemoryDisk,
    before: u32,
    left: (u64, u8),
    given: &[u8],
    counts: &mut Counts,
) -> Option<()> {
    if before >= disk.recorded() {
        return None;
    }
    let image = disk.crashed(alloc, before as u64 + 1, left.0, left.1).ok()?;
    count_call(alloc, asked, &image, given, counts)
}

// Makes the call on what a stop in each call of a disk leaves.
fn count_stops_in(
    alloc: Global,
    asked: &Asked,
    disk: &MemoryDisk,
    given: &[u8],
    counts: &mut Counts,
) -> Option<()> {
    for before in 0..disk.recorded() {
        for part in PARTS {
            for fill in FILLS {
                count_stop(alloc, asked, disk, before, (part, fill), given, counts)?;
            }
        }
    }
    Some(())
}

// Makes the call, and then once more on what a stop in each call of the disk leaves.
fn count_stops(
    alloc: Global,
    asked: &Asked,
    held: &[u8],
    given: &[u8],
    counts: &mut Counts,
) -> Option<()> {
    let first = end_of(alloc, asked, held, given)?;
    count_stops_in(alloc, asked, &first.disk, given, counts)
}

// Appends how the calls of a case ended, and how often.
fn put_counts(alloc: Global, asked: &Asked, held: &[u8], given: &[u8], told: &mut Told) {
    let mut counts = Counts::new(alloc);
    told.keep(count_fails(alloc, asked, held, given, &mut counts));
    if asked.stops {
        told.keep(count_stops(alloc, asked, held, given, &mut counts));
    }
    counts.put(alloc, told);
}

// Appends the result of a case.
pub(crate) fn put_case(alloc: Global, options: &str, bytes: &[u8], told: &mut Told) {
    let mut asked = Asked::new();
    for option in options.split_whitespace() {
        told.keep(asked.set(option));
    }
    let (held, given) = bytes.split_at(asked.disk.min(bytes.len()));
    if asked.fails > 0 || asked.stops {
        return put_counts(alloc, &asked, held, given, told);
    }
    match end_of(alloc, &asked, held, given) {
        Some(ended) => put_ended(alloc, &asked, &ended, told),
        None => told.give_up(),
    }
}
