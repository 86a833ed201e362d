//! A call, over a source and sinks in memory.
use crate::asked::Asked;
use crate::telling::{put_end, put_out, put_prefix};
use flow_exchange::{Status, flow, flow_limited};
use flow_io::read_all;
use memory_io::{MemorySink, MemorySource};
use std::alloc::Global;

// More bytes than a case writes to the output.
const MOST_OUT: usize = 1 << 21;

// More bytes than a case writes to standard error.
const MOST_NOTES: usize = 64;

// Returns the call that fails, if one does.
fn failing(alloc: Global, call: u64) -> Option<Vec<u64>> {
    let mut calls = Vec::new(alloc);
    if call > 0 {
        calls.push(call).ok()?;
    }
    Some(calls)
}

// Makes the call that is asked for.
fn call(
    alloc: Global,
    asked: &Asked,
    source: &mut MemorySource,
    out: &mut MemorySink,
    notes: &mut MemorySink,
) -> Status {
    match asked.limit {
        Some(limit) => flow_limited(alloc, &asked.words, limit, source, out, notes),
        None => flow(alloc, &asked.words, source, out, notes),
    }
}

// Returns how many bytes are left in the source, if that is asked for or nothing should have been read.
fn left_in(
    alloc: Global,
    asked: &Asked,
    status: Status,
    source: &mut MemorySource,
) -> Option<Option<usize>> {
    if asked.left || status == Status::Usage {
        let rest = read_all(alloc, source, 1 << 20).ok()?;
        return Some(Some(rest.bytes.len()));
    }
    Some(None)
}

// Makes the call with these sinks, and appends its result.
fn put_call_with(
    alloc: Global,
    asked: &Asked,
    source: &mut MemorySource,
    out: &mut MemorySink,
    notes: &mut MemorySink,
    rows: &mut String,
) -> Option<()> {
    let status = call(alloc, asked, source, out, notes);
    let left = left_in(alloc, asked, status, source)?;
    put_end(status.exit(), out.bytes().len(), left, notes.bytes(), rows)?;
    put_out(alloc, out.bytes(), asked.rows as usize, rows)
}

// Makes the source and the sinks that are asked for, and the call with them.
fn put_call_of(alloc: Global, asked: &Asked, input: Vec<u8>, rows: &mut String) -> Option<()> {
    let piece = asked.piece.max(1) as usize;
    let mut source = MemorySource::new(input, piece, failing(alloc, asked.read)?);
    let mut out = MemorySink::new(alloc, MOST_OUT, failing(alloc, asked.out)?).ok()?;
    let mut notes = MemorySink::new(alloc, MOST_NOTES, failing(alloc, asked.notes)?).ok()?;
    put_call_with(alloc, asked, &mut source, &mut out, &mut notes, rows)
}

// How a call ended, and what its sinks hold.
#[derive(Drop)]
struct Ended {
    status: Status,
    out: MemorySink,
    notes: MemorySink,
}

// Makes the call with this read and this write to the output failing; 0 if none does.
fn end_of(alloc: Global, asked: &Asked, input: &[u8], read: u64, write: u64) -> Option<Ended> {
    let piece = asked.piece.max(1) as usize;
    let mut bytes = Vec::new(alloc);
    bytes.extend_from_slice(input).ok()?;
    let mut source = MemorySource::new(bytes, piece, failing(alloc, read)?);
    let mut out = MemorySink::new(alloc, MOST_OUT, failing(alloc, write)?).ok()?;
    let mut notes = MemorySink::new(alloc, MOST_NOTES, Vec::new(alloc)).ok()?;
    let status = call(alloc, asked, &mut source, &mut out, &mut notes);
    Some(Ended { status, out, notes })
}

// Appends how a call ended, and how many bytes it wrote, a prefix of `whole` or other bytes.
fn put_ended(ended: &Ended, whole: &[u8], rows: &mut String) -> Option<()> {
    let out = ended.out.bytes();
    let is_prefix = whole.starts_with(out);
    put_prefix(
        ended.status.exit(),
        out.len(),
        is_prefix,
        ended.notes.bytes(),
        rows,
    )
}

// Appends the result of the call if nothing fails, and then for each of the reads and of the writes that fail in turn.
fn put_calls_of(alloc: Global, asked: &Asked, input: &[u8], rows: &mut String) -> Option<()> {
    let all = end_of(alloc, asked, input, 0, 0)?;
    put_ended(&all, all.out.bytes(), rows)?;
    for read in 1..=asked.reads {
        write!(rows, "  read {read}:").ok()?;
        put_ended(
            &end_of(alloc, asked, input, read, 0)?,
            all.out.bytes(),
            rows,
        )?;
    }
    for write in 1..=asked.outs {
        write!(rows, "  write {write}:").ok()?;
        put_ended(
            &end_of(alloc, asked, input, 0, write)?,
            all.out.bytes(),
            rows,
        )?;
    }
    Some(())
}

// Appends the result of a case's call.
pub(crate) fn put_call(
    alloc: Global,
    words: &str,
    input: Vec<u8>,
    rows: &mut String,
) -> Option<()> {
    let mut asked = Asked::new(alloc);
    for word in words.split_whitespace() {
        asked.add(alloc, word)?;
    }
    if asked.reads > 0 || asked.outs > 0 {
        return put_calls_of(alloc, &asked, &input, rows);
    }
    put_call_of(alloc, &asked, input, rows)
}
