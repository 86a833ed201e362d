//! Sources and sinks in memory: what is read and held, and when they fail.
use crate::telling::{put, put_bytes};
use check_lines::Told;
use flow_io::{ReadAllFault, ReadFailed, Sink, Source, WholeInput, read_all};
use memory_io::{MemorySink, MemorySource, SteadySink, SteadySource};
use std::alloc::Global;

// The most bytes of a read.
const ROOM: usize = 16;

// Returns the numbers of a list.
fn numbers_of(alloc: Global, list: &str) -> Option<Vec<u64>> {
    let mut numbers = Vec::new(alloc);
    if list != "-" {
        for item in list.split(',') {
            numbers.push(item.parse().ok()?).ok()?;
        }
    }
    Some(numbers)
}

pub(crate) fn put_input(input: Result<WholeInput, ReadAllFault>, told: &mut Told) {
    match input {
        Ok(input) => {
            put_bytes(&input.bytes, told);
            put(if input.more { "more" } else { "all" }, &[], told)
        }
        Err(ReadAllFault::Read) => put("failed", &[], told),
        Err(ReadAllFault::Memory) => put("memory", &[], told),
    }
}

// Reads up to each limit, one after the other.
fn put_inputs<S: Source>(alloc: Global, source: &mut S, limits: &[u64], told: &mut Told) {
    for limit in limits {
        put_input(read_all(alloc, source, *limit), told);
    }
}

pub(crate) fn put_part(read: Result<usize, ReadFailed>, window: &[u8], told: &mut Told) {
    match read {
        Ok(count) => match window.get(..count) {
            Some(part) => put_bytes(part, told),
            None => told.give_up(),
        },
        Err(ReadFailed) => put("failed", &[], told),
    }
}

// Reads into each of these rooms, one after the other.
fn put_reads<S: Source>(source: &mut S, rooms: &[u64], told: &mut Told) {
    for room in rooms {
        let mut window = [0; ROOM];
        let room = (*room).min(ROOM as u64) as usize;
        let read = source.read(&mut window[..room]);
        put_part(read, &window, told);
    }
}

// Returns the source of pieces of this size, whose calls of these numbers fail.
fn source_of(alloc: Global, piece: &str, failing: &str, bytes: &[u8]) -> Option<MemorySource> {
    let piece = piece.parse().ok()?;
    if piece == 0 {
        return None;
    }
    let bytes = Vec::from_slice(alloc, bytes).ok()?;
    Some(MemorySource::new(bytes, piece, numbers_of(alloc, failing)?))
}

fn steady_of(alloc: Global, bytes: &[u8]) -> Option<SteadySource> {
    Some(SteadySource::new(Vec::from_slice(alloc, bytes).ok()?))
}

// Prints what is read of the bytes up to each limit, by a source of pieces, or by a steady one.
pub(crate) fn put_all(alloc: Global, words: &str, bytes: &[u8], told: &mut Told) {
    let (limits, words) = words.split_once(' ').unwrap_or((words, ""));
    let (piece, failing) = words.split_once(' ').unwrap_or((words, "-"));
    let Some(limits) = numbers_of(alloc, limits) else {
        return told.give_up();
    };
    if piece == "steady" {
        match steady_of(alloc, bytes) {
            Some(mut source) => put_inputs(alloc, &mut source, &limits, told),
            None => told.give_up(),
        }
    } else {
        match source_of(alloc, piece, failing, bytes) {
            Some(mut source) => put_inputs(alloc, &mut source, &limits, told),
            None => told.give_up(),
        }
    }
}

// Prints what is read of the bytes into each of these rooms, by a source of pieces.
pub(crate) fn put_parts(alloc: Global, words: &str, bytes: &[u8], told: &mut Told) {
    let (rooms, words) = words.split_once(' ').unwrap_or((words, ""));
    let (piece, failing) = words.split_once(' ').unwrap_or((words, "-"));
    match (
        numbers_of(alloc, rooms),
        source_of(alloc, piece, failing, bytes),
    ) {
        (Some(rooms), Some(mut source)) => put_reads(&mut source, &rooms, told),
        _ => told.give_up(),
    }
}

fn put_written(failed: bool, held: &[u8], told: &mut Told) {
    put(if failed { "failed" } else { "done" }, &[], told);
    put_bytes(held, told)
}

fn write_steady(sink: &mut SteadySink, pieces: &str, told: &mut Told) {
    for piece in pieces.split(',') {
        let failed = sink.write(piece.as_bytes()).is_err();
        put_written(failed, sink.bytes(), told);
    }
}

fn write_memory(sink: &mut MemorySink, pieces: &str, told: &mut Told) {
    for piece in pieces.split(',') {
        let failed = sink.write(piece.as_bytes()).is_err();
        put_written(failed, sink.bytes(), told);
    }
}

// Prints each piece that the sink was handed, if it knows them.
fn put_handed(sink: &MemorySink, told: &mut Told) {
    put("handed", &[], told);
    match sink.handed() {
        Some(pieces) => {
            for piece in pieces {
                put_bytes(piece, told);
            }
        }
        None => told.give_up(),
    }
}

fn put_memory(alloc: Global, room: usize, failing: Vec<u64>, pieces: &str, told: &mut Told) {
    match MemorySink::new(alloc, room, failing) {
        Ok(mut sink) => {
            write_memory(&mut sink, pieces, told);
            put_handed(&sink, told)
        }
        Err(_) => told.give_up(),
    }
}

fn put_steady(alloc: Global, room: usize, pieces: &str, told: &mut Told) {
    match SteadySink::new(alloc, room) {
        Ok(mut sink) => write_steady(&mut sink, pieces, told),
        Err(_) => told.give_up(),
    }
}

// Prints what a sink of this room holds after each piece, a steady one or one whose calls of these numbers fail.
pub(crate) fn put_pieces(alloc: Global, words: &str, told: &mut Told) {
    let (room, words) = words.split_once(' ').unwrap_or((words, ""));
    let (failing, pieces) = words.split_once(' ').unwrap_or((words, ""));
    let Ok(room) = room.parse() else {
        return told.give_up();
    };
    if failing == "steady" {
        return put_steady(alloc, room, pieces, told);
    }
    match numbers_of(alloc, failing) {
        Some(failing) => put_memory(alloc, room, failing, pieces, told),
        None => told.give_up(),
    }
}
