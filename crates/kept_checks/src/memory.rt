//! Calls on the disk in memory: which of them fail, what it holds, and what a stop in each leaves.
use crate::calling::{disk_from, put_digits};
use check_lines::Told;
use disk_edge::{Disk, DiskFailed};
use memory_io::MemoryDisk;
use std::alloc::Global;

// The most bytes of a read.
const ROOM: usize = 16;

fn put_done(done: Result<(), DiskFailed>, told: &mut Told) {
    match done {
        Ok(()) => told.put(" done\n"),
        Err(DiskFailed) => told.put(" failed\n"),
    }
}

fn put_bytes(alloc: Global, bytes: &[u8], told: &mut Told) {
    told.put(" ");
    put_digits(alloc, bytes, told)
}

fn put_number(number: i128, told: &mut Told) {
    told.put_number(" ", number);
    told.put("\n")
}

fn put_length(disk: &mut MemoryDisk, told: &mut Told) {
    match disk.length() {
        Ok(length) => put_number(length.into(), told),
        Err(DiskFailed) => told.put(" failed\n"),
    }
}

// Writes the text at a place: `PLACE TEXT`.
fn write(disk: &mut MemoryDisk, words: &str, told: &mut Told) {
    let (place, text) = words.split_once(' ').unwrap_or((words, ""));
    match place.parse() {
        Ok(place) => put_done(disk.write_at(place, text.as_bytes()), told),
        Err(_) => told.give_up(),
    }
}

fn cut_to(disk: &mut MemoryDisk, to: usize, told: &mut Told) {
    if disk.bytes().len() < to {
        return told.give_up();
    }
    put_done(disk.cut(to as u64), told)
}

fn cut(disk: &mut MemoryDisk, to: &str, told: &mut Told) {
    match to.parse::<u32>() {
        Ok(to) => cut_to(disk, to as usize, told),
        Err(_) => told.give_up(),
    }
}

fn read_at(alloc: Global, disk: &mut MemoryDisk, place: usize, count: usize, told: &mut Told) {
    let mut window = [0; ROOM];
    let length = disk.bytes().len();
    if count > ROOM || place > length || count > length - place {
        return told.give_up();
    }
    match disk.read_at(place as u64, &mut window[..count]) {
        Ok(()) => put_bytes(alloc, &window[..count], told),
        Err(DiskFailed) => told.put(" failed\n"),
    }
}

// Reads so many bytes at a place: `PLACE COUNT`.
fn read(alloc: Global, disk: &mut MemoryDisk, words: &str, told: &mut Told) {
    let (place, count) = words.split_once(' ').unwrap_or((words, ""));
    match (place.parse::<u32>(), count.parse::<u32>()) {
        (Ok(place), Ok(count)) => read_at(alloc, disk, place as usize, count as usize, told),
        _ => told.give_up(),
    }
}

// Appends what a stop in a call leaves, by the part that is left of a write and what fills the rest.
fn put_image(alloc: Global, disk: &MemoryDisk, call: u64, left: (u64, u8), told: &mut Told) {
    if call < 1 || call > u64::from(disk.recorded()) {
        return told.give_up();
    }
    match disk.crashed(alloc, call, left.0, left.1) {
        Ok(image) => put_bytes(alloc, &image, told),
        Err(_) => told.give_up(),
    }
}

// Returns what `CALL PART FILL` says.
fn stop_of(words: &str) -> Option<(u64, u64, u8)> {
    let (call, words) = words.split_once(' ')?;
    let (part, fill) = words.split_once(' ')?;
    Some((call.parse().ok()?, part.parse().ok()?, fill.parse().ok()?))
}

fn put_stop(alloc: Global, disk: &MemoryDisk, words: &str, told: &mut Told) {
    match stop_of(words) {
        Some((call, part, fill)) => put_image(alloc, disk, call, (part, fill), told),
        None => told.give_up(),
    }
}

fn put_call(alloc: Global, disk: &mut MemoryDisk, call: &str, told: &mut Told) {
    told.put("  ");
    told.put(call);
    told.put(":");
    let (name, words) = call.split_once(' ').unwrap_or((call, ""));
    match name {
        "write" => write(disk, words, told),
        "cut" => cut(disk, words, told),
        "sync" => put_done(disk.sync(), told),
        "length" => put_length(disk, told),
        "read" => read(alloc, disk, words, told),
        "holds" => put_bytes(alloc, disk.bytes(), told),
        "recorded" => put_number(disk.recorded().into(), told),
        "stop" => put_stop(alloc, disk, words, told),
        _ => told.give_up(),
    }
}

fn put_each(alloc: Global, disk: &mut MemoryDisk, calls: &str, told: &mut Told) {
    for call in calls.split(';') {
        put_call(alloc, disk, call.trim(), told);
    }
}

// Returns the disk of `ROOM CALLS FAILING`: it has room for so many bytes of writes, and the calls after the first so many fail, as the
// one of this number does.
fn disk_of(alloc: Global, words: &str, bytes: &[u8]) -> Option<MemoryDisk> {
    let (room, words) = words.split_once(' ')?;
    let (calls, failing) = words.split_once(' ')?;
    let room: u32 = room.parse().ok()?;
    disk_from(
        alloc,
        bytes,
        room as usize,
        calls.parse().ok()?,
        failing.parse().ok()?,
    )
}

// Makes each call on a disk in memory that holds the bytes: `ROOM CALLS FAILING; CALL; CALL ..`.
pub(crate) fn put_calls(alloc: Global, words: &str, bytes: &[u8], told: &mut Told) {
    let (disk, calls) = words.split_once(';').unwrap_or((words, ""));
    told.put("\n");
    match disk_of(alloc, disk, bytes) {
        Some(mut disk) => put_each(alloc, &mut disk, calls, told),
        None => told.give_up(),
    }
}
