//! Readers and writers of std as sources and sinks, and a window on a source.
ghost use Rattle.std.specs.Prelude.{◌≡◌};
ghost use Rattle.flow_io.specs.Windows.{empty_window};

use crate::streams::{put_input, put_part};
use crate::telling::{put, put_bytes};
use check_lines::Told;
use flow_io::{Filled, ReadFailed, Sink, Source, StdSink, StdSource, Window, read_all};
use memory_io::SteadySource;
use std::alloc::Global;
use std::io;
use std::io::{ErrorKind, Read, Write};

// A reader and a writer that always fail.
#[derive(Drop)]
struct Broken;

impl Read for Broken {
    fn read(&mut self, _buf: &mut [u8]) -> io::Result<usize> {
        Err(io::Error::from(ErrorKind::Other))
    }
}

impl Write for Broken {
    fn write(&mut self, _buf: &[u8]) -> io::Result<usize> {
        Err(io::Error::from(ErrorKind::Other))
    }

    fn flush(&mut self) -> io::Result<()> {
        Ok(())
    }
}

// A writer that takes all bytes, and can't flush them.
#[derive(Drop)]
struct Unflushed;

impl Write for Unflushed {
    fn write(&mut self, buf: &[u8]) -> io::Result<usize> {
        Ok(buf.len())
    }

    fn flush(&mut self) -> io::Result<()> {
        Err(io::Error::from(ErrorKind::Other))
    }
}

// Reads once, four bytes at most, then up to three, and then up to 1,000.
fn put_reads<S: Source>(alloc: Global, source: &mut S, told: &mut Told) {
    let mut window = [0; 4];
    let read = source.read(&mut window);
    put_part(read, &window, told);
    put_input(read_all(alloc, source, 3), told);
    put_input(read_all(alloc, source, 1000), told);
}

// Prints what is read of a reader over the bytes, or of a broken one.
pub(crate) fn put_reader(alloc: Global, kind: &str, bytes: &[u8], told: &mut Told) {
    match kind {
        "slice" => put_reads(alloc, &mut StdSource::new(bytes), told),
        "broken" => put_reads(alloc, &mut StdSource::new(Broken), told),
        _ => told.give_up(),
    }
}

fn write_pieces<K: Sink>(sink: &mut K, pieces: &str, told: &mut Told) {
    for piece in pieces.split(',') {
        let failed = sink.write(piece.as_bytes()).is_err();
        put(if failed { "failed" } else { "done" }, &[], told);
    }
}

fn write_vector(alloc: Global, pieces: &str, told: &mut Told) {
    let mut sink = StdSink::new(Vec::new(alloc));
    write_pieces(&mut sink, pieces, told);
    put_bytes(&sink.into_inner(), told);
}

fn write_array(pieces: &str, told: &mut Told) {
    let mut room = [0; 3];
    write_pieces(&mut StdSink::new(&mut room[..]), pieces, told);
    put_bytes(&room, told);
}

// Prints which pieces a writer takes: a vector, an array of three bytes, a broken one, or one that can't flush; and what it has.
pub(crate) fn put_writer(alloc: Global, words: &str, told: &mut Told) {
    let (kind, pieces) = words.split_once(' ').unwrap_or((words, ""));
    match kind {
        "vector" => write_vector(alloc, pieces, told),
        "array" => write_array(pieces, told),
        "broken" => write_pieces(&mut StdSink::new(Broken), pieces, told),
        "unflushed" => write_pieces(&mut StdSink::new(Unflushed), pieces, told),
        _ => told.give_up(),
    }
}

fn put_filled(filled: Result<Filled, ReadFailed>, told: &mut Told) {
    match filled {
        Ok(Filled::Enough) => put("enough", &[], told),
        Ok(Filled::Ended) => put("ended", &[], told),
        Ok(Filled::Limited) => put("limited", &[], told),
        Err(ReadFailed) => put("failed", &[], told),
    }
}

// Fills a window of four bytes, of a limit of six, gives up what it holds, and fills it again.
fn fill_twice(window: &mut Window, source: &mut SteadySource, told: &mut Told)
    requires { window.old ≡ empty_window 4 6 }
{
    put_filled(window.fill(source, 4), told);
    put_bytes(window.held(), told);
    window.advance(window.held().len());
    put_filled(window.fill(source, 4), told);
    put_bytes(window.held(), told);
    put("at", &[window.place().into()], told);
}

// Prints what a window of four bytes, of a limit of six, holds of the bytes; and what the source then has left.
pub(crate) fn put_window(alloc: Global, bytes: &[u8], told: &mut Told) {
    let Ok(bytes) = Vec::from_slice(alloc, bytes) else {
        return told.give_up();
    };
    let mut source = SteadySource::new(bytes);
    match Window::new(alloc, 4, 6) {
        Ok(mut window) => fill_twice(&mut window, &mut source, told),
        Err(_) => told.give_up(),
    }
    put_input(read_all(alloc, &mut source, 8), told);
}
