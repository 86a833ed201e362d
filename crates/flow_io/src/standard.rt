ghost use Rattle.std.specs.Prelude.{◌≡◌, ◌≤◌, None, length, IfOk, OnOk, OnErr, IsErr};
ghost use Rattle.std.specs.Io.KnownBytes.{Appends, ReadConsumes};
ghost use Rattle.flow_io.specs.Faults.{Blames};
ghost use Rattle.flow_io.specs.Standard.{AppendsPrefix};

use crate::{ReadFailed, Sink, Source, WriteFailed};
use std::io::{Read, Write};
use std::marker::Model;

/// A reader of the system as a source. Its content is unknown.
#[derive(Drop)]
pub struct StdSource<R> {
    inner: R,
    faults: u64,
}

impl<R> Model for StdSource<R> {
    ghost use Rattle.flow_io.specs.Standard.{Adapter};

    ghost Value = { Adapter R };

    ghost view = { λ source. record { inner = source.inner; faults = source.faults } };
}

impl<R: Read> StdSource<R> {
    /// Makes a source over a reader, with no fault so far.
    pub fn new(inner: R) -> StdSource<R>
        ensures { result ≡ record { inner = inner; faults = 0 } }
    {
        StdSource { inner, faults: 0 }
    }

    /// Returns the reader, with what it has left.
    pub fn into_inner(self) -> R
        ensures { result ≡ self.inner }
    {
        self.inner
    }
}

impl<R: Read> Source for StdSource<R> {
    ghost rest = { λ _. None };

    ghost faults = { λ source. source.faults };

    /// Reads once from the reader. Any error of the reader is a fault, whatever its kind. Nothing says
    /// when a reader fails, so no clause says when `ReadFailed` comes.
    fn read(&mut self, into: &mut [u8]) -> Result<usize, ReadFailed>
        ensures bound { IfOk result (λ count. count ≤ length into.new) }
        ensures cause { Blames (IsErr result) self.old.faults self.new.faults }
        // The bytes that are returned came from the reader and were consumed there once; 0 bytes are
        // returned only at its end or if `into` is empty, and an error consumes nothing.
        ensures consumed { ReadConsumes (R.remaining self.old.inner) (R.remaining self.new.inner)
            result into.new }
    {
        match self.inner.read(into) {
            Ok(count) => Ok(count),
            Err(_) => {
                self.faults = self.faults.saturating_add(1);
                Err(ReadFailed)
            }
        }
    }
}

/// A writer of the system as a sink. Its content is unknown.
#[derive(Drop)]
pub struct StdSink<W> {
    inner: W,
    faults: u64,
}

impl<W> Model for StdSink<W> {
    ghost use Rattle.flow_io.specs.Standard.{Adapter};

    ghost Value = { Adapter W };

    ghost view = { λ sink. record { inner = sink.inner; faults = sink.faults } };
}

impl<W: Write> StdSink<W> {
    /// Makes a sink over a writer, with no fault so far.
    pub fn new(inner: W) -> StdSink<W>
        ensures { result ≡ record { inner = inner; faults = 0 } }
    {
        StdSink { inner, faults: 0 }
    }

    /// Returns the writer, with what was written.
    pub fn into_inner(self) -> W
        ensures { result ≡ self.inner }
    {
        self.inner
    }
}

impl<W: Write> Sink for StdSink<W> {
    ghost held = { λ _. None };

    ghost calls = { λ _. None };

    ghost faults = { λ sink. sink.faults };

    /// Writes all of `bytes` and flushes. Any error is a fault, whatever its kind, and so is a write that
    /// takes no byte. Nothing says when a writer fails, so no clause says when `WriteFailed` comes.
    fn write(&mut self, bytes: &[u8]) -> Result<(), WriteFailed>
        ensures cause { Blames (IsErr result) self.old.faults self.new.faults }
        // The bytes arrived at the writer once, in their order: all of them, or a prefix after an error.
        ensures whole { OnOk result
            (Appends (W.contents self.old.inner) (W.contents self.new.inner) bytes.now) }
        ensures prefix { OnErr result
            (AppendsPrefix (W.contents self.old.inner) (W.contents self.new.inner) bytes.now) }
    {
        let result = write_whole(&mut self.inner, bytes);
        if result.is_err() {
            self.faults = self.faults.saturating_add(1);
        }
        result
    }
}

// Writes all of the bytes, and flushes.
fn write_whole<W: Write>(writer: &mut W, bytes: &[u8]) -> Result<(), WriteFailed>
    ensures whole { OnOk result
        (Appends (W.contents writer.old) (W.contents writer.new) bytes.now) }
    ensures prefix { OnErr result
        (AppendsPrefix (W.contents writer.old) (W.contents writer.new) bytes.now) }
{
    let mut rest = bytes;
    while !rest.is_empty() {
        match writer.write(rest) {
            Ok(0) | Err(_) => return Err(WriteFailed),
            Ok(count) => rest = &rest[count..],
        }
    }
    writer.flush().map_err(|_| WriteFailed)
}
