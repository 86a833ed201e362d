ghost use Rattle.std.specs.Prelude.{◌≡◌, ◌≤◌, ◌↔◌, ◌<◌, ℕ, List, [], None, Some, IfOk, OnOk, OnErr, IsErr, IsOk, true, min, length, take, drop};
ghost use Rattle.flow_io.specs.Faults.{Blames};
ghost use Rattle.memory_io.specs.Memory.{Kept, told, keep};
ghost use Rattle.flow_io.specs.Streams.{Takes, Grows, GrowsByPrefix};

use flow_io::{Memory, ReadFailed, Sink, Source, WriteFailed};
use std::alloc::Global;
use std::marker::Model;

/// Bytes in memory, read from the first on. No read fails.
#[derive(Drop)]
pub struct SteadySource {
    bytes: Vec<u8>,
    place: usize,
}

impl Model for SteadySource {
    ghost use Rattle.std.specs.Prelude.{◌≤◌, List, ℕ, drop, vec_len};

    ghost Value = { List ℕ };

    ghost view = { λ source. drop source.place source.bytes.items };

    ghost invariant = { λ source. source.place ≤ vec_len source.bytes };
}

impl SteadySource {
    /// Returns a source that has these bytes left. Allocates nothing.
    pub fn new(bytes: Vec<u8>) -> SteadySource
        ensures { result ≡ bytes.items }
    {
        SteadySource { bytes, place: 0 }
    }
}

impl Source for SteadySource {
    ghost use Rattle.std.specs.Prelude.{Some};

    ghost rest = { λ left. Some left };

    ghost faults = { λ _. 0 };

    fn read(&mut self, into: &mut [u8]) -> Result<usize, ReadFailed>
        ensures bound { IfOk result (λ count. count ≤ length into.new) }
        ensures taken { IfOk result (λ count. Takes (Some self.old) (Some self.new) (take count into.new)) }
        ensures end { IfOk result (λ count. 0 < length into.new → (count ≡ 0) ↔ (self.old ≡ [])) }
        ensures stays { OnErr result (self.new ≡ self.old) }
        ensures cause { Blames (IsErr result) 0 0 }
        // It never fails, and gives all that fits; the rest of `into` stays as it was.
        ensures all { result ≡ Ok (min (length self.old) (length into.old)) }
        ensures following { IfOk result (λ count. drop count into.new ≡ drop count into.old) }
    {
        let rest = &self.bytes[self.place..];
        let count = rest.len().min(into.len());
        into[..count].copy_from_slice(&rest[..count]);
        self.place += count;
        Ok(count)
    }
}

/// A place in memory for a stated number of bytes. No write fails: a byte past the room is dropped.
#[derive(Drop)]
pub struct SteadySink {
    bytes: Vec<u8>,
    room: usize,
    complete: bool,
}

impl Model for SteadySink {
    ghost use Rattle.std.specs.Prelude.{◌≤◌, vec_len, vec_capacity};
    ghost use Rattle.memory_io.specs.Memory.{Kept};

    ghost Value = { Kept };

    ghost view = { λ sink. record { bytes = sink.bytes.items; room = sink.room; complete = sink.complete } };

    ghost invariant = { λ sink. (vec_len sink.bytes ≤ sink.room) × (sink.room ≤ vec_capacity sink.bytes) };
}

impl SteadySink {
    /// Returns an empty sink that holds at most `room` bytes. Allocates all its memory here.
    pub fn new(alloc: Global, room: usize) -> Result<SteadySink, Memory>
        ensures { IfOk result (λ sink. sink ≡ record { bytes = []; room = room; complete = true }) }
    {
        Ok(SteadySink {
            bytes: Vec::with_capacity(alloc, room)?,
            room,
            complete: true,
        })
    }

    /// Returns what it holds: all that was written, up to its room.
    pub fn bytes(&self) -> &[u8]
        ensures { result.now ≡ self.now.bytes }
    {
        &self.bytes
    }
}

impl Sink for SteadySink {
    ghost held = { told };

    ghost calls = { λ _. None };

    ghost faults = { λ _. 0 };

    fn write(&mut self, bytes: &[u8]) -> Result<(), WriteFailed>
        ensures written { OnOk result (Grows (told self.old) (told self.new) bytes.now) }
        ensures cut { OnErr result (GrowsByPrefix (told self.old) (told self.new) bytes.now) }
        ensures cause { Blames (IsErr result) 0 0 }
        // It never fails, and keeps what fits.
        ensures succeeds { IsOk result }
        ensures kept { self.new ≡ keep self.old bytes.now }
    {
        let count = bytes.len().min(self.room - self.bytes.len());
        self.bytes.extend_from_slice(&bytes[..count]).unwrap();
        self.complete = self.complete && count == bytes.len();
        Ok(())
    }
}
