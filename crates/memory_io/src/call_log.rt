ghost use Rattle.std.specs.Prelude.{◌≡◌, ◌≤◌, ◌<◌, ◌+◌, ◌-◌, ◌++◌, [], ◌∷◌, IfOk, length, take, vec_len, vec_capacity};
ghost use Rattle.memory_io.specs.Disk.{Made, looked, wrote, cut, synced, seen, data_of, crash_after, IsStopped};

use crate::bytes::put_all;
use crate::replay::{Replay, replay_all};
use std::alloc::{AllocError, Global};
use std::marker::Model;

/// A call that was made. A write has its place and how many bytes it has, a cut its length, and both whether they succeeded.
#[derive(Clone, Copy)]
pub(crate) enum Call {
    Look,
    Write(u64, usize, bool),
    Cut(u64, bool),
    Sync,
}

/// The record of calls, and the bytes of the writes among them.
#[derive(Drop)]
pub(crate) struct CallLog {
    calls: Vec<Call>,
    bytes: Vec<u8>,
    most: u32,
    room: usize,
}

impl Model for CallLog {
    ghost use Rattle.std.specs.Prelude.{◌≡◌, ◌≤◌, vec_len, vec_capacity};
    ghost use Rattle.memory_io.specs.Disk.{seen, data_of};
    ghost use Rattle.memory_io.specs.Logs.{LogState};

    ghost Value = { LogState };

    ghost view = { λ log. record { made = seen log.calls.items log.bytes.items; most = log.most; room = log.room; used = vec_len log.bytes; count = vec_len log.calls } };

    ghost invariant = { λ log. (vec_len log.bytes ≡ data_of log.calls.items) × (log.most ≤ vec_capacity log.calls) × (log.room ≤ vec_capacity log.bytes) };
}

impl CallLog {
    /// No call so far. Allocates all its memory here.
    pub fn new(alloc: Global, most: u32, room: usize) -> Result<CallLog, AllocError>
        ensures { IfOk result (λ log. log ≡ record { made = []; most = most; room = room; used = 0; count = 0 }) }
    {
        Ok(CallLog {
            calls: Vec::with_capacity(alloc, most as usize)?,
            bytes: Vec::with_capacity(alloc, room)?,
            most,
            room,
        })
    }

    /// Returns how many bytes all writes together may have.
    pub fn room(&self) -> usize
        ensures { result ≡ self.now.room }
    {
        self.room
    }

    /// Returns how many more bytes of writes there is room for.
    pub fn spare(&self) -> usize
        requires { self.now.used ≤ self.now.room }
        ensures { result ≡ self.now.room - self.now.used }
    {
        self.room - self.bytes.len()
    }

    /// Records a call that changes nothing.
    pub fn look(&mut self)
        requires { self.old.count < self.old.most }
        ensures { self.new ≡ record self.old { made = self.old.made ++ looked ∷ []; count = self.old.count + 1 } }
    {
        self.calls.push_reserved(Call::Look);
    }

    /// Records a cut.
    pub fn cut(&mut self, to: u64, done: bool)
        requires { self.old.count < self.old.most }
        ensures { self.new ≡ record self.old { made = self.old.made ++ cut to done ∷ []; count = self.old.count + 1 } }
    {
        self.calls.push_reserved(Call::Cut(to, done));
    }

    /// Records a sync that succeeded.
    pub fn sync(&mut self)
        requires { self.old.count < self.old.most }
        ensures { self.new ≡ record self.old { made = self.old.made ++ synced ∷ []; count = self.old.count + 1 } }
    {
        self.calls.push_reserved(Call::Sync);
    }

    /// Records a write.
    pub fn write(&mut self, place: u64, bytes: &[u8], done: bool)
        requires count { self.old.count < self.old.most }
        requires room { self.old.used + length bytes.now ≤ self.old.room }
        ensures { self.new ≡ record self.old {
          made = self.old.made ++ wrote place bytes.now done ∷ [];
          used = self.old.used + length bytes.now;
          count = self.old.count + 1;
        } }
    {
        self.calls
            .push_reserved(Call::Write(place, bytes.len(), done));
        put_all(&mut self.bytes, bytes);
    }

    /// Makes the first `count` calls again, and what one crash leaves after them.
    pub fn replay(&self, replay: &mut Replay, count: usize, part: usize, fill: u8)
        requires count { count ≤ self.now.count }
        requires held { vec_len replay.old.held + self.now.used ≤ vec_capacity replay.old.held }
        requires same { vec_capacity replay.old.held ≤ vec_capacity replay.old.image }
        requires image { vec_len replay.old.image + self.now.used ≤ vec_capacity replay.old.held }
        requires torn { self.now.used ≤ vec_capacity replay.old.torn }
        ensures { replay.new.image.items
            ≡ crash_after part fill (take count self.now.made) replay.old.held.items replay.old.image.items }
    {
        replay_all(replay, &self.calls[..count], &self.bytes, part, fill);
    }

    /// Returns how many calls are made if a stop comes in the one of this number, counted from 1: a sync isn't made yet.
    pub fn made_at(&self, number: usize) -> usize
        requires { (1 ≤ number) × (number ≤ self.now.count) }
        ensures stopped { IsStopped self.now.made number (take result self.now.made) }
        ensures most { result ≤ number }
        ensures least { number ≤ result + 1 }
    {
        match self.calls[number - 1] {
            Call::Sync => number - 1,
            Call::Look => number,
            Call::Cut(_, _) => number,
            Call::Write(_, _, _) => number,
        }
    }
}
