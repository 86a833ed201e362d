ghost use Rattle.std.specs.Prelude.{◌≡◌, ◌↔◌, [], ◌∷◌, map, Some, true, IfOk, OnOk, OnErr, IsErr, option_map};
ghost use Rattle.memory_io.specs.Fakes.{NextIsListed, SinkState, after_write, after_failed_write};
ghost use Rattle.flow_io.specs.Faults.{Blames};
ghost use Rattle.memory_io.specs.Memory.{told};
ghost use Rattle.memory_io.specs.Handed.{handed_by};
ghost use Rattle.flow_io.specs.Streams.{Grows, GrowsByPrefix};

use crate::SteadySink;
use crate::calls::Calls;
use flow_io::{Memory, Sink, WriteFailed};
use std::alloc::Global;
use std::marker::Model;

/// A place in memory for a stated number of bytes, with stated calls that fail. A byte past the room is dropped, and a call that fails
/// writes the first half of its bytes. The bytes of each call are known, as long as there is memory for them. For tests.
#[derive(Drop)]
pub struct MemorySink {
    sink: SteadySink,
    calls: Calls,
    // The bytes of each call, as long as there was memory for all.
    handed: Option<Vec<Vec<u8>>>,
}

impl Model for MemorySink {
    ghost use Rattle.memory_io.specs.Fakes.{SinkState};
    ghost use Rattle.memory_io.specs.Handed.{handed_by};

    ghost Value = { SinkState };

    ghost view = { λ sink. record {
      kept = sink.sink;
      failing = sink.calls.failing.items;
      calls = sink.calls.made;
      faults = sink.calls.failed;
      handed = handed_by sink.handed;
    } };
}

impl MemorySink {
    /// Returns an empty sink that holds at most `room` bytes. Calls are counted from 1: a call whose number is in `failing` fails, and no
    /// other. Allocates what it may hold here, and the bytes of each call at that call.
    pub fn new(alloc: Global, room: usize, failing: Vec<u64>) -> Result<MemorySink, Memory>
        ensures { IfOk result (λ sink. sink ≡ record {
          kept = record { bytes = []; room = room; complete = true };
          failing = failing.items;
          calls = 0;
          faults = 0;
          handed = Some [];
        }) }
    {
        let sink = SteadySink::new(alloc, room)?;
        let calls = Calls::new(failing);
        let handed = Some(Vec::new(alloc));
        Ok(MemorySink {
            sink,
            calls,
            handed,
        })
    }

    /// Returns what it holds: all that was written, up to its room.
    pub fn bytes(&self) -> &[u8]
        ensures { result.now ≡ self.now.kept.bytes }
    {
        self.sink.bytes()
    }

    /// Returns the bytes of each call of `write` so far, in order, those that failed too; `None` once there was no memory for one of them.
    pub fn handed(&self) -> Option<&[Vec<u8>]>
        ensures { self.now.handed ≡ option_map (λ calls. map (λ call. call.items) calls.now) result }
    {
        match &self.handed {
            Some(calls) => Some(calls),
            None => None,
        }
    }
}

// Returns the calls and one more, if they are known and there is memory for it.
fn with_call(handed: Option<Vec<Vec<u8>>>, bytes: &[u8]) -> Option<Vec<Vec<u8>>>
    ensures { Grows (handed_by handed) (handed_by result) (bytes.now ∷ []) }
{
    let mut calls = handed?;
    let call = bytes.to_vec(*calls.allocator()).ok()?;
    calls.push(call).ok()?;
    Some(calls)
}

impl Sink for MemorySink {
    ghost held = { λ sink. told sink.kept };

    ghost calls = { λ sink. sink.handed };

    ghost faults = { λ sink. sink.faults };

    fn write(&mut self, bytes: &[u8]) -> Result<(), WriteFailed>
        ensures written { OnOk result (Grows (told self.old.kept) (told self.new.kept) bytes.now) }
        ensures cut { OnErr result (GrowsByPrefix (told self.old.kept) (told self.new.kept) bytes.now) }
        ensures called { Grows self.old.handed self.new.handed (bytes.now ∷ []) }
        ensures cause { Blames (IsErr result) self.old.faults self.new.faults }
        // It fails if its number is listed, and then writes the first half.
        ensures fails { IsErr result ↔ NextIsListed self.old.failing self.old.calls }
        ensures kept { OnOk result (self.new ≡ after_write self.old bytes.now self.new.handed) }
        ensures failed { OnErr result (self.new ≡ after_failed_write self.old bytes.now self.new.handed) }
    {
        self.handed = with_call(self.handed.take(), bytes);
        if self.calls.next_fails() {
            let _ = self.sink.write(&bytes[..bytes.len() / 2]);
            return Err(WriteFailed);
        }
        self.sink.write(bytes)
    }
}
