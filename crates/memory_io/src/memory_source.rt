ghost use Rattle.std.specs.Prelude.{◌≡◌, ◌≤◌, ◌<◌, ◌↔◌, ◌++◌, ℕ, List, [], Some, IfOk, OnErr, IsErr, MatchResult, length, take, drop};
ghost use Rattle.memory_io.specs.Fakes.{NextIsListed, SourceState, given, after_read, after_failed_read};
ghost use Rattle.flow_io.specs.Faults.{Blames};
ghost use Rattle.flow_io.specs.Streams.{Takes};

use crate::SteadySource;
use crate::calls::Calls;
use flow_io::{ReadFailed, Source};
use std::marker::Model;

/// Bytes in memory, read from the first on in pieces, with stated calls that fail. For tests.
#[derive(Drop)]
pub struct MemorySource {
    bytes: SteadySource,
    piece: usize,
    calls: Calls,
}

impl Model for MemorySource {
    ghost use Rattle.std.specs.Prelude.{◌<◌};
    ghost use Rattle.memory_io.specs.Fakes.{SourceState};

    ghost Value = { SourceState };

    ghost view = { λ source. record {
      left = source.bytes;
      piece = source.piece;
      failing = source.calls.failing.items;
      calls = source.calls.made;
      faults = source.calls.failed;
    } };

    ghost invariant = { λ source. 0 < source.piece };
}

impl MemorySource {
    /// Returns a source that has these bytes left, and gives at most `piece` of them in a call. Calls are counted from 1: a call whose
    /// number is in `failing` fails, and no other. Allocates nothing.
    pub fn new(bytes: Vec<u8>, piece: usize, failing: Vec<u64>) -> MemorySource
        requires { 0 < piece }
        ensures { result ≡ record { left = bytes.items; piece = piece; failing = failing.items; calls = 0; faults = 0 } }
    {
        MemorySource {
            bytes: SteadySource::new(bytes),
            piece,
            calls: Calls::new(failing),
        }
    }
}

impl Source for MemorySource {
    ghost use Rattle.std.specs.Prelude.{Some};

    ghost rest = { λ source. Some source.left };

    ghost faults = { λ source. source.faults };

    fn read(&mut self, into: &mut [u8]) -> Result<usize, ReadFailed>
        ensures bound { IfOk result (λ count. count ≤ length into.new) }
        ensures taken { IfOk result (λ count. Takes (Some self.old.left) (Some self.new.left) (take count into.new)) }
        ensures end { IfOk result (λ count. 0 < length into.new → (count ≡ 0) ↔ (self.old.left ≡ [])) }
        ensures stays { OnErr result (self.new.left ≡ self.old.left) }
        ensures cause { Blames (IsErr result) self.old.faults self.new.faults }
        // It fails if its number is listed, and otherwise gives all that fits into a piece.
        ensures fails { IsErr result ↔ NextIsListed self.old.failing self.old.calls }
        ensures count { IfOk result (λ count. count ≡ given self.old (length into.old)) }
        ensures following { MatchResult result
            (λ count. drop count into.new ≡ drop count into.old) (λ _. into.new ≡ into.old) }
        ensures given { IfOk result (λ count. self.new ≡ after_read self.old count) }
        ensures failed { OnErr result (self.new ≡ after_failed_read self.old) }
    {
        if self.calls.next_fails() {
            return Err(ReadFailed);
        }
        let most = into.len().min(self.piece);
        self.bytes.read(&mut into[..most])
    }
}
