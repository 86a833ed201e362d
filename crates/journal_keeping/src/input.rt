//! The input of a call that keeps a journal, whatever is in it: how its beginning is taken.
ghost use Rattle.std.specs.Prelude.{◌≡◌, ◌≤◌, ◌+◌, ◌^◌, Some, None, Err, IsErr, IfOk, IfErr};
ghost use Rattle.flow_io.specs.Faults.{Blames};
ghost use Rattle.flow_io.specs.Streams.{TakesAtMost};
ghost use Rattle.market_history.specs.Histories.{Empty};
ghost use Rattle.journal_keeping.specs.Taking.{NotTaken, IsAfterStart};
ghost use Rattle.journal_keeping.specs.Lengths.{most_input};
ghost use Rattle.journal_keeping.specs.Beginning.{TakesStart};

use crate::fault::InputFault;
use flow_io::Source;
use market_core::Market;
use std::alloc::Global;
use wire_records::Version;

/// An input for a new disk: its beginning was taken.
#[derive(Drop)]
pub struct NewInput<I> {
    /// The input, after its beginning.
    pub input: I,
    /// The market in which the journal begins.
    pub market: Market,
    /// The first entry of the disk as it is stored, which has no bytes if there is no checkpoint.
    pub stored: Vec<u8>,
}

/// An input whose commands are served and kept, with the window through which it is read.
pub trait Input {
    ghost use Rattle.std.specs.Prelude.{Option, List, ℕ};
    ghost use Rattle.flow_io.specs.Windows.{WindowState};
    ghost use Rattle.journal_keeping.specs.Taking.{InputFormat};

    // How it begins.
    ghost format: { InputFormat };

    ghost window: { Self → WindowState };
    // It can be read on, if this is left of its source.
    ghost is_open: { Self → Option (List ℕ) → Type 0 };

    /// Takes the beginning of an input for a disk of a version. `Memory` comes before anything is read.
    fn open_as<S: Source>(
        alloc: Global,
        limit: u64,
        source: &mut S,
        version: Version,
    ) -> Result<Self, InputFault>
        requires few { limit ≤ most_input }
        ensures opens { IfOk result (λ input. IsAfterStart format limit (Empty version) (window input) (S.rest source.old) (S.rest source.new)) }
        ensures opened { IfOk result (λ input. is_open input (S.rest source.new)) }
        ensures fails { IfErr result (NotTaken format limit (Some version) (S.rest source.old) (S.rest source.new)) }
        ensures taken { IsErr result → TakesAtMost (S.rest source.old) (S.rest source.new) (limit + 1) }
        ensures cause { Blames (result ≡ Err InputFault.Read) (S.faults source.old) (S.faults source.new) };

    /// Takes the beginning of an input for a new disk. `Memory` comes before anything is read, or for a checkpoint.
    fn open_first<S: Source>(
        alloc: Global,
        limit: u64,
        source: &mut S,
    ) -> Result<NewInput<Self>, InputFault>
        requires few { limit ≤ most_input }
        ensures opens { IfOk result (λ new. TakesStart format limit new.market new.stored.items (window new.input) (S.rest source.old) (S.rest source.new)) }
        ensures opened { IfOk result (λ new. is_open new.input (S.rest source.new)) }
        ensures numbers { IfOk result (λ new. new.market.next_order ≤ 2 ^ 63) }
        ensures fails { IfErr result (NotTaken format limit None (S.rest source.old) (S.rest source.new)) }
        ensures taken { IsErr result → TakesAtMost (S.rest source.old) (S.rest source.new) (limit + 1) }
        ensures cause { Blames (result ≡ Err InputFault.Read) (S.faults source.old) (S.faults source.new) };
}
