//! Laws of a journal that `keep` or `serve` keeps, and of its entries and output: they keep the promises of the exchange, and the bytes of FILE and of the
//! input determine them.
//!
//! Each law is the contract of a function that does nothing. No code depends on them.
#![tactic(auto)]

ghost use Rattle.kept_laws.specs.Laws.{KeptJournalsKeepPromises, SomeKeptJournal, OneKeptOutput, OneServedOutput, KeptBegunIsAPrefix, ServedBegunIsAPrefix};

use disk_edge::Disk;

/// A kept journal leads to a consistent market, which holds what its entries deposited, and its entries keep the promises of the exchange, from the
/// market on in which it begins.
pub fn kept_journals_keep_promises()
    ensures { KeptJournalsKeepPromises }
{}

/// Each beginning and the records of each command file have a kept journal, while the numbers of its orders fit into 64 bits.
pub fn some_kept_journal()
    ensures { SomeKeptJournal }
{}

/// The bytes of FILE and of the input lead `keep` to one result, one output and one list of entries, unless it fails; for any two states of a disk.
pub fn one_kept_output<D: Disk>(_end: &D, _other: &D)
    ensures { OneKeptOutput (D.state _end.now) (D.state _other.now) }
{}

/// So they do `serve`.
pub fn one_served_output<D: Disk>(_end: &D, _other: &D)
    ensures { OneServedOutput (D.state _end.now) (D.state _other.now) }
{}

/// What `keep` wrote before a failure is a prefix of what it writes of the same bytes of FILE and of the input if it doesn't fail.
pub fn kept_begun_is_a_prefix<D: Disk>(_start: &D, _end: &D, _other: &D)
    ensures { KeptBegunIsAPrefix (D.state _start.now) (D.state _end.now) (D.state _other.now) }
{}

/// What `serve` wrote before a failure is such a prefix too.
pub fn served_begun_is_a_prefix<D: Disk>(_start: &D, _end: &D, _other: &D)
    ensures { ServedBegunIsAPrefix (D.state _start.now) (D.state _end.now) (D.state _other.now) }
{}
