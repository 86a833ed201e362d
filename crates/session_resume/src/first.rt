//! The first part of an input: the journal or checkpoint to resume from.
ghost use Rattle.std.specs.Prelude.{◌≤◌, ◌<◌, ◌^◌, ◌≡◌, IfOk, IfErr, IfSome, drop, length, ℕ, List};
ghost use Rattle.wire_records.specs.Grammars.{BeginsWith};
ghost use Rattle.wire_records.specs.declared.version.Version.{Version};
ghost use Rattle.journal_records.specs.Formats.{journals};
ghost use Rattle.market_snapshot.specs.Checkpoints.{HasCheckpointMagic};
ghost use Rattle.session_resume.specs.Firsts.{Whole, IsFirst};
ghost use Rattle.session_resume.specs.Private.{IsFirstFault};

use file_units::Ending;
use journal_records::{JOURNAL_MAGIC, journal_version};
use journal_replay::{PairFault, audit_pairs};
use market_core::Market;
use market_snapshot::{CHECKPOINT_MAGIC, SnapshotFault, read_market};
use std::alloc::Global;
use wire_records::Version;

/// What an input is resumed from.
#[derive(Clone, Copy, PartialEq, Eq)]
pub enum Origin {
    /// A journal, up to the end of its last complete entry.
    Journal,
    /// A checkpoint.
    Checkpoint,
}

/// Why an input can't be resumed from.
#[derive(Clone, Copy, PartialEq, Eq)]
pub enum Unfit {
    /// The entry of this number, counted from 1, isn't valid.
    Illegal(u64),
    /// The input begins as a checkpoint, and is none of a consistent market.
    NoCheckpoint,
}

// Why an input has no first part to resume from.
#[derive(Clone, Copy)]
pub(crate) enum FirstFault {
    Neither,
    NoCheckpoint,
    Illegal(u64),
    Memory,
}

// The first part, to resume from: what it is, its market, and where it ends.
#[derive(Drop)]
pub(crate) struct FirstPart {
    pub(crate) origin: Origin,
    pub(crate) market: Market,
    pub(crate) place: usize,
}

// Audits a journal up to the end of its last complete entry.
fn journal_part(alloc: Global, version: Version, bytes: &[u8]) -> Result<FirstPart, FirstFault>
    requires begins { (body : List ℕ) × BeginsWith journals.magics bytes.now version body }
    ensures first { IfOk result (λ part. IsFirst bytes.now
        (Whole part.origin part.market part.place (drop part.place bytes.now))) }
    ensures inside { IfOk result (λ part. part.place ≤ length bytes.now) }
    ensures numbers { IfOk result (λ part. part.market.next_order < 2 ^ 63) }
    ensures fault { IfErr result (IsFirstFault bytes.now) }
{
    match audit_pairs(alloc, version, bytes, JOURNAL_MAGIC.len(), false) {
        Ok(found) => match found.ending {
            Ending::End => Ok(FirstPart {
                origin: Origin::Journal,
                market: found.market,
                place: bytes.len(),
            }),
            Ending::Torn(place) => Ok(FirstPart {
                origin: Origin::Journal,
                market: found.market,
                place: place as usize,
            }),
            Ending::TooLong => unreachable!(),
        },
        Err(PairFault::Illegal(number)) => Err(FirstFault::Illegal(number)),
        Err(PairFault::Memory) => Err(FirstFault::Memory),
    }
}

// Restores the market of a checkpoint.
fn checkpoint_part(alloc: Global, bytes: &[u8]) -> Result<FirstPart, FirstFault>
    requires begins { HasCheckpointMagic bytes.now }
    ensures first { IfOk result (λ part. IsFirst bytes.now
        (Whole part.origin part.market part.place (drop part.place bytes.now))) }
    ensures inside { IfOk result (λ part. part.place ≤ length bytes.now) }
    ensures numbers { IfOk result (λ part. part.market.next_order < 2 ^ 63) }
    ensures fault { IfErr result (IsFirstFault bytes.now) }
{
    match read_market(alloc, bytes) {
        Ok((market, place)) => Ok(FirstPart {
            origin: Origin::Checkpoint,
            market,
            place,
        }),
        Err(SnapshotFault::NotSound) => Err(FirstFault::NoCheckpoint),
        Err(SnapshotFault::Memory) => Err(FirstFault::Memory),
    }
}

// Returns the first part of an input.
pub(crate) fn first_part(alloc: Global, bytes: &[u8]) -> Result<FirstPart, FirstFault>
    ensures first { IfOk result (λ part. IsFirst bytes.now
        (Whole part.origin part.market part.place (drop part.place bytes.now))) }
    ensures inside { IfOk result (λ part. part.place ≤ length bytes.now) }
    ensures numbers { IfOk result (λ part. part.market.next_order < 2 ^ 63) }
    ensures fault { IfErr result (IsFirstFault bytes.now) }
{
    if let Some(version) = journal_version(bytes) {
        return journal_part(alloc, version, bytes);
    }
    if bytes.starts_with(&CHECKPOINT_MAGIC) {
        return checkpoint_part(alloc, bytes);
    }
    Err(FirstFault::Neither)
}
