//! The replay of a complete journal in memory.
ghost use Rattle.journal_replay.specs.Replays.{IsReplayed};

use crate::auditing::{PairFault, audit_pairs};
use file_units::Ending;
use journal_records::{JOURNAL_MAGIC, journal_version};
use market_core::Market;
use std::alloc::Global;
use thiserror::Error;

/// Why a replay of bytes gives no market.
#[derive(Clone, Copy, Debug, PartialEq, Eq, Error)]
pub enum ReplayFault {
    /// The bytes are no journal: they don't begin with the magic of a version.
    #[error("not a journal")]
    NotJournal,
    /// The bytes end within an entry or state too long a record; the broken entry begins at this byte, from 0.
    #[error("torn at byte {0}")]
    Torn(u64),
    /// The entry of this number, counted from 1, isn't valid.
    #[error("pair {0} is not legal")]
    Illegal(u64),
    /// There is no memory for what an entry adds to the market, or for the audit of its batch.
    #[error("no memory")]
    Memory,
}

/// Returns the market that a journal makes, of the journal's version: `Ok` exactly for the bytes of a valid journal,
/// unless memory runs out, no matter who wrote it.
///
/// Returns `NotJournal` exactly if the first 8 bytes are the magic of no version; `Torn` or `Illegal` if an entry isn't
/// complete or isn't valid, whichever comes first in the bytes; `Memory` only after valid entries at one whose command
/// adds an asset, an account or an order or holds a batch, and that no refusal stops. Each entry is read in place, at
/// the cost of its audit.
pub fn replay(alloc: Global, bytes: &[u8]) -> Result<Market, ReplayFault>
    ensures { IsReplayed bytes.now result }
{
    let version = match journal_version(bytes) {
        None => return Err(ReplayFault::NotJournal),
        Some(version) => version,
    };
    match audit_pairs(alloc, version, bytes, JOURNAL_MAGIC.len(), false) {
        Ok(found) => match found.ending {
            Ending::End => Ok(found.market),
            Ending::Torn(place) => Err(ReplayFault::Torn(place)),
            Ending::TooLong => unreachable!(),
        },
        Err(PairFault::Illegal(number)) => Err(ReplayFault::Illegal(number)),
        Err(PairFault::Memory) => Err(ReplayFault::Memory),
    }
}
