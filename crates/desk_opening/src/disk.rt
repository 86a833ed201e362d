//! Whether a disk begins as an input does.
ghost use Rattle.std.specs.Prelude.{◌≡◌, ◌⊎◌, ◌↔◌, ℕ, List, length, option_map, Some, Err, IsTrue, IfOk, IfSome, OnErr, IsErrOf};
ghost use Rattle.flow_io.specs.Faults.{Blames};
ghost use Rattle.market_history.specs.Histories.{Start};
ghost use Rattle.journal_disk.specs.Ahead.{IsPiece};
ghost use Rattle.journal_disk.specs.Looking.{OnlyLooks};
ghost use Rattle.journal_keeping.specs.Beginning.{IsStored};
ghost use Rattle.desk_opening.specs.Beginnings.{IsBeginning, TellsBeginning};
ghost use Rattle.desk_opening.specs.Private.{checkpoint_of};

use crate::beginning::Beginning;
use disk_edge::Disk;
use journal_disk::{Ahead, DiskFault, DiskJournal};
use wire_records::Version;

// The bytes of a stored entry's length.
const HEAD: usize = 4;

// Returns the checkpoint of a first entry as it is stored, if anything is stored.
fn checkpoint_in(stored: &[u8]) -> Option<&[u8]>
    ensures { (begin : Start) → IsStored begin stored.now → option_map (λ checkpoint. checkpoint.now) result ≡ checkpoint_of begin }
{
    if stored.len() <= HEAD {
        return None;
    }
    Some(&stored[HEAD..stored.len() - 1])
}

// Returns whether an entry of so many bytes, which begins with a checkpoint, is just that.
fn is_just(count: usize, checkpoint: &[u8]) -> bool
    ensures { IsTrue result ↔ (count ≡ length checkpoint.now) }
{
    count == checkpoint.len()
}

/// Returns whether a disk of a version begins as an input does: with the same checkpoint, byte for byte, or both without one and in the same version.
/// `journal` is at the disk's first entry that is one of the journal, as [`first_market`](journal_keeping::first_market) finds it.
///
/// `Failed` comes only if the disk's count of faults rose, and `Memory` at any time. Changes nothing of the disk. Reads nothing if the input begins
/// without a checkpoint; else the first entry of the disk is read ahead whole, if it begins with the checkpoint.
pub fn begins_so<D: Disk>(
    disk: &mut D,
    ahead: &mut Ahead,
    journal: &DiskJournal,
    version: Version,
    beginning: &Beginning,
) -> Result<bool, DiskFault>
    requires piece { IfSome (D.state disk.old).content (IsPiece ahead.old) }
    ensures tells { IfOk result (λ same. (bytes : List ℕ) (begin : Start) → (D.state disk.old).content ≡ Some bytes →
        IsBeginning begin beginning.now.market beginning.now.stored.items → TellsBeginning same begin version bytes journal.now (D.state disk.old)) }
    ensures piece { IfSome (D.state disk.new).content (IsPiece ahead.new) }
    ensures refused { OnErr result ((result ≡ Err DiskFault.Failed) ⊎ (result ≡ Err DiskFault.Memory)) }
    ensures looks { OnlyLooks (D.state disk.old) (D.state disk.new) }
    ensures cause { Blames (IsErrOf result DiskFault.Failed) (D.state disk.old).faults (D.state disk.new).faults }
{
    if version.number() != beginning.market.version().number() {
        return Ok(false);
    }
    let checkpoint = match checkpoint_in(&beginning.stored) {
        Some(checkpoint) => checkpoint,
        None => return Ok(journal.is_first()),
    };
    match DiskJournal::after_magic().find_first(disk, ahead, checkpoint) {
        Ok(Some(count)) => Ok(is_just(count, checkpoint)),
        Ok(None) => Ok(false),
        Err(fault) => Err(fault),
    }
}
