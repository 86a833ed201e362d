//! Reads the entries that a disk keeps, and audits one after the other.
ghost use Rattle.std.specs.Prelude.{◌≡◌, ◌≤◌, ◌<◌, ◌+◌, ◌^◌, ◌⊎◌, ℕ, List, [], length, map, Some, Err, IfSome, IfOk, IfErr, OnOk};
ghost use Rattle.flow_io.specs.Faults.{Blames};
ghost use Rattle.wire_records.specs.Records.{Record};
ghost use Rattle.wire_records.specs.Commands.{Pair};
ghost use Rattle.flow_orders.specs.Outcomes.{Outcome};
ghost use Rattle.journal_records.specs.Formats.{records_of};
ghost use Rattle.market_history.specs.Histories.{Start, market_of, CanStart};
ghost use Rattle.batch_audit.specs.Legal.{IsLegalPair, IsIllegalPair};
ghost use Rattle.journal_disk.specs.Entries.{Holds, EndsAt};
ghost use Rattle.journal_disk.specs.Ahead.{IsPiece};
ghost use Rattle.journal_disk.specs.Looking.{OnlyLooks};
ghost use Rattle.journal_keeping.specs.Starts.{head_of};
ghost use Rattle.journal_keeping.specs.Keeping.{IsKeptJournal};
ghost use Rattle.journal_keeping.specs.Auditing.{StopsAs};

use crate::fault::OpenFault;
use batch_audit::{Audit, Legality};
use disk_edge::Disk;
use journal_disk::{Ahead, DiskJournal};
use journal_records::PairView;

// Audits a kept entry, which has this number.
fn judge(audit: &mut Audit, pair: &PairView<'_>, number: u64) -> Result<(), OpenFault>
    requires next { audit.old.next_order + 1 < 2 ^ 64 }
    ensures legal { OnOk result (IsLegalPair audit.old pair.now audit.new) }
    ensures next { OnOk result (audit.new.next_order ≤ audit.old.next_order + 1) }
    ensures illegal { result ≡ Err (OpenFault.Rejected number) → IsIllegalPair audit.old pair.now }
    ensures refused { IfErr result (λ fault. (fault ≡ OpenFault.Rejected number) ⊎ (fault ≡ OpenFault.Memory)) }
{
    match audit.pair(pair) {
        Ok(Legality::Legal) => Ok(()),
        Ok(Legality::Illegal) => Err(OpenFault::Rejected(number)),
        Err(_) => Err(OpenFault::Memory),
    }
}

/// Reads the entries that a disk keeps and audits one after the other, up to the first commit byte that isn't set, and returns how many
/// there are. At `Ok` all of them are a valid journal, whose market the audit has, and at most 2^21 bytes follow that commit byte. The audit
/// has to be at the market in which the disk begins, and the journal after its magic, or after its first entry if that holds a checkpoint.
///
/// `Damaged` has the place of the first commit byte that is missing, is set without a complete entry after it, or isn't set and has more
/// than 2^21 bytes after it; `Rejected` has the number of the first entry that isn't valid, counted from 1. `Disk` comes only if the disk's
/// count of faults rose; `Memory` may come at any time. The disk isn't changed. It is read in pieces of 65,536 bytes, and each entry is
/// audited in place. Costs the audit of the entries, and memory for a piece, which grows to the longest of them.
pub fn audit_kept<D: Disk>(
    journal: &mut DiskJournal,
    disk: &mut D,
    ahead: &mut Ahead,
    audit: &mut Audit,
) -> Result<u64, OpenFault>
    requires next { audit.old.next_order ≤ journal.old + 2 ^ 63 }
    requires piece { IfSome (D.state disk.old).content (IsPiece ahead.old) }
    ensures ends { IfOk result (λ count. (begin : Start) (rest : List ℕ) → CanStart begin → audit.old ≡ market_of begin →
        Holds (head_of begin) [] journal.old rest (D.state disk.old) →
        (legal : List (Pair Record Outcome)) × (count ≡ length legal) × IsKeptJournal begin legal audit.new × EndsAt (head_of begin) (map records_of legal) journal.new (D.state disk.new)) }
    ensures stops { IfErr result (λ fault. (begin : Start) (rest bytes : List ℕ) → CanStart begin → audit.old ≡ market_of begin →
        Holds (head_of begin) [] journal.old rest (D.state disk.old) → (D.state disk.old).content ≡ Some bytes → StopsAs begin fault bytes) }
    ensures next { OnOk result (audit.new.next_order ≤ journal.new + 2 ^ 63) }
    ensures few { IfOk result (λ count. count ≤ journal.new) }
    ensures looks { OnlyLooks (D.state disk.old) (D.state disk.new) }
    ensures cause { Blames (result ≡ Err OpenFault.Disk) (D.state disk.old).faults (D.state disk.new).faults }
{
    let mut number: u64 = 0;
    'pairs: loop {
        match journal.find(disk, ahead) {
            Ok(None) => return Ok(number),
            Ok(Some(count)) => match journal.take(ahead, count) {
                Ok(pair) => {
                    number = number.saturating_add(1);
                    judge(audit, &pair, number)?;
                }
                Err(fault) => return Err(OpenFault::from(fault)),
            },
            Err(fault) => return Err(OpenFault::from(fault)),
        }
    }
}
