//! How a disk begins that is opened: with a first entry that holds a checkpoint, or without one.
ghost use Rattle.std.specs.Prelude.{◌≡◌, ◌≤◌, ◌<◌, ◌+◌, ◌^◌, ◌⊎◌, ℕ, List, [], Some, None, Err, IfSome, IfOk, IfErr, OnOk, OnErr};
ghost use Rattle.flow_io.specs.Faults.{Blames};
ghost use Rattle.market_rules.specs.Market.{Market as market_value};
ghost use Rattle.market_snapshot.specs.Checkpoints.{IsCheckpoint};
ghost use Rattle.journal_disk.specs.Entries.{Holds};
ghost use Rattle.journal_disk.specs.Ahead.{IsPiece};
ghost use Rattle.journal_disk.specs.Looking.{OnlyLooks};
ghost use Rattle.journal_keeping.specs.Beginning.{BeginsAt, StopsFirst};

use crate::fault::OpenFault;
use crate::version::is_same;
use disk_edge::Disk;
use journal_disk::{Ahead, DiskJournal};
use market_core::Market;
use market_snapshot::{CHECKPOINT_MAGIC, SnapshotFault, read_market};
use std::alloc::Global;
use wire_records::Version;

// The place of the first commit byte.
const FIRST: u64 = 8;

// Returns the market of a first entry that holds a checkpoint of a version.
fn checkpoint_market(alloc: Global, bytes: &[u8], version: Version) -> Result<Market, OpenFault>
    ensures one { IfOk result (λ market. IsCheckpoint market bytes.now × (market.version ≡ version)) }
    ensures none { IfErr result (λ fault. fault ≡ OpenFault.Damaged 8 →
        (market : market_value) → IsCheckpoint market bytes.now → market.version ≡ version → ⊥) }
    ensures refused { IfErr result (λ fault. (fault ≡ OpenFault.Damaged 8) ⊎ (fault ≡ OpenFault.Memory)) }
{
    match read_market(alloc, bytes) {
        Ok((market, taken)) => {
            if taken < bytes.len() {
                return Err(OpenFault::Damaged(FIRST));
            }
            if !is_same(market.version(), version) {
                return Err(OpenFault::Damaged(FIRST));
            }
            Ok(market)
        }
        Err(SnapshotFault::NotSound) => Err(OpenFault::Damaged(FIRST)),
        Err(SnapshotFault::Memory) => Err(OpenFault::Memory),
    }
}

/// Returns the market in which a disk of a version begins, and moves the reading to its first entry that is one of the journal: the market of
/// the first entry, if that begins with the magic of a checkpoint, and else the empty market of the version.
///
/// `Damaged` with the place 8: what such a first entry holds isn't just the checkpoint of a consistent market of the version. `Disk` comes only
/// if the disk's count of faults rose, and `Memory` at any time. Changes nothing of the disk. Costs what reading a checkpoint costs, which is
/// held once, beside its market, and no longer than until the call returns.
pub fn first_market<D: Disk>(
    alloc: Global,
    journal: &mut DiskJournal,
    disk: &mut D,
    ahead: &mut Ahead,
    version: Version,
) -> Result<Market, OpenFault>
    requires first { journal.old ≡ 8 }
    requires piece { IfSome (D.state disk.old).content (IsPiece ahead.old) }
    ensures begins { IfOk result (λ market. (rest bytes : List ℕ) → (D.state disk.old).content ≡ Some bytes →
        Holds (record { version = version; first = None }) [] 8 rest (D.state disk.old) → BeginsAt version bytes market journal.new (D.state disk.new)) }
    ensures stops { IfErr result (λ fault. (rest bytes : List ℕ) → (D.state disk.old).content ≡ Some bytes →
        Holds (record { version = version; first = None }) [] 8 rest (D.state disk.old) → StopsFirst fault bytes) }
    ensures refused { IfErr result (λ fault. (fault ≡ OpenFault.Disk) ⊎ ((fault ≡ OpenFault.Memory) ⊎ (fault ≡ OpenFault.Damaged 8))) }
    ensures piece { IfSome (D.state disk.new).content (IsPiece ahead.new) }
    ensures near { IfOk result (λ market. (market.next_order ≤ 2 ^ 63) × (journal.new ≤ 2 ^ 60)) }
    ensures looks { OnlyLooks (D.state disk.old) (D.state disk.new) }
    ensures cause { Blames (result ≡ Err OpenFault.Disk) (D.state disk.old).faults (D.state disk.new).faults }
{
    match journal.find_first(disk, ahead, &CHECKPOINT_MAGIC) {
        Ok(Some(count)) => match checkpoint_market(alloc, journal.first(ahead, count), version) {
            Ok(market) => {
                journal.pass(count);
                ahead.forget(alloc);
                Ok(market)
            }
            Err(fault) => Err(fault),
        },
        Ok(None) => Ok(Market::new_in(alloc, version)),
        Err(fault) => Err(OpenFault::from(fault)),
    }
}
