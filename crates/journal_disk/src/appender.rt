ghost use Rattle.std.specs.Prelude.{◌≡◌, ◌≤◌, ◌+◌, ◌^◌, ◌++◌, [], ◌∷◌, List, length, IfSome, IsSome, ◌↔◌, IfOk, OnOk, OnErr, Err, IsErr, IsErrOf, ℕ, Some, None};
ghost use Rattle.std.specs.List.{flat_map, AllByRecursion};
ghost use Rattle.journal_disk.specs.Pairs.{RecordPair, IsRecordPair, pair_bytes, IsWholePair};
ghost use Rattle.disk_edge.specs.Disks.{AtEachMoment};
ghost use Rattle.disk_edge.specs.Images.{LeavesOnly};
ghost use Rattle.journal_disk.specs.Entries.{Head, entry, most_unkept, IsNewDisk, WithOrWithout, Keeps};
ghost use Rattle.journal_disk.specs.Lengths.{ReachesAtMost};
ghost use Rattle.flow_io.specs.Faults.{Blames};

use crate::DiskFault;
use crate::calls::{clear, make_new, set_commit, write_synced};
use crate::group::{Group, put_stored};
use crate::pairs::LONGEST_PAIR;
use disk_edge::{Disk, DiskFailed};
use std::alloc::{AllocError, Global};
use std::marker::Model;

/// Appends entries to those that a disk keeps. Contracts see it as the place of the unset commit byte after them.
#[derive(Drop)]
pub struct Appender {
    pub(crate) place: u64,
    entry: Vec<u8>,
}

impl Model for Appender {
    ghost use Rattle.std.specs.Prelude.{◌≤◌, ◌+◌, ℕ, vec_capacity};
    ghost use Rattle.journal_records.specs.Pairs.{longest_pair};

    ghost Value = { ℕ };

    ghost view = { λ appender. appender.place };

    ghost invariant = { λ appender. longest_pair + 5 ≤ vec_capacity appender.entry };
}

// Writes stored entries after the unset commit byte at a place, and then sets that byte. The bytes are those that are
// stored of the entries, without the set commit byte before the first, and an unset one. At Ok that outlasts a crash.
fn append_stored<D: Disk>(disk: &mut D, place: u64, bytes: &[u8]) -> Result<(), DiskFailed>
    requires short { length bytes.now ≤ most_unkept }
    requires room { place ≤ 2 ^ 61 }
    requires kept { IfSome (D.state disk.old).content
        (λ _. (head : Head) × (pairs : List RecordPair) × Keeps head pairs place (D.state disk.old)) }
    ensures kept { OnOk result ((head : Head) (pairs more : List RecordPair) →
        Keeps head pairs place (D.state disk.old) → AllByRecursion IsRecordPair more → 1 ∷ bytes.now ≡ flat_map entry more ++ 0 ∷ [] →
        Keeps head (pairs ++ more) (place + length bytes.now) (D.state disk.new)) }
    ensures moments { (head : Head) (pairs more : List RecordPair) →
        Keeps head pairs place (D.state disk.old) → AllByRecursion IsRecordPair more → 1 ∷ bytes.now ≡ flat_map entry more ++ 0 ∷ [] →
        AtEachMoment (D.state disk.old) (D.state disk.new) (WithOrWithout head pairs more) }
    ensures lengths { ReachesAtMost (place + (1 + length bytes.now)) (D.state disk.old) (D.state disk.new) }
    ensures told { OnOk result (IsSome (D.state disk.new).content ↔ IsSome (D.state disk.old).content) }
    ensures cause { Blames (IsErr result) (D.state disk.old).faults (D.state disk.new).faults }
{
    write_synced(disk, place + 1, bytes)?;
    set_commit(disk, place)?;
    Ok(())
}

impl Appender {
    // Makes an appender at this place. It takes the memory of a stored entry.
    pub(crate) fn at(alloc: Global, place: u64) -> Result<Appender, AllocError>
        ensures { IfOk result (λ appender. appender ≡ place) }
    {
        Ok(Appender {
            place,
            entry: Vec::with_capacity(alloc, 5 + LONGEST_PAIR as usize)?,
        })
    }

    /// Makes an appender for a new disk, to which [`make`](Appender::make) gives a version. It takes the memory of a
    /// stored entry.
    pub fn for_new(alloc: Global) -> Result<Appender, AllocError>
        ensures { IfOk result (λ appender. appender ≡ 8) }
    {
        Appender::at(alloc, 8)
    }

    /// Gives a version to a new disk, by the magic and an unset commit byte. What a new disk of more than 9 bytes held
    /// is cut off before. A crash at any moment leaves a new disk. The only error is `Failed`, and only if the disk's
    /// count rose. Takes no memory.
    pub fn make<D: Disk>(
        &mut self,
        disk: &mut D,
        version: wire_records::Version,
    ) -> Result<(), DiskFault>
        requires new { IfSome (D.state disk.old).content IsNewDisk }
        requires first { self.old ≡ 8 }
        ensures keeps { OnOk result (IfSome (D.state disk.old).content (λ _. Keeps (record { version = version; first = None }) [] self.new (D.state disk.new))) }
        ensures moments { (bytes : List ℕ) → (D.state disk.old).content ≡ Some bytes → LeavesOnly (D.state disk.old).images bytes →
            AtEachMoment (D.state disk.old) (D.state disk.new) IsNewDisk }
        ensures lengths { ReachesAtMost 9 (D.state disk.old) (D.state disk.new) }
        ensures told { OnOk result (IsSome (D.state disk.new).content ↔ IsSome (D.state disk.old).content) }
        ensures place { self.new ≡ 8 }
        ensures failed { OnErr result (result ≡ Err DiskFault.Failed) }
        ensures cause { Blames (IsErrOf result DiskFault.Failed) (D.state disk.old).faults (D.state disk.new).faults }
    {
        clear(disk)?;
        make_new(disk, version)?;
        Ok(())
    }

    /// Appends the bytes of one complete entry. At Ok it is acknowledged: from then on a crash leaves it. A crash at
    /// any moment before leaves the entries that were kept, with this one or without. The only error is `Failed`, and
    /// only if the disk's count rose; the disk is then to be opened again. Takes no memory. The place is at most 2^61.
    pub fn append<D: Disk>(&mut self, disk: &mut D, pair: &[u8]) -> Result<(), DiskFault>
        requires pair { IsWholePair pair.now }
        requires room { self.old ≤ 2 ^ 61 }
        requires kept { IfSome (D.state disk.old).content
            (λ _. (head : Head) × (pairs : List RecordPair) × Keeps head pairs self.old (D.state disk.old)) }
        ensures kept { OnOk result ((head : Head) (pairs : List RecordPair) (last : RecordPair) →
            Keeps head pairs self.old (D.state disk.old) → IsRecordPair last → pair.now ≡ pair_bytes last →
            Keeps head (pairs ++ last ∷ []) self.new (D.state disk.new)) }
        ensures moments { (head : Head) (pairs : List RecordPair) (last : RecordPair) →
            Keeps head pairs self.old (D.state disk.old) → IsRecordPair last → pair.now ≡ pair_bytes last →
            AtEachMoment (D.state disk.old) (D.state disk.new) (WithOrWithout head pairs (last ∷ [])) }
        ensures lengths { ReachesAtMost (self.old + (6 + length pair.now)) (D.state disk.old) (D.state disk.new) }
        ensures told { OnOk result (IsSome (D.state disk.new).content ↔ IsSome (D.state disk.old).content) }
        ensures place { OnOk result (self.new ≡ self.old + (5 + length pair.now)) }
        ensures failed { OnErr result (result ≡ Err DiskFault.Failed) }
        ensures cause { Blames (IsErrOf result DiskFault.Failed) (D.state disk.old).faults (D.state disk.new).faults }
    {
        self.entry.clear();
        put_stored(&mut self.entry, pair);
        append_stored(disk, self.place, &self.entry)?;
        self.place += 5 + pair.len() as u64;
        Ok(())
    }

    /// Appends the entries of a group together, by as many syncs as one entry: two. At Ok they are acknowledged: from
    /// then on a crash leaves them. A crash at any moment before leaves the entries that were kept, with all of the
    /// group or with none of it. An empty group does nothing. The only error is `Failed`, and only if the disk's count
    /// rose; the disk is then to be opened again. Takes no memory. At most 2^21 bytes are stored of the group, and the
    /// place is at most 2^61.
    pub fn append_group<D: Disk>(&mut self, disk: &mut D, group: &Group) -> Result<(), DiskFault>
        requires short { length group.now ≤ most_unkept }
        requires room { self.old ≤ 2 ^ 61 }
        requires kept { IfSome (D.state disk.old).content
            (λ _. (head : Head) × (pairs : List RecordPair) × Keeps head pairs self.old (D.state disk.old)) }
        ensures kept { OnOk result ((head : Head) (pairs more : List RecordPair) →
            Keeps head pairs self.old (D.state disk.old) → AllByRecursion IsRecordPair more → group.now ≡ flat_map entry more →
            Keeps head (pairs ++ more) self.new (D.state disk.new)) }
        ensures moments { (head : Head) (pairs more : List RecordPair) →
            Keeps head pairs self.old (D.state disk.old) → AllByRecursion IsRecordPair more → group.now ≡ flat_map entry more →
            AtEachMoment (D.state disk.old) (D.state disk.new) (WithOrWithout head pairs more) }
        ensures lengths { ReachesAtMost (self.old + (1 + length group.now)) (D.state disk.old) (D.state disk.new) }
        ensures told { OnOk result (IsSome (D.state disk.new).content ↔ IsSome (D.state disk.old).content) }
        ensures place { OnOk result (self.new ≡ self.old + length group.now) }
        ensures failed { OnErr result (result ≡ Err DiskFault.Failed) }
        ensures cause { Blames (IsErrOf result DiskFault.Failed) (D.state disk.old).faults (D.state disk.new).faults }
    {
        if group.is_empty() {
            return Ok(());
        }
        append_stored(disk, self.place, group.after_commit())?;
        self.place += group.len() as u64;
        Ok(())
    }
}
