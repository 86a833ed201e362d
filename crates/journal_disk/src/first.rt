//! The first entry of a disk, if it holds something else than an entry of the journal.
ghost use Rattle.std.specs.Prelude.{◌≡◌, ◌⊎◌, ◌≤◌, ◌<◌, ◌+◌, ◌^◌, ◌++◌, ℕ, List, [], ◌∷◌, Some, None, length, IfSome, IsSome, ◌↔◌, IsTrue, false, ◌≢◌, IfOk, OnOk, OnErr, Err, IsErrOf, drop, take};
ghost use Rattle.flow_io.specs.Faults.{Blames};
ghost use Rattle.wire_records.specs.declared.version.Version.{Version};
ghost use Rattle.disk_edge.specs.Disks.{AtEachMoment};
ghost use Rattle.journal_disk.specs.Entries.{IsHead, framed, IsNewDisk, HasEntries, Keeps};
ghost use Rattle.journal_disk.specs.Lengths.{ReachesAtMost};
ghost use Rattle.journal_disk.specs.Looking.{OnlyLooks};
ghost use Rattle.journal_disk.specs.Ahead.{IsPiece, HoldsPart, part_of};
ghost use Rattle.journal_disk.specs.Stepping.{FindsFirst};

use crate::ahead::Ahead;
use crate::appender::Appender;
use crate::calls::{OPEN, set_commit, write_synced};
use crate::fault::DiskFault;
use crate::journal::{DiskJournal, MOST_BYTES};
use crate::reading::{byte_at, number_at};
use disk_edge::Disk;
use std::alloc::AllocError;
use wire_fields::{put_u8, put_u32};

// The bytes of an entry's length.
const HEAD: usize = 4;

/// Makes of the bytes of a first entry what is stored of it, in place: the length before them, and an unset commit byte after them.
/// Takes the memory of 5 more bytes, moves the others once, and fails only if there is no memory.
pub fn stored_first(bytes: Vec<u8>) -> Result<Vec<u8>, AllocError>
    requires { length bytes.items < 2 ^ 32 }
    ensures { IfOk result (λ stored. stored.items ≡ framed bytes.items ++ 0 ∷ []) }
{
    let mut stored = bytes;
    let count = stored.len() as u32;
    stored.reserve(HEAD + 1)?;
    put_u32(&mut stored, count);
    stored.rotate_right(HEAD);
    put_u8(&mut stored, 0);
    Ok(stored)
}

impl Appender {
    /// Appends a first entry, as [`stored_first`] puts it together, to a disk that has no entries. At Ok a crash leaves
    /// it. A crash at any moment before leaves a new disk, or the whole first entry. The only error is `Failed`, and
    /// only if the disk's count rose; the disk is then to be opened again. Takes no memory.
    pub fn append_first<D: Disk>(&mut self, disk: &mut D, stored: &[u8]) -> Result<(), DiskFault>
        requires short { length stored.now ≤ 2 ^ 33 }
        requires first { self.old ≡ 8 }
        requires kept { IfSome (D.state disk.old).content
            (λ _. (version : Version) × Keeps (record { version = version; first = None }) [] self.old (D.state disk.old)) }
        ensures kept { OnOk result ((version : Version) (bytes : List ℕ) →
            Keeps (record { version = version; first = None }) [] self.old (D.state disk.old) →
            IsHead (record { version = version; first = Some bytes }) → stored.now ≡ framed bytes ++ 0 ∷ [] →
            Keeps (record { version = version; first = Some bytes }) [] self.new (D.state disk.new)) }
        ensures moments { (version : Version) (bytes : List ℕ) →
            Keeps (record { version = version; first = None }) [] self.old (D.state disk.old) →
            IsHead (record { version = version; first = Some bytes }) → stored.now ≡ framed bytes ++ 0 ∷ [] →
            AtEachMoment (D.state disk.old) (D.state disk.new)
            (λ image. IsNewDisk image ⊎ HasEntries (record { version = version; first = Some bytes }) [] image) }
        ensures lengths { ReachesAtMost (9 + length stored.now) (D.state disk.old) (D.state disk.new) }
        ensures told { OnOk result (IsSome (D.state disk.new).content ↔ IsSome (D.state disk.old).content) }
        ensures place { OnOk result (self.new ≡ 8 + length stored.now) }
        ensures failed { OnErr result (result ≡ Err DiskFault.Failed) }
        ensures cause { Blames (IsErrOf result DiskFault.Failed) (D.state disk.old).faults (D.state disk.new).faults }
    {
        write_synced(disk, self.place + 1, stored)?;
        set_commit(disk, self.place)?;
        self.place += stored.len() as u64;
        Ok(())
    }
}

impl DiskJournal {
    /// Looks for an entry that begins with a magic, whatever else it holds, at the next commit byte: returns the length
    /// that is stated after it, in bytes, if that byte is set and all of the entry is there in the first 2^60; then it is
    /// read ahead. Returns `Failed` only if the disk's count rose, and may return `Memory` at any time. Changes nothing
    /// of the disk.
    pub fn find_first<D: Disk>(
        &self,
        disk: &mut D,
        ahead: &mut Ahead,
        magic: &[u8],
    ) -> Result<Option<usize>, DiskFault>
        requires piece { IfSome (D.state disk.old).content (IsPiece ahead.old) }
        ensures piece { IfSome (D.state disk.new).content (IsPiece ahead.new) }
        ensures found { IfOk result (λ found. IfSome (D.state disk.old).content (FindsFirst found magic.now self.now)) }
        ensures held { IfOk result (λ found. IfSome found (λ count. HoldsPart (self.now + 5) count ahead.new)) }
        ensures within { IfOk result (λ found. IfSome found (λ count. (self.now + (5 + count) ≤ 2 ^ 60) × (count < 2 ^ 32))) }
        ensures refused { OnErr result ((result ≡ Err DiskFault.Failed) ⊎ (result ≡ Err DiskFault.Memory)) }
        ensures looks { OnlyLooks (D.state disk.old) (D.state disk.new) }
        ensures cause { Blames (IsErrOf result DiskFault.Failed) (D.state disk.old).faults (D.state disk.new).faults }
    {
        let place = self.place;
        let end = ahead.size().min(MOST_BYTES);
        if end < place + 5 {
            return Ok(None);
        }
        if byte_at(disk, ahead, place)? != OPEN {
            return Ok(None);
        }
        let count = number_at(disk, ahead, place + 1)?;
        if end - (place + 5) < count as u64 {
            return Ok(None);
        }
        if begins_at(disk, ahead, place + 5, count as usize, magic)? {
            Ok(Some(count as usize))
        } else {
            Ok(None)
        }
    }

    /// Returns the bytes of the entry that [`find_first`](DiskJournal::find_first) has found with this length, in place
    /// in the piece that was read ahead. Constant cost.
    pub fn first<'a>(&self, ahead: &'a Ahead, count: usize) -> &'a [u8]
        requires held { HoldsPart (self.now + 5) count ahead.now }
        ensures { result.now ≡ part_of ahead.now (self.now + 5) count }
    {
        ahead.part(self.place + 5, count)
    }

    /// Moves on past an entry of this length.
    pub fn pass(&mut self, count: usize)
        requires within { self.old + (5 + count) ≤ 2 ^ 60 }
        ensures { self.new ≡ self.old + (5 + count) }
    {
        self.place += 5 + count as u64;
    }
}

// Returns whether the bytes at a place begin with a magic; if they do, so many of them are read ahead.
fn begins_at<D: Disk>(
    disk: &mut D,
    ahead: &mut Ahead,
    place: u64,
    count: usize,
    magic: &[u8],
) -> Result<bool, DiskFault>
    requires inside { place + count ≤ ahead.old.size }
    requires piece { IfSome (D.state disk.old).content (IsPiece ahead.old) }
    ensures piece { IfSome (D.state disk.new).content (IsPiece ahead.new) }
    ensures held { IfOk result (λ begins. IsTrue begins → HoldsPart place count ahead.new) }
    ensures begins { IfOk result (λ begins. IsTrue begins → IfSome (D.state disk.old).content
        (λ bytes. (rest : List ℕ) × (take count (drop place bytes) ≡ magic.now ++ rest))) }
    ensures other { IfOk result (λ begins. begins ≡ false → IfSome (D.state disk.old).content
        (λ bytes. (held rest : List ℕ) → length (magic.now ++ held) ≡ count → drop place bytes ≢ (magic.now ++ held) ++ rest)) }
    ensures size { ahead.new.size ≡ ahead.old.size }
    ensures refused { OnErr result ((result ≡ Err DiskFault.Failed) ⊎ (result ≡ Err DiskFault.Memory)) }
    ensures looks { OnlyLooks (D.state disk.old) (D.state disk.new) }
    ensures cause { Blames (IsErrOf result DiskFault.Failed) (D.state disk.old).faults (D.state disk.new).faults }
{
    if count < magic.len() {
        return Ok(false);
    }
    ahead.see(disk, place, magic.len())?;
    if !ahead.part(place, magic.len()).starts_with(magic) {
        return Ok(false);
    }
    ahead.see(disk, place, count)?;
    Ok(true)
}
