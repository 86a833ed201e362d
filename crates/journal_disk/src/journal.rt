ghost use Rattle.std.specs.Prelude.{◌≡◌, ◌≢◌, ◌⊎◌, ◌≤◌, ◌<◌, ◌+◌, ◌^◌, [], ◌∷◌, ℕ, List, length, IfSome, IsSome, ◌↔◌, IsTrue, IfOk, IfErr, IsErrOf, Err, OnOk, OnErr};
ghost use Rattle.journal_disk.specs.Pairs.{RecordPair, IsRecordPair, pair_bytes, IsWholePair};
ghost use Rattle.disk_edge.specs.Disks.{AtEachMoment};
ghost use Rattle.journal_disk.specs.Entries.{Head, StandsFor, Holds, EndsAt, Keeps};
ghost use Rattle.flow_io.specs.Faults.{Blames};
ghost use Rattle.journal_disk.specs.Looking.{OnlyLooks};
ghost use Rattle.journal_disk.specs.Lengths.{ReachesAtMost};
ghost use Rattle.journal_disk.specs.Ahead.{IsPiece, HoldsPart, part_of};
ghost use Rattle.journal_disk.specs.Stepping.{HasEntryAt, IsDamagedAt, StatesAt, Finds, IsStep};
ghost use Rattle.journal_disk.specs.Recovering.{IsForeign, IsFound};

use crate::ahead::Ahead;
use crate::appender::Appender;
use crate::calls::{MOST_NEW, OPEN, cut_synced, prefix_of, synced_length};
use crate::fault::{DiskFault, Step};
use crate::pairs::whole_pair;
use crate::reading::{byte_at, stated_at};
use disk_edge::Disk;
use journal_records::PairView;
use std::alloc::Global;
use std::marker::Model;
use wire_records::Version;

// The most bytes that a journal has.
pub(crate) const MOST_BYTES: u64 = 1 << 60;

// The most bytes that may follow the commit byte after the last entry. A crash leaves there no more than was being
// written: an entry with its length and a commit byte, which are at most 263,183 bytes, or a group of at most so many.
const MOST_UNKEPT: u64 = 1 << 21;

/// Opens a disk that a crash may have left, after a sync, and returns its version; `None` exactly if it is new, which
/// is a disk of at most 9 bytes, whatever it holds, or one whose first commit byte isn't set. Returns `NotDisk` exactly
/// if it has more than 2^60 bytes, or more than 9 that begin with none of the magics, and `Failed` only if the disk's
/// count rose. Takes no memory, and changes nothing of the disk.
pub fn recover<D: Disk>(disk: &mut D) -> Result<Option<Version>, DiskFault>
    ensures found { IfOk result (λ found. IfSome (D.state disk.old).content (λ bytes. IsFound found bytes (D.state disk.new))) }
    ensures foreign { IsErrOf result DiskFault.NotDisk → IfSome (D.state disk.old).content IsForeign }
    ensures looks { OnlyLooks (D.state disk.old) (D.state disk.new) }
    ensures refused { IfErr result (λ fault. (fault ≡ DiskFault.Failed) ⊎ (fault ≡ DiskFault.NotDisk)) }
    ensures cause { Blames (IsErrOf result DiskFault.Failed) (D.state disk.old).faults (D.state disk.new).faults }
{
    let length = synced_length(disk)?;
    if length <= MOST_NEW {
        return Ok(None);
    }
    if length > MOST_BYTES {
        return Err(DiskFault::NotDisk);
    }
    let prefix = prefix_of(disk)?;
    match prefix.version {
        Some(version) => {
            if prefix.commit != OPEN {
                return Ok(None);
            }
            Ok(Some(version))
        }
        None => Err(DiskFault::NotDisk),
    }
}

/// A disk's journal while it is read. Contracts see it as the place of the next commit byte.
#[derive(Drop)]
pub struct DiskJournal {
    pub(crate) place: u64,
}

impl Model for DiskJournal {
    ghost use Rattle.std.specs.Prelude.{◌≤◌, ◌^◌, ℕ};

    ghost Value = { ℕ };

    ghost view = { λ journal. journal.place };

    ghost invariant = { λ journal. journal.place ≤ 2 ^ 60 };
}

impl DiskJournal {
    /// Begins the reading of a disk that was recovered as one of a version, before its first entry.
    pub fn after_magic() -> DiskJournal
        ensures { result ≡ 8 }
    {
        DiskJournal { place: 8 }
    }

    /// Returns whether the reading is before the disk's first entry.
    pub fn is_first(&self) -> bool
        ensures { IsTrue result ↔ (self.now ≡ 8) }
    {
        self.place == 8
    }

    /// Reads the next commit byte, and reads ahead what follows it if it is set: then it returns the stated length of
    /// the entry, in bytes, and [`take`](DiskJournal::take) is next. `None` says that there is a commit byte, it isn't
    /// set, and at most 2^21 bytes follow it. `Damaged` has the place of the commit byte, and is returned if no byte is
    /// there, if the byte isn't set and more than 2^21 bytes follow it, if it is set and the length or as many bytes as
    /// it states don't follow in the first 2^60 bytes, or if it states more than an entry may have. Returns `Failed`
    /// only if the disk's count rose, and may return `Memory` at any time. Changes nothing of the disk.
    pub fn find<D: Disk>(&self, disk: &mut D, ahead: &mut Ahead) -> Result<Option<usize>, DiskFault>
        requires piece { IfSome (D.state disk.old).content (IsPiece ahead.old) }
        ensures piece { IfSome (D.state disk.new).content (IsPiece ahead.new) }
        ensures found { IfSome (D.state disk.old).content (Finds result self.now) }
        ensures held { IfOk result (λ found. IfSome found (λ count. HoldsPart (self.now + 5) count ahead.new)) }
        ensures within { IfOk result (λ found. IfSome found (λ count. self.now + (5 + count) ≤ 2 ^ 60)) }
        ensures commit { (place : ℕ) → result ≡ Err (DiskFault.Damaged place) → place ≡ self.now }
        ensures known { result ≢ Err DiskFault.NotDisk }
        ensures looks { OnlyLooks (D.state disk.old) (D.state disk.new) }
        ensures cause { Blames (IsErrOf result DiskFault.Failed) (D.state disk.old).faults (D.state disk.new).faults }
    {
        let place = self.place;
        let length = ahead.size();
        if place >= length {
            return Err(DiskFault::Damaged(place));
        }
        if byte_at(disk, ahead, place)? != OPEN {
            if length - (place + 1) > MOST_UNKEPT {
                return Err(DiskFault::Damaged(place));
            }
            return Ok(None);
        }
        match stated_at(disk, ahead, place + 1, length.min(MOST_BYTES))? {
            Some(count) => Ok(Some(count)),
            None => Err(DiskFault::Damaged(place)),
        }
    }

    /// Returns the entry that [`find`](DiskJournal::find) has found with this length, in place in the piece that was
    /// read ahead; the reading is then at the commit byte after it. `Damaged` has the place of the entry's commit byte,
    /// and is returned exactly if these bytes aren't those of one complete entry. Constant cost.
    pub fn take<'a>(&mut self, ahead: &'a Ahead, count: usize) -> Result<PairView<'a>, DiskFault>
        requires held { HoldsPart (self.old + 5) count ahead.now }
        requires within { self.old + (5 + count) ≤ 2 ^ 60 }
        ensures taken { IfOk result (λ pair. (bytes : List ℕ) → IsPiece ahead.now bytes → StatesAt self.old count bytes →
            (rest : List ℕ) × HasEntryAt self.old pair rest bytes) }
        ensures encoded { IfOk result (λ pair. IsRecordPair pair × (part_of ahead.now (self.old + 5) count ≡ pair_bytes pair)
            × (length (pair_bytes pair) ≡ count)) }
        ensures moves { OnOk result (self.new ≡ self.old + (5 + count)) }
        ensures damaged { IfErr result (λ fault. (fault ≡ DiskFault.Damaged self.old)
            × ((bytes : List ℕ) → IsPiece ahead.now bytes → StatesAt self.old count bytes → IsDamagedAt self.old bytes)) }
        ensures stays { OnErr result (self.new ≡ self.old) }
        ensures near { self.new ≤ 2 ^ 60 }
    {
        let place = self.place;
        match whole_pair(ahead.part(place + 5, count)) {
            Some(pair) => {
                self.place += 5 + count as u64;
                Ok(pair)
            }
            None => Err(DiskFault::Damaged(place)),
        }
    }

    /// Reads the next entry into `pair`, which is emptied first, and moves on to the commit byte after it. `Closed`
    /// says that there is a commit byte, it isn't set, and at most 2^21 bytes follow it. `Damaged` has the place of the
    /// commit byte, and is returned exactly if no byte is there, if the byte isn't set and more than 2^21 bytes follow
    /// it, or if it is set and isn't followed by the length and bytes of one complete entry in the first 2^60 bytes.
    /// Returns `Failed` only if the disk's count rose, and may return `Memory` at any time. After `Closed` or an error
    /// `pair` is empty and the place as before. Changes nothing of the disk, which is read ahead in pieces.
    pub fn next<D: Disk>(
        &mut self,
        disk: &mut D,
        ahead: &mut Ahead,
        pair: &mut Vec<u8>,
    ) -> Result<Step, DiskFault>
        requires piece { IfSome (D.state disk.old).content (IsPiece ahead.old) }
        ensures piece { IfSome (D.state disk.new).content (IsPiece ahead.new) }
        ensures step { IfSome (D.state disk.old).content (IsStep result self.old self.new pair.new.items) }
        ensures stays { result ≢ Ok Step.Pair → (self.new ≡ self.old) × (pair.new.items ≡ []) }
        ensures whole { result ≡ Ok Step.Pair → IsWholePair pair.new.items }
        ensures commit { (place : ℕ) → result ≡ Err (DiskFault.Damaged place) → place ≡ self.old }
        ensures moves { result ≡ Ok Step.Pair → self.new ≡ self.old + (5 + length pair.new.items) }
        ensures known { result ≢ Err DiskFault.NotDisk }
        ensures near { self.new ≤ 2 ^ 60 }
        ensures looks { OnlyLooks (D.state disk.old) (D.state disk.new) }
        ensures cause { Blames (IsErrOf result DiskFault.Failed) (D.state disk.old).faults (D.state disk.new).faults }
    {
        pair.clear();
        match self.find(disk, ahead)? {
            Some(count) => {
                pair.reserve(count)?;
                let place = self.place + 5;
                self.take(ahead, count)?;
                pair.extend_from_slice(ahead.part(place, count)).unwrap();
                Ok(Step::Pair)
            }
            None => Ok(Step::Closed),
        }
    }

    /// Ends the reading at a commit byte that isn't set: what follows it is cut off, and from then on entries can be
    /// appended. A crash at any moment leaves the same entries. Returns `Failed` only if the disk's count rose, and may
    /// return `Memory` at any time: the disk is then to be opened again. Takes the memory of the longest stored entry,
    /// in which entries are put together.
    pub fn begin<D: Disk>(self, alloc: Global, disk: &mut D) -> Result<Appender, DiskFault>
        requires { IfSome (D.state disk.old).content
            (λ _. (head : Head) × (pairs : List RecordPair) × EndsAt head pairs self (D.state disk.old)) }
        ensures keeps { IfOk result (λ appender. (head : Head) (pairs : List RecordPair) →
            EndsAt head pairs self (D.state disk.old) → Keeps head pairs appender (D.state disk.new)) }
        ensures moments { (head : Head) (pairs : List RecordPair) → EndsAt head pairs self (D.state disk.old) →
            AtEachMoment (D.state disk.old) (D.state disk.new) (StandsFor head pairs) }
        ensures lengths { ReachesAtMost 0 (D.state disk.old) (D.state disk.new) }
        ensures told { OnOk result (IsSome (D.state disk.new).content ↔ IsSome (D.state disk.old).content) }
        ensures place { IfOk result (λ appender. (appender ≡ self) × (appender ≤ 2 ^ 60)) }
        ensures refused { IfErr result (λ fault. (fault ≡ DiskFault.Failed) ⊎ (fault ≡ DiskFault.Memory)) }
        ensures cause { Blames (IsErrOf result DiskFault.Failed) (D.state disk.old).faults (D.state disk.new).faults }
    {
        let appender = Appender::at(alloc, self.place)?;
        cut_synced(disk, self.place + 1)?;
        Ok(appender)
    }
}
