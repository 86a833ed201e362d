//! The file of a market of many senders: its entries are read along with the lines, and then more are kept.
ghost use Rattle.std.specs.Prelude.{◌≡◌, ◌≢◌, ℕ, [], Ok, Err, IfOk, IfErr, OnOk, OnErr, IsErrOf};
ghost use Rattle.flow_io.specs.Faults.{Blames};
ghost use Rattle.journal_disk.specs.Lengths.{ReachesAtMost};
ghost use Rattle.desk_opening.specs.Books.{CanFind, IsFoundBy, IsNotFoundBy, CanKeep, AddsTo, LeavesWithOrWithout};

use disk_edge::Disk;
use journal_disk::{Ahead, Appender, DiskFault, DiskJournal, Group};
use std::alloc::Global;
use std::mem::replace;

/// The file of a market of many senders: the entries that it kept before are read along, one for each command that a line asks for, and after
/// the last one more are kept.
#[derive(Drop)]
pub enum Book {
    /// The next entry is one that was kept before, or the file's end wasn't seen yet: the place of the next commit byte, and the piece of the file
    /// that was read ahead. [`DiskJournal::take`] lends the entry that [`find`](Book::find) has found.
    Kept(DiskJournal, Ahead),
    /// All entries that were kept before were read: what appends more.
    Open(Appender),
}

impl Book {
    /// Looks for the next entry that was kept before, and returns its length in bytes; it is then in the piece that was read ahead. `None` says that
    /// there is none: then what follows the last entry was cut off, the book is [`Open`](Book::Open), and a crash at any moment leaves the same
    /// entries. An open book has no entry to find, and nothing is done.
    ///
    /// `Damaged` has the place of the next commit byte, and is returned if no byte is there, if it is set without a complete entry after it, or isn't
    /// set and has more than 2^21 bytes after it. `Failed` comes only if the disk's count of faults rose, and `Memory` at any time. The disk is only
    /// looked at, unless its entries end. Costs the entry's bytes and a share of a piece of 65,536 bytes; at the end of the entries a sync, and the
    /// memory of the longest stored entry.
    pub fn find<D: Disk>(&mut self, alloc: Global, disk: &mut D) -> Result<Option<usize>, DiskFault>
        requires can { CanFind self.old (D.state disk.old) }
        ensures found { IfOk result (IsFoundBy self.old self.new (D.state disk.old) (D.state disk.new)) }
        ensures still { (place : ℕ) → self.old ≡ Book.Open place → (self.new ≡ self.old) × (disk.new ≡ disk.old) }
        ensures fails { IfErr result (IsNotFoundBy self.old (D.state disk.old) (D.state disk.new)) }
        ensures lengths { ReachesAtMost 0 (D.state disk.old) (D.state disk.new) }
        ensures cause { Blames (IsErrOf result DiskFault.Failed) (D.state disk.old).faults (D.state disk.new).faults }
    {
        let appender = match self {
            Book::Kept(journal, ahead) => match journal.find(disk, ahead) {
                Ok(Some(count)) => return Ok(Some(count)),
                Ok(None) => match replace(journal, DiskJournal::after_magic()).begin(alloc, disk) {
                    Ok(appender) => appender,
                    Err(fault) => return Err(fault),
                },
                Err(fault) => return Err(fault),
            },
            Book::Open(_) => return Ok(None),
        };
        *self = Book::Open(appender);
        Ok(None)
    }

    /// Keeps the entries of a group in an open book, by two writes with a sync each. At `Ok` they are acknowledged: from then on a crash leaves them. A
    /// crash at any moment before leaves the entries that were kept, with all of the group or with none of it. An empty group does nothing, also
    /// in a book that isn't open. The only error is `Failed`, and only if the disk's count of faults rose. Takes no memory. At most 2^21 bytes are
    /// stored of the group, and the book's place is at most 2^61.
    pub fn keep<D: Disk>(&mut self, disk: &mut D, group: &Group) -> Result<(), DiskFault>
        requires can { group.now ≢ [] → CanKeep group.now self.old (D.state disk.old) }
        ensures still { group.now ≡ [] → (result ≡ Ok tt) × (self.new ≡ self.old) × (disk.new ≡ disk.old) }
        ensures kept { OnOk result (group.now ≢ [] → AddsTo group.now self.old self.new (D.state disk.old) (D.state disk.new)) }
        ensures moments { group.now ≢ [] → LeavesWithOrWithout group.now self.old (D.state disk.old) (D.state disk.new) }
        ensures failed { OnErr result (result ≡ Err DiskFault.Failed) }
        ensures cause { Blames (IsErrOf result DiskFault.Failed) (D.state disk.old).faults (D.state disk.new).faults }
    {
        if group.is_empty() {
            return Ok(());
        }
        match self {
            Book::Kept(_, _) => unreachable!(),
            Book::Open(appender) => appender.append_group(disk, group),
        }
    }
}
