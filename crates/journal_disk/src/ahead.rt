//! A disk that is read ahead in pieces.
ghost use Rattle.std.specs.Prelude.{◌≡◌, ◌≤◌, ◌+◌, ◌⊎◌, ℕ, List, [], IfSome, IfOk, IfErr, OnOk, OnErr, Err, IsErrOf};
ghost use Rattle.flow_io.specs.Faults.{Blames};
ghost use Rattle.journal_disk.specs.Looking.{OnlyLooks};
ghost use Rattle.journal_disk.specs.Ahead.{IsPiece, HoldsPart, part_of};

use crate::calls::{length_of, read_from};
use crate::fault::DiskFault;
use disk_edge::Disk;
use std::alloc::Global;
use std::marker::Model;

// How many bytes are read at once, if there are as many.
const PIECE: usize = 65_536;

/// A piece of a disk that was read ahead, so that the entries in it are read without a call of the disk for each.
/// Contracts see the piece, where it begins, and how many bytes the disk has.
#[derive(Drop)]
pub struct Ahead {
    held: Vec<u8>,
    from: u64,
    size: u64,
}

impl Model for Ahead {
    ghost use Rattle.journal_disk.specs.Ahead.{AheadState};

    ghost Value = { AheadState };

    ghost view = { λ ahead. record { held = ahead.held.items; from = ahead.from; size = ahead.size } };
}

impl Ahead {
    /// Makes an empty piece: nothing is read ahead yet. Asks the disk for its length. Takes the memory of a piece of
    /// 65,536 bytes; a longer entry makes it grow.
    pub fn new<D: Disk>(alloc: Global, disk: &mut D) -> Result<Ahead, DiskFault>
        ensures piece { IfOk result (λ ahead. IfSome (D.state disk.new).content (IsPiece ahead)) }
        ensures refused { IfErr result (λ fault. (fault ≡ DiskFault.Failed) ⊎ (fault ≡ DiskFault.Memory)) }
        ensures looks { OnlyLooks (D.state disk.old) (D.state disk.new) }
        ensures cause { Blames (IsErrOf result DiskFault.Failed) (D.state disk.old).faults (D.state disk.new).faults }
    {
        let size = length_of(disk)?;
        Ok(Ahead {
            held: Vec::with_capacity(alloc, PIECE)?,
            from: 0,
            size,
        })
    }

    /// Gives the memory of the piece back: nothing is read ahead any more, and the next reading takes memory for a piece again.
    pub fn forget(&mut self, alloc: Global)
        ensures held { self.new ≡ record self.old { held = [] } }
        ensures piece { (bytes : List ℕ) → IsPiece self.old bytes → IsPiece self.new bytes }
    {
        self.held = Vec::new(alloc);
    }

    // Returns how many bytes the disk has.
    pub(crate) fn size(&self) -> u64
        ensures { result ≡ self.now.size }
    {
        self.size
    }

    // Reads a piece that begins at a place and has at least `count` bytes, unless these are held already.
    pub(crate) fn see<D: Disk>(
        &mut self,
        disk: &mut D,
        place: u64,
        count: usize,
    ) -> Result<(), DiskFault>
        requires inside { place + count ≤ self.old.size }
        requires piece { IfSome (D.state disk.old).content (IsPiece self.old) }
        ensures held { OnOk result (HoldsPart place count self.new) }
        ensures piece { IfSome (D.state disk.new).content (IsPiece self.new) }
        ensures size { self.new.size ≡ self.old.size }
        ensures refused { OnErr result ((result ≡ Err DiskFault.Failed) ⊎ (result ≡ Err DiskFault.Memory)) }
        ensures looks { OnlyLooks (D.state disk.old) (D.state disk.new) }
        ensures cause { Blames (IsErrOf result DiskFault.Failed) (D.state disk.old).faults (D.state disk.new).faults }
    {
        if self.from <= place && place - self.from + count as u64 <= self.held.len() as u64 {
            return Ok(());
        }
        let most = (self.size - place).min(PIECE as u64) as usize;
        // The bytes of the piece before are overwritten, so nothing is filled with zeros but what this one is longer.
        self.held.resize(most.max(count), 0)?;
        self.from = place;
        match read_from(disk, place, &mut self.held) {
            Ok(()) => Ok(()),
            Err(failed) => {
                self.held.clear();
                Err(DiskFault::from(failed))
            }
        }
    }

    // Returns the bytes at a place, which are held.
    pub(crate) fn part(&self, place: u64, count: usize) -> &[u8]
        requires held { HoldsPart place count self.now }
        ensures { result.now ≡ part_of self.now place count }
    {
        let first = (place - self.from) as usize;
        &self.held[first..first + count]
    }
}
