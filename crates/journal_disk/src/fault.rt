use disk_edge::DiskFailed;
use std::alloc::AllocError;

/// Why a call on a journal's disk failed.
#[derive(Clone, Copy, Debug, PartialEq, Eq)]
pub enum DiskFault {
    /// A call of the disk failed, and its count of faults rose. The disk is to be opened again.
    Failed,
    /// The disk holds something else than a journal.
    NotDisk,
    /// There is no commit byte at this place; or one that is set and isn't followed by the length and bytes of a
    /// complete entry; or one that isn't set and has more than 2^21 bytes after it.
    Damaged(u64),
    /// Out of memory.
    Memory,
}

impl From<DiskFailed> for DiskFault {
    ghost use Rattle.std.specs.Prelude.{◌≡◌};
    ghost use Rattle.journal_disk.specs.declared.fault.DiskFault.TheVariants.{Failed};

    ghost from_gives = { λ _ fault. fault ≡ Failed };

    fn from(_failed: DiskFailed) -> DiskFault {
        DiskFault::Failed
    }
}

impl From<AllocError> for DiskFault {
    ghost use Rattle.std.specs.Prelude.{◌≡◌};
    ghost use Rattle.journal_disk.specs.declared.fault.DiskFault.TheVariants.{Memory};

    ghost from_gives = { λ _ fault. fault ≡ Memory };

    fn from(_error: AllocError) -> DiskFault {
        DiskFault::Memory
    }
}

/// What a reading found at a commit byte.
#[derive(Clone, Copy, Debug, PartialEq, Eq)]
pub enum Step {
    /// A set one, with an entry, which was read.
    Pair,
    /// One that isn't set, after the last entry.
    Closed,
}
