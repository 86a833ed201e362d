ghost use Rattle.std.specs.Prelude.{◌≡◌};
ghost use Rattle.journal_keeping.specs.Faults.{kept_result};

use file_units::{Ending, TakeFault};
use journal_disk::DiskFault;

/// Why a disk wasn't opened.
#[derive(Clone, Copy, Debug, PartialEq, Eq)]
pub enum OpenFault {
    /// A call of the disk failed. The disk has to be opened again.
    Disk,
    /// Memory ran out.
    Memory,
    /// The disk holds something other than a journal.
    NotDisk,
    /// At this byte of the disk there is no commit byte, or a set one that no complete entry follows, or one that isn't set and has more
    /// than 2^21 bytes after it.
    Damaged(u64),
    /// The kept entry of this number, counted from 1, isn't valid.
    Rejected(u64),
}

/// Why the beginning of a source wasn't taken.
#[derive(Clone, Copy, Debug, PartialEq, Eq)]
pub enum InputFault {
    /// A read of the source failed.
    Read,
    /// Memory ran out.
    Memory,
    /// The source doesn't begin as it should.
    NotFlow,
    /// The disk is new, and the source begins with the magic of a checkpoint, but with no checkpoint of a consistent market.
    BadCheckpoint,
}

/// Why nothing was served.
#[derive(Clone, Copy, Debug, PartialEq, Eq)]
pub enum BeginFault {
    /// The disk wasn't opened.
    Open(OpenFault),
    /// The disk was opened, or is new, and the beginning of the source wasn't taken.
    Input(InputFault),
    /// The beginning of the source was taken, and a call of the new disk failed. The disk has to be opened again.
    Make,
}

/// Why a command wasn't served, kept and answered.
#[derive(Clone, Copy, Debug, PartialEq, Eq)]
pub enum ServeFault {
    /// A call of the disk failed. The disk has to be opened again.
    Disk,
    /// A write of the output failed.
    Write,
    /// Memory ran out.
    Memory,
}

/// Why keeping a journal stopped before the end of its source.
#[derive(Clone, Copy, Debug, PartialEq, Eq)]
pub enum KeepFault {
    /// A read of the source failed.
    Read,
    /// A write of the output failed.
    Write,
    /// A call of the disk failed. The disk has to be opened again.
    Disk,
    /// Memory ran out.
    Memory,
    /// The disk holds something other than a journal.
    NotDisk,
    /// At this byte of the disk there is no commit byte, or a set one that no complete entry follows, or one that isn't set and has more
    /// than 2^21 bytes after it.
    Damaged(u64),
    /// The kept entry of this number, counted from 1, isn't valid.
    Rejected(u64),
    /// The source isn't a command file of the disk's version, or, for a new disk, neither a command file nor a checkpoint and a command
    /// file of its version.
    NotFlow,
    /// The disk is new, and the source begins with the magic of a checkpoint, but with no checkpoint of a consistent market.
    BadCheckpoint,
    /// The source breaks off, or states too long a record; the broken record begins at this byte, counted from 0.
    Torn(u64),
    /// The source has more bytes than the limit.
    TooLong,
}

impl From<DiskFault> for OpenFault {
    ghost use Rattle.std.specs.Prelude.{◌≡◌};
    ghost use Rattle.journal_keeping.specs.Faults.{of_disk};

    ghost from_gives = { λ fault opened. opened ≡ of_disk fault };

    fn from(fault: DiskFault) -> OpenFault {
        match fault {
            DiskFault::Failed => OpenFault::Disk,
            DiskFault::NotDisk => OpenFault::NotDisk,
            DiskFault::Damaged(place) => OpenFault::Damaged(place),
            DiskFault::Memory => OpenFault::Memory,
        }
    }
}

impl From<BeginFault> for KeepFault {
    ghost use Rattle.std.specs.Prelude.{◌≡◌};
    ghost use Rattle.journal_keeping.specs.Faults.{of_begin};

    ghost from_gives = { λ fault kept. kept ≡ of_begin fault };

    fn from(fault: BeginFault) -> KeepFault {
        match fault {
            BeginFault::Open(OpenFault::Disk) => KeepFault::Disk,
            BeginFault::Open(OpenFault::Memory) => KeepFault::Memory,
            BeginFault::Open(OpenFault::NotDisk) => KeepFault::NotDisk,
            BeginFault::Open(OpenFault::Damaged(place)) => KeepFault::Damaged(place),
            BeginFault::Open(OpenFault::Rejected(number)) => KeepFault::Rejected(number),
            BeginFault::Input(InputFault::Read) => KeepFault::Read,
            BeginFault::Input(InputFault::Memory) => KeepFault::Memory,
            BeginFault::Input(InputFault::NotFlow) => KeepFault::NotFlow,
            BeginFault::Input(InputFault::BadCheckpoint) => KeepFault::BadCheckpoint,
            BeginFault::Make => KeepFault::Disk,
        }
    }
}

impl From<ServeFault> for KeepFault {
    ghost use Rattle.std.specs.Prelude.{◌≡◌};
    ghost use Rattle.journal_keeping.specs.Faults.{of_serve};

    ghost from_gives = { λ fault kept. kept ≡ of_serve fault };

    fn from(fault: ServeFault) -> KeepFault {
        match fault {
            ServeFault::Disk => KeepFault::Disk,
            ServeFault::Write => KeepFault::Write,
            ServeFault::Memory => KeepFault::Memory,
        }
    }
}

/// Returns the result of keeping a journal whose input ended, or broke off, so.
pub fn kept(ended: Result<Ending, TakeFault<ServeFault>>) -> Result<(), KeepFault>
    ensures { result ≡ kept_result ended }
{
    match ended {
        Ok(Ending::End) => Ok(()),
        Ok(Ending::Torn(place)) => Err(KeepFault::Torn(place)),
        Ok(Ending::TooLong) => Err(KeepFault::TooLong),
        Err(TakeFault::Read) => Err(KeepFault::Read),
        Err(TakeFault::Broken(fault)) => Err(KeepFault::from(fault)),
    }
}
