//! Why hosting stopped.
use desk_opening::StartFault;
use journal_disk::DiskFault;
use journal_keeping::{InputFault, OpenFault};

/// Why hosting the lines of many senders stopped before the end of its input.
#[derive(Clone, Copy, Debug, PartialEq, Eq)]
pub enum HostFault {
    /// A read of the input failed.
    Read,
    /// A write of the output failed.
    Write,
    /// A call of the disk failed. The disk has to be opened again.
    Disk,
    /// Memory ran out.
    Memory,
    /// The disk holds something other than a journal.
    NotDisk,
    /// At this byte of the disk there is no commit byte, or a set one that no complete entry follows, or one that isn't set and has more
    /// than 2^21 bytes after it.
    Damaged(u64),
    /// The kept entry of this number, counted from 1, isn't valid.
    Rejected(u64),
    /// The input begins with neither a checkpoint nor the line of a version.
    NotFlow,
    /// The input begins with the magic of a checkpoint, but with no checkpoint of a consistent market.
    BadCheckpoint,
    /// The input has more bytes than the limit.
    TooLong,
    /// The kept entry of this number, counted from 1, is valid, and isn't the one that the lines ask for; or, if it is 0, the disk begins otherwise
    /// than the input.
    Differs(u64),
}

impl From<DiskFault> for HostFault {
    ghost use Rattle.std.specs.Prelude.{◌≡◌};
    ghost use Rattle.desk_keeping.specs.Faults.{of_disk};

    ghost from_gives = { λ fault stopped. stopped ≡ of_disk fault };

    fn from(fault: DiskFault) -> HostFault {
        match fault {
            DiskFault::Failed => HostFault::Disk,
            DiskFault::NotDisk => HostFault::NotDisk,
            DiskFault::Damaged(place) => HostFault::Damaged(place),
            DiskFault::Memory => HostFault::Memory,
        }
    }
}

impl From<StartFault> for HostFault {
    ghost use Rattle.std.specs.Prelude.{◌≡◌};
    ghost use Rattle.desk_keeping.specs.Faults.{of_start};

    ghost from_gives = { λ fault stopped. stopped ≡ of_start fault };

    fn from(fault: StartFault) -> HostFault {
        match fault {
            StartFault::Open(OpenFault::Disk) => HostFault::Disk,
            StartFault::Open(OpenFault::Memory) => HostFault::Memory,
            StartFault::Open(OpenFault::NotDisk) => HostFault::NotDisk,
            StartFault::Open(OpenFault::Damaged(place)) => HostFault::Damaged(place),
            StartFault::Open(OpenFault::Rejected(number)) => HostFault::Rejected(number),
            StartFault::Input(InputFault::Read) => HostFault::Read,
            StartFault::Input(InputFault::Memory) => HostFault::Memory,
            StartFault::Input(InputFault::NotFlow) => HostFault::NotFlow,
            StartFault::Input(InputFault::BadCheckpoint) => HostFault::BadCheckpoint,
            StartFault::Differs => HostFault::Differs(0),
            StartFault::Make => HostFault::Disk,
        }
    }
}
