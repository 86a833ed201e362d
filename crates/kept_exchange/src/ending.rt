//! The status of how keeping a journal ended.
ghost use Rattle.std.specs.Prelude.{◌≡◌};
ghost use Rattle.kept_exchange.specs.Statuses.{kept_status};
ghost use Rattle.kept_exchange.specs.Hosts.{host_status};

use desk_keeping::HostFault;
use exit_status::Status;
use journal_keeping::KeepFault;

// Returns the status of a run that keeps a journal.
pub(crate) fn status_of(ended: Result<(), KeepFault>, limit: u64) -> Status
    ensures { result ≡ kept_status limit ended }
{
    match ended {
        Ok(()) => Status::Done,
        Err(KeepFault::Read) => Status::ReadFault,
        Err(KeepFault::Write) => Status::WriteFault,
        Err(KeepFault::Disk) => Status::DiskFault,
        Err(KeepFault::Memory) => Status::NoMemory,
        Err(KeepFault::NotDisk) => Status::NotDisk,
        Err(KeepFault::Damaged(place)) => Status::Damaged(place),
        Err(KeepFault::Rejected(number)) => Status::Rejected(number),
        Err(KeepFault::NotFlow) => Status::NotFlow,
        Err(KeepFault::BadCheckpoint) => Status::BadCheckpoint,
        Err(KeepFault::Torn(place)) => Status::Torn(place),
        Err(KeepFault::TooLong) => Status::TooLong(limit),
    }
}

// Returns the status of a run that hosts the lines of many senders.
pub(crate) fn hosted_status(ended: Result<(), HostFault>, limit: u64) -> Status
    ensures { result ≡ host_status limit ended }
{
    match ended {
        Ok(()) => Status::Done,
        Err(HostFault::Read) => Status::ReadFault,
        Err(HostFault::Write) => Status::WriteFault,
        Err(HostFault::Disk) => Status::DiskFault,
        Err(HostFault::Memory) => Status::NoMemory,
        Err(HostFault::NotDisk) => Status::NotDisk,
        Err(HostFault::Damaged(place)) => Status::Damaged(place),
        Err(HostFault::Rejected(number)) => Status::Rejected(number),
        Err(HostFault::NotFlow) => Status::NotFlow,
        Err(HostFault::BadCheckpoint) => Status::BadCheckpoint,
        Err(HostFault::TooLong) => Status::TooLong(limit),
        Err(HostFault::Differs(number)) => Status::Differs(number),
    }
}
