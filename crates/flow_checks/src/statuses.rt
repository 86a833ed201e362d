//! The ways in which the program can end.
use crate::telling::put_line;
use flow_exchange::Status;
use memory_io::SteadySink;
use std::alloc::Global;

const STATUSES: [Status; 16] = [
    Status::Done,
    Status::Usage,
    Status::NotFlow,
    Status::Torn(1),
    Status::ReadFault,
    Status::WriteFault,
    Status::NoMemory,
    Status::Rejected(1),
    Status::TooLong(1),
    Status::BadText(1),
    Status::BadCheckpoint,
    Status::NoAccount(1),
    Status::DiskFault,
    Status::NotDisk,
    Status::Damaged(1),
    Status::Differs(1),
];

// Appends the number and the line of a status.
fn put_status(alloc: Global, status: Status, rows: &mut String) -> Option<()> {
    let mut notes = SteadySink::new(alloc, 64).ok()?;
    status.write_line(&mut notes).ok()?;
    write!(rows, "  {}", status.exit()).ok()?;
    put_line(notes.bytes(), rows)?;
    rows.push('\n').ok()
}

// Appends the number and the line of each status.
pub(crate) fn put_all(alloc: Global, rows: &mut String) -> Option<()> {
    rows.push('\n').ok()?;
    for status in STATUSES {
        put_status(alloc, status, rows)?;
    }
    Some(())
}
