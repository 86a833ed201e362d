//! Files that outlast a crash, with contracts that say what a crash may leave of them.
//!
//! A [`Disk`] is a file that is read and written at places, cut, and synced. Contracts see its content if it is known,
//! a count of faults, a clock, and two sets of images: what a crash now may leave, and what a crash at some moment
//! since a time may have left. So a contract can speak of each moment inside a call. Between two syncs each written
//! range may hold any bytes after a crash, what a write added may be missing from some place on, and what a cut removed
//! may still be there up to some place; a sync that succeeds leaves what a read gives, and nothing else.
//!
//! A call fails only if the count rose. After a fault of the device the file is to be opened again: of a write or a cut
//! that failed, any part may have been made.
//!
//! [`FileDisk`] is a real file, the trusted edge, and [`PathDisk`] the file at a path, which the first write makes if
//! there is none. A call costs as much as the bytes that it moves, and takes no memory.
#![tactic(auto)]

mod disk;
mod file;
mod path;

pub use disk::{Disk, DiskFailed};
pub use file::FileDisk;
pub use path::PathDisk;
