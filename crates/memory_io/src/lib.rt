//! Sources, sinks and a disk in memory, for tests, and for programs that have their bytes there. None is a part of the program, which
//! reads and writes what the system hands to it.
//!
//! [`SteadySource`] and [`SteadySink`] never fail; [`MemorySource`] and [`MemorySink`] fail at stated calls. The content of all of them is
//! known, that of the sinks as long as no byte was dropped, so a contract can speak of it. [`MemoryDisk`] fails at stated calls too, keeps a
//! record of its calls, and gives an image of a stop in any of them.
//!
//! A call costs as much as the bytes that it moves. The makers of sinks allocate, and so does [`MemorySink`] for the bytes of each call. Of
//! a disk only [`MemoryDisk::new`], which allocates all its memory at once, and [`MemoryDisk::crashed`] allocate; the latter makes all calls
//! up to the stop again.
#![tactic(auto)]

mod bytes;
mod call_log;
mod calls;
mod memory_disk;
mod memory_sink;
mod memory_source;
mod replay;
mod steady;
mod turns;

pub use memory_disk::MemoryDisk;
pub use memory_sink::MemorySink;
pub use memory_source::MemorySource;
pub use steady::{SteadySink, SteadySource};
