//! The exchange with a journal that outlives a crash, as one call: a source of bytes, a disk, two sinks, and a status.
//!
//! [`flow_disk`] and [`flow_lines`] are what the program calls for `keep FILE` and `serve FILE`. Their contracts are what the program
//! promises of these subcommands: what a crash may leave on the disk at each moment, that no acknowledged entry is lost, what `out` gains,
//! and when each status comes. [`kept_file`] and [`served_file`] say which command lines ask for them.
#![tactic(auto)]

mod ending;
mod hosting;
pub mod laws;
mod lines;
mod top;
mod words;

pub use hosting::{flow_host, flow_host_limited};
pub use lines::{flow_lines, flow_lines_limited};
pub use top::{flow_disk, flow_disk_limited};
pub use words::{hosted_file, kept_file, served_file};
