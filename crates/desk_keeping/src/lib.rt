//! The lines of many senders, hosted: each command is taken from its entry in a file that is read along, or served and kept, and then answered.
//!
//! # Costs
//!
//! A line costs what [`DeskSession`](desk_session::DeskSession) says, and its bytes. The entries of all lines that are complete in one read are kept
//! together, by two writes with a sync each, and each text is one write. Nothing is held but the window of 262,145 bytes, at most 2^20 bytes of
//! entries and those of one line, and the texts of these.
#![tactic(auto)]

mod answering;
mod fault;
mod host;
mod hosting;

pub use fault::HostFault;
pub use hosting::host_lines;
