//! A market of many senders, line by line: what each line is answered, and which entries its commands get.
//!
//! A [`DeskSession`] holds the market, the counts of lines and messages, and the texts that are to be written. [`DeskSession::hear_line`] answers
//! a line, but for its commands, which it returns. [`DeskSession::serve`] serves one of them, and [`DeskSession::replay`] takes its entry from
//! whoever has it. Nothing is read or written.
//!
//! # Costs
//!
//! A line costs its bytes, a command what serving it or auditing its entry costs, and its texts.
#![tactic(auto)]

mod lines;
mod questions;
mod session;
mod talk;

pub use lines::Said;
pub use session::{DeskSession, Replayed};
