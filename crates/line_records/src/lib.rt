//! The records that the lines of a text ask for.
//!
//! [`encode_lines`] reads the lines one after the other, each given the tickers of those before it, and writes the
//! record of each command. No line is copied, and one buffer holds the records of a line at a time. [`encode_source`]
//! does so with the text of a source, and writes a command file.
#![tactic(auto)]

mod encode;
pub mod laws;

pub use encode::{EncodeFault, encode_lines};
