//! Lines with a sender.
//!
//! An envelope is a line of JSON that says who sent a text, perhaps under which number, and has the text. [`read_envelope`] reads
//! one, and looks at nothing in the text.
#![tactic(auto)]

mod envelope;
pub mod laws;

pub use envelope::{Envelope, EnvelopeFault, read_envelope};
