//! The summary of a sample of a large market: its command file is made and run, the journal is audited, and counted.
//!
//! [`sample_line`] returns the summary as a line. Each record of the file is served by a session, as in a run, and its
//! entry is audited as soon as it is there, as in an audit of the journal; so neither the journal nor more than one
//! entry is held.
#![tactic(auto)]

mod counting;
pub mod laws;
mod line;
mod sampling;

pub use sample_market::MOST_ORDERS;
pub use sampling::sample_line;
