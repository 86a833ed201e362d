//! A session of the exchange: command records in, entries of a journal out.
//!
//! A [`Session`] holds the market from record to record. Each record gets one entry, which is a step of the market. A command that
//! isn't in a record yet is served by [`Session::serve_command`], which writes its record as the first half of its entry.
//! [`Session::answer_command`] and [`Session::settle`] are its two halves, for callers that look at the live orders of a batch in
//! between: the first writes the entry, and the second settles the batch.
#![tactic(auto)]

mod answered;
mod batch;
mod run;
mod session;

pub use answered::{Answered, HeldBatch};
pub use run::Run;
pub use session::{Served, Session, answer_command};
