//! The text of a journal: what each of its entries says, in lines for people.
//!
//! [`report_entry`] appends the lines of one entry, with the market after it, [`report_pair`] those of one that an
//! [`Audit`](batch_audit::Audit) has just found valid, and [`report_served`] those of a command that was just served, by its values: one
//! line for a plain command or a refusal, and for a batch that cleared one more for each asset and for each order that was
//! live. The laws of the texts are in [`laws`].
//!
//! # Costs
//!
//! An entry costs its text: each number is read in place and printed once, right after what is in the output. Memory is
//! taken only if the output has no room for the text; if there is none, the output is cut back to what it was.
#![tactic(auto)]

mod batches;
pub mod laws;
mod plain;
mod report;

pub use report::{report_entry, report_pair, report_served};
