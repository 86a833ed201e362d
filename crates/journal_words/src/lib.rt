//! Subcommands over the entries of a journal: one audit, and what is done with each valid entry.
//!
//! [`Pairs`] is the subcommand: it audits one entry after the other, and hands each to an [`OnPair`]. [`Counting`] counts the
//! entries of an audit, [`Explaining`] also writes what is found of the first invalid entry, and [`Telling`] writes the
//! lines of a report.
#![tactic(auto)]

mod counting;
mod explaining;
mod on_pair;
mod pairs;
mod telling;

pub use counting::Counting;
pub use explaining::Explaining;
pub use on_pair::OnPair;
pub use pairs::Pairs;
pub use telling::Telling;
