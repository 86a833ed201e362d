//! The audit of a journal: whether an entry is a step of the market, no matter who wrote it.
//!
//! An [`Audit`] holds the market from entry to entry. An entry is valid if its reply is the one that the market gives
//! to its command, or, for a batch, has any admissible outcome: the prices needn't be those that this program would
//! find. [`Audit::pair`] judges an entry and makes its step; [`Audit::judge`] and [`Audit::make`] are its two halves,
//! for callers that look at the market in between, and [`judge`] and [`make`] the same over a market that the caller has. The laws of valid entries and journals are in [`laws`].
//!
//! # Costs
//!
//! An entry is checked in place, and nothing of a reply is copied before it is known to be valid. An entry without a
//! batch costs at most twice what its command costs the exchange: once for the reply that it gets, and once for the
//! step. A clearing costs three passes over the legs of all live orders for its check, and then what settling costs; a
//! skip costs, for each move of its walk, what making the move costs, and two passes for its dual values.
#![tactic(auto)]

mod audit;
mod change;
mod explaining;
mod finding;
mod judging;
pub mod laws;
mod outcomes;

pub use audit::{Audit, Legality, judge, make};
pub use change::Change;
pub use finding::Finding;
