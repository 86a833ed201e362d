//! What is published of a batch, as plain values: how it ended, its lists, and a clearing wherever its numbers are.
//!
//! The types are values without conditions. What they mean for the orders of a batch is in `specs`: `Published` (the
//! outcome of `flow_orders` that a value is), `Parts` (the numbers and rates of a clearing), `GapBound` (how large a gap may
//! be), `Progress` (what the dual values of a skip promise). Other crates make a clearing and judge it, so neither the
//! encoding of a batch nor the market has to depend on their code.
//!
//! # Costs
//!
//! No call allocates or takes more than constant time.
#![tactic(auto)]

mod lists;
mod outcome;
mod parts;

pub use lists::{PriceList, RateList, ResidualList, Trace};
pub use outcome::{Cleared, Outcome, Skipped};
pub use parts::ClearedParts;
