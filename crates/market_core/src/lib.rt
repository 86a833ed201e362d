//! The program's market: what it keeps from one command to the next, and what each command makes of it.
//!
//! `market_rules` defines what a market is and does. Each call of [`Market`] that changes it is one step of these
//! definitions, and `Expected` in `specs` defines which reply a command gets. [`Market::restore`] makes a market of its
//! parts, if they are the parts of a consistent one.
#![tactic(auto)]

mod batches;
mod expected;
mod market;
mod orders;
mod prices;
mod restore;

pub use market::Market;
pub use market_parts::{MarketParts, OrderParts, RestoreFault};
