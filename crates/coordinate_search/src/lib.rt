//! Moves of prices, one asset at a time, until all assets are settled.
//!
//! [`settle_single`] settles a book in which each order names one asset. [`search`] moves the assets of any book in turn, up
//! to a budget of moves, and writes down which. Both change the prices of a [`Workspace`](excess_bounds::Workspace) by
//! the moves of `price_moves`, whose [`step`] and [`retrace`] are named here too; the terms are those of `flow_orders`
//! and `canonical_rule`.
//!
//! # Costs
//!
//! Before each move a search tests each asset at most once whether it is settled, which costs a pass over the orders that
//! name it. No call allocates.
#![tactic(auto)]

mod searching;
mod single;

pub use price_moves::{Retraced, retrace, step};
pub use searching::{Found, search};
pub use single::settle_single;
