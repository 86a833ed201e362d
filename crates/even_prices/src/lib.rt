//! Even prices: prices that leave no excess which a grain would mend.
//!
//! The excess demand for an asset is counted in parts of 1/256 of a unit, with each demand rounded so that the sum is least
//! (the low excess) or greatest (the high one). An asset is *even* if its low excess is at most 0, or its high excess is
//! below 0 once its price is a grain higher; and its high excess is at least 0, or its low excess is above 0 once its price
//! is a grain lower. [`is_even`] tests one asset of a [`Workspace`](excess_bounds::Workspace), [`direction`] tells which way
//! the price of one that isn't even moves, and [`first_uneven`] finds the first that isn't; [`first_uneven_of`] finds it of
//! orders and prices alone. None of them changes anything or allocates.
//!
//! At even prices the imbalance of an asset, however demands are rounded, is bounded by its *active* legs alone, those of
//! orders whose demand a grain of each price may change. [`laws`] has this, and what follows. The definitions are in
//! `specs`; the other terms are those of `flow_orders`.
//!
//! # Costs
//!
//! The column of an asset has the orders that name it. Testing an asset costs one pass over its column, and a second one if
//! its low excess is above 0 or its high one below 0, each with at most one division for each order. Of orders and prices
//! alone, the test of all assets goes four times over the legs of all orders, with at most one division for each.
#![tactic(auto)]

mod beside;
mod book;
mod demands;
pub mod laws;
mod testing;

pub use book::first_uneven_of;
pub use testing::{direction, first_uneven, is_even};
