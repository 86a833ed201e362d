//! Orders, and the outcomes that a batch of them may have.
//!
//! An order asks for a portfolio at a rate that falls as its price rises. A batch of orders clears at one price for
//! each asset, or is skipped. The definitions of both are in `specs`, one topic a file: orders and what they reserve,
//! excess and its bounds, moves and walks of prices, trades and imbalances, admissible outcomes, welfare and the dual.
//! [`laws`] has what holds of them.
//!
//! [`Order`] is an order as the program keeps it: 72 bytes beside its legs. [`order_fault`] finds what is wrong with
//! the numbers of a requested order; [`money_need`] and [`unit_need`] compute what an order reserves.
//! [`add_residuals`] adds an order's trade to the imbalance of each asset; [`spread`] and [`steepness`] are the rounding
//! bound and the slope bound of an asset's imbalance. [`Search`] says how the prices of a batch are searched for. No call
//! allocates. Each takes constant time, but `add_residuals`, which goes once over the legs of an order, and `spread` and
//! `steepness`, which go once over those of all orders.
//!
//! Limit prices are whole ticks, and a tick is 2^32 grains. Contracts see them in grains, as curves and prices are.
#![tactic(auto)]

mod bounds;
mod fault;
pub mod laws;
mod left_over;
mod needs;
mod order;
mod search;

pub use bounds::{spread, steepness};
pub use fault::{MOST_RATE, MOST_TICKS, OrderFault, order_fault};
pub use left_over::{MOST_PRICES, add_residuals};
pub use needs::{money_need, unit_need};
pub use order::{GRAINS_PER_TICK, MOST_ORDERS, Order};
pub use search::Search;
