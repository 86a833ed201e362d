//! One batch: from orders and start prices to its outcome.
//!
//! [`clear`] finds the prices, rounds each order's demand at them for small imbalances, and certifies the
//! result. The outcome is the canonical one, the same at each run, and it is admissible, as anyone who audits a journal
//! finds. The terms are those of `flow_orders` and `canonical_rule`.
//!
//! # Costs
//!
//! First a pass over the legs of all orders, for the workspace, and the moves of the prices, each over the orders that name
//! its asset. Then, if the batch clears, two passes over the legs of all orders, for the rates and their imbalances, and
//! one over the orders alone, with a division each, for the gap. The price of an order's portfolio and its demand
//! are those that the workspace has, and its list of prices is the one that is published: neither is computed or copied
//! again. Memory is allocated for the workspace, for one number for each asset and one for each order, and, if some order
//! names two assets or more, for a byte for each move of the budget; nothing in between. If joint prices are tried, they
//! cost what `joint_prices` says, and each test of prices one pass over the legs of all orders.
#![tactic(auto)]

mod batch;
mod joint;

pub use batch::clear;
pub use out_of_memory::Memory;
