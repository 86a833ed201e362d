//! The working state of one batch's search for prices: its orders, and one price for each asset.
//!
//! A [`Workspace`] computes the excess demand for an asset at its prices, what the orders demand less what they supply,
//! as an [`Excess`]: a lower and an upper bound in whole units. It tells whether the asset is settled, and which way its
//! price moves if it isn't; [`Workspace::move_amount`] finds by how many grains, by parts of a unit. [`Workspace::quotes`]
//! are its orders at its prices, a [`Quote`] each, so rounding demands or measuring losses computes no price and no demand
//! again; [`Workspace::into_quoted`] gives them away with the prices. The terms are those of `flow_orders`; [`laws`] has
//! what holds as a price moves.
//!
//! # Costs
//!
//! For each asset there is a column of the orders that name it, a [`Cell`] each, and for each order its curve, the price
//! of its portfolio and its demand at the prices. [`Workspace::new`] allocates all of them: 8 bytes for each
//! price, up to 16 for each leg of an order, and 144 for each order, of which 80 are for finding how far a price moves. It goes
//! once over the legs of all orders. No other call allocates.
//!
//! The excess at the prices costs one pass over the asset's column, without a division. Setting a price costs such a pass,
//! and for each order of the column a multiplication and at most one division. Finding how far a price moves costs a few
//! passes of this kind, and then ever shorter ones, at most 248 in all. Rounding bound and slope bound take constant time.
//! The number of parts changes none of it: a demand in parts takes the same one division.
#![tactic(auto)]

mod columns;
mod directions;
pub mod laws;
mod narrowing;
mod parts;
mod quotes;
mod steps;
mod workspace;

pub use columns::Cell;
pub use directions::Direction;
pub use out_of_memory::Memory;
pub use parts::Excess;
pub use quotes::{Quote, quotes_of};
pub use workspace::{Quoted, Workspace};
