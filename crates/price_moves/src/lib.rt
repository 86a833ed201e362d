//! The move of one asset's price, and making the moves of a walk again.
//!
//! [`step`] moves the price of one asset that isn't settled, [`step_towards`] does so in a direction that is known, and
//! [`make_move`] makes a move of a walk; [`retrace`] makes the moves of a walk again, as far as they are valid, in any
//! order of assets. All change the prices of a [`Workspace`](excess_bounds::Workspace); the terms are those of
//! `flow_orders`. Which asset is moved next, and when, is decided by the crates above.
//!
//! A price rises while the low excess of its asset is above the slope bound, since then more of it is demanded than
//! rounding can explain, and it falls while the high excess is below minus the slope bound. A higher price of an asset
//! never raises its excess, so the workspace finds the end of a move between two amounts that it brings together.
//!
//! # Costs
//!
//! The column of an asset has the orders that name it. Testing whether an asset is settled, and which way its price moves,
//! costs one pass over its column, without a division. A move then costs one such pass to begin with, a few that find its
//! end, and one that sets the price, with at most one division for each order in each but the first. At most 248 passes find
//! the end, over ever fewer orders of the column; from prices that are nearly settled, two or three go over most of them. No
//! call allocates.
#![tactic(auto)]

mod moves;
mod retracing;

pub use moves::{make_move, step, step_towards};
pub use retracing::{Retraced, retrace};
