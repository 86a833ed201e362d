//! Joint prices: prices at which all assets may be settled, searched for all assets together.
//!
//! [`joint_prices`] is a primal-dual interior point method in whole numbers, which maximizes the welfare of the orders of a
//! book. Its unknowns are each order's share of its batch maximum, which a logarithmic barrier keeps between 0 and 1, and
//! the prices, which are the multipliers of the assets' balances. A step is a Newton step: the orders' shares are eliminated,
//! and one linear system over the assets says by how much all prices move at once, so that what the orders trade is balanced
//! to first order. Each share then takes its own Newton step, but at most half of the way to either bound, and the barrier's
//! parameter tau falls to a third. Prices are tested as they are, by a [`Settles`] that the caller hands in: the first prices
//! that settle are the answer, and after 100 steps those that are reached. So no promise depends on the method.
//!
//! The definition is in `specs`, and `Steps` has the whole of it; each call is proved to answer it, number by number, for
//! any book within the limits. Nothing overflows in 128 bits: the system is solved in floating point numbers `m * 2^e` with 62
//! bits of `m`, to which each operation cuts its result. These numbers and the elimination are public for crates that search for
//! joint prices in another way.
//!
//! # Costs
//!
//! A step costs two passes over the legs of all orders, one over every two legs of each order, and a sixth of the cube
//! of the number of assets. All memory is allocated before the first step.
#![tactic(auto)]

mod moving;
mod numbers;
mod order_states;
mod searching;
mod solving;
mod sums;
mod systems;

pub use numbers::{Number, cut, minus, over, quotient, scale, times, whole};
pub use order_states::line_of;
pub use out_of_memory::Memory;
pub use searching::{Settles, joint_prices};
pub use solving::{Row, fill_all, solve, whole_all};
pub use sums::{Sums, add_square};
