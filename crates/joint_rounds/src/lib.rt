//! Joint prices of large books: prices at which all assets may be even, searched for all assets together.
//!
//! The method is that of [`joint_prices`], a primal-dual interior point method in whole numbers that maximizes the welfare of
//! the orders of a book. Its unknowns are each order's share of its batch maximum, which a logarithmic barrier keeps between
//! 0 and 1, and the prices. A step is a Newton step: the orders' shares are eliminated, one linear system over the assets
//! says by how much all prices move at once, and each share then takes its own Newton step, at most half of the way to
//! either bound.
//!
//! What is made for large books is how a step's system is solved: by rounds of preconditioned conjugate gradients over the
//! orders (Hestenes and Stiefel, 1952). No matrix is made, and a round costs two passes over the legs. What a round divides
//! by is the diagonal of the matrix, in which an order's slope counts over its number of legs. A round is an exact search along
//! its direction, and both of its quotients are taken from the direction itself, so rounding can't spoil later ones.
//! Rounds end when what is left of each asset is at most a quarter of what roundings of the orders' demands leave open. Up
//! to 64 assets, and where orders are too steep and too few for rounds, systems are solved by elimination.
//!
//! - [`joint_prices_quickly`]: the barrier's parameter falls to a quarter in each step; by rounds, up to 64 assets by elimination.
//! - [`joint_prices_slowly`]: it falls to a half in each step, by elimination.
//!
//! Prices are tested as they are, by a [`TestsEven`] that the caller hands in: the first prices that are even are the answer,
//! and after 100 steps those that are reached. So no promise depends on the method.
//!
//! The definition is in `specs`, and `Steps` has the last of it; each call is proved to answer it, number by number, for any
//! book within the limits: 2^17 orders, 512 assets, prices within 2^62 grains. Nothing overflows in 128 bits. All numbers of
//! an order but its stiffness fit in 64, sums over orders stay below 2^126, and all else of a round or of an elimination is
//! in the floating point numbers of [`joint_prices`], to which each operation cuts its result.
//!
//! # Costs
//!
//! A step costs a test of its prices and three passes over the legs of all orders; and with rounds one pass more, what the caller
//! takes to say which parts are open, and two passes for each round, at most 100, or with elimination one pass over every two
//! legs of each order and a sixth of the cube of the number of assets. All memory is allocated before the first step.
#![tactic(auto)]

mod elimination;
mod moving;
mod order_states;
mod rounds;
mod searching;
mod sums;
mod vectors;

pub use out_of_memory::Memory;
pub use searching::{TestsEven, joint_prices_by, joint_prices_quickly, joint_prices_slowly};
