//! The certificate of a batch that cleared, and the check of a published clearing.
//!
//! The types of an outcome, in `batch_outcome`, are values without conditions. [`certify`] makes a
//! [`Cleared`](batch_outcome::Cleared) of prices and rates: it adds the imbalance of each asset, and the gap;
//! [`certify_quoted`] adds the gap alone, given orders that are quoted at the prices and known imbalances. The definitions of
//! both are in `flow_orders`; [`laws`] bounds the imbalances of settled assets.
//!
//! [`check_cleared`] judges a clearing that someone published, wherever its numbers are: it reads them through
//! [`ClearedParts`](batch_outcome::ClearedParts), and its [`Verdict`] names the first part that is wrong. Every clearing has
//! exactly one verdict, and it is `Right` exactly if the clearing is admissible, as [`laws`] says.
//!
//! # Costs
//!
//! [`certify_quoted`] divides once for each order and goes over no legs. [`certify`] goes twice over the legs of all orders
//! before that, and allocates what they are quoted at, 64 bytes for each order, and the imbalances, 8 bytes for each
//! asset. [`check_cleared`] goes three times over the legs of all orders, for all assets together, and allocates nothing.
//! No other call allocates or takes more than constant time.
#![tactic(auto)]

mod certificate;
mod check;
pub mod laws;
mod numbers;
mod trade;
mod verdict;
mod weights;

pub use certificate::{certify, certify_quoted};
pub use check::check_cleared;
pub use out_of_memory::Memory;
pub use verdict::Verdict;
