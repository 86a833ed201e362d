//! What the market is and does, apart from the program that keeps one: definitions, and what holds of them.
//!
//! All crates above use the definitions in `specs`: `Market` (what is kept, and when it is consistent), `Step` (the first
//! refusal of a command, or its answer and the market after it), `Journal` (sequences of steps, totals, fills), `Promises`
//! (what a journal promises of batches and fills), `Allocating` (which commands may run out of memory), `Settling` (which
//! outcomes can be settled). Each function of [`laws`] is a law about these, and does nothing when it runs. Code uses only
//! what it says by version and in numbers: [`search_of`] and [`parts_of`], and [`MOST_ORDERS`].
#![tactic(auto)]

pub mod laws;
mod search;

pub use flow_orders::MOST_ORDERS;
pub use search::{parts_of, search_of};
