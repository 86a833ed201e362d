//! A sample of a large market: a command file of orders that are drawn from a number, the same at each run.
//!
//! [`sample_commands`] makes the file. It has eight assets, 64 accounts with ample deposits, so many orders of one to
//! three assets around usual prices, and four batches. The generator and all its constants are this project's own.
#![tactic(auto)]

mod draws;
mod file;
pub mod laws;
mod orders;

pub use file::{MOST_ORDERS, sample_commands};
