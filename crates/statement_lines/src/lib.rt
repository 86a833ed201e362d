//! The lines of an account's statement, one function for each.
//!
//! A line is appended to a [`Text`](pair_text::Text), which can be taken back. Money is in grains except where it is
//! given in ticks, limits are in ticks, all other amounts in whole units. Assets are named by their tickers without
//! spaces.
//!
//! # Costs
//!
//! Each number is printed once; an order costs one pass over its legs. Memory is taken only if the list that the text
//! is appended to has no room.
#![tactic(auto)]

mod batches;
mod commands;
mod last;
mod orders;

pub use batches::{put_cleared, put_cost, put_skipped};
pub use commands::{put_amount, put_cancel, put_opening, put_refused};
pub use last::{put_asset, put_money};
pub use orders::put_order;
