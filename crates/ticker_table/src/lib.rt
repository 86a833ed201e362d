//! The table of tickers: which assets there are, by name and by number.
//!
//! An asset's number is the place of its ticker in the table, from 0, and never changes. Contracts see a
//! table as the list of its tickers, each as its 8 bytes. Each call costs the same however many tickers
//! there are.
#![tactic(auto)]

mod encoding;
pub mod laws;
mod table;

pub use table::{TickerFault, TickerTable};

/// How many tickers a table holds at most.
pub const MOST_TICKERS: u16 = 64;
