//! Keeps a journal on a disk while lines of JSON are served: [`serve_lines`], and laws about what lines are answered with.
//!
//! Each command that a line asks for is served in the market, its entry is kept on the disk, and then the text of the entry is
//! written. Lines, in the market's version and with its tickers, are those of `order_text`.
//!
//! # Costs
//!
//! A line costs what reading it costs, and each of its commands what serving and keeping a record costs, and the text. Held are a window of the
//! longest line, of 65,537 bytes, the longest entry of a disk, an entry, and a text.
#![tactic(auto)]

mod answering;
mod input;
pub mod laws;
mod opening;
mod serving;

pub use serving::serve_lines;
