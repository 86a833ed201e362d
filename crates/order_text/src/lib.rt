//! The commands that a line of JSON asks for.
//!
//! [`read_line`] reads one line, given the tickers of the lines before it, and [`ask_line`] one given those of a market. The text at `do` says what an object asks
//! for, a command or the orders of a ladder, and the object has exactly the keys of that. [`is_blank`] tells whether a line says nothing, and
//! [`read_question`] reads a text as a question about a market.
#![tactic(auto)]

mod asking;
mod fields;
mod ladder;
pub mod laws;
mod line;
mod question;
mod row;
mod word;

pub use line::{LineFault, LineRead, ask_line, is_blank, read_line};
pub use question::{Question, read_question};
