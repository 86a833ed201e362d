//! What the texts of entries have in common: a text that is appended to a list or taken back, the names of assets, and
//! the legs of orders.
//!
//! [`Text`] grows piece by piece, and the contract of each call says exactly by what. Numbers are plain decimal, with
//! `-` before a negative one. An asset's name is its ticker without spaces.
//!
//! # Costs
//!
//! Each number is printed once, right after what is in the list. Memory is taken only if the list has no room for the
//! text.
#![tactic(auto)]

mod names;
mod rows;
mod text;

pub use text::Text;
