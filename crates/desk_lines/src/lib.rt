//! What a line asks for whose sender isn't trusted: who sent it, whether it counts, and what its sender may ask for.
//!
//! [`hear`] reads a line as an envelope and looks at its sender and its number; [`wish_of`] reads the text in it, and looks at what its sender
//! may ask for. Nothing is changed by either.
#![tactic(auto)]

mod hearing;
pub mod laws;
mod rights;
mod wishes;

pub use hearing::{Heard, MOST_ENVELOPE, hear};
pub use wishes::{MOST_TEXT, TextFault, Wish, wish_of};
