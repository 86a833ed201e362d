//! The sum of integers over a list, such as what all accounts hold together or what a portfolio costs.
//!
//! The crate has one definition, `specs/Sums.antt`, and its laws: each function of [`laws`] is a law over
//! lists of any type, and does nothing when it runs.
#![tactic(auto)]

pub mod laws;
