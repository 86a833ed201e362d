//! The statement of an account: what is its own in a journal, and nothing of anybody else's.
//!
//! The view of an account has the assets that were added, the entry that opened the account, and after that entry what
//! each command of the account's own did, or the command with its refusal, and of each batch its number, whether it
//! cleared, the prices, and the rates of the account's own orders. A statement is a function of the view alone: its text
//! is the lines of the view, and its last lines are the account's balances and what its live orders need.
#![tactic(auto)]

pub mod laws;
