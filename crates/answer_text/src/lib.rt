//! The answers to lines with a sender, in JSON.
//!
//! An answer is one line, a JSON object without blanks: whom it is for, its number, and its members. [`put_head`] and [`put_end`]
//! append what is around the members of an answer, [`put_command`] and [`put_reply`] what tells of a command and of what came of it,
//! and [`put_cleared_batch`] and [`put_skipped_batch`] what all are told of a batch,
//! [`put_fills`] what an account is told of it. [`put_market`], [`put_exchange`] and [`put_account`] answer questions.
//!
//! # Costs
//!
//! An answer costs its text: each number is read in place and printed once, right after what is in the output. What an account has costs one
//! pass over all live orders too.
#![tactic(auto)]

mod accounts;
mod batches;
mod commands;
mod fills;
mod header;
mod questions;
mod quoted;
mod replies;

pub use accounts::put_account;
pub use batches::{put_cleared_batch, put_skipped_batch};
pub use commands::put_command;
pub use fills::{FillCost, put_fills};
pub use header::{Heading, Recipient, put_end, put_head};
pub use questions::{put_exchange, put_market};
pub use replies::put_reply;
