//! Who is told what: the messages to the operator, to accounts and to all, each with its number.
//!
//! [`Desks`] counts the lines of each sender and the messages to each recipient. Its calls append messages: of a command that was served
//! ([`Desks::tell_served`]), of the orders of a batch that cleared ([`Desks::tell_fills`]), and of lines that were refused.
//!
//! # Costs
//!
//! A message costs its text. Of a batch, one pass over the live orders and one over the accounts is added. Each account takes 16 bytes.
#![tactic(auto)]

mod counts;
mod fills;
mod links;
mod refusals;
mod served;

pub use counts::{Desks, Tally, recipient_of};
pub use served::Served;
