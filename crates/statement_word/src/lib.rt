//! The statement of an account as a subcommand over the entries of a history.
//!
//! [`StatementOf`] begins in the market of a history, and writes the lines that are carried forward: the account's last lines there.
//! [`Stating`] is what is done with the entries of an audit ([`Pairs`](journal_words::Pairs)): it has a
//! [`Statement`](account_statement::Statement) write the lines of each valid one. At the end of a valid history it writes the account's
//! last lines, if there is such an account; else it stops, for a reason of its own ([`NoStatement`]).
//!
//! # Costs
//!
//! At the start one copy of what the account has in the market, with one pass over all live orders. Then one audit of each entry, and
//! its lines. What the account sees of an entry is written by the market before it, so it is written when the entry has been judged and
//! its step isn't made yet.
//! Beside the market a statement holds what is the account's own, and one buffer for the lines of an entry.
#![tactic(auto)]

mod no_statement;
mod own;
mod stating;

pub use no_statement::NoStatement;
pub use stating::{StatementOf, Stating};
