//! The statement of an account, entry by entry.
//!
//! A [`Statement`] takes the valid entries of a journal or a history one after the other, and appends the lines of what its account
//! sees of each. It begins with nothing, or with a copy of what the account has in a market. From there on it derives what the account
//! has from these entries alone, and never reads the balances of the market; its contract says that both agree. The definitions of
//! `statement_rules` say what an account sees and what its statement says, and the lines are those of `statement_lines`.
//!
//! # Costs
//!
//! An entry is read when it is judged, and not again. One that isn't the account's costs a look at its command. A command of the
//! account's own costs its line; an order also a copy of its legs. A batch costs one pass over the prices and over the account's own live
//! orders, each of which is found among the published rates in as many steps as their count has bits. Memory is taken
//! for the text if the list has no room, for a new asset or order of the account's own, and in a batch that cleared for
//! a list of the prices, one of the account's own rates and one of the units that these bring.
#![tactic(auto)]

mod batch;
mod carried;
mod changes;
mod event;
mod rates;
mod statement;
mod telling;

pub use statement::Statement;
