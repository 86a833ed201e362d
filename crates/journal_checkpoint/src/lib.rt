//! The checkpoint of a journal's market, as a subcommand over its entries.
//!
//! [`Checkpointing`] is handed to the audit of a journal as what is done with its entries: nothing with each, and at the end it writes
//! the market.
#![tactic(auto)]

mod checkpointing;

pub use checkpointing::Checkpointing;
