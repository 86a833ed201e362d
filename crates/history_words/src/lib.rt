//! Subcommands over the entries of a history.
//!
//! [`go_history_from`] does a subcommand over the entries of a history: it reads the magic of a journal, or a checkpoint to its length,
//! writes what the subcommand begins with in the market there (an [`OnHistory`] says what), and hands the entries that follow to it, one
//! after the other, starting from this market. [`go_history`] does one that writes nothing before the first entry.
#![tactic(auto)]

mod driver;
mod on_history;
mod stop;

pub use driver::{go_history, go_history_from};
pub use on_history::OnHistory;
pub use stop::HistoryStop;
