//! How the program ends: its statuses, each with the number that the program exits with and its line on standard error.
//!
//! [`Status`] is what each call of the program returns. It knows no subcommand: which status a subcommand ends with is said above.
#![tactic(auto)]

pub mod laws;
mod limit;
mod line;
mod status;

pub use limit::INPUT_LIMIT;
pub use status::Status;
