//! Taking the units of a file, such as the records of a command file or the entries of a journal, one after the other.
//!
//! What is done with a unit is handed in, as a [`TakesUnits`]: [`take_units`] goes over bytes in memory, and [`take_from`] over
//! an input that it reads through a window. Both return how the reading ends. Each unit is looked at in place. The cost is
//! that of taking the units, and nothing is allocated besides.
#![tactic(auto)]

mod input;
mod units;

pub use input::{TakeFault, take_from};
pub use units::{Ending, Prefix, TakesUnits, take_units};
