//! A subcommand of the program as a value, and the one driver that does it.
//!
//! A subcommand says by its contract what it makes of the units of a file: a [`ServesWord`]. [`go`] reads a source, looks at
//! the magic, hands the units to the subcommand one after the other, and writes the text that the subcommand puts into a
//! buffer, one call for each piece. [`go_on`] continues an open subcommand from a window and its source. [`go_over_bytes`]
//! continues an open subcommand over bytes in memory. [`put_number`] and [`put_text`] put the parts of a line into such a
//! buffer.
#![tactic(auto)]

mod buffer;
mod driver;
mod fault;
pub mod laws;
mod serves;
mod writing;

pub use buffer::{put_number, put_text};
pub use driver::{go, go_on, go_over_bytes};
pub use fault::{Fault, Halt, Never};
pub use out_of_memory::Memory;
pub use serves::ServesWord;
