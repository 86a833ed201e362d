//! How a market of many senders begins: what is before the lines of its input, and whether a kept file begins so.
//!
//! An input begins with a checkpoint, or with the line `{"version":N}`. [`read_beginning`] reads that, and returns the market and how a new file of
//! it begins. [`begins_so`] says whether a file that is there begins in the same way. [`open_desk`] opens a file and an input: it compares how they
//! begin, or makes a new file one that begins as the input does.
//!
//! A [`Book`] is the file from then on. The entries that it kept before are read along with the lines: [`Book::find`] looks for the next one, and
//! [`DiskJournal::take`](journal_disk::DiskJournal::take) lends it. After the last one what follows is cut off, and [`Book::keep`] keeps more.
//!
//! # Costs
//!
//! The line of a version costs 14 bytes. A checkpoint costs what reading it costs, and is held once, beside its market; comparing it with that of a
//! file reads the file's first entry ahead, and holds that too.
#![tactic(auto)]

mod beginning;
mod book;
mod disk;
pub mod laws;
mod opening;

pub use beginning::{Beginning, read_beginning};
pub use book::Book;
pub use disk::begins_so;
pub use opening::{Opened, StartFault, open_desk};
