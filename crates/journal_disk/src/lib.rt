//! A journal on a disk that outlives a crash at any moment.
//!
//! A disk of a journal has the eight bytes `FLOWDSK1` to `FLOWDSK4`, by the version of the journal, and then stored
//! entries: a commit byte, the length of the entry in four bytes, and the entry, two records as in a journal. An entry
//! counts if its commit byte is set, which is 1; an unset one is written as 0, and any other byte is unset too. The
//! first commit byte that isn't set ends the journal, and what follows it has no meaning. A crash leaves there no more
//! than was being written, so a disk that isn't new and has more than 2^21 bytes after it is damaged at that commit
//! byte, and keeps what it holds. Before all others there may be a first entry that is none of the journal: bytes of at
//! most 2^32 - 1, whatever they mean, which aren't those of two records. A disk of at most 9 bytes is a new one,
//! whatever it holds, and so is one whose first commit byte isn't set; it has no version yet. [`laws`] says that bytes
//! represent at most one first entry and one list of entries, of one version.
//!
//! [`recover`] opens a disk that a crash may have left, and returns its version; [`Appender::make`] gives a new disk a
//! version, and [`Appender::append_first`] a first entry, which [`DiskJournal::find_first`] finds by its first bytes.
//! [`DiskJournal::find`] and [`DiskJournal::take`] go from entry to entry up to the commit byte that isn't set: each
//! entry is lent in place in a piece that was read ahead, and is parsed once; [`DiskJournal::next`] does both, and
//! copies its bytes. [`DiskJournal::begin`] cuts off what follows that commit byte. [`Appender::append`] then appends
//! an entry: it writes its length, the entry and another unset commit byte after the unset one, and syncs; then it sets
//! the older commit byte, and syncs. So a crash at any moment leaves the entries that were kept, with this one or
//! without, and once the call has returned Ok, with it. [`Appender::append_group`] appends the entries of a [`Group`] in
//! the same way, by one write and the same two syncs: the commit bytes between them are written as set ones, and the one
//! before them is set at the end. So a crash leaves all of them or none. The content of an entry's two records isn't
//! read, only that they are within a journal's limits; [`is_whole_pair`] says whether bytes are such an entry.
//!
//! After any fault the disk is to be opened again.
//!
//! # Costs
//!
//! Entries are read in pieces of 65,536 bytes, so one costs its bytes and a share of such a piece; one that is appended
//! costs its bytes and two writes with a sync each, and so does a group of them. Reading takes memory for a piece, which
//! grows to the longest entry and which [`Ahead::forget`] gives back, and `next` for the entry in the caller's buffer
//! too; beginning takes an appender's buffer of 263,183 bytes; a group takes memory for its entries, with 5 bytes more
//! for each; opening and appending take none.
#![tactic(auto)]

mod ahead;
mod appender;
mod calls;
mod fault;
mod first;
mod group;
mod journal;
pub mod laws;
mod magic;
mod pairs;
mod reading;

pub use ahead::Ahead;
pub use appender::Appender;
pub use fault::{DiskFault, Step};
pub use first::stored_first;
pub use group::Group;
pub use journal::{DiskJournal, recover};
pub use pairs::is_whole_pair;
