//! The records of a journal: a command record as it was given, and the record of its one reply.
//!
//! [`reserve_plain`] allocates the space of an entry before anything else is done, and [`write_plain`] then
//! can't fail. [`write_cleared`] writes the entry of a batch that cleared, and [`write_skipped`] that of one that was
//! skipped, straight from what is published of it. Where the command's record was written already, [`reserve_reply`] and
//! [`put_reply`], [`write_cleared_reply`] or [`write_skipped_reply`] put the reply's record after it.
//!
//! [`journal_version`] looks at the magic before the first entry, and says which version it is of.
//! [`next_pair`] reads the entry that borrowed bytes begin with. If they begin with none, [`is_overlong`] says whether no
//! bytes that follow can complete one. [`reply`] says which answer the entry's second record encodes, and
//! [`ReplyView::of`] lends one out of bytes that are known to be its record. Nothing is
//! copied: a [`ClearedView`] gives a batch's numbers by their places, and can be checked as it is, and a [`SkippedView`]
//! lends out its trace. What holds of all encodings, those of batches included, and of journals as files is in [`laws`].
//!
//! # Costs
//!
//! Each byte of an entry is written once, after one allocation for all of it. An entry with a plain reply has at most 13
//! bytes more than its command record, the entry of a batch that cleared 31 more, 16 for each asset and 12 for each order,
//! and that of one that was skipped 45 more and one for each move.
//!
//! Reading an entry or a reply, and each number of a batch, is of constant cost, whatever the length of the body, and
//! doesn't allocate. Only [`ClearedView::to_cleared`] copies: two passes over the assets and one over the orders, and it
//! allocates the three lists.
#![tactic(auto)]

mod cleared;
mod cleared_view;
mod file;
mod fills_view;
pub mod laws;
mod numbers_view;
mod pair;
mod plain;
mod reply_view;
mod skipped;
mod skipped_view;

pub use cleared::{write_cleared, write_cleared_reply};
pub use cleared_view::ClearedView;
pub use file::{
    JOURNAL_MAGIC, MOST_PAIR, MOST_REPLY_BODY, is_journal, journal_magic, journal_version,
};
pub use pair::{PairFramed, PairView, is_overlong, next_pair};
pub use plain::{MOST_PLAIN_PAIR, put_reply, reserve_plain, reserve_reply, write_plain};
pub use reply_view::{ReplyView, reply};
pub use skipped::{write_skipped, write_skipped_reply};
pub use skipped_view::SkippedView;
