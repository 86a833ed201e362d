//! Histories: a journal, or a checkpoint followed by entries.
//!
//! A history begins with the magic of a journal or with the checkpoint of a consistent market, and entries follow. [`read_start`]
//! reads that beginning from a source, through a window, and returns the market that the entries continue; the entries themselves
//! are left in the window and the source. [`kept_checkpoint`] reads a checkpoint with which a window begins, and returns its market and the
//! bytes that were read; [`kept_market`] returns the market alone.
#![tactic(auto)]

mod start;

pub use start::{KeptCheckpoint, StartFault, kept_checkpoint, kept_market, read_start};
