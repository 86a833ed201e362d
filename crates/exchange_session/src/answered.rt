//! What a command that was answered still changes.
use batch_outcome::Outcome;
use wire_records::Reply;

/// What is left to do of a command that was answered.
#[derive(Drop)]
pub enum Answered {
    /// Nothing: the command held no batch, and this is its reply. A refusal is one.
    Plain(Reply),
    /// A batch was answered, which [`Session::settle`](crate::Session::settle) settles.
    Batch(HeldBatch),
}

/// A batch that was answered, before it is settled.
#[derive(Drop)]
pub struct HeldBatch {
    /// How the batch ended. Its lists have a place for each live order and for each asset of the market that it was held in.
    pub outcome: Outcome,
    /// Where the record of its reply begins in the entry, in bytes from 0.
    pub place: usize,
}
