//! Why an entry is no step of the market.
use batch_certificate::Verdict;
use wire_records::Reply;

/// The finding on an entry: the first of these that holds. Places are counted from 0, and dual values are in grains.
#[derive(Clone, Copy, PartialEq, Eq)]
pub enum Finding {
    /// The second record encodes no reply.
    NoReply,
    /// The command gets this plain reply, and the entry has another one.
    OtherReply(Reply),
    /// A batch is due, and the reply has no outcome under its number, which is this one.
    Batch(u32),
    /// The first part of a batch that cleared that isn't admissible. It is never `Right`.
    Part(Verdict),
    /// A batch was skipped, and no live order has two legs or more.
    SingleBook,
    /// The number of bytes in the trace of a skip isn't the number of moves in the budget.
    TraceLength,
    /// The byte at this place of the trace is the first that names no asset, or an asset that is settled before its
    /// move.
    TraceStep(u32),
    /// All assets are settled at the end of the trace.
    AllSettled,
    /// The dual value at the start is false; this is the true one.
    StartDual(i128),
    /// The dual value at the end is false; this is the true one.
    EndDual(i128),
    /// None of these: the entry is a step of the market.
    Legal,
}
