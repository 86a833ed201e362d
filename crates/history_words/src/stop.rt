//! Why a subcommand over a history stops.

/// Why a subcommand over a history stops, if not at the end of its input.
#[derive(Clone, Copy, PartialEq, Eq)]
pub enum HistoryStop<B> {
    /// The input begins with the magic of a checkpoint, but with no checkpoint of a consistent market.
    NoCheckpoint,
    /// The subcommand stopped over the entries, for this reason.
    AtPairs(B),
}
