//! Why there is no statement.

/// Why a statement has no last lines, though its history was read.
#[derive(Clone, Copy)]
pub enum NoStatement {
    /// The entry of this number, counted from 1, is invalid.
    Rejected(u64),
    /// The history is valid, and its market at the end has no account of this number.
    NoAccount(u64),
}
