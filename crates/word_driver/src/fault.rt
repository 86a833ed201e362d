//! Why a subcommand may end otherwise than done.

/// Why a subcommand wasn't done. `B` is its own reason to stop.
#[derive(Clone, Copy, PartialEq, Eq)]
pub enum Fault<B> {
    /// A read of the input failed.
    Read,
    /// A write of the output failed.
    Write,
    /// An allocation failed.
    Memory,
    /// The input is no file of the kind that is asked for: it doesn't begin with the magic.
    NotFlow,
    /// The input is truncated or states too long a record; the broken unit begins at this byte, from 0.
    Torn(u64),
    /// The input has more bytes than the limit.
    TooLong,
    /// The subcommand stopped, for this reason.
    Stopped(B),
}

/// The reason to stop of a subcommand that has none.
#[derive(Clone, Copy)]
pub enum Never {}

/// Why a subcommand stops early, at a unit or at the end of its input.
#[derive(Clone, Copy, PartialEq, Eq)]
pub enum Halt<B> {
    /// An allocation failed.
    Memory,
    /// The subcommand stops, for a reason of its own.
    Stopped(B),
}
