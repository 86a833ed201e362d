//! Why an encoding stops.

/// Why an encoding goes no further.
#[derive(Clone, Copy, PartialEq, Eq)]
pub enum EncodeStop {
    /// The line of this number, counted from 1 after a checkpoint, is neither blank nor a command.
    NoCommand(u64),
    /// The input begins as a checkpoint, and with none of a consistent market of the version.
    NoCheckpoint,
}
