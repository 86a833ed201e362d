//! The limit of the input.

/// The most bytes of input that the program considers, 2^40, which are 1 TiB. Of an input that has more, `TooLong` says this number.
pub const INPUT_LIMIT: u64 = 1 << 40;
