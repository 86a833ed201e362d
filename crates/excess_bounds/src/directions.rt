//! Which way prices move.

/// Which way the price of an asset that isn't settled moves.
#[derive(Clone, Copy, PartialEq, Eq)]
pub enum Direction {
    /// It rises: the low excess is above the slope bound.
    Rise,
    /// It falls: the high excess is below minus the slope bound.
    Fall,
}
