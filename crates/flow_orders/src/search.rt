//! How prices are searched for.

/// How the prices of a batch are searched for.
#[derive(Clone, Copy)]
pub struct Search {
    /// The parts of a unit in which it is counted where a move of a price ends, from 1, which means whole units, to 256.
    pub parts: u16,
    /// Whether joint prices are tried, if some order names two assets or more.
    pub joint: bool,
}
