//! The numbers of an order that is read.

/// An order as it is read, except its legs: its number and account, its limit prices in ticks, its rate in units per
/// batch, its cap and what is filled of it in units, the number of the last batch in which it trades, or 0 if it has
/// none, and how many legs it has.
#[derive(Clone, Copy, PartialEq, Eq)]
pub struct OrderParts {
    pub number: u64,
    pub account: u32,
    pub low: i64,
    pub high: i64,
    pub rate: u32,
    pub cap: u64,
    pub filled: u64,
    pub last: u32,
    pub entries: u8,
}
