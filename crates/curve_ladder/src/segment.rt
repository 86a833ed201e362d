//! A segment of a ladder: the order that a drop of the rate becomes.
ghost use Rattle.std.specs.Prelude.{◌≡◌, true, false, MatchOption, IfOk};
ghost use Rattle.wire_records.specs.Commands.{Place};
ghost use Rattle.wire_records.specs.Views.{command_in};
ghost use Rattle.curve_ladder.specs.Segments.{segment_between, is_drop, request_of};

use crate::points::Point;
use std::alloc::Global;
use weight_rows::EntryList;
use wire_records::{Command, Memory};

/// The order that a drop between two points of a ladder becomes.
#[derive(Clone, Copy, PartialEq, Eq)]
pub struct Segment {
    /// The low limit price, in ticks: the price of the lower point.
    pub low: i64,
    /// The high limit price, in ticks: the price of the upper point.
    pub high: i64,
    /// The order's rate, the most that it buys in one batch, in units of its portfolio: by how much the ladder's rate
    /// falls from the lower point to the upper one.
    pub rate: u32,
    /// The order's cap, the most that it buys in all, in units of its portfolio: its rate times the ladder's `turns`.
    pub cap: u64,
}

impl Segment {
    // Returns the command that places the segment's order, with a copy of `row`.
    pub(crate) fn command(
        &self,
        alloc: Global,
        account: u32,
        row: &EntryList,
    ) -> Result<Command, Memory>
        ensures { IfOk result (λ command. command_in command ≡ Place None (request_of account row.now self.now)) }
    {
        let row = EntryList::new(Vec::from_slice(alloc, row.as_slice())?);
        Ok(Command::PlaceOrder {
            account,
            low: self.low,
            high: self.high,
            rate: self.rate,
            cap: self.cap,
            row,
        })
    }
}

// Returns the segment of a point and the next one, or `None` if the rate doesn't fall between them.
pub(crate) fn segment_between(point: Point, next: Point, turns: u32) -> Option<Segment>
    ensures { MatchOption result (is_drop (point, next) ≡ false)
        (λ s. (is_drop (point, next) ≡ true) × (s ≡ segment_between turns (point, next))) }
{
    if next.rate < point.rate {
        let rate = point.rate - next.rate;
        Some(Segment {
            low: point.price,
            high: next.price,
            rate,
            cap: u64::from(rate) * u64::from(turns),
        })
    } else {
        None
    }
}
