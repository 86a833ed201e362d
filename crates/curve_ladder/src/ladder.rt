//! A ladder, and the commands that place its orders.
ghost use Rattle.std.specs.Prelude.{◌≡◌, ◌+◌, ◌∷◌, ◌++◌, ◌≤◌, ◌^◌, ◌↔◌, length, map, slice_get, IsNone, OnOk, IfOk, All, vec_len, vec_capacity};
ghost use Rattle.demand_curve.specs.Demand.{IsWithin};
ghost use Rattle.wire_records.specs.Commands.{Place};
ghost use Rattle.wire_records.specs.CommandRecords.{most_row, HasShortRow};
ghost use Rattle.wire_records.specs.Views.{command_in};

use crate::commands::CommandList;
use crate::points::{Point, PointList};
use crate::segment::{Segment, segment_between};
use crate::value::LadderValue;
use std::alloc::Global;
use std::marker::Model;
use weight_rows::EntryList;
use wire_records::{Command, Memory};

/// A demand curve of 2 to 33 points. Their prices ascend and are within 2^28 ticks of 0; their rates never rise, the
/// first is 1 to 2^24, and the last is 0. Its `turns`, 1 to 65,536, are the number of batches in which each of its
/// orders can trade its full rate.
#[derive(Drop)]
pub struct Ladder {
    points: PointList,
    turns: u32,
}

impl Model for Ladder {
    ghost use Rattle.curve_ladder.specs.Ladders.{Ladder as ladder_value};

    ghost Value = { ladder_value };

    ghost use Rattle.curve_ladder.specs.Kept.{ladder_in, IsKept};

    ghost view = { ladder_in };

    ghost invariant = { IsKept };
}

impl Ladder {
    ghost use Rattle.curve_ladder.specs.Ladders.{IsLadder};
    ghost use Rattle.curve_ladder.specs.Values.{IsValueAt, numerator, denominator};
    ghost use Rattle.curve_ladder.specs.Segments.{segments_of, curves_of, requests_of, curve_asked};
    ghost use Rattle.curve_ladder.specs.Demands.{AddUpTo, AtMostOneIsBroken, AskTogether};

    /// Creates a ladder of points, whose memory it keeps, and `turns`. [`ladder_fault`](crate::ladder_fault) must find
    /// no fault in them.
    pub fn new(points: PointList, turns: u32) -> Ladder
        requires { IsLadder (record { points = points; turns = turns }) }
        ensures value { result ≡ record { points = points; turns = turns } }
        ensures ladder { IsLadder result }
    {
        Ladder { points, turns }
    }

    /// Returns what the ladder asks for if its portfolio's price is `c` grains: the first rate up to the first point's
    /// price, 0 from the last point's price on, and between two points the value on the line through them.
    ///
    /// This is the sum of its orders' demands, of which at most one isn't a whole number. Costs one pass over the
    /// points.
    pub fn value(&self, c: i128) -> LadderValue
        requires price_in_range { IsWithin (2 ^ 78) c }
        ensures value { IsValueAt self.now.points c result }
        ensures demands { AddUpTo (curves_of self.now) c (numerator result) (denominator result) }
        ensures broken { AtMostOneIsBroken (curves_of self.now) c }
        ensures ladder { IsLadder self.now }
    {
        let (mut point, rest) = self.parts();
        if point.is_above(c) {
            return LadderValue::of_whole(point.rate);
        }
        for next in rest {
            if next.is_above(c) {
                return LadderValue::on_line(point, *next, c);
            }
            point = *next;
        }
        LadderValue::of_whole(0)
    }

    /// Returns how many segments the ladder has, 1 to 32: one for each drop of the rate between two points.
    ///
    /// Costs one pass over the points.
    pub fn segments(&self) -> u32
        ensures value { result ≡ length (segments_of self.now) }
        ensures least { 1 ≤ result }
        ensures most { result ≤ 32 }
        ensures ladder { IsLadder self.now }
    {
        let (mut point, rest) = self.parts();
        let mut count = 0;
        for next in rest {
            if next.rate < point.rate {
                count += 1;
            }
            point = *next;
        }
        count
    }

    /// Returns the segment at place `k`, counted from 0 in ascending prices, or `None` if `k` isn't below
    /// [`Ladder::segments`].
    ///
    /// Costs one pass over the points.
    pub fn segment(&self, k: u32) -> Option<Segment>
        ensures value { result ≡ slice_get (segments_of self.now) k }
        ensures none { IsNone result ↔ (length (segments_of self.now) ≤ k) }
        ensures ladder { IsLadder self.now }
    {
        let (mut point, rest) = self.parts();
        let mut left = k;
        for next in rest {
            if let Some(segment) = segment_between(point, *next, self.turns()) {
                if left == 0 {
                    return Some(segment);
                }
                left -= 1;
            }
            point = *next;
        }
        None
    }

    /// Returns the commands by which an account places the ladder's orders, all with the weight vector `row`: one command
    /// for each segment, in ascending prices. `row` has at most 165 legs, so that each command fits its record.
    ///
    /// At every price the demands of these orders add up to the ladder's value, and at most one of them isn't a whole
    /// number. Costs two passes over the points, and a copy of `row` for each command. Fails only if out of memory.
    pub fn commands(
        &self,
        alloc: Global,
        account: u32,
        row: &EntryList,
    ) -> Result<CommandList, Memory>
        requires { length row.now ≤ most_row }
        ensures value { IfOk result (λ list.
            map command_in list ≡ map (Place None) (requests_of self.now account row.now)) }
        ensures together { AskTogether self.now (map curve_asked (requests_of self.now account row.now)) }
        ensures short { IfOk result (All (λ command. HasShortRow (command_in command))) }
        ensures ladder { IsLadder self.now }
    {
        let mut commands = Vec::with_capacity(alloc, self.segments() as usize)?;
        self.put_commands(alloc, account, row, &mut commands)?;
        Ok(CommandList::new(commands))
    }

    // Returns the first point, and the points after it.
    pub(crate) fn parts(&self) -> (Point, &[Point])
        ensures parts { self.now.points ≡ result.0 ∷ result.1.now }
        ensures ladder { IsLadder self.now }
    {
        let points = self.points.as_slice();
        (points[0], &points[1..])
    }

    pub(crate) fn turns(&self) -> u32
        ensures value { result ≡ self.now.turns }
        ensures ladder { IsLadder self.now }
    {
        self.turns
    }

    // Appends the ladder's commands, for which the vector has the capacity.
    fn put_commands(
        &self,
        alloc: Global,
        account: u32,
        row: &EntryList,
        commands: &mut Vec<Command>,
    ) -> Result<(), Memory>
        requires { vec_len commands.old + length (segments_of self.now) ≤ vec_capacity commands.old }
        ensures { OnOk result (map command_in commands.new.items
            ≡ map command_in commands.old.items ++ map (Place None) (requests_of self.now account row.now)) }
    {
        let (mut point, rest) = self.parts();
        for next in rest {
            if let Some(segment) = segment_between(point, *next, self.turns()) {
                let command = segment.command(alloc, account, row)?;
                commands.push_reserved(command);
            }
            point = *next;
        }
        Ok(())
    }
}
