//! What is wrong with points and turns that don't make a ladder.
ghost use Rattle.std.specs.Prelude.{◌≡◌, ◌↔◌, ◌≤◌, ◌<ℤ◌, length, IsTrue, IsNone, IfSome, MatchOption, Option};
ghost use Rattle.demand_curve.specs.Demand.{IsWithin, most_rate};
ghost use Rattle.flow_orders.specs.Orders.{most_ticks, IsFrom1To};
ghost use Rattle.curve_ladder.specs.declared.faults.LadderFault.{LadderFault};
ghost use Rattle.curve_ladder.specs.Ladders.{IsLadder, most_points};
ghost use Rattle.curve_ladder.specs.Faults.{FailsFirstAt, IsLadderFault, HasConsistentPriceAt, HasConsistentRateAt, HasConsistentPrices, HasConsistentRates};

use crate::points::Point;
use flow_orders::{MOST_RATE, MOST_TICKS};

/// The fewest points of a ladder.
const LEAST_POINTS: usize = 2;

/// The most points of a ladder.
pub const MOST_POINTS: usize = 33;

/// The highest `turns` of a ladder.
pub const MOST_TURNS: u32 = 65_536;

/// Why points and turns don't make a ladder. A place is counted from 0, and is the first that breaks its rule.
#[derive(Clone, Copy, PartialEq, Eq)]
pub enum LadderFault {
    /// There aren't 2 to 33 points.
    Points,
    /// At this place the price isn't within 2^28 ticks of 0, or isn't above the price before it.
    Price(u32),
    /// At this place the rate breaks a rule: the first rate is 1 to 2^24, no later one is above the one before it,
    /// and the last one is 0.
    Rate(u32),
    /// `turns` isn't 1 to 65,536.
    Turns,
}

/// Returns the first fault of points and turns, in the order of [`LadderFault`], or `None` if they make a ladder.
///
/// Costs at most two passes over the points, and none if their number is wrong.
pub fn ladder_fault(points: &[Point], turns: u32) -> Option<LadderFault>
    ensures exact { (fault : Option LadderFault) → (result ≡ fault)
        ↔ IsLadderFault (record { points = points.now; turns = turns }) fault }
    ensures lawful { IsNone result ↔ IsLadder (record { points = points.now; turns = turns }) }
{
    if points.len() < LEAST_POINTS || points.len() > MOST_POINTS {
        return Some(LadderFault::Points);
    }
    if let Some(place) = price_fault(points) {
        return Some(LadderFault::Price(place));
    }
    if let Some(place) = rate_fault(points) {
        return Some(LadderFault::Rate(place));
    }
    if turns < 1 || turns > MOST_TURNS {
        return Some(LadderFault::Turns);
    }
    None
}

// Returns the first place whose price is out of range or isn't above the one before it.
fn price_fault(points: &[Point]) -> Option<u32>
    requires { length points.now ≤ most_points }
    ensures { MatchOption result (HasConsistentPrices points.now)
        (FailsFirstAt (HasConsistentPriceAt points.now) (length points.now)) }
{
    let mut before = None;
    for (place, point) in points.iter().enumerate() {
        if !is_consistent_price(before, *point) {
            return Some(place as u32);
        }
        before = Some(*point);
    }
    None
}

fn is_consistent_price(before: Option<Point>, point: Point) -> bool
    ensures { IsTrue result ↔ (IsWithin most_ticks point.price × IfSome before (λ b. b.price <ℤ point.price)) }
{
    if point.price < -MOST_TICKS || point.price > MOST_TICKS {
        return false;
    }
    match before {
        Some(lower) => lower.price < point.price,
        None => true,
    }
}

// Returns the first place whose rate breaks its rule.
fn rate_fault(points: &[Point]) -> Option<u32>
    requires { length points.now ≤ most_points }
    ensures { MatchOption result (HasConsistentRates points.now)
        (FailsFirstAt (HasConsistentRateAt points.now) (length points.now)) }
{
    let mut before = None;
    for (place, point) in points.iter().enumerate() {
        if !is_consistent_rate(before, *point, place + 1 == points.len()) {
            return Some(place as u32);
        }
        before = Some(*point);
    }
    None
}

fn is_consistent_rate(before: Option<Point>, point: Point, is_last: bool) -> bool
    ensures { IsTrue result ↔ (MatchOption before (IsFrom1To most_rate point.rate) (λ b. point.rate ≤ b.rate)
        × (IsTrue is_last → point.rate ≡ 0)) }
{
    if is_last && point.rate != 0 {
        return false;
    }
    match before {
        Some(lower) => point.rate <= lower.rate,
        None => 1 <= point.rate && point.rate <= MOST_RATE,
    }
}
