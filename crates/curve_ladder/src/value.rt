//! A value of a ladder as a fraction.
ghost use Rattle.std.specs.Prelude.{pos, ◌≡◌, ◌+◌, ◌*◌, ◌<◌, ◌≤◌, ◌^◌, ◌≤ℤ◌, ◌<ℤ◌};

use crate::points::Point;

/// What a ladder asks for at a price, in units of its portfolio per batch: `whole + part / over`, with
/// `0 <= part < over`. So `whole` is the value rounded down, and the value is a whole number exactly if `part` is 0.
#[derive(Clone, Copy, PartialEq, Eq)]
pub struct LadderValue {
    /// The value rounded down, in units.
    pub whole: u32,
    /// How many parts of a unit it has beyond that.
    pub part: i128,
    /// How many parts make a unit.
    pub over: i128,
    ghost part_least: { pos 0 ≤ℤ part },
    ghost part_most: { part <ℤ over },
}

impl LadderValue {
    ghost use Rattle.demand_curve.specs.Demand.{IsWithin, most_rate};
    ghost use Rattle.demand_curve.specs.Numbers.{distance};
    ghost use Rattle.flow_orders.specs.Orders.{most_ticks};
    ghost use Rattle.curve_ladder.specs.Values.{numerator, denominator, grains_at, span_between, drop_between};

    // Returns a whole number as a value.
    pub(crate) fn of_whole(rate: u32) -> LadderValue
        ensures numerator { numerator result ≡ rate }
        ensures denominator { denominator result ≡ 1 }
    {
        LadderValue {
            whole: rate,
            part: 0,
            over: 1,
        }
    }

    // Returns the value least + drop * below / span.
    fn of_parts(least: u32, drop: u32, below: u128, span: u128) -> LadderValue
        requires within { below ≤ span }
        requires positive { 0 < span }
        requires span_most { span ≤ 2 ^ 61 }
        requires rate_most { least + drop ≤ most_rate }
        ensures numerator { numerator result ≡ least * span + drop * below }
        ensures denominator { denominator result ≡ span }
    {
        let parts = u128::from(drop) * below;
        LadderValue {
            whole: least + (parts / span) as u32,
            part: (parts % span) as i128,
            over: span as i128,
        }
    }

    // Returns the value at a price between two neighbours, on the line through them.
    pub(crate) fn on_line(point: Point, next: Point, price: i128) -> LadderValue
        requires from { grains_at point ≤ℤ price }
        requires to { price <ℤ grains_at next }
        requires point_in_range { IsWithin most_ticks point.price }
        requires next_in_range { IsWithin most_ticks next.price }
        requires falls { next.rate ≤ point.rate }
        requires rate_most { point.rate ≤ most_rate }
        ensures numerator { numerator result ≡ next.rate * span_between point next
            + drop_between point next * distance (grains_at next) price }
        ensures denominator { denominator result ≡ span_between point next }
    {
        LadderValue::of_parts(
            next.rate,
            point.rate - next.rate,
            next.grains_above(price),
            point.span_to(&next),
        )
    }
}
