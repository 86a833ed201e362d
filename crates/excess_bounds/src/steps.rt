//! What one order asks for of an asset, step by step, as the asset's price moves.
ghost use Rattle.std.specs.Prelude.{◌≡◌, ◌^◌, ◌≤◌, ◌<◌, ◌+ℤ◌, ◌*ℤ◌, pos, unsigned_abs};
ghost use Rattle.std.specs.Ordering.{int_eq};
ghost use Rattle.weight_rows.specs.Rows.{most_weight};
ghost use Rattle.excess_bounds.specs.Steps.{CanLook, looked, closed, part_after};

use crate::parts::{low_parts, price_after};
use demand_curve::Curve;

// An order that may ask for less of the asset after a high amount than after a low one.
#[derive(Clone, Copy)]
pub(crate) struct Step {
    pub(crate) curve: Curve,
    // The price of the order's portfolio before the move.
    pub(crate) price: i128,
    // How many parts of a unit amounts are counted in.
    pub(crate) parts: u16,
    // The asset's weight, negated if the asset's price falls.
    pub(crate) weight: i32,
    // How fast the demand falls if it isn't cut.
    pub(crate) pull: u32,
    // The most that it asks for after the low amount, in parts, and the least that it asks for after the high one.
    pub(crate) first: i64,
    pub(crate) last: i64,
    // What it asks for after the amount that was looked at last, in parts.
    pub(crate) here: i64,
}

impl Step {
    // Returns the step with what it asks for after an amount.
    pub(crate) fn looked(self, amount: u64) -> Step
        requires can { CanLook amount self }
        requires amount { amount ≤ 2 ^ 62 }
        ensures step { result ≡ looked amount self }
        ensures small { unsigned_abs result.here ≤ 2 ^ 44 }
    {
        Step {
            here: self.parts_after(amount),
            ..self
        }
    }

    // Returns what it asks for after an amount, in parts.
    fn parts_after(&self, amount: u64) -> i64
        requires can { CanLook amount self.now }
        requires amount { amount ≤ 2 ^ 62 }
        ensures parts { result ≡ part_after amount self.now }
        ensures small { unsigned_abs result ≤ 2 ^ 44 }
    {
        let price = price_after(self.price, self.weight, i128::from(amount));
        low_parts(self.weight, self.curve.roundings_in(self.parts, price))
    }

    // Returns the step with the amount that was looked at last as an end of the bracket.
    pub(crate) fn closed(self, is_low: bool) -> Step
        ensures { result ≡ closed is_low self }
    {
        if is_low {
            Step {
                first: self.here,
                ..self
            }
        } else {
            Step {
                last: self.here,
                ..self
            }
        }
    }

    // Returns whether it asks for the same at both ends.
    pub(crate) fn is_closed(&self) -> bool
        ensures { result ≡ int_eq self.now.first self.now.last }
    {
        self.first == self.last
    }

    // Returns about the least amount after which it asks for no more than the middle between both ends.
    pub(crate) fn middle(&self) -> u64 {
        let size = u64::from(self.weight.unsigned_abs().max(1));
        let both = (self.first.unsigned_abs() / size).saturating_add(
            self.last.unsigned_abs() / size,
        );
        let below_high = i128::from(self.curve.high).wrapping_sub(self.price);
        let far = if self.weight < 0 {
            let last_below = self.grains_for(both.saturating_sub(1) / 2, 0);
            last_below.wrapping_add(1).wrapping_sub(below_high)
        } else {
            below_high.wrapping_sub(self.grains_for(both / 2 + 1, 1))
        };
        (far.clamp(0, i128::from(u64::MAX)) as u64).div_ceil(size)
    }

    // Returns how many grains below its high limit its line asks for so many parts, without the batch maximum; the line times
    // the span is taken less by `less` first.
    fn grains_for(&self, asked: u64, less: u128) -> i128 {
        let rate = u128::from(self.parts)
            .wrapping_mul(u128::from(self.curve.rate))
            .max(1);
        let line = u128::from(asked)
            .wrapping_mul(self.curve.span() as u128)
            .wrapping_sub(less);
        (line / rate).min(1 << 100) as i128
    }

    // Returns how fast what it asks for falls when it asks for so many parts; 0 if the demand is cut there.
    fn pull_at(&self, asked: i64) -> u64 {
        let size = u64::from(self.weight.unsigned_abs()).wrapping_mul(u64::from(self.parts));
        let full = size.wrapping_mul(u64::from(self.curve.room));
        let part = asked.unsigned_abs();
        if part == 0 || full <= part {
            return 0;
        }
        let weight = u64::from(self.weight.unsigned_abs());
        size.wrapping_mul(weight)
            .saturating_mul(u64::from(self.pull))
    }

    pub(crate) fn pull_now(&self) -> u64 {
        self.pull_at(self.first)
    }

    pub(crate) fn pull_here(&self) -> u64 {
        self.pull_at(self.here)
    }
}
