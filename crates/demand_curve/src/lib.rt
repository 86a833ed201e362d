//! The demand curve of one order: how much it asks for at each price of its portfolio.
//!
//! An order has a low and a high limit price, a rate, which it asks for at most in a batch, and a batch maximum,
//! which is the rate or its remaining quantity, whichever is less. At a price at or above the high limit it asks for
//! nothing, at the low limit for the full rate, and between them for `rate * (high - price) / (high - low)`,
//! but never for more than its batch maximum. This is the piecewise linear demand of Flow Trading (Budish, Cramton,
//! Kyle, Lee and Malec, 2023); the cut at the batch maximum, rates in whole units and the limits of the numbers are
//! this project's own.
//!
//! Prices, losses and values are in grains (2^32 of them are a tick), rates in whole units per batch. A demand is
//! a fraction: the calls return the demand times the span `high - low`, which is an integer.
//!
//! Each call takes constant time, allocates nothing and can't fail. All numbers on the way fit 128 bits.
//! The definitions are in `specs/Demand.antt`, and the laws of every curve are in the module `laws`.
#![tactic(auto)]

ghost use Rattle.demand_curve.specs.Demand.{IsWithinLimits};

mod arithmetic;
pub mod laws;
mod rounding;

use arithmetic::{distance, floor_square_over};
pub use rounding::{PartRoundings, Roundings};

/// The demand curve of one order.
///
/// Both limits are in -2^60 to 2^60 grains, the high one at least 2^32 and so at most 2^61 above the low one, and
/// `1 <= room <= rate <= 2^24`. Every value keeps these limits.
#[derive(Clone, Copy, PartialEq, Eq)]
pub struct Curve {
    /// The low limit price, in grains: up to it the order asks for its batch maximum.
    pub low: i64,
    /// The high limit price, in grains: from it on the order asks for nothing.
    pub high: i64,
    /// What the order asks for at most in a batch, in whole units.
    pub rate: u32,
    /// The batch maximum: the most that the order may still trade in this batch, in whole units.
    pub room: u32,
    ghost within_limits: { IsWithinLimits (record { low = low; high = high; rate = rate; room = room }) },
}

impl Curve {
    ghost use Rattle.std.specs.Prelude.{◌≡◌, ◌≤◌, ◌<◌, ◌*◌, ◌/◌, ◌^◌, pos, ◌≤ℤ◌, ◌↔◌, IsTrue, min};
    ghost use Rattle.demand_curve.specs.Numbers.{distance};
    ghost use Rattle.std.specs.Int.{div_ceil};
    ghost use Rattle.demand_curve.specs.Demand.{IsWithin, span, line, scaled_demand, floor_rate, ceil_rate, floor_in, ceil_in, IsRounding, loss, dual_floor};
    ghost use Rattle.demand_curve.specs.Curve.{terms};

    /// Returns the span `high - low`, in grains: 2^32 to 2^61.
    ///
    /// Takes constant time and allocates nothing.
    pub fn span(&self) -> i64
        ensures value { result ≡ pos (span (terms self.now)) }
        ensures least { pos (2 ^ 32) ≤ℤ result }
        ensures most { result ≤ℤ pos (2 ^ 61) }
    {
        self.high - self.low
    }

    /// Returns the demand at a price, times the span: 0 to 2^85.
    ///
    /// The price is in grains. Takes constant time and allocates nothing.
    pub fn scaled(&self, price: i128) -> i128
        requires price_in_range { IsWithin (2 ^ 78) price }
        ensures value { result ≡ pos (scaled_demand (terms self.now) price) }
        ensures most { result ≤ℤ pos (2 ^ 85) }
    {
        self.demand(price) as i128
    }

    /// Returns the demand at a price rounded down, in whole units per batch: at most the batch maximum.
    ///
    /// The price is in grains. Takes constant time and allocates nothing.
    pub fn floor_rate(&self, price: i128) -> u32
        requires { IsWithin (2 ^ 78) price }
        ensures value { result ≡ floor_rate (terms self.now) price }
        ensures within_room { result ≤ self.now.room }
    {
        self.roundings(price).floor
    }

    /// Returns the demand at a price rounded up, in whole units per batch: at most the batch maximum.
    ///
    /// The price is in grains. Takes constant time and allocates nothing.
    pub fn ceil_rate(&self, price: i128) -> u32
        requires { IsWithin (2 ^ 78) price }
        ensures value { result ≡ ceil_rate (terms self.now) price }
        ensures within_room { result ≤ self.now.room }
    {
        self.roundings(price).ceil
    }

    /// Returns the demand at a price rounded down and rounded up, in whole units per batch: each at most the batch maximum.
    ///
    /// The price is in grains. Takes constant time and allocates nothing. Both cost what either alone does: one division,
    /// and none if the demand is cut, to nothing or to the batch maximum.
    pub fn roundings(&self, price: i128) -> Roundings
        requires price_in_range { IsWithin (2 ^ 78) price }
        ensures floor { result.floor ≡ floor_rate (terms self.now) price }
        ensures ceil { result.ceil ≡ ceil_rate (terms self.now) price }
        ensures floor_within_room { result.floor ≤ self.now.room }
        ensures ceil_within_room { result.ceil ≤ self.now.room }
    {
        if i128::from(self.high) <= price {
            Roundings::of_whole(0)
        } else if price <= i128::from(self.low) {
            Roundings::of_whole(self.room)
        } else {
            self.roundings_between(self.below_high(price) as u64)
        }
    }

    /// Returns the demand at a price in parts of a unit, rounded down and rounded up: each at most the batch maximum in parts.
    ///
    /// The price is in grains, and there are 1 to 65,535 parts. Takes constant time and allocates nothing. It costs one
    /// division, as for whole units, and none if the demand is cut.
    pub fn roundings_in(&self, parts: u16, price: i128) -> PartRoundings
        requires some { 1 ≤ parts }
        requires price_in_range { IsWithin (2 ^ 78) price }
        ensures floor { result.floor ≡ floor_in parts (terms self.now) price }
        ensures ceil { result.ceil ≡ ceil_in parts (terms self.now) price }
        ensures floor_within_room { result.floor ≤ parts * self.now.room }
        ensures ceil_within_room { result.ceil ≤ parts * self.now.room }
    {
        if i128::from(self.high) <= price {
            PartRoundings::of_whole(0)
        } else if price <= i128::from(self.low) {
            PartRoundings::of_whole(u64::from(parts) * u64::from(self.room))
        } else {
            self.parts_between(parts, self.below_high(price) as u64)
        }
    }

    /// Returns whether a rate, in whole units per batch, is less than 1 above and less than 1 below the demand at a price.
    ///
    /// The price is in grains. Takes constant time and allocates nothing.
    pub fn is_rounded(&self, x: u32, price: i128) -> bool
        requires price_in_range { IsWithin (2 ^ 78) price }
        ensures answer { IsTrue result ↔ IsRounding (terms self.now) x price }
    {
        let demand = self.demand(price);
        let span = self.unsigned_span();
        let traded = u128::from(x) * span;
        traded < demand + span && demand < traded + span
    }

    /// Returns what a rounding loses against the demand, in grains, rounded up: 0 to 2^60.
    ///
    /// With d the demand, it is `(x - d)^2 * span / (2 * rate)`. No rate within the batch maximum gains more at this price
    /// than x and its loss together. The price is in grains. Takes constant time and allocates nothing.
    #[tactic(auto, using(crate::proofs::Quotients::loss_steps), unfolding(crate::specs::Demand::loss))]
    pub fn loss(&self, x: u32, price: i128) -> i128
        requires price_in_range { IsWithin (2 ^ 78) price }
        requires rounded { IsRounding (terms self.now) x price }
        ensures value { result ≡ pos (loss (terms self.now) x price) }
        ensures most { result ≤ℤ pos (2 ^ 60) }
    {
        let traded = u128::from(x) * self.unsigned_span();
        let apart = traded.abs_diff(self.demand(price));
        (apart * apart).div_ceil(self.double_rate() * self.unsigned_span()) as i128
    }

    /// Returns the dual value at a price, in grains, rounded down: the most that the order can gain there, 0 to 2^103.
    ///
    /// The price is in grains. Takes constant time and allocates nothing.
    pub fn dual_floor(&self, price: i128) -> i128
        requires price_in_range { IsWithin (2 ^ 78) price }
        ensures value { result ≡ pos (dual_floor (terms self.now) price) }
        ensures most { result ≤ℤ pos (2 ^ 103) }
    {
        if self.room_demand() < self.line(price) {
            self.dual_at_room(price) as i128
        } else {
            self.dual_on_line(price) as i128
        }
    }

    // Both roundings at a price between the limits, `below_high` grains below the high one.
    #[tactic(auto, using(crate::proofs::Quotients::up_multiple))]
    fn roundings_between(&self, below_high: u64) -> Roundings
        ensures floor { let t = terms self.now in
            result.floor ≡ min (t.rate * below_high) (t.room * span t) / span t }
        ensures ceil { let t = terms self.now in
            result.ceil ≡ div_ceil (min (t.rate * below_high) (t.room * span t)) (span t) }
        ensures within_room { result.ceil ≤ self.now.room }
    {
        let span = self.span() as u64;
        let line = u128::from(self.rate) * u128::from(below_high);
        if u128::from(self.room) * u128::from(span) <= line {
            Roundings::of_whole(self.room)
        } else {
            Roundings::of_fraction(line, span, self.room)
        }
    }

    // Both roundings in parts at a price between the limits, `below_high` grains below the high one.
    fn parts_between(&self, parts: u16, below_high: u64) -> PartRoundings
        requires some { 1 ≤ parts }
        ensures floor { let t = terms self.now in
            result.floor ≡ parts * min (t.rate * below_high) (t.room * span t) / span t }
        ensures ceil { let t = terms self.now in
            result.ceil ≡ div_ceil (parts * min (t.rate * below_high) (t.room * span t)) (span t) }
        ensures floor_within_room { result.floor ≤ parts * self.now.room }
        ensures ceil_within_room { result.ceil ≤ parts * self.now.room }
    {
        let line = u128::from(self.rate) * u128::from(below_high);
        PartRoundings::of_least(parts, line, self.span() as u64, self.room)
    }

    // The dual value if the line asks for more than the batch maximum.
    fn dual_at_room(&self, price: i128) -> u128
        requires in_range { IsWithin (2 ^ 78) price }
        requires cut { (terms self.now).room * span (terms self.now) < line (terms self.now) price }
        ensures value { result ≡ dual_floor (terms self.now) price }
        ensures most { result ≤ 2 ^ 103 }
    {
        let room = u128::from(self.room);
        let spared = room * self.below_high(price);
        spared - (room * room * self.unsigned_span()).div_ceil(self.double_rate())
    }

    // The dual value if the batch maximum does not cut the line. It is 0 if nothing is asked for.
    fn dual_on_line(&self, price: i128) -> u128
        requires in_range { IsWithin (2 ^ 78) price }
        requires on_line { line (terms self.now) price ≤ (terms self.now).room * span (terms self.now) }
        ensures value { result ≡ dual_floor (terms self.now) price }
        ensures most { result ≤ 2 ^ 103 }
    {
        floor_square_over(self.line(price), self.unsigned_span(), self.double_rate())
    }

    // The demand, times the span.
    #[tactic(auto, using(crate::proofs::Demands::demand_steps))]
    fn demand(&self, price: i128) -> u128
        requires in_range { IsWithin (2 ^ 78) price }
        ensures value { result ≡ scaled_demand (terms self.now) price }
        ensures within_room { result ≤ (terms self.now).room * span (terms self.now) }
        ensures most { result ≤ 2 ^ 85 }
    {
        self.line(price).min(self.room_demand())
    }

    // What the line through the limits asks for, times the span, before the batch maximum cuts it.
    #[tactic(auto, unfolding(crate::specs::Demand::line))]
    fn line(&self, price: i128) -> u128
        requires in_range { IsWithin (2 ^ 78) price }
        ensures value { result ≡ line (terms self.now) price }
        ensures most { result ≤ 2 ^ 103 }
    {
        u128::from(self.rate) * self.below_high(price)
    }

    // The batch maximum, times the span.
    fn room_demand(&self) -> u128
        ensures value { result ≡ (terms self.now).room * span (terms self.now) }
        ensures most { result ≤ 2 ^ 85 }
    {
        u128::from(self.room) * self.unsigned_span()
    }

    // How far the price is below the high limit, in grains.
    fn below_high(&self, price: i128) -> u128
        requires in_range { IsWithin (2 ^ 78) price }
        ensures value { result ≡ distance (terms self.now).high price }
        ensures most { result ≤ 2 ^ 79 }
    {
        distance(i128::from(self.high), price)
    }

    // The span, as an unsigned number.
    fn unsigned_span(&self) -> u128
        ensures value { result ≡ span (terms self.now) }
        ensures least { 2 ^ 32 ≤ result }
        ensures most { result ≤ 2 ^ 61 }
    {
        self.span() as u128
    }

    fn double_rate(&self) -> u128
        ensures value { result ≡ 2 * (terms self.now).rate }
        ensures least { 2 ≤ result }
        ensures most { result ≤ 2 ^ 25 }
    {
        2 * u128::from(self.rate)
    }
}
