//! What a ladder's orders trade together in a batch.
ghost use Rattle.std.specs.Prelude.{◌≡◌, ◌+◌, ◌<◌, ◌≤◌, ◌^◌, ◌↔◌, length, take, sum, IsTrue, IsSome, IfSome, MatchOption};
ghost use Rattle.std.specs.List.{AllWithin};
ghost use Rattle.flow_orders.specs.Orders.{price_of_ticks};
ghost use Rattle.flow_orders.specs.Trades.{trades};
ghost use Rattle.curve_ladder.specs.Segments.{segments_of};
ghost use Rattle.curve_ladder.specs.Totals.{IsOrderOf, AreAllThere, AreAscending, AreRoundings, ladder_total, IsNearValue};
ghost use Rattle.curve_ladder.specs.Private.{AreBefore};

use crate::ladder::Ladder;
use crate::segment::{Segment, segment_between};
use flow_orders::Order;
use weight_rows::Entry;

impl Ladder {
    /// Returns what the ladder's orders trade together in a batch, in units of their portfolio.
    ///
    /// A trader finds with it what a batch traded for a curve as a whole, and an auditor whether that is what the curve
    /// asks for. They take the live orders before a published batch, its prices and its rates, and compare the result
    /// with [`Ladder::value`] at the price of the ladder's portfolio. The two are less than one unit apart, whatever else
    /// is traded.
    ///
    /// The order of segment `k` has the number `first + k`, the segment's limits and rate, and a batch maximum equal to
    /// that rate; all orders of the ladder have the same weight vector. The result is `None` if `orders` lacks such an
    /// order for some segment, and only then.
    ///
    /// `orders` are in ascending numbers. `rates` has one rate for each of them, in units per batch: a rounding of the
    /// order's demand at `prices`, in grains by the number of the asset. The prices aren't read: they only say at which
    /// price of the portfolio the result is less than 1 away from the ladder's value. So prices may be of any size, and
    /// there may be any number of orders, as long as each rate is such a rounding.
    ///
    /// Costs a binary search for the first order, two passes over the points, and one pass over as many orders as there
    /// are segments, with the legs of each.
    pub fn total_rate(
        &self,
        first: u64,
        orders: &[Order],
        prices: &[i64],
        rates: &[u32],
    ) -> Option<u64>
        requires first_in_range { first < 2 ^ 63 }
        requires ascending { AreAscending orders.now }
        requires one_rate_each { length rates.now ≡ length orders.now }
        requires roundings { AreRoundings prices.now (trades orders.now rates.now) }
        ensures there { IsSome result ↔ AreAllThere self.now first orders.now }
        ensures total { IfSome result (λ x. x ≡ ladder_total self.now first orders.now rates.now) }
        ensures near { IfSome result (IsNearValue self.now first orders.now prices.now) }
    {
        let place = place_from(orders, first);
        if orders.len() - place < self.segments() as usize {
            return None;
        }
        let row = orders[place].row().entries();
        self.rate_in_front(first, &orders[place..], &rates[place..], row)
    }

    // Returns what the first orders trade, or `None` if they aren't the ladder's orders with this weight vector.
    fn rate_in_front(
        &self,
        first: u64,
        orders: &[Order],
        rates: &[u32],
        row: &[Entry],
    ) -> Option<u64>
        requires first_in_range { first < 2 ^ 63 }
        requires enough { length (segments_of self.now) ≤ length orders.now }
        requires one_rate_each { length rates.now ≡ length orders.now }
        ensures { MatchOption result (¬ AreBefore first row.now (segments_of self.now) orders.now)
            (λ x. AreBefore first row.now (segments_of self.now) orders.now
            × (x ≡ sum (take (length (segments_of self.now)) rates.now))) }
    {
        let (mut point, rest) = self.parts();
        let mut place = 0;
        let mut total = 0;
        for next in rest {
            if let Some(segment) = segment_between(point, *next, self.turns()) {
                if !is_order_of(&orders[place], first + place as u64, row, segment) {
                    return None;
                }
                total += u64::from(rates[place]);
                place += 1;
            }
            point = *next;
        }
        Some(total)
    }
}

// Returns the place of the first order whose number isn't below `number`.
fn place_from(orders: &[Order], number: u64) -> usize
    requires { AreAscending orders.now }
    ensures within { result ≤ length orders.now }
    ensures before { AllWithin (λ o. o.number < number) orders.now 0 result }
    ensures from { AllWithin (λ o. number ≤ o.number) orders.now result (length orders.now) }
{
    orders.partition_point(|order| order.number() < number)
}

// Returns whether an order is that of a segment, with this number and weight vector.
fn is_order_of(order: &Order, number: u64, row: &[Entry], segment: Segment) -> bool
    ensures { IsTrue result ↔ IsOrderOf number row.now segment order.now }
{
    if order.number() != number || order.rate() != segment.rate {
        return false;
    }
    if order.curve().room != segment.rate || !has_limits_of(order, segment) {
        return false;
    }
    order.row().entries() == row
}

// Returns whether an order has the limits of a segment.
fn has_limits_of(order: &Order, segment: Segment) -> bool
    ensures { IsTrue result ↔ ((order.now.low ≡ price_of_ticks segment.low)
        × (order.now.high ≡ price_of_ticks segment.high)) }
{
    order.low() == segment.low && order.high() == segment.high
}
