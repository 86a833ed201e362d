//! An order as the program keeps it.
ghost use Rattle.std.specs.Prelude.{◌≡◌, ◌+◌, ◌<◌, ◌≤◌, ◌↔◌, IsTrue, if◌then◌else◌};
ghost use Rattle.demand_curve.specs.Demand.{most_rate};
ghost use Rattle.demand_curve.specs.Curve.{terms};
ghost use Rattle.flow_orders.specs.Orders.{price_of_ticks};

use demand_curve::Curve;
use std::marker::Model;
use std::mem::size_of;
use weight_rows::WeightRow;

/// One tick in grains.
pub const GRAINS_PER_TICK: i64 = 1 << 32;

/// The most orders of a market that are live at once.
pub const MOST_ORDERS: u32 = 16_384;

/// An order that isn't filled to its cap: its number and account, its limit prices, its rate, its cap, how much of the
/// cap is filled, its weight vector, and the number of the last batch in which it trades, which is 0 if it has none.
///
/// The order type is that of Flow Trading (Budish, Cramton, Kyle, Lee and Malec, 2023): it buys a portfolio at a rate
/// per batch that falls as the portfolio's price rises, up to a cumulative cap. Whole ticks and units and the limits of
/// the numbers are this project's own: both limit prices within 2^28 ticks of 0 and the low one below the high one, a
/// rate of 1 to 2^24, a cap of 1 to 2^40, and less filled than the cap.
///
/// Contracts see an order with its limit prices in grains.
#[derive(Drop)]
pub struct Order {
    number: u64,
    cap: u64,
    filled: u64,
    account: u32,
    rate: u32,
    low: i32,
    high: i32,
    last: u32,
    row: WeightRow,
}

const _: () = prove!(size_of::<Order>() == 72);

impl Model for Order {
    ghost use Rattle.flow_orders.specs.Orders.{Order as order_value};

    ghost Value = { order_value };

    ghost use Rattle.flow_orders.specs.Kept.{order_in, IsKept};

    ghost view = { order_in };

    ghost invariant = { IsKept };
}

impl Order {
    ghost use Rattle.flow_orders.specs.Orders.{IsOrder, AreLimits, IsFrom1To, most_cap, terms_of};
    ghost use Rattle.flow_orders.specs.Trades.{after_fill};

    /// Returns an order of which nothing is filled, without a last batch. The limits are in ticks;
    /// [`order_fault`](crate::order_fault) finds no fault in the numbers.
    pub fn new(
        number: u64,
        account: u32,
        low: i64,
        high: i64,
        rate: u32,
        cap: u64,
        row: WeightRow,
    ) -> Order
        requires limits { AreLimits low high }
        requires rate { IsFrom1To most_rate rate }
        requires cap { IsFrom1To most_cap cap }
        ensures value { result ≡ record {
          number = number;
          account = account;
          low = price_of_ticks low;
          high = price_of_ticks high;
          rate = rate;
          cap = cap;
          filled = 0;
          row = row;
          last = 0;
        } }
        ensures order { IsOrder result }
    {
        Order {
            number,
            cap,
            filled: 0,
            account,
            rate,
            low: low as i32,
            high: high as i32,
            last: 0,
            row,
        }
    }

    /// Returns an order of which nothing is filled, whose last batch is number `last`. The limits are in ticks;
    /// [`order_fault`](crate::order_fault) finds no fault in the numbers.
    pub fn until(
        number: u64,
        account: u32,
        low: i64,
        high: i64,
        rate: u32,
        cap: u64,
        last: u32,
        row: WeightRow,
    ) -> Order
        requires limits { AreLimits low high }
        requires rate { IsFrom1To most_rate rate }
        requires cap { IsFrom1To most_cap cap }
        requires last { 1 ≤ last }
        ensures value { result ≡ record {
          number = number;
          account = account;
          low = price_of_ticks low;
          high = price_of_ticks high;
          rate = rate;
          cap = cap;
          filled = 0;
          row = row;
          last = last;
        } }
        ensures order { IsOrder result }
    {
        let mut order = Order::new(number, account, low, high, rate, cap, row);
        order.last = last;
        order
    }

    /// Returns an order of which `filled` units are filled, less than its cap, with the number of its last batch, or 0 if
    /// it has none. The limits are in ticks; [`order_fault`](crate::order_fault) finds no fault in the numbers.
    pub fn restore(
        number: u64,
        account: u32,
        low: i64,
        high: i64,
        rate: u32,
        cap: u64,
        filled: u64,
        last: u32,
        row: WeightRow,
    ) -> Order
        requires limits { AreLimits low high }
        requires rate { IsFrom1To most_rate rate }
        requires cap { IsFrom1To most_cap cap }
        requires left { filled < cap }
        ensures value { result ≡ record {
          number = number;
          account = account;
          low = price_of_ticks low;
          high = price_of_ticks high;
          rate = rate;
          cap = cap;
          filled = filled;
          row = row;
          last = last;
        } }
        ensures order { IsOrder result }
    {
        Order {
            number,
            cap,
            filled,
            account,
            rate,
            low: low as i32,
            high: high as i32,
            last,
            row,
        }
    }

    /// Returns the order's number.
    pub fn number(&self) -> u64
        ensures value { result ≡ self.now.number }
        ensures order { IsOrder self.now }
    {
        self.number
    }

    /// Returns the number of the order's account.
    pub fn account(&self) -> u32
        ensures value { result ≡ self.now.account }
        ensures order { IsOrder self.now }
    {
        self.account
    }

    /// Returns the low limit, in ticks: at this price and below the order asks for its batch maximum.
    pub fn low(&self) -> i64
        ensures value { price_of_ticks result ≡ self.now.low }
        ensures order { IsOrder self.now }
    {
        i64::from(self.low)
    }

    /// Returns the high limit, in ticks: at this price and above the order asks for nothing.
    pub fn high(&self) -> i64
        ensures value { price_of_ticks result ≡ self.now.high }
        ensures order { IsOrder self.now }
    {
        i64::from(self.high)
    }

    /// Returns the rate: the most that the order buys in one batch, in units of its portfolio.
    pub fn rate(&self) -> u32
        ensures value { result ≡ self.now.rate }
        ensures order { IsOrder self.now }
    {
        self.rate
    }

    /// Returns the cap: the most that the order buys in all batches together, in units of its portfolio.
    pub fn cap(&self) -> u64
        ensures value { result ≡ self.now.cap }
        ensures order { IsOrder self.now }
    {
        self.cap
    }

    /// Returns what the order has bought so far, in units of its portfolio: less than its cap.
    pub fn filled(&self) -> u64
        ensures value { result ≡ self.now.filled }
        ensures order { IsOrder self.now }
    {
        self.filled
    }

    /// Returns the number of the last batch in which the order trades, or 0 if it has none.
    pub fn last(&self) -> u32
        ensures value { result ≡ self.now.last }
        ensures order { IsOrder self.now }
    {
        self.last
    }

    /// Returns the weight vector of the order's portfolio.
    pub fn row(&self) -> &WeightRow
        ensures value { result.now ≡ self.now.row }
        ensures order { IsOrder self.now }
    {
        &self.row
    }

    /// Returns the curve of the order's demand: the limits in grains, the rate, and as `room` the batch maximum, which is
    /// the rate or the remaining quantity, whichever is less.
    pub fn curve(&self) -> Curve
        ensures value { terms result ≡ terms_of self.now }
        ensures order { IsOrder self.now }
    {
        Curve {
            low: grains_of(self.low),
            high: grains_of(self.high),
            rate: self.rate,
            room: u64::from(self.rate).min(self.cap - self.filled) as u32,
        }
    }

    /// Fills `x` units more, at most the batch maximum, and returns whether the cap is reached. If it is, the order is
    /// left as it was, and the caller drops it.
    pub fn add_fill(&mut self, x: u32) -> bool
        requires { x ≤ (terms_of self.old).room }
        ensures full { IsTrue result ↔ (self.old.filled + x ≡ self.old.cap) }
        ensures filled { self.new ≡
            (if result then self.old else after_fill (record { order = self.old; traded = x })) }
        ensures order { IsOrder self.new }
    {
        let filled = self.filled + u64::from(x);
        if filled == self.cap {
            return true;
        }
        self.filled = filled;
        false
    }
}

// Returns a price of whole ticks in grains.
fn grains_of(ticks: i32) -> i64
    ensures { result ≡ price_of_ticks ticks }
{
    i64::from(ticks) * GRAINS_PER_TICK
}
