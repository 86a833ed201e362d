//! What is wrong with the numbers of a requested order.
ghost use Rattle.std.specs.Prelude.{◌≡◌, ◌↔◌, IsTrue, IsNone};
ghost use Rattle.demand_curve.specs.Demand.{most_rate};
ghost use Rattle.flow_orders.specs.Orders.{AreLimits, IsFrom1To, most_cap};

/// The greatest absolute value of a limit price, in ticks.
pub const MOST_TICKS: i64 = 1 << 28;

/// The highest rate, in units per batch.
pub const MOST_RATE: u32 = 1 << 24;

// The highest cap, in units.
const MOST_CAP: u64 = 1 << 40;

/// Why no order has these numbers.
#[derive(Clone, Copy, PartialEq, Eq)]
pub enum OrderFault {
    /// A limit price is more than 2^28 ticks away from 0, or the low one isn't below the high one.
    BadLimits,
    /// The rate isn't 1 to 2^24 units per batch.
    BadRate,
    /// The cap isn't 1 to 2^40 units.
    BadCap,
}

/// Returns the first fault of a requested order's numbers, in the order of [`OrderFault`], or `None` if they have none.
/// Limits are in ticks, the rate in units per batch and the cap in units.
pub fn order_fault(low: i64, high: i64, rate: u32, cap: u64) -> Option<OrderFault>
    ensures none { IsNone result ↔
        (AreLimits low high × IsFrom1To most_rate rate × IsFrom1To most_cap cap) }
    ensures bad_limits { (result ≡ Some OrderFault.BadLimits) ↔ (¬ AreLimits low high) }
    ensures bad_rate { (result ≡ Some OrderFault.BadRate) ↔
        (AreLimits low high × (¬ IsFrom1To most_rate rate)) }
    ensures bad_cap { (result ≡ Some OrderFault.BadCap) ↔
        (AreLimits low high × IsFrom1To most_rate rate × (¬ IsFrom1To most_cap cap)) }
{
    if !are_limits(low, high) {
        return Some(OrderFault::BadLimits);
    }
    if rate < 1 || rate > MOST_RATE {
        return Some(OrderFault::BadRate);
    }
    if cap < 1 || cap > MOST_CAP {
        return Some(OrderFault::BadCap);
    }
    None
}

fn are_limits(low: i64, high: i64) -> bool
    ensures { IsTrue result ↔ AreLimits low high }
{
    -MOST_TICKS <= low && high <= MOST_TICKS && low < high
}
