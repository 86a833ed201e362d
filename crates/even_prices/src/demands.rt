//! Demands in parts of a unit near a price, and what a weight makes of them.
ghost use Rattle.std.specs.Prelude.{◌≡◌, ◌*◌, ◌^◌, ◌≤◌, ◌+ℤ◌, unsigned_abs};
ghost use Rattle.weight_rows.specs.Rows.{most_weight};
ghost use Rattle.demand_curve.specs.Demand.{most_rate, floor_in, ceil_in};
ghost use Rattle.demand_curve.specs.Curve.{terms};
ghost use Rattle.flow_orders.specs.Excess.{low_part_in, high_part_in};
ghost use Rattle.excess_bounds.specs.Parts.{part_by_sign};
ghost use Rattle.even_prices.specs.Even.{even_parts};

use demand_curve::{Curve, PartRoundings};

// How many parts of a unit an excess is counted in.
pub(crate) const PARTS: u16 = 256;

// A price of a portfolio that is past all limits, in grains.
const FAR: i128 = 1 << 78;

// Returns the demand in parts at a price that is `step` grains higher than this one.
pub(crate) fn demand_beside(curve: &Curve, price: i128, step: i32) -> PartRoundings
    requires price { unsigned_abs price ≤ 2 ^ 78 }
    requires step { unsigned_abs step ≤ most_weight }
    ensures floor { result.floor ≡ floor_in even_parts (terms curve.now) (price +ℤ step) }
    ensures ceil { result.ceil ≡ ceil_in even_parts (terms curve.now) (price +ℤ step) }
    ensures floor_most { result.floor ≤ even_parts * most_rate }
    ensures ceil_most { result.ceil ≤ even_parts * most_rate }
{
    curve.roundings_in(PARTS, (price + i128::from(step)).clamp(-FAR, FAR))
}

// Returns a weight times a rate in parts: `bought` if the weight buys, `sold` if it sells.
pub(crate) fn units(weight: i32, bought: u64, sold: u64) -> i64
    requires weight { unsigned_abs weight ≤ most_weight }
    requires bought { bought ≤ even_parts * most_rate }
    requires sold { sold ≤ even_parts * most_rate }
    ensures value { result ≡ part_by_sign weight bought sold }
    ensures bound { unsigned_abs result ≤ 2 ^ 44 }
{
    i64::from(weight) * (if weight < 0 { sold } else { bought }) as i64
}

// Returns what an order of this curve adds to the low excess of an asset of this weight, in parts, at a price of its portfolio
// that is `step` grains higher than this one.
pub(crate) fn low_part(curve: &Curve, price: i128, step: i32, weight: i32) -> i64
    requires price { unsigned_abs price ≤ 2 ^ 78 }
    requires step { unsigned_abs step ≤ most_weight }
    requires weight { unsigned_abs weight ≤ most_weight }
    ensures value { result ≡ low_part_in even_parts weight (terms curve.now) (price +ℤ step) }
    ensures bound { unsigned_abs result ≤ 2 ^ 44 }
{
    let demand = demand_beside(curve, price, step);
    units(weight, demand.floor, demand.ceil)
}

// Returns what such an order adds to the high excess.
pub(crate) fn high_part(curve: &Curve, price: i128, step: i32, weight: i32) -> i64
    requires price { unsigned_abs price ≤ 2 ^ 78 }
    requires step { unsigned_abs step ≤ most_weight }
    requires weight { unsigned_abs weight ≤ most_weight }
    ensures value { result ≡ high_part_in even_parts weight (terms curve.now) (price +ℤ step) }
    ensures bound { unsigned_abs result ≤ 2 ^ 44 }
{
    let demand = demand_beside(curve, price, step);
    units(weight, demand.ceil, demand.floor)
}
