//! The excess of an asset once its price is a grain higher or lower, also past the range of prices.
ghost use Rattle.std.specs.Prelude.{◌≡◌, ◌*◌, ◌^◌, ◌<◌, ◌≤◌, ◌+ℤ◌, length, slice_set, unsigned_abs, All};
ghost use Rattle.list_sums.specs.Sums.{int_sum_by};
ghost use Rattle.weight_rows.specs.Rows.{most_weight, price_of};
ghost use Rattle.demand_curve.specs.Demand.{most_rate, floor_in, ceil_in};
ghost use Rattle.flow_orders.specs.Orders.{most_orders};
ghost use Rattle.flow_orders.specs.Excess.{low_excess_in, high_excess_in};
ghost use Rattle.excess_bounds.specs.Workspace.{ArePriced};
ghost use Rattle.even_prices.specs.Even.{even_parts};
ghost use Rattle.even_prices.specs.Private.{low_beside, high_beside};

use crate::demands::{demand_beside, units};
use demand_curve::PartRoundings;
use excess_bounds::{Cell, Excess, Quote, Workspace};

// Returns the excess of an asset in parts once its price is `grain` grains higher.
pub(crate) fn excess_beside(work: &Workspace<'_>, asset: u16, grain: i32) -> Excess
    requires asset { asset < length work.now.prices }
    requires grain { unsigned_abs grain ≤ 1 }
    requires priced { ArePriced work.now.orders work.now.prices }
    ensures low { result.low ≡ low_excess_in even_parts work.now.orders
        (slice_set work.now.prices asset (price_of work.now.prices asset +ℤ grain)) asset }
    ensures high { result.high ≡ high_excess_in even_parts work.now.orders
        (slice_set work.now.prices asset (price_of work.now.prices asset +ℤ grain)) asset }
    ensures low_bound { unsigned_abs result.low ≤ 2 ^ 58 }
    ensures high_bound { unsigned_abs result.high ≤ 2 ^ 58 }
{
    sum_beside(work.quotes(), work.column(asset), grain)
}

// Returns what the orders of a column ask for in parts once the price of its asset is `grain` grains higher.
#[tactic(auto, using(flow_orders::proofs::Limits::orders_fit))]
fn sum_beside(quotes: &[Quote], cells: &[Cell], grain: i32) -> Excess
    requires few { length cells.now ≤ most_orders }
    requires light { All (λ c. unsigned_abs c.weight ≤ most_weight) cells.now }
    requires there { All (λ c. c.place < length quotes.now) cells.now }
    requires grain { unsigned_abs grain ≤ 1 }
    ensures low { result.low ≡ int_sum_by (low_beside quotes.now grain) cells.now }
    ensures high { result.high ≡ int_sum_by (high_beside quotes.now grain) cells.now }
    ensures low_bound { unsigned_abs result.low ≤ 2 ^ 58 }
    ensures high_bound { unsigned_abs result.high ≤ 2 ^ 58 }
{
    let mut low = 0;
    let mut high = 0;
    for cell in cells {
        let part = part_beside(quotes, *cell, grain);
        low += part.low;
        high += part.high;
    }
    Excess { low, high }
}

// Returns what the order of a cell asks for in parts once the price of the cell's asset is `grain` grains higher.
fn part_beside(quotes: &[Quote], cell: Cell, grain: i32) -> Excess
    requires there { cell.place < length quotes.now }
    requires light { unsigned_abs cell.weight ≤ most_weight }
    requires grain { unsigned_abs grain ≤ 1 }
    ensures low { result.low ≡ low_beside quotes.now grain cell }
    ensures high { result.high ≡ high_beside quotes.now grain cell }
    ensures low_bound { unsigned_abs result.low ≤ 2 ^ 44 }
    ensures high_bound { unsigned_abs result.high ≤ 2 ^ 44 }
{
    let demand = demand_after(&quotes[cell.place as usize], cell.weight * grain);
    Excess {
        low: units(cell.weight, demand.floor, demand.ceil),
        high: units(cell.weight, demand.ceil, demand.floor),
    }
}

// Returns the demand of an order in parts once the price of its portfolio is `step` grains higher.
fn demand_after(quote: &Quote, step: i32) -> PartRoundings
    requires { unsigned_abs step ≤ most_weight }
    ensures floor { result.floor ≡ floor_in even_parts quote.now.terms (quote.now.price +ℤ step) }
    ensures ceil { result.ceil ≡ ceil_in even_parts quote.now.terms (quote.now.price +ℤ step) }
    ensures floor_most { result.floor ≤ even_parts * most_rate }
    ensures ceil_most { result.ceil ≤ even_parts * most_rate }
{
    demand_beside(&quote.curve(), quote.price(), step)
}
