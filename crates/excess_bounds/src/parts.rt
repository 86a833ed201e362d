//! What orders ask for of an asset, rounded down and up, in whole units or in parts of one.
ghost use Rattle.std.specs.Prelude.{◌≡◌, ◌+◌, ◌-◌, ◌*◌, ◌^◌, ◌<◌, ◌≤◌, ◌+ℤ◌, ◌*ℤ◌, length, unsigned_abs, All};
ghost use Rattle.list_sums.specs.Sums.{int_sum_by};
ghost use Rattle.weight_rows.specs.Rows.{most_weight};
ghost use Rattle.demand_curve.specs.Demand.{most_rate};
ghost use Rattle.excess_bounds.specs.Parts.{part_by_sign};
ghost use Rattle.excess_bounds.specs.Private.{IsColumn, StaysInRange, low_now, high_now, low_after, high_after};

use crate::columns::Cell;
use crate::quotes::Quote;
use demand_curve::{PartRoundings, Roundings};

/// The excess demand for an asset, bought less sold, in whole units or in parts of one: at least the low bound and at most
/// the high one. The low bound rounds purchases down and sales up, the high bound purchases up and sales down.
#[derive(Clone, Copy, PartialEq, Eq)]
pub struct Excess {
    /// The low bound.
    pub low: i64,
    /// The high bound.
    pub high: i64,
}

// Returns the excess of a column's asset, in units.
#[tactic(auto, using(flow_orders::proofs::Limits::orders_fit))]
pub(crate) fn excess_of(quotes: &[Quote], cells: &[Cell]) -> Excess
    requires column { IsColumn cells.now }
    requires there { All (λ c. c.place < length quotes.now) cells.now }
    ensures low { result.low ≡ int_sum_by (low_now quotes.now) cells.now }
    ensures high { result.high ≡ int_sum_by (high_now quotes.now) cells.now }
    ensures low_bound { unsigned_abs result.low ≤ 2 ^ 50 }
    ensures high_bound { unsigned_abs result.high ≤ 2 ^ 50 }
{
    let mut low = 0;
    let mut high = 0;
    for cell in cells {
        let part = part_now(quotes, *cell);
        low += part.low;
        high += part.high;
    }
    Excess { low, high }
}

// Returns the excess of a column's asset in parts of a unit, after its price has moved by an amount.
#[tactic(auto, using(flow_orders::proofs::Limits::orders_fit))]
pub(crate) fn excess_after(parts: u16, quotes: &[Quote], cells: &[Cell], amount: i128) -> Excess
    requires some { 1 ≤ parts }
    requires few { parts ≤ 256 }
    requires column { IsColumn cells.now }
    requires there { All (λ c. c.place < length quotes.now) cells.now }
    requires amount { unsigned_abs amount ≤ 2 ^ 63 }
    requires stays { All (StaysInRange quotes.now amount) cells.now }
    ensures low { result.low ≡ int_sum_by (low_after parts quotes.now amount) cells.now }
    ensures high { result.high ≡ int_sum_by (high_after parts quotes.now amount) cells.now }
    ensures low_bound { unsigned_abs result.low ≤ 2 ^ 58 }
    ensures high_bound { unsigned_abs result.high ≤ 2 ^ 58 }
{
    let mut low = 0;
    let mut high = 0;
    for cell in cells {
        let part = part_after(parts, quotes, *cell, amount);
        low += part.low;
        high += part.high;
    }
    Excess { low, high }
}

// Returns what a cell's order asks for of the cell's asset, in units.
fn part_now(quotes: &[Quote], cell: Cell) -> Excess
    requires there { cell.place < length quotes.now }
    requires light { unsigned_abs cell.weight ≤ most_weight }
    ensures low { result.low ≡ low_now quotes.now cell }
    ensures high { result.high ≡ high_now quotes.now cell }
    ensures low_bound { unsigned_abs result.low ≤ 2 ^ 36 }
    ensures high_bound { unsigned_abs result.high ≤ 2 ^ 36 }
{
    part_of(cell.weight, quotes[cell.place as usize].demand())
}

// Returns what a cell's order asks for of the cell's asset in parts of a unit, after its price has moved by an amount.
fn part_after(parts: u16, quotes: &[Quote], cell: Cell, amount: i128) -> Excess
    requires some { 1 ≤ parts }
    requires few { parts ≤ 256 }
    requires there { cell.place < length quotes.now }
    requires light { unsigned_abs cell.weight ≤ most_weight }
    requires amount { unsigned_abs amount ≤ 2 ^ 63 }
    requires stays { StaysInRange quotes.now amount cell }
    ensures low { result.low ≡ low_after parts quotes.now amount cell }
    ensures high { result.high ≡ high_after parts quotes.now amount cell }
    ensures low_bound { unsigned_abs result.low ≤ 2 ^ 44 }
    ensures high_bound { unsigned_abs result.high ≤ 2 ^ 44 }
{
    let quote = &quotes[cell.place as usize];
    part_in(cell.weight, quote.demand_after(parts, cell.weight, amount))
}

// Returns what an order with this demand asks for of an asset of this weight, in units.
fn part_of(weight: i32, demand: Roundings) -> Excess
    requires weight { unsigned_abs weight ≤ most_weight }
    requires floor { demand.floor ≤ most_rate }
    requires ceil { demand.ceil ≤ most_rate }
    ensures low { result.low ≡ part_by_sign weight demand.floor demand.ceil }
    ensures high { result.high ≡ part_by_sign weight demand.ceil demand.floor }
    ensures low_bound { unsigned_abs result.low ≤ 2 ^ 36 }
    ensures high_bound { unsigned_abs result.high ≤ 2 ^ 36 }
{
    Excess {
        low: units(weight, demand.floor, demand.ceil),
        high: units(weight, demand.ceil, demand.floor),
    }
}

// Returns what an order with this demand in parts of a unit asks for of an asset of this weight, in parts.
fn part_in(weight: i32, demand: PartRoundings) -> Excess
    requires weight { unsigned_abs weight ≤ most_weight }
    requires floor { demand.floor ≤ 256 * most_rate }
    requires ceil { demand.ceil ≤ 256 * most_rate }
    ensures low { result.low ≡ part_by_sign weight demand.floor demand.ceil }
    ensures high { result.high ≡ part_by_sign weight demand.ceil demand.floor }
    ensures low_bound { unsigned_abs result.low ≤ 2 ^ 44 }
    ensures high_bound { unsigned_abs result.high ≤ 2 ^ 44 }
{
    Excess {
        low: units_in(weight, demand.floor, demand.ceil),
        high: units_in(weight, demand.ceil, demand.floor),
    }
}

// Returns a weight times a rate in units: `bought` if the weight buys, `sold` if it sells.
fn units(weight: i32, bought: u32, sold: u32) -> i64
    requires weight { unsigned_abs weight ≤ most_weight }
    requires bought { bought ≤ most_rate }
    requires sold { sold ≤ most_rate }
    ensures value { result ≡ part_by_sign weight bought sold }
    ensures bound { unsigned_abs result ≤ 2 ^ 36 }
{
    i64::from(weight) * i64::from(if weight < 0 { sold } else { bought })
}

// Returns a weight times a rate in parts of a unit: `bought` if the weight buys, `sold` if it sells.
fn units_in(weight: i32, bought: u64, sold: u64) -> i64
    requires weight { unsigned_abs weight ≤ most_weight }
    requires bought { bought ≤ 256 * most_rate }
    requires sold { sold ≤ 256 * most_rate }
    ensures value { result ≡ part_by_sign weight bought sold }
    ensures bound { unsigned_abs result ≤ 2 ^ 44 }
{
    i64::from(weight) * (if weight < 0 { sold } else { bought }) as i64
}

// Returns the low part of an asset of this weight, in parts of a unit.
pub(crate) fn low_parts(weight: i32, demand: PartRoundings) -> i64
    requires weight { unsigned_abs weight ≤ most_weight }
    requires floor { demand.floor ≤ 256 * most_rate }
    requires ceil { demand.ceil ≤ 256 * most_rate }
    ensures value { result ≡ part_by_sign weight demand.floor demand.ceil }
    ensures bound { unsigned_abs result ≤ 2 ^ 44 }
{
    units_in(weight, demand.floor, demand.ceil)
}

// Returns the most that an order with this demand, in units, asks for of an asset of this weight, in parts: of one unit it
// may ask for less than all parts. With one part it is the low part.
pub(crate) fn most_parts(parts: u16, weight: i32, demand: Roundings) -> i64
    requires some { 1 ≤ parts }
    requires few { parts ≤ 256 }
    requires weight { unsigned_abs weight ≤ most_weight }
    requires floor { demand.floor ≤ most_rate }
    requires ceil { demand.ceil ≤ most_rate }
    ensures value { result ≡ part_by_sign weight (demand.floor + (parts - 1) * demand.ceil) (demand.ceil + (parts - 1) * demand.floor) }
    ensures bound { unsigned_abs result ≤ 2 ^ 44 }
{
    units_in(
        weight,
        in_parts(parts, demand.floor, demand.ceil),
        in_parts(parts, demand.ceil, demand.floor),
    )
}

// Returns the parts of one part at the first rate and of all others at the second.
fn in_parts(parts: u16, first: u32, others: u32) -> u64
    requires some { 1 ≤ parts }
    requires few { parts ≤ 256 }
    requires first { first ≤ most_rate }
    requires others { others ≤ most_rate }
    ensures value { result ≡ first + (parts - 1) * others }
    ensures most { result ≤ 256 * most_rate }
{
    u64::from(first) + u64::from(parts - 1) * u64::from(others)
}

// Returns the least that an order with this batch maximum, in units, asks for of an asset of this weight, in parts.
pub(crate) fn least_parts(parts: u16, weight: i32, room: u32) -> i64
    requires few { parts ≤ 256 }
    requires weight { unsigned_abs weight ≤ most_weight }
    requires room { room ≤ most_rate }
    ensures value { result ≡ part_by_sign weight 0 (parts * room) }
    ensures bound { unsigned_abs result ≤ 2 ^ 44 }
{
    units_in(weight, 0, u64::from(parts) * u64::from(room))
}

// Returns the price of a portfolio after the price of an asset of this weight has moved by an amount.
pub(crate) fn price_after(price: i128, weight: i32, amount: i128) -> i128
    requires price { unsigned_abs price ≤ 2 ^ 78 }
    requires weight { unsigned_abs weight ≤ most_weight }
    requires amount { unsigned_abs amount ≤ 2 ^ 63 }
    ensures { result ≡ price +ℤ weight *ℤ amount }
{
    price + cost(weight, amount)
}

// Returns what this many units cost.
fn cost(weight: i32, amount: i128) -> i128
    requires weight { unsigned_abs weight ≤ most_weight }
    requires amount { unsigned_abs amount ≤ 2 ^ 63 }
    ensures value { result ≡ weight *ℤ amount }
    ensures bound { unsigned_abs result ≤ 2 ^ 75 }
{
    i128::from(weight) * amount
}
