//! The move of one asset's price.
ghost use Rattle.std.specs.Prelude.{◌≡◌, ◌+◌, ◌^◌, ◌<◌, ◌≤◌, ◌≤ℤ◌, ◌+ℤ◌, ◌-ℤ◌, pos, neg_ℤ, true, length, slice_set, unsigned_abs};
ghost use Rattle.weight_rows.specs.Rows.{IsPrice, price_of};
ghost use Rattle.flow_orders.specs.Excess.{is_unsettled};
ghost use Rattle.flow_orders.specs.Moves.{moved};
ghost use Rattle.flow_orders.specs.Outcomes.{step_of};
ghost use Rattle.excess_bounds.specs.Directions.{IsTowards, price_towards};
ghost use Rattle.excess_bounds.specs.Workspace.{ArePriced};
ghost use Rattle.price_moves.specs.Retracing.{IsLowered};

use excess_bounds::{Direction, Workspace};

// The reach of a move in a walk, in grains.
const REACH: i64 = 1 << 45;

/// Moves the price of an asset that isn't settled, by at most `reach` grains.
///
/// If its low excess is above the slope bound, the price rises by the least amount from 1 to `reach` after which the low
/// excess in parts of a unit isn't, or else by `reach`. If its high excess is below minus the slope bound, the price falls
/// by the least amount after which the high excess in parts isn't, or else by `reach`. The other prices stay. There are
/// 1 to 256 parts.
///
/// It goes over the orders that name the asset, and then over ever fewer of them, and allocates nothing.
pub fn step(work: &mut Workspace<'_>, parts: u16, asset: u16, reach: i64)
    requires some_parts { 1 ≤ parts }
    requires few_parts { parts ≤ 256 }
    requires asset { asset < length work.old.prices }
    requires unsettled { is_unsettled work.old.orders work.old.prices asset ≡ true }
    requires some { pos 1 ≤ℤ reach }
    requires far { reach ≤ℤ pos (2 ^ 61) }
    requires room_below { neg_ℤ (pos (2 ^ 62)) ≤ℤ (price_of work.old.prices asset -ℤ reach) }
    requires room_above { (price_of work.old.prices asset +ℤ reach) ≤ℤ pos (2 ^ 62) }
    ensures orders { work.new.orders ≡ work.old.orders }
    ensures moved { work.new.prices ≡ moved parts work.old.orders (unsigned_abs reach) work.old.prices asset }

    // Each grain of the move lowers the exact dual value by at least a grain.
    ensures lowers { IsLowered work.old.orders work.old.prices
        (unsigned_abs (price_of work.new.prices asset -ℤ price_of work.old.prices asset)) work.new.prices }
{
    if let Some(direction) = work.direction(asset) {
        step_towards(work, parts, asset, direction, reach);
    }
}

/// Moves the price of an asset that isn't settled as [`step`] does, in the direction that is known of it.
///
/// It costs a pass over the orders that name the asset less than `step`, which finds the direction.
pub fn step_towards(
    work: &mut Workspace<'_>,
    parts: u16,
    asset: u16,
    direction: Direction,
    reach: i64,
)
    requires some_parts { 1 ≤ parts }
    requires few_parts { parts ≤ 256 }
    requires asset { asset < length work.old.prices }
    requires unsettled { is_unsettled work.old.orders work.old.prices asset ≡ true }
    requires towards { IsTowards work.old.orders work.old.prices asset direction }
    requires some { pos 1 ≤ℤ reach }
    requires far { reach ≤ℤ pos (2 ^ 61) }
    requires room_below { neg_ℤ (pos (2 ^ 62)) ≤ℤ (price_of work.old.prices asset -ℤ reach) }
    requires room_above { (price_of work.old.prices asset +ℤ reach) ≤ℤ pos (2 ^ 62) }
    ensures orders { work.new.orders ≡ work.old.orders }
    ensures moved { work.new.prices ≡ moved parts work.old.orders (unsigned_abs reach) work.old.prices asset }

    // Each grain of the move lowers the exact dual value by at least a grain.
    ensures lowers { IsLowered work.old.orders work.old.prices
        (unsigned_abs (price_of work.new.prices asset -ℤ price_of work.old.prices asset)) work.new.prices }
{
    let end = end_of_move(work, parts, asset, direction, reach);
    work.set_price(asset, end);
}

/// Makes the move of an asset in a walk, of at most 2^45 grains, in the direction that is known of it.
///
/// Its price is within 2^60 + 2^61 grains of 0. It costs what [`step_towards`] costs.
pub fn make_move(work: &mut Workspace<'_>, parts: u16, asset: u16, direction: Direction)
    requires some_parts { 1 ≤ parts }
    requires few_parts { parts ≤ 256 }
    requires asset { asset < length work.old.prices }
    requires unsettled { is_unsettled work.old.orders work.old.prices asset ≡ true }
    requires towards { IsTowards work.old.orders work.old.prices asset direction }
    requires near { unsigned_abs (price_of work.old.prices asset) ≤ 2 ^ 60 + 2 ^ 61 }
    ensures orders { work.new.orders ≡ work.old.orders }
    ensures prices { work.new.prices ≡ step_of parts work.old.orders work.old.prices asset }
{
    step_towards(work, parts, asset, direction, REACH);
}

// Returns the price at which a move ends.
fn end_of_move(
    work: &mut Workspace<'_>,
    parts: u16,
    asset: u16,
    direction: Direction,
    reach: i64,
) -> i64
    requires some_parts { 1 ≤ parts }
    requires few_parts { parts ≤ 256 }
    requires asset { asset < length work.old.prices }
    requires towards { IsTowards work.old.orders work.old.prices asset direction }
    requires some { pos 1 ≤ℤ reach }
    requires far { reach ≤ℤ pos (2 ^ 61) }
    requires room_below { neg_ℤ (pos (2 ^ 62)) ≤ℤ (price_of work.old.prices asset -ℤ reach) }
    requires room_above { (price_of work.old.prices asset +ℤ reach) ≤ℤ pos (2 ^ 62) }
    ensures moved { slice_set work.old.prices asset result ≡ moved parts work.old.orders (unsigned_abs reach) work.old.prices asset }
    ensures range { IsPrice result }
    ensures stays { work.new ≡ work.old }
    ensures priced { ArePriced work.old.orders work.old.prices }
{
    let price = price_in(work, asset);
    let amount = work.move_amount(parts, asset, direction, reach.unsigned_abs());
    moved_price(price, direction, amount)
}

// Returns the price of an asset.
fn price_in(work: &Workspace<'_>, asset: u16) -> i64
    requires { asset < length work.now.prices }
    ensures value { result ≡ price_of work.now.prices asset }
    ensures range { IsPrice result }
    ensures priced { ArePriced work.now.orders work.now.prices }
{
    work.prices()[usize::from(asset)]
}

// Returns a price after it moved by an amount.
fn moved_price(price: i64, direction: Direction, amount: u64) -> i64
    requires range { IsPrice price }
    requires amount { amount ≤ 2 ^ 61 }
    ensures { result ≡ price_towards direction price amount }
{
    match direction {
        Direction::Rise => price + amount as i64,
        Direction::Fall => price - amount as i64,
    }
}
