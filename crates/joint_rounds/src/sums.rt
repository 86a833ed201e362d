//! Sums over the orders for each asset, leg by leg.
ghost use Rattle.std.specs.Prelude.{◌≡◌, ◌+◌, ◌*◌, ◌/◌, ◌^◌, ◌<◌, ◌≤◌, ℤ, pos, ◌+ℤ◌, ◌*ℤ◌, unsigned_abs, length, slice_set, All};
ghost use Rattle.weight_rows.specs.Rows.{most_weight, IsPricedBy, price_of};
ghost use Rattle.flow_orders.specs.Orders.{IsOrder};
ghost use Rattle.flow_orders.specs.Excess.{price_for};
ghost use Rattle.flow_orders.specs.Residuals.{HasEach};
ghost use Rattle.joint_prices.specs.Numbers.{scaled};
ghost use Rattle.joint_prices.specs.Sums.{AreSmall};
ghost use Rattle.joint_rounds.specs.OrderStates.{aim};
ghost use Rattle.joint_rounds.specs.Rounds.{aim_part, size_part, flow_part};
ghost use Rattle.joint_rounds.specs.Sums.{IsAdded, AreGathered, IsFlat};

use crate::order_states::{OrderState, product};
use flow_orders::Order;
use joint_prices::scale;
use weight_rows::{Entry, WeightRow};

// Sets each sum to a number.
pub(crate) fn fill(number: i128, sums: &mut [i128])
    ensures { HasEach (length sums.old) (λ a. number) sums.new }
{
    for a in 0..sums.len() {
        sums[a] = number;
    }
}

// Adds a leg's weight times a factor to the sum of its asset.
fn add_entry(entry: &Entry, factor: i128, sums: &mut [i128])
    requires place { entry.now.asset < length sums.old }
    requires weight { unsigned_abs entry.now.weight ≤ most_weight }
    requires factor { unsigned_abs factor ≤ 2 ^ 96 }
    requires small { unsigned_abs (price_of sums.old entry.now.asset) ≤ 2 ^ 126 + 2 ^ 118 }
    ensures { sums.new ≡ slice_set sums.old entry.now.asset (price_of sums.old entry.now.asset +ℤ entry.now.weight *ℤ factor) }
{
    let asset = usize::from(entry.asset);
    let sum = sum(sums[asset], weighed(entry.weight, factor));
    sums[asset] = sum;
}

// Adds a leg's squared weight times a factor to the sum of its asset.
fn add_square(entry: &Entry, factor: i128, sums: &mut [i128])
    requires place { entry.now.asset < length sums.old }
    requires weight { unsigned_abs entry.now.weight ≤ most_weight }
    requires factor { unsigned_abs factor ≤ 2 ^ 62 }
    requires small { unsigned_abs (price_of sums.old entry.now.asset) ≤ 2 ^ 126 + 2 ^ 118 }
    ensures { sums.new ≡ slice_set sums.old entry.now.asset (price_of sums.old entry.now.asset +ℤ entry.now.weight *ℤ (entry.now.weight *ℤ factor)) }
{
    let part = weighed(entry.weight, factor);
    add_entry(entry, part, sums);
}

// A sum that grows by a part, within the widths.
fn sum(x: i128, y: i128) -> i128
    requires x { unsigned_abs x ≤ 2 ^ 126 + 2 ^ 118 }
    requires y { unsigned_abs y ≤ 2 ^ 108 }
    ensures value { result ≡ x +ℤ y }
{
    x + y
}

// A factor times a weight, with its range as a clause.
fn weighed(weight: i32, factor: i128) -> i128
    requires weight { unsigned_abs weight ≤ most_weight }
    requires factor { unsigned_abs factor ≤ 2 ^ 96 }
    ensures value { result ≡ weight *ℤ factor }
    ensures small { unsigned_abs result ≤ unsigned_abs factor * 2 ^ 12 }
{
    i128::from(weight) * factor
}

// Adds a weight vector times a factor, leg by leg.
fn add_row(row: &WeightRow, factor: i128, sums: &mut [i128])
    requires places { IsPricedBy row.now sums.old }
    requires factor { unsigned_abs factor ≤ 2 ^ 96 }
    requires small { AreSmall (2 ^ 126) sums.old }
    ensures { IsAdded (λ w. w *ℤ factor) row.now sums.old sums.new }
{
    for entry in row.entries() {
        add_entry(entry, factor, sums);
    }
}

// Adds the squares of a weight vector times a factor, leg by leg.
fn add_squares(row: &WeightRow, factor: i128, sums: &mut [i128])
    requires places { IsPricedBy row.now sums.old }
    requires factor { unsigned_abs factor ≤ 2 ^ 62 }
    requires small { AreSmall (2 ^ 126) sums.old }
    ensures { IsAdded (λ w. w *ℤ (w *ℤ factor)) row.now sums.old sums.new }
{
    for entry in row.entries() {
        add_square(entry, factor, sums);
    }
}

// Adds what an order would buy.
fn add_aim(order: &Order, state: OrderState, sums: &mut [i128])
    requires places { IsPricedBy order.now.row sums.old }
    requires small { AreSmall (2 ^ 126) sums.old }
    ensures sums { IsAdded (λ w. w *ℤ aim state) order.now.row sums.old sums.new }
    ensures order { IsOrder order.now }
    ensures aim { unsigned_abs (aim state) ≤ 2 ^ 59 }
{
    add_row(order.row(), state.aim(), sums);
}

// The slope of an order over the number of its legs.
fn own_slope(order: &Order, state: OrderState) -> i128
    ensures value { result ≡ pos (state.slope / length order.now.row) }
    ensures small { unsigned_abs result ≤ 2 ^ 62 }
{
    i128::from(state.slope() / order.row().entries().len() as u64)
}

// Adds an order's slope over the number of its legs, times its squared weights.
fn add_size(order: &Order, state: OrderState, sums: &mut [i128])
    requires places { IsPricedBy order.now.row sums.old }
    requires small { AreSmall (2 ^ 126) sums.old }
    ensures sums { IsAdded (λ w. w *ℤ (w *ℤ pos (state.slope / length order.now.row))) order.now.row sums.old sums.new }
    ensures order { IsOrder order.now }
    ensures slope { state.slope / length order.now.row ≤ 2 ^ 62 }
{
    let row = order.row();
    add_squares(row, own_slope(order, state), sums);
}

// How many units less of its portfolio an order buys as prices move by a flat direction.
fn flow_of(order: &Order, state: OrderState, flat: &[i64]) -> i128
    requires priced { IsPricedBy order.now.row flat.now }
    requires flat { All IsFlat flat.now }
    ensures value { result ≡ scaled (price_for flat.now order.now *ℤ pos state.slope) (pos 28) }
    ensures small { unsigned_abs result ≤ 2 ^ 96 }
{
    let price = order.row().price(flat);
    scale(product(price, i128::from(state.slope())), 28)
}

// Adds how much less an order buys as prices move by a flat direction.
fn add_flow(order: &Order, state: OrderState, flat: &[i64], sums: &mut [i128])
    requires priced { IsPricedBy order.now.row flat.now }
    requires flat { All IsFlat flat.now }
    requires places { IsPricedBy order.now.row sums.old }
    requires small { AreSmall (2 ^ 126) sums.old }
    ensures sums { IsAdded (λ w. w *ℤ scaled (price_for flat.now order.now *ℤ pos state.slope) (pos 28)) order.now.row sums.old sums.new }
    ensures order { IsOrder order.now }
    ensures flow { unsigned_abs (scaled (price_for flat.now order.now *ℤ pos state.slope) (pos 28)) ≤ 2 ^ 96 }
{
    let flow = flow_of(order, state, flat);
    add_row(order.row(), flow, sums);
}

// Adds what each order would buy.
pub(crate) fn gather_aims(orders: &[Order], states: &[OrderState], sums: &mut [i128])
    requires count { length states.now ≡ length orders.now }
    requires few { length orders.now ≤ 2 ^ 17 }
    requires places { All (λ o. IsPricedBy o.row sums.old) orders.now }
    requires small { AreSmall (2 ^ 20) sums.old }
    ensures sums { AreGathered aim_part orders.now states.now sums.old sums.new }
    ensures small { AreSmall (2 ^ 88 + 2 ^ 20) sums.new }
{
    for i in 0..orders.len() {
        add_aim(&orders[i], states[i], sums);
    }
}

// Adds what each order adds to the sizes.
pub(crate) fn gather_sizes(orders: &[Order], states: &[OrderState], sums: &mut [i128])
    requires count { length states.now ≡ length orders.now }
    requires few { length orders.now ≤ 2 ^ 17 }
    requires places { All (λ o. IsPricedBy o.row sums.old) orders.now }
    requires small { AreSmall (2 ^ 20) sums.old }
    ensures sums { AreGathered size_part orders.now states.now sums.old sums.new }
    ensures small { AreSmall (2 ^ 103 + 2 ^ 20) sums.new }
{
    for i in 0..orders.len() {
        add_size(&orders[i], states[i], sums);
    }
}

// Adds how much less each order buys as prices move by a flat direction.
pub(crate) fn gather_flows(orders: &[Order], states: &[OrderState], flat: &[i64], sums: &mut [i128])
    requires count { length states.now ≡ length orders.now }
    requires few { length orders.now ≤ 2 ^ 17 }
    requires priced { All (λ o. IsPricedBy o.row flat.now) orders.now }
    requires flat { All IsFlat flat.now }
    requires assets { length sums.old ≡ length flat.now }
    requires small { AreSmall (2 ^ 20) sums.old }
    ensures sums { AreGathered (flow_part flat.now) orders.now states.now sums.old sums.new }
    ensures small { AreSmall (2 ^ 125 + 2 ^ 20) sums.new }
{
    for i in 0..orders.len() {
        add_flow(&orders[i], states[i], flat, sums);
    }
}
