//! Adds up the weights of all orders, for all assets in one pass.
ghost use Rattle.std.specs.Prelude.{◌≡◌, ◌+◌, ◌^◌, ◌<◌, ◌≤◌, length, slice_set, unsigned_abs, All};
ghost use Rattle.weight_rows.specs.Rows.{most_weight};
ghost use Rattle.flow_orders.specs.Orders.{IsOrder, most_orders};
ghost use Rattle.batch_certificate.specs.Weighing.{count_in, AreSmall, HasCounts, IsWithinPlaces, square, HasGrownBy, weighed};

use flow_orders::Order;
use weight_rows::{Entry, WeightRow};

/// Turns `spreads` and `squares`, all zero on entry, into the rounding bound of each asset and the sum of its squared weights
/// in all orders. It costs one pass over the legs of all orders.
#[tactic(auto, using(flow_orders::proofs::Limits::orders_fit))]
pub(crate) fn add_weights(orders: &[Order], spreads: &mut [u64], squares: &mut [u64])
    requires few { length orders.now ≤ most_orders }
    requires places { All (λ o. IsWithinPlaces (length spreads.old) o.row) orders.now }
    requires same { length squares.old ≡ length spreads.old }
    requires no_spreads { HasCounts (length spreads.old) (λ asset. 0) spreads.old }
    requires no_squares { HasCounts (length spreads.old) (λ asset. 0) squares.old }
    ensures spreads { HasCounts (length spreads.old) (weighed unsigned_abs orders.now) spreads.new }
    ensures squares { HasCounts (length spreads.old) (weighed square orders.now) squares.new }
    ensures small_spreads { AreSmall (2 ^ 40) spreads.new }
    ensures small_squares { AreSmall (2 ^ 40) squares.new }
    ensures orders { All IsOrder orders.now }
{
    for order in orders {
        add_order(order, spreads, squares);
    }
}

// Adds the absolute weights of one order, and their squares.
fn add_order(order: &Order, spreads: &mut [u64], squares: &mut [u64])
    requires places { IsWithinPlaces (length spreads.old) order.now.row }
    requires same { length squares.old ≡ length spreads.old }
    requires small_spreads { AreSmall (2 ^ 50) spreads.old }
    requires small_squares { AreSmall (2 ^ 50) squares.old }
    ensures spreads { HasGrownBy unsigned_abs order.now.row spreads.old spreads.new }
    ensures squares { HasGrownBy square order.now.row squares.old squares.new }
    ensures order { IsOrder order.now }
{
    // Called for its contract: the order is within the limits.
    let _within = order.number();
    add_row_weights(order.row(), spreads, squares);
}

// Adds the absolute weights of a weight vector, and their squares.
fn add_row_weights(row: &WeightRow, spreads: &mut [u64], squares: &mut [u64])
    requires places { IsWithinPlaces (length spreads.old) row.now }
    requires same { length squares.old ≡ length spreads.old }
    requires small_spreads { AreSmall (2 ^ 50) spreads.old }
    requires small_squares { AreSmall (2 ^ 50) squares.old }
    ensures spreads { HasGrownBy unsigned_abs row.now spreads.old spreads.new }
    ensures squares { HasGrownBy square row.now squares.old squares.new }
{
    for entry in row.entries() {
        add_entry_weight(entry, spreads, squares);
    }
}

// Adds the absolute weight of a leg, and its square.
fn add_entry_weight(entry: &Entry, spreads: &mut [u64], squares: &mut [u64])
    requires spread { entry.now.asset < length spreads.old }
    requires squares { entry.now.asset < length squares.old }
    requires weight { unsigned_abs entry.now.weight ≤ most_weight }
    requires small_spread { count_in spreads.old entry.now.asset ≤ 2 ^ 60 }
    requires small_squares { count_in squares.old entry.now.asset ≤ 2 ^ 60 }
    ensures spreads { spreads.new ≡ slice_set spreads.old entry.now.asset
        (count_in spreads.old entry.now.asset + unsigned_abs entry.now.weight) }
    ensures squares { squares.new ≡ slice_set squares.old entry.now.asset
        (count_in squares.old entry.now.asset + square entry.now.weight) }
{
    let weight = absolute_weight(entry);
    add_to(spreads, entry.asset, weight);
    add_to(squares, entry.asset, weight * weight);
}

// Returns the absolute weight of a leg.
fn absolute_weight(entry: &Entry) -> u64
    requires { unsigned_abs entry.now.weight ≤ most_weight }
    ensures value { result ≡ unsigned_abs entry.now.weight }
    ensures most { result ≤ most_weight }
{
    u64::from(entry.weight.unsigned_abs())
}

// Adds to the number of an asset.
fn add_to(counts: &mut [u64], asset: u16, more: u64)
    requires place { asset < length counts.old }
    requires small { count_in counts.old asset ≤ 2 ^ 60 }
    requires little { more ≤ 2 ^ 24 }
    ensures { counts.new ≡ slice_set counts.old asset (count_in counts.old asset + more) }
{
    counts[usize::from(asset)] += more;
}
