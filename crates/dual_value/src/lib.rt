//! The dual value of a book: what its orders could gain at most at given prices.
//!
//! An order's dual value at a price of its portfolio is the most that it can gain there, by trading exactly its demand.
//! Each valid move of an asset that isn't settled lowers the sum over a book, without rounding: `flow_orders` has that as
//! a law. So the sum at two places of a walk shows how far the walk has come; [`laws`] has how near the rounded sum is.
//!
//! Prices are in grains, and a tick is 2^32 grains; there is one for each asset, by its number. Values are in grains.
//!
//! # Costs
//!
//! A call goes once over the legs of all orders and divides once for each order. It allocates nothing.
#![tactic(auto)]

ghost use Rattle.std.specs.Prelude.{◌≡◌, ◌^◌, ◌≤◌, ◌≤ℤ◌, pos, length, All};
ghost use Rattle.weight_rows.specs.Rows.{IsPrice, IsPricedBy};
ghost use Rattle.demand_curve.specs.Demand.{dual_floor};
ghost use Rattle.flow_orders.specs.Orders.{most_orders, terms_of};
ghost use Rattle.flow_orders.specs.Excess.{price_for};
ghost use Rattle.flow_orders.specs.Outcomes.{dual_of};

pub mod laws;

use flow_orders::Order;

/// Returns the dual value of a book at these prices: the sum of the orders' dual values, each rounded down to a grain, 0 to
/// 2^117.
///
/// There are at most 16,384 orders, and `prices` has one price for each asset that they name, within 2^62 grains of 0.
/// The sum without rounding is at least as high, by at most one grain for each order.
#[tactic(auto, using(flow_orders::proofs::Limits::orders_fit))]
pub fn dual_floor(orders: &[Order], prices: &[i64]) -> i128
    requires few { length orders.now ≤ most_orders }
    requires range { All IsPrice prices.now }
    requires priced { All (λ o. IsPricedBy o.row prices.now) orders.now }
    ensures value { result ≡ pos (dual_of orders.now prices.now) }
    ensures most { result ≤ℤ pos (2 ^ 117) }
{
    let mut sum = 0;
    for order in orders {
        sum += order_dual(order, prices);
    }
    sum as i128
}

// Returns one order's dual value, rounded down to a grain.
fn order_dual(order: &Order, prices: &[i64]) -> u128
    requires range { All IsPrice prices.now }
    requires priced { IsPricedBy order.now.row prices.now }
    ensures value { result ≡ dual_floor (terms_of order.now) (price_for prices.now order.now) }
    ensures most { result ≤ 2 ^ 103 }
{
    order.curve().dual_floor(order.row().price(prices)) as u128
}
