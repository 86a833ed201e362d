//! The rates at which the orders of a batch trade: what each asks for at the prices, in whole units.
//!
//! An order's demand is a fraction, and trades are whole, so a demand is rounded; the exchange takes the imbalance that
//! results. [`choose_rates`] chooses the rates that the program publishes, with their imbalances: some demands are rounded
//! up, order by order, so that imbalances are smaller. It takes orders that are quoted, so it computes no price and no
//! demand; [`chosen_rates`] chooses the same rates from orders and prices alone. [`floor_rates`] rounds all demands down, so
//! an order never trades more than it asks for.
//!
//! Prices are in grains, and a tick is 2^32 grains; there is one for each asset, by its number. Rates are in whole
//! units of an order's portfolio per batch.
//!
//! # Costs
//!
//! [`choose_rates`] goes twice over the legs of all orders, without a division. [`floor_rates`] goes once over them, and
//! divides at most once for each order. All memory is allocated before anything is rounded.
#![tactic(auto)]

ghost use Rattle.std.specs.Prelude.{◌≡◌, ◌≤◌, IfOk, length, All};
ghost use Rattle.weight_rows.specs.Rows.{IsPrice, IsPricedBy};
ghost use Rattle.demand_curve.specs.Demand.{most_rate};
ghost use Rattle.flow_orders.specs.Orders.{most_orders};
ghost use Rattle.canonical_rule.specs.Canonical.{floor_at, floor_rates};

mod choice;
pub mod laws;

pub use choice::{Chosen, choose_rates, chosen_rates};
use flow_orders::Order;
pub use out_of_memory::Memory;
use std::alloc::Global;

/// Returns each order's demand at these prices, rounded down: one rate for each order, in order.
///
/// There are at most 16,384 orders, and `prices` has one price for each asset that they name, within 2^62 grains of 0.
pub fn floor_rates(alloc: Global, orders: &[Order], prices: &[i64]) -> Result<Vec<u32>, Memory>
    requires few { length orders.now ≤ most_orders }
    requires range { All IsPrice prices.now }
    requires priced { All (λ o. IsPricedBy o.row prices.now) orders.now }
    ensures { IfOk result (λ rates. rates.items ≡ floor_rates orders.now prices.now) }
{
    let mut rates = Vec::with_capacity(alloc, orders.len())?;
    for order in orders {
        rates.push_reserved(floor_rate(order, prices));
    }
    Ok(rates)
}

// Returns one order's demand, rounded down.
fn floor_rate(order: &Order, prices: &[i64]) -> u32
    requires range { All IsPrice prices.now }
    requires priced { IsPricedBy order.now.row prices.now }
    ensures value { result ≡ floor_at prices.now order.now }
    ensures small { result ≤ most_rate }
{
    order.curve().floor_rate(order.row().price(prices))
}
