//! The part of an account's own orders in a batch that cleared.
ghost use Rattle.std.specs.Prelude.{◌≡◌, ◌^◌, ◌<◌, ◌≤◌, ◌++◌, ◌+ℤ◌, ℕ, length, unsigned_abs, All, IfOk, OnOk};
ghost use Rattle.std.specs.List.{flat_map};
ghost use Rattle.list_sums.specs.Sums.{int_sum_by};
ghost use Rattle.weight_rows.specs.Rows.{IsPrice, IsPricedBy};
ghost use Rattle.flow_accounts.specs.Lawful.{IsUnitBalance};
ghost use Rattle.flow_orders.specs.Orders.{Order as order_value, most_orders, terms_of};
ghost use Rattle.flow_orders.specs.Outcomes.{residuals_of};
ghost use Rattle.flow_orders.specs.Residuals.{residual_in, AreZeros, HasEach};
ghost use Rattle.flow_orders.specs.Trades.{Trade, trades, paid};
ghost use Rattle.statement_rules.specs.Statements.{cost_line};
ghost use Rattle.account_statement.specs.Private.{HasOwn, rates_for, trades_for};

use crate::rates::rates_of;
use flow_orders::{Order, add_residuals};
use journal_records::ClearedView;
use pair_text::Text;
use statement_lines::put_cost;
use std::alloc::Global;
use wire_records::Memory;

// The part of an account's own orders in a batch: their rates, by their places, what these bring of each asset, in
// units, and what they cost together, in grains.
#[derive(Drop)]
pub(crate) struct OwnPart {
    pub(crate) rates: Vec<u32>,
    pub(crate) brought: Vec<i64>,
    pub(crate) cost: i128,
}

impl OwnPart {
    // Returns what the rates cost together, in grains.
    pub(crate) fn cost(&self) -> i128
        ensures { result ≡ self.now.cost }
    {
        self.cost
    }
}

// Returns what an order pays at a rate, in grains.
fn cost_of(order: &Order, rate: u32, prices: &[i64]) -> i128
    requires range { All IsPrice prices.now }
    requires priced { IsPricedBy order.now.row prices.now }
    ensures value { result ≡ paid prices.now (record { order = order.now; traded = rate }) }
    ensures small { unsigned_abs result ≤ 2 ^ 110 }
{
    i128::from(rate) * order.row().price(prices)
}

// Appends the line of each order with its rate. Returns what all orders pay together, in grains.
#[tactic(auto, using(flow_orders::proofs::Limits::orders_fit))]
fn put_costs(
    orders: &[Order],
    rates: &[u32],
    prices: &[i64],
    out: &mut Text,
) -> Result<i128, Memory>
    requires few { length orders.now ≤ most_orders }
    requires one_each { length rates.now ≡ length orders.now }
    requires range { All IsPrice prices.now }
    requires priced { All (λ (o : order_value). IsPricedBy o.row prices.now) orders.now }
    ensures before { out.new.before ≡ out.old.before }
    ensures put { IfOk result (λ cost. out.new.text ≡ out.old.text ++ flat_map (cost_line prices.now) (trades orders.now rates.now)) }
    ensures cost { IfOk result (λ cost. cost ≡ int_sum_by (paid prices.now) (trades orders.now rates.now)) }
{
    let mut sum = 0;
    for (place, order) in orders.iter().enumerate() {
        let rate = rates[place];
        let cost = cost_of(order, rate, prices);
        put_cost(order.number(), rate, cost, out)?;
        sum += cost;
    }
    Ok(sum)
}

// Turns `brought`, all zero on entry, into what the orders receive of each asset at these rates, in units.
fn bring(orders: &[Order], rates: &[u32], brought: &mut [i64])
    requires few { length orders.now ≤ most_orders }
    requires one_each { length rates.now ≡ length orders.now }
    requires priced { All (λ (o : order_value). IsPricedBy o.row brought.old) orders.now }
    requires within { All (λ (t : Trade). t.traded ≤ (terms_of t.order).room) (trades orders.now rates.now) }
    requires zeros { AreZeros (length brought.old) brought.old }
    ensures { brought.new ≡ residuals_of (length brought.old) (trades orders.now rates.now) }
{
    for (place, order) in orders.iter().enumerate() {
        add_residuals(order.row(), rates[place], brought);
    }
}

// Returns the part of an account's own orders in a batch, and appends the line of each.
pub(crate) fn own_part(
    alloc: Global,
    view: &ClearedView<'_>,
    orders: &[Order],
    out: &mut Text,
) -> Result<OwnPart, Memory>
    requires { HasOwn orders.now view.now.clearing }
    ensures before { out.new.before ≡ out.old.before }
    ensures put { OnOk result (out.new.text ≡ out.old.text
        ++ flat_map (cost_line view.now.clearing.prices) (trades_for view.now.clearing.fills orders.now)) }
    ensures rates { IfOk result (λ part. part.rates.items ≡ rates_for view.now.clearing.fills orders.now) }
    ensures brought { IfOk result (λ part. part.brought.items
        ≡ residuals_of (length view.now.clearing.prices) (trades_for view.now.clearing.fills orders.now)) }
    ensures cost { IfOk result (λ part. part.cost
        ≡ int_sum_by (paid view.now.clearing.prices) (trades_for view.now.clearing.fills orders.now)) }
{
    let rates = rates_of(alloc, view, orders)?;
    let prices = view.to_prices(alloc)?;
    let mut brought = vec![in alloc; 0; prices.len()]?;
    let cost = put_costs(orders, rates.as_slice(), prices.as_slice(), out)?;
    bring(orders, rates.as_slice(), brought.as_mut_slice());
    Ok(OwnPart {
        rates,
        brought,
        cost,
    })
}

// Adds to balances of units what the batch brought of each asset.
pub(crate) fn add_brought(units: &mut [i64], brought: &[i64])
    requires places { length brought.now ≡ length units.old }
    requires fits { (asset : ℕ) → asset < length units.old → IsUnitBalance (residual_in units.old asset +ℤ residual_in brought.now asset) }
    ensures { HasEach (length units.old) (λ asset. residual_in units.old asset +ℤ residual_in brought.now asset) units.new }
{
    for asset in 0..brought.len() {
        units[asset] += brought[asset];
    }
}
