//! The search for prices that settle all assets.
ghost use Rattle.std.specs.Prelude.{◌≡◌, ℕ, ◌*◌, ◌/◌, ◌^◌, ◌<◌, ◌≤◌, length, map, All, IfOk, List, ℤ, Bool};
ghost use Rattle.weight_rows.specs.Rows.{IsPrice, IsPricedBy};
ghost use Rattle.flow_orders.specs.Orders.{Order, IsOrder, most_orders, terms_of};
ghost use Rattle.flow_orders.specs.Residuals.{most_prices};
ghost use Rattle.joint_prices.specs.OrderStates.{IsShare, IsNear, line as line_in};
ghost use Rattle.joint_prices.specs.Steps.{order_states, moves, priced, shared, joint_prices};

use crate::moving::{move_all, share_all, state_all};
use crate::order_states::{OrderState, line_of};
use crate::systems::System;
use flow_orders::Order;
use out_of_memory::Memory;
use std::alloc::{AllocError, Global};

/// A test of prices: whether all assets are settled at them.
///
/// Its answers don't depend on what was asked before.
pub trait Settles {
    /// What is answered at each list of prices.
    ghost settled: { Self → List ℤ → Bool };

    /// How many prices there are.
    ghost assets: { Self → ℕ };

    /// The orders of the assets.
    ghost orders: { Self → List Order };

    /// Whether all assets are settled at the prices, in grains by the assets' numbers.
    fn are_settled(&mut self, prices: &[i64]) -> bool
        requires count { length prices.now ≡ assets self.old }
        requires range { All IsPrice prices.now }
        ensures answer { result ≡ settled self.old prices.now }
        ensures same { (p : List ℤ) → settled self.new p ≡ settled self.old p }
        ensures assets { assets self.new ≡ assets self.old }
        ensures orders { orders self.new ≡ orders self.old };
}

// Makes a Newton step: the states of the orders, the system over the assets, and then the shares and the prices.
fn step(
    tau: u64,
    lines: &[u128],
    orders: &[Order],
    start: &[i64],
    states: &mut [OrderState],
    system: &mut System,
    shares: &mut [u32],
    prices: &mut [i64],
)
    requires tau { tau ≤ 2 ^ 60 }
    requires lines { lines.now ≡ map (λ o. line_in (terms_of o)) orders.now }
    requires few { length orders.now ≤ most_orders }
    requires shares { All IsShare shares.old }
    requires count { length shares.old ≡ length orders.now }
    requires room { length states.old ≡ length orders.now }
    requires system { length system.old ≡ length prices.old }
    requires priced { All (λ o. IsPricedBy o.row prices.old) orders.now }
    requires range { All IsPrice prices.old }
    requires start { All IsPrice start.now }
    requires assets { length start.now ≡ length prices.old }
    ensures prices { prices.new ≡ priced prices.old (moves start.now prices.old orders.now (order_states tau prices.old orders.now shares.old)) }
    ensures shares { shares.new ≡ shared (moves start.now prices.old orders.now (order_states tau prices.old orders.now shares.old)) orders.now (order_states tau prices.old orders.now shares.old) }
    ensures system { length system.new ≡ length system.old }
    ensures range { All IsPrice prices.new }
    ensures each { All IsShare shares.new }
{
    state_all(tau, lines, orders, shares, prices, states);
    system.solve(orders, states, start, prices);
    share_all(orders, states, system.by(), shares);
    move_all(system.by(), prices);
}

/// Returns the joint prices of orders and start prices, in grains by the assets' numbers: those after the fewest steps, at
/// most 100, at which all assets are settled by the test, and else those after 100 steps. They are within 2^62 grains of
/// 0, as the start prices are.
///
/// There are at most 16,384 orders and 64 assets, and each asset that an order names has a price. A step costs two passes
/// over the legs of all orders, one over every two legs of each, and a sixth of the cube of the number of assets. It
/// allocates once, before the first step: 64 bytes and more for each order, and 16 for each two assets.
///
/// It fails only with `Memory`.
pub fn joint_prices<T: Settles>(
    alloc: Global,
    orders: &[Order],
    start: &[i64],
    test: &mut T,
) -> Result<Vec<i64>, Memory>
    requires few { length orders.now ≤ most_orders }
    requires assets { length start.now ≤ most_prices }
    requires range { All IsPrice start.now }
    requires priced { All (λ o. IsPricedBy o.row start.now) orders.now }
    requires count { length start.now ≡ T.assets test.old }
    ensures found { IfOk result (λ prices. prices.items ≡ joint_prices (T.settled test.old) orders.now start.now) }
    ensures count { IfOk result (λ prices. length prices.items ≡ length start.now) }
    ensures range { IfOk result (λ prices. All IsPrice prices.items) }
    ensures near { All IsNear start.now → IfOk result (λ prices. All IsNear prices.items) }
    ensures same { (p : List ℤ) → T.settled test.new p ≡ T.settled test.old p }
    ensures assets { T.assets test.new ≡ T.assets test.old }
    ensures orders { T.orders test.new ≡ T.orders test.old }
{
    let lines = lines_of(alloc, orders)?;
    let mut shares = half_of(alloc, orders)?;
    let mut states = vec![in alloc; OrderState::none(); orders.len()]?;
    let mut system = System::new(alloc, start.len())?;
    let mut prices = Vec::from_slice(alloc, start)?;
    search(
        orders,
        start,
        &lines,
        test,
        &mut states,
        &mut system,
        &mut shares,
        &mut prices,
    );
    Ok(prices)
}

// Makes steps until all assets are settled, at most 100. The barrier's parameter falls to a third after each.
fn search<T: Settles>(
    orders: &[Order],
    start: &[i64],
    lines: &[u128],
    test: &mut T,
    states: &mut [OrderState],
    system: &mut System,
    shares: &mut [u32],
    prices: &mut [i64],
)
    requires lines { lines.now ≡ map (λ o. line_in (terms_of o)) orders.now }
    requires few { length orders.now ≤ most_orders }
    requires shares { shares.old ≡ map (λ o. 2 ^ 31) orders.now }
    requires room { length states.old ≡ length orders.now }
    requires system { length system.old ≡ length start.now }
    requires prices { prices.old ≡ start.now }
    requires priced { All (λ o. IsPricedBy o.row start.now) orders.now }
    requires range { All IsPrice start.now }
    requires count { length start.now ≡ T.assets test.old }
    ensures found { prices.new ≡ joint_prices (T.settled test.old) orders.now start.now }
    ensures range { All IsPrice prices.new }
    ensures near { All IsNear start.now → All IsNear prices.new }
    ensures same { (p : List ℤ) → T.settled test.new p ≡ T.settled test.old p }
    ensures assets { T.assets test.new ≡ T.assets test.old }
    ensures orders { T.orders test.new ≡ T.orders test.old }
{
    let mut tau = 1 << 60;
    for _step in 0..100_u32 {
        if test.are_settled(prices) {
            return;
        }
        step(tau, lines, orders, start, states, system, shares, prices);
        tau /= 3;
    }
}

// The line of each order, which no step changes.
fn lines_of(alloc: Global, orders: &[Order]) -> Result<Vec<u128>, AllocError>
    ensures { IfOk result (λ lines. lines.items ≡ map (λ o. line_in (terms_of o)) orders.now) }
{
    let mut lines = Vec::with_capacity(alloc, orders.len())?;
    for order in orders {
        lines.push(line_of(order.curve()))?;
    }
    Ok(lines)
}

// The shares before the first step: half of each batch maximum, where the barrier's forces cancel.
fn half_of(alloc: Global, orders: &[Order]) -> Result<Vec<u32>, AllocError>
    ensures { IfOk result (λ shares. shares.items ≡ map (λ o. 2 ^ 31) orders.now) }
{
    let mut shares = Vec::with_capacity(alloc, orders.len())?;
    for _order in orders {
        shares.push(1 << 31)?;
    }
    Ok(shares)
}
