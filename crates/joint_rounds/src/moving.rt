//! The loops of a step over orders and over assets, beside those of the rounds.
ghost use Rattle.std.specs.Prelude.{◌≡◌, ◌+◌, ◌^◌, ◌<◌, ◌≤◌, ◌+ℤ◌, length, map, All};
ghost use Rattle.weight_rows.specs.Rows.{IsPrice, IsPricedBy};
ghost use Rattle.flow_orders.specs.Orders.{terms_of};
ghost use Rattle.flow_orders.specs.Excess.{price_for};
ghost use Rattle.joint_prices.specs.Numbers.{within};
ghost use Rattle.joint_prices.specs.OrderStates.{IsShare, line as line_in};
ghost use Rattle.joint_rounds.specs.OrderStates.{order_state, grains, next};
ghost use Rattle.joint_rounds.specs.Steps.{order_states, priced, shared};

use crate::order_states::{OrderState, grains};
use flow_orders::Order;

// The state of each order, by its share and the prices, after the barrier's parameter was halved s times.
pub(crate) fn state_all(
    s: u32,
    lines: &[u128],
    orders: &[Order],
    shares: &[u32],
    prices: &[i64],
    states: &mut [OrderState],
)
    requires s { s ≤ 2 ^ 10 }
    requires lines { lines.now ≡ map (λ o. line_in (terms_of o)) orders.now }
    requires shares { All IsShare shares.now }
    requires count { length shares.now ≡ length orders.now }
    requires room { length states.old ≡ length orders.now }
    requires priced { All (λ o. IsPricedBy o.row prices.now) orders.now }
    requires range { All IsPrice prices.now }
    ensures { states.new ≡ order_states s prices.now orders.now shares.now }
{
    for i in 0..orders.len() {
        let order = &orders[i];
        states[i] = state_of(s, lines[i], order, shares[i], prices);
    }
}

// The state of an order. It is read by the price of its portfolio alone.
fn state_of(s: u32, line: u128, order: &Order, share: u32, prices: &[i64]) -> OrderState
    requires s { s ≤ 2 ^ 10 }
    requires line { line ≡ line_in (terms_of order.now) }
    requires share { IsShare share }
    requires priced { IsPricedBy order.now.row prices.now }
    requires range { All IsPrice prices.now }
    ensures { result ≡ order_state s prices.now order.now share }
{
    let curve = order.curve();
    OrderState::new(s, line, curve, order.row().price(prices), share)
}

// Each order's share after its Newton step, given by how much each price moves.
pub(crate) fn share_all(orders: &[Order], states: &[OrderState], by: &[i64], shares: &mut [u32])
    requires count { length shares.old ≡ length orders.now }
    requires room { length states.now ≡ length orders.now }
    requires shares { All IsShare shares.old }
    requires priced { All (λ o. IsPricedBy o.row by.now) orders.now }
    requires range { All IsPrice by.now }
    ensures value { shares.new ≡ shared by.now orders.now states.now }
    ensures shares { All IsShare shares.new }
{
    for i in 0..orders.len() {
        let order = &orders[i];
        let share = share_of(order, states[i], by);
        shares[i] = share;
    }
}

// An order's share after its Newton step. The price of a portfolio is linear, so it moves by that of the moves.
fn share_of(order: &Order, state: OrderState, by: &[i64]) -> u32
    requires priced { IsPricedBy order.now.row by.now }
    requires range { All IsPrice by.now }
    ensures value { result ≡ next (price_for by.now order.now) state }
    ensures share { IsShare result }
{
    state.next(order.row().price(by))
}

// The prices after the step, which stay within 2^61 grains of 0.
pub(crate) fn move_all(s: u32, by: &[i64], prices: &mut [i64])
    requires count { length by.now ≡ length prices.old }
    requires range { All IsPrice prices.old }
    requires small { All IsPrice by.now }
    ensures value { prices.new ≡ priced s prices.old by.now }
    ensures range { All IsPrice prices.new }
{
    for a in 0..prices.len() {
        let price = moved(s, prices[a], by[a]);
        prices[a] = price;
    }
}

// A price after the step. The sum may pass 64 bits, so it is made in 128 and cut.
fn moved(s: u32, price: i64, by: i64) -> i64
    requires price { IsPrice price }
    requires by { IsPrice by }
    ensures value { result ≡ within 61 (price +ℤ grains s by) }
    ensures range { IsPrice result }
{
    let most = 1 << 61;
    let sum = i128::from(price) + grains(s, by);
    sum.clamp(-most, most) as i64
}
