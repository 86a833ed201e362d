//! The state of an order in a step: what its share of its batch maximum lacks, and the slope of its demand, by its share and the price of
//! its portfolio.
ghost use Rattle.std.specs.Prelude.{◌≡◌, ◌^◌, ◌<◌, ◌≤◌, ◌*◌, ◌/◌, ◌+◌, ◌-◌, ◌*ℤ◌, ◌-ℤ◌, pos, neg_ℤ, unsigned_abs};
ghost use Rattle.std.specs.Int.{int_min, int_max, div_ceil};
ghost use Rattle.demand_curve.specs.Numbers.{or_zero};
ghost use Rattle.demand_curve.specs.Demand.{most_rate};
ghost use Rattle.demand_curve.specs.Curve.{terms};
ghost use Rattle.joint_prices.specs.OrderStates.{one, IsShare, line as line_in};
ghost use Rattle.joint_rounds.specs.OrderStates.{coarseness, money, grains, tau, line_at, dear, bend, stiffness, lack, slope, state_with, aim, target, next, IsOrderState};

use demand_curve::Curve;
use joint_prices::{quotient, scale};
use std::marker::Model;

// The batch maximum as a share: shares are in parts of 2^32.
const ONE: u64 = 1 << 32;

/// An order in a step: its batch maximum (`room`), its share of that, what the share lacks, its diagonal of the Newton system
/// (`stiffness`), and how many units more it buys for each unit of money that the price falls (`slope`).
#[derive(Clone, Copy)]
pub struct OrderState {
    room: u32,
    share: u32,
    lack: i64,
    stiffness: u128,
    slope: u64,
}

impl Model for OrderState {
    ghost use Rattle.joint_rounds.specs.OrderStates.{OrderState as state_value, IsOrderState};

    ghost Value = { state_value };

    ghost view = { λ z. record { room = z.room; share = z.share; lack = z.lack; stiffness = z.stiffness; slope = z.slope } };

    ghost invariant = { λ z. IsOrderState (record { room = z.room; share = z.share; lack = z.lack; stiffness = z.stiffness; slope = z.slope }) };

    ghost inverse = { λ d. record { room = d.room; share = d.share; lack = d.lack; stiffness = d.stiffness; slope = d.slope } };
}

// How coarse money is after the barrier was halved s times: it is counted in so many bits more than 1/256 of a grain.
fn coarseness(s: u32) -> u32
    ensures value { result ≡ coarseness s }
    ensures most { result ≤ 18 }
{
    18_u32.saturating_sub(s)
}

// Grains as money, rounded towards 0.
fn money(s: u32, x: i128) -> i128
    requires { unsigned_abs x ≤ 2 ^ 79 }
    ensures value { result ≡ money s x }
    ensures small { unsigned_abs result ≤ unsigned_abs x * 2 ^ 8 }
{
    scale(x * 256, coarseness(s) as i32)
}

// A power of 2.
fn power(k: u32) -> i128
    requires { k ≤ 18 }
    ensures { result ≡ pos (2 ^ k) }
{
    1 << k
}

/// Money as grains, rounded towards 0, after the barrier's parameter was halved `s` times.
pub(crate) fn grains(s: u32, x: i64) -> i128
    requires { unsigned_abs x ≤ 2 ^ 62 }
    ensures value { result ≡ grains s x }
    ensures small { unsigned_abs result ≤ 2 ^ 72 }
{
    scale(product(i128::from(x), power(coarseness(s))), 8)
}

// The barrier's parameter, in money.
fn tau(s: u32) -> u64
    requires { s ≤ 2 ^ 10 }
    ensures value { result ≡ tau s }
    ensures most { result ≤ 2 ^ 30 }
{
    let shift = s + coarseness(s);
    if shift > 48 { 0 } else { (1 << 48) >> shift }
}

// By how much the price falls while the order's demand rises from 0 to its batch maximum, in money.
fn line_at(s: u32, line: u128, curve: Curve) -> u128
    requires line { line ≡ line_in (terms curve) }
    requires most { line ≤ 2 ^ 73 }
    ensures value { result ≡ line_at s (terms curve) }
    ensures most { result ≤ 2 ^ 69 }
{
    line >> (4 + coarseness(s))
}

// How far the price at which the order demands the share is below its high limit, in money.
fn cost(line: u128, share: u32) -> i128
    requires line { line ≤ 2 ^ 69 }
    ensures value { result ≡ pos (line * share / one) }
    ensures small { unsigned_abs result ≤ 2 ^ 69 }
{
    (line * u128::from(share) / u128::from(ONE)) as i128
}

// How far a price is below the high limit, in grains.
fn ask(high: i64, price: i128) -> i128
    requires high { unsigned_abs high ≤ 2 ^ 60 }
    requires price { unsigned_abs price ≤ 2 ^ 78 }
    ensures value { result ≡ high -ℤ price }
    ensures small { unsigned_abs result ≤ 2 ^ 60 + 2 ^ 78 }
{
    i128::from(high) - price
}

// How far the portfolio's price is above that at which the order demands the share, in money: the gradient without the
// barrier.
fn dear(s: u32, line: u128, curve: Curve, price: i128, share: u32) -> i128
    requires line { line ≡ line_at s (terms curve) }
    requires most { line ≤ 2 ^ 69 }
    requires price { unsigned_abs price ≤ 2 ^ 78 }
    ensures value { result ≡ dear s (terms curve) price share }
    ensures small { unsigned_abs result ≤ 2 ^ 87 }
{
    cost(line, share) - money(s, ask(curve.high, price))
}

// The share times what is left of the batch maximum, and at least 1.
fn bend(share: u32) -> u64
    requires { IsShare share }
    ensures value { result ≡ bend share }
    ensures most { result ≤ 2 ^ 30 + 1 }
{
    u64::from(share) * (ONE - u64::from(share)) / ONE + 1
}

// The positive part of a number, with its range as a clause.
fn or_zero(v: i128) -> u128
    requires { unsigned_abs v ≤ 2 ^ 87 }
    ensures value { result ≡ or_zero v }
    ensures most { result ≤ 2 ^ 87 }
{
    v.max(0) as u128
}

// The negative of a number, with its range as a clause.
fn negated(v: i128) -> i128
    requires { unsigned_abs v ≤ 2 ^ 87 }
    ensures value { result ≡ neg_ℤ v }
    ensures small { unsigned_abs result ≤ 2 ^ 87 }
{
    -v
}

// The multiplier of a bound times the share's distance from the other one.
fn times_share(money: u128, share: u64) -> u128
    requires money { money ≤ 2 ^ 87 + 2 ^ 30 }
    requires share { share ≤ one }
    ensures value { result ≡ money * share }
    ensures most { result ≤ (2 ^ 87 + 2 ^ 30) * share }
{
    money * u128::from(share)
}

// The line times t (1 - t).
fn bent_line(line: u128, share: u32) -> u128
    requires line { line ≤ 2 ^ 69 }
    requires share { IsShare share }
    ensures value { result ≡ line * bend share }
    ensures most { result ≤ 2 ^ 100 }
{
    line * u128::from(bend(share))
}

// The order's diagonal of the Newton system, times t (1 - t). The multiplier of a bound is estimated by the part of the
// gradient that pushes against it, and the barrier's parameter m.
fn stiffness(m: u64, line: u128, v: i128, share: u32) -> u128
    requires m { m ≤ 2 ^ 30 }
    requires line { line ≤ 2 ^ 69 }
    requires v { unsigned_abs v ≤ 2 ^ 87 }
    requires share { IsShare share }
    ensures value { result ≡ stiffness m line v share }
    ensures some { 1 ≤ result }
    ensures most { result < 2 ^ 88 }
{
    let m = u128::from(m);
    let up = times_share(or_zero(v) + m, ONE - u64::from(share));
    let down = times_share(or_zero(negated(v)) + m, u64::from(share));
    (bent_line(line, share) + up + down) / u128::from(ONE) + 1
}

// A product that fits, with its size as a clause.
pub(crate) fn product(x: i128, y: i128) -> i128
    requires { unsigned_abs x * unsigned_abs y < 2 ^ 126 }
    ensures value { result ≡ x *ℤ y }
    ensures size { unsigned_abs result ≡ unsigned_abs x * unsigned_abs y }
{
    x * y
}

// How far the share is below half of the batch maximum, twice.
fn slant(share: u32) -> i64
    requires { IsShare share }
    ensures value { result ≡ pos one -ℤ pos (2 * share) }
    ensures small { unsigned_abs result ≤ 2 ^ 32 }
{
    ONE as i64 - 2 * i64::from(share)
}

// The barrier's forces from both bounds, times t (1 - t).
fn barrier_force(m: u64, share: u32) -> i128
    requires m { m ≤ 2 ^ 30 }
    requires share { IsShare share }
    ensures value { result ≡ pos m *ℤ (pos one -ℤ pos (2 * share)) }
    ensures small { unsigned_abs result ≤ 2 ^ 62 }
{
    product(i128::from(m), i128::from(slant(share)))
}

// The gradient times t (1 - t).
fn bent_gradient(v: i128, share: u32) -> i128
    requires v { unsigned_abs v ≤ 2 ^ 87 }
    requires share { IsShare share }
    ensures value { result ≡ v *ℤ pos (bend share) }
    ensures small { unsigned_abs result ≤ 2 ^ 118 }
{
    product(v, i128::from(bend(share)))
}

// The barrier's forces from both bounds less the gradient, times t (1 - t).
fn force(m: u64, v: i128, share: u32) -> i128
    requires m { m ≤ 2 ^ 30 }
    requires v { unsigned_abs v ≤ 2 ^ 87 }
    requires share { IsShare share }
    ensures value { result ≡ pos m *ℤ (pos one -ℤ pos (2 * share)) -ℤ v *ℤ pos (bend share) }
    ensures small { unsigned_abs result ≤ 2 ^ 119 }
{
    barrier_force(m, share) - bent_gradient(v, share)
}

// By how much the share is below that of a whole Newton step at these prices.
fn lack(m: u64, line: u128, v: i128, share: u32, k: u128) -> i64
    requires m { m ≤ 2 ^ 30 }
    requires v { unsigned_abs v ≤ 2 ^ 87 }
    requires share { IsShare share }
    requires value { k ≡ stiffness m line v share }
    requires some { 1 ≤ k }
    requires most { k < 2 ^ 88 }
    ensures value { result ≡ lack m v share k }
    ensures small { unsigned_abs result ≤ 2 ^ 34 }
{
    quotient(force(m, v, share), k as i128) as i64
}

// How many units more the order buys to first order for each unit of money that the price falls, in 1/2^70 of a unit.
fn slope(room: u32, share: u32, k: u128) -> u64
    requires room { room ≤ most_rate }
    requires share { IsShare share }
    requires some { 1 ≤ k }
    requires steep { room * bend share ≤ 2 ^ 24 * k }
    ensures value { result ≡ slope room share k }
    ensures most { result ≤ 2 ^ 62 }
{
    (u128::from(room) * u128::from(bend(share)) * (1 << 38) / k) as u64
}

impl OrderState {
    // A state within the ranges, which fills a list before the first step.
    pub(crate) fn none() -> OrderState {
        OrderState {
            room: 1,
            share: 1,
            lack: 0,
            stiffness: 1,
            slope: 0,
        }
    }

    /// The state of an order at a price of its portfolio and a share of its batch maximum, after the barrier's parameter was halved
    /// `s` times. `line` is its [`line_of`](joint_prices::line_of).
    pub fn new(s: u32, line: u128, curve: Curve, price: i128, share: u32) -> OrderState
        requires s { s ≤ 2 ^ 10 }
        requires line { line ≡ line_in (terms curve) }
        requires least { curve.room * 2 ^ 20 ≤ line }
        requires most { line ≤ 2 ^ 73 }
        requires price { unsigned_abs price ≤ 2 ^ 78 }
        requires share { IsShare share }
        ensures { result ≡ state_with s (terms curve) (dear s (terms curve) price share) share }
    {
        let m = tau(s);
        let line = line_at(s, line, curve);
        let v = dear(s, line, curve, price, share);
        let stiffness = stiffness(m, line, v, share);
        OrderState {
            room: curve.room,
            share,
            lack: lack(m, line, v, share, stiffness),
            stiffness,
            slope: slope(curve.room, share, stiffness),
        }
    }

    // The batch maximum, and that the state is within its ranges.
    fn room(self) -> u32
        ensures value { result ≡ self.room }
        ensures order_state { IsOrderState self }
    {
        self.room
    }

    // The share of the batch maximum.
    fn share(self) -> u32
        ensures value { result ≡ self.share }
        ensures share { IsShare result }
    {
        self.share
    }

    // What the share lacks, with its range as a clause.
    fn lack(self) -> i64
        ensures value { result ≡ self.lack }
        ensures small { unsigned_abs result ≤ 2 ^ 34 }
    {
        self.lack
    }

    // The stiffness, which is positive and so may divide.
    fn stiffness(self) -> u128
        ensures value { result ≡ self.stiffness }
        ensures some { 1 ≤ result }
        ensures most { result < 2 ^ 88 }
    {
        self.stiffness
    }

    // How many units more the order buys to first order for each unit of money that the price falls, in 1/2^70 of a unit.
    pub(crate) fn slope(self) -> u64
        ensures value { result ≡ self.slope }
        ensures most { result ≤ 2 ^ 62 }
    {
        self.slope
    }

    // How many units the order buys after a whole Newton step at these prices, in 1/2^32 of a unit.
    pub(crate) fn aim(self) -> i128
        ensures value { result ≡ aim self }
        ensures small { unsigned_abs result ≤ 2 ^ 59 }
    {
        i128::from(self.room()) * (i128::from(self.share()) + i128::from(self.lack()))
    }

    // By how much money an amount pushes the share down, times t (1 - t).
    fn pushed(self, amount: i128) -> i128
        requires { unsigned_abs amount ≤ 2 ^ 78 }
        ensures value { result ≡ pos (bend self.share) *ℤ amount }
        ensures small { unsigned_abs result ≤ 2 ^ 109 }
    {
        product(i128::from(bend(self.share())), amount)
    }

    // The share after a whole Newton step if the price moves by an amount, which may be out of its bounds.
    fn target(self, amount: i128) -> i128
        requires { unsigned_abs amount ≤ 2 ^ 78 }
        ensures value { result ≡ target amount self }
    {
        let by = quotient(self.pushed(amount), self.stiffness() as i128);
        i128::from(self.share()) + i128::from(self.lack()) - by
    }

    // The share after its step if the price moves by an amount: the Newton step, at most half of the way to either bound.
    pub(crate) fn next(self, amount: i128) -> u32
        requires { unsigned_abs amount ≤ 2 ^ 78 }
        ensures value { result ≡ next amount self }
        ensures share { IsShare result }
    {
        let share = self.share();
        between(self.target(amount), least(share), most(share))
    }
}

// The least share that one step leads to: half of the way to the bound 0.
fn least(share: u32) -> u32
    requires { IsShare share }
    ensures value { result ≡ div_ceil share 2 }
    ensures some { 1 ≤ result }
    ensures most { result ≤ share }
{
    share.div_ceil(2)
}

// The greatest share that one step leads to: half of the way to the batch maximum.
fn most(share: u32) -> u32
    requires { IsShare share }
    ensures value { result ≡ one - div_ceil (one - share) 2 }
    ensures least { share ≤ result }
    ensures most { result < one }
{
    (ONE - (ONE - u64::from(share)).div_ceil(2)) as u32
}

// A number cut to a range of shares.
fn between(x: i128, low: u32, high: u32) -> u32
    requires { low ≤ high }
    ensures value { result ≡ or_zero (int_max (pos low) (int_min x (pos high))) }
    ensures low { low ≤ result }
    ensures high { result ≤ high }
{
    x.clamp(i128::from(low), i128::from(high)) as u32
}
