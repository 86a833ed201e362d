//! The state of an order in a step: its residual and its diagonal of the Newton system, by its share of its batch maximum and the
//! price of its portfolio.
ghost use Rattle.std.specs.Prelude.{◌≡◌, ◌^◌, ◌<◌, ◌≤◌, ◌*◌, ◌/◌, ◌+◌, ◌-◌, ◌*ℤ◌, ◌-ℤ◌, ◌+ℤ◌, pos, neg_ℤ, int_div, unsigned_abs};
ghost use Rattle.std.specs.Int.{int_min, int_max, div_ceil};
ghost use Rattle.demand_curve.specs.Numbers.{or_zero};
ghost use Rattle.demand_curve.specs.Curve.{terms};
ghost use Rattle.joint_prices.specs.Numbers.{within};
ghost use Rattle.joint_prices.specs.OrderStates.{one, IsShare, line as line_in, dear, stiffness, lack, state_at, part, target, slope, aim, next, IsOrderState};

use crate::numbers::quotient;
use demand_curve::Curve;
use std::marker::Model;

// The batch maximum as a share: shares are in parts of 2^32.
const ONE: u64 = 1 << 32;

/// An order in a step: its batch maximum (`room`), its share of that, its diagonal of the Newton system (`stiffness`), and the
/// residual of its optimality condition (`lack`).
#[derive(Clone, Copy)]
pub struct OrderState {
    room: u32,
    share: u32,
    stiffness: u128,
    lack: i128,
}

impl Model for OrderState {
    ghost use Rattle.joint_prices.specs.OrderStates.{OrderState as state_value, IsOrderState};

    ghost Value = { state_value };

    ghost view = { λ s. record { room = s.room; share = s.share; stiffness = s.stiffness; lack = s.lack } };

    ghost invariant = { λ s. IsOrderState (record { room = s.room; share = s.share; stiffness = s.stiffness; lack = s.lack }) };

    ghost inverse = { λ d. record { room = d.room; share = d.share; stiffness = d.stiffness; lack = d.lack } };
}

/// By how much the price falls while the order's demand rises from 0 to its batch maximum, in 1/4096 of a grain.
pub fn line_of(curve: Curve) -> u128
    ensures value { result ≡ line_in (terms curve) }
    ensures least { curve.room * 2 ^ 20 ≤ result }
    ensures most { result ≤ 2 ^ 73 }
{
    u128::from(curve.room) * (curve.span() as u128) * 4096 / u128::from(curve.rate)
}

// The positive part of a number, with its range as a clause.
fn or_zero(v: i128) -> u128
    requires { unsigned_abs v ≤ 2 ^ 91 }
    ensures value { result ≡ or_zero v }
    ensures most { result ≤ 2 ^ 91 }
{
    v.max(0) as u128
}

// The negative of a number, with its range as a clause.
fn negated(v: i128) -> i128
    requires { unsigned_abs v ≤ 2 ^ 91 }
    ensures value { result ≡ neg_ℤ v }
    ensures small { unsigned_abs result ≤ 2 ^ 91 }
{
    -v
}

// The multiplier of a bound over the share's distance from it: what the barrier adds there to the diagonal.
fn over_share(money: u128, share: u64) -> u128
    requires money { money ≤ 2 ^ 92 }
    requires share { 1 ≤ share }
    ensures value { result ≡ money * one / share }
    ensures most { result ≤ 2 ^ 124 }
{
    money * u128::from(ONE) / u128::from(share)
}

// How far a price is below the high limit, in 1/4096 of a grain.
fn ask(high: i64, price: i128) -> i128
    requires high { unsigned_abs high ≤ 2 ^ 60 }
    requires price { unsigned_abs price ≤ 2 ^ 78 }
    ensures value { result ≡ pos (2 ^ 12) *ℤ (high -ℤ price) }
    ensures small { unsigned_abs result ≤ 2 ^ 90 + 2 ^ 72 }
{
    4096 * (i128::from(high) - price)
}

// How far the price at which the order demands the share is below its high limit, in 1/4096 of a grain.
fn cost(line: u128, share: u32) -> i128
    requires line { line ≤ 2 ^ 73 }
    ensures value { result ≡ pos (line * share / one) }
    ensures small { unsigned_abs result ≤ 2 ^ 73 }
{
    (line * u128::from(share) / u128::from(ONE)) as i128
}

// How far the portfolio's price is above that at which the order demands the share, in 1/4096 of a grain: the gradient
// without the barrier.
fn dear(line: u128, curve: Curve, price: i128, share: u32) -> i128
    requires line { line ≡ line_in (terms curve) }
    requires most { line ≤ 2 ^ 73 }
    requires price { unsigned_abs price ≤ 2 ^ 78 }
    ensures value { result ≡ dear (terms curve) price share }
    ensures small { unsigned_abs result ≤ 2 ^ 91 }
{
    cost(line, share) - ask(curve.high, price)
}

// The order's diagonal of the Newton system: the slope of its line, and that of the barrier at both bounds. The multiplier
// of a bound is estimated by the part of the gradient that pushes against it, and tau.
fn stiffness(tau: u64, line: u128, v: i128, share: u32) -> u128
    requires tau { tau ≤ 2 ^ 60 }
    requires line { line ≤ 2 ^ 73 }
    requires v { unsigned_abs v ≤ 2 ^ 91 }
    requires share { IsShare share }
    ensures value { result ≡ stiffness tau line v share }
    ensures least { line ≤ result }
    ensures most { result < 2 ^ 126 }
{
    let tau = u128::from(tau);
    line + over_share(or_zero(v) + tau, u64::from(share))
        + over_share(or_zero(negated(v)) + tau, ONE - u64::from(share))
}

// The residual of the order's optimality condition, which the step brings to 0: the barrier's force less the gradient.
fn lack(tau: u64, v: i128, share: u32) -> i128
    requires tau { tau ≤ 2 ^ 60 }
    requires v { unsigned_abs v ≤ 2 ^ 91 }
    requires share { IsShare share }
    ensures value { result ≡ lack tau v share }
    ensures small { unsigned_abs result ≤ 2 ^ 93 }
{
    barrier_force(tau, u64::from(share)) - barrier_force(tau, ONE - u64::from(share)) - v
}

// The barrier's force from one bound, at the share's distance from it.
fn barrier_force(tau: u64, share: u64) -> i128
    requires tau { tau ≤ 2 ^ 60 }
    requires share { 1 ≤ share }
    ensures value { result ≡ pos (tau * one / share) }
    ensures small { unsigned_abs result ≤ 2 ^ 92 }
{
    (u128::from(tau) * u128::from(ONE) / u128::from(share)) as i128
}

impl OrderState {
    // A state within the ranges, which fills a list before the first step.
    pub(crate) fn none() -> OrderState {
        OrderState {
            room: 1,
            share: 1,
            stiffness: 1 << 20,
            lack: 0,
        }
    }

    /// The state of an order at a price of its portfolio and a share of its batch maximum. `line` is its [`line_of`], and `tau`
    /// the barrier's parameter.
    pub fn new(tau: u64, line: u128, curve: Curve, price: i128, share: u32) -> OrderState
        requires tau { tau ≤ 2 ^ 60 }
        requires line { line ≡ line_in (terms curve) }
        requires least { curve.room * 2 ^ 20 ≤ line }
        requires most { line ≤ 2 ^ 73 }
        requires price { unsigned_abs price ≤ 2 ^ 78 }
        requires share { IsShare share }
        ensures { result ≡ state_at tau (terms curve) price share }
    {
        let v = dear(line, curve, price, share);
        OrderState {
            room: curve.room,
            share,
            stiffness: stiffness(tau, line, v, share),
            lack: lack(tau, v, share),
        }
    }

    // The batch maximum, and that the state is within its ranges.
    fn room(self) -> u32
        ensures value { result ≡ self.room }
        ensures order_state { IsOrderState self }
    {
        self.room
    }

    /// The share of the batch maximum.
    pub(crate) fn share(self) -> u32
        ensures value { result ≡ self.share }
        ensures share { IsShare result }
    {
        self.share
    }

    // The order's diagonal, which is positive and so may divide.
    fn stiffness(self) -> u128
        ensures value { result ≡ self.stiffness }
        ensures some { 1 ≤ result }
        ensures most { result < 2 ^ 126 }
    {
        self.stiffness
    }

    // The residual after the portfolio's price has moved by an amount, in grains.
    fn lack(self, amount: i128) -> i128
        requires { unsigned_abs amount ≤ 2 ^ 78 }
        ensures value { result ≡ self.lack -ℤ pos (2 ^ 12) *ℤ amount }
        ensures small { unsigned_abs result < 2 ^ 94 }
    {
        self.lack - 4096 * amount
    }

    // The share after a whole Newton step, which may be out of its bounds.
    fn target(self, amount: i128) -> i64
        requires { unsigned_abs amount ≤ 2 ^ 78 }
        ensures value { result ≡ target amount self }
        ensures small { unsigned_abs result ≤ 2 ^ 61 }
    {
        i64::from(self.share()) + part(self.lack(amount), self.stiffness())
    }

    // How many units more the order buys to first order for each grain that the price falls, in 1/2^82 of a unit.
    pub(crate) fn slope(self) -> i128
        ensures value { result ≡ pos (slope self) }
        ensures small { unsigned_abs result ≤ 2 ^ 74 }
    {
        (u128::from(self.room()) * ((1 << 94) / self.stiffness())) as i128
    }

    // How many units the order buys after a whole Newton step at these prices, in 1/2^32 of a unit.
    pub(crate) fn aim(self) -> i128
        ensures value { result ≡ aim self }
        ensures small { unsigned_abs result ≤ 2 ^ 85 }
    {
        i128::from(self.room()) * i128::from(self.target(0))
    }

    // The share after its step if the price moves by an amount: the Newton step, at most half of the way to either bound.
    pub(crate) fn next(self, amount: i128) -> u32
        requires { unsigned_abs amount ≤ 2 ^ 78 }
        ensures value { result ≡ next amount self }
        ensures share { IsShare result }
    {
        let share = self.share();
        between(self.target(amount), least(share), most(share))
    }
}

// The least share that one step leads to: half of the way to the bound 0.
fn least(share: u32) -> u32
    requires { IsShare share }
    ensures value { result ≡ div_ceil share 2 }
    ensures some { 1 ≤ result }
    ensures most { result ≤ share }
{
    share.div_ceil(2)
}

// The greatest share that one step leads to: half of the way to the batch maximum.
fn most(share: u32) -> u32
    requires { IsShare share }
    ensures value { result ≡ one - div_ceil (one - share) 2 }
    ensures least { share ≤ result }
    ensures most { result < one }
{
    (ONE - (ONE - u64::from(share)).div_ceil(2)) as u32
}

// A number cut to a range of shares.
fn between(x: i64, low: u32, high: u32) -> u32
    requires { low ≤ high }
    ensures value { result ≡ or_zero (int_max (pos low) (int_min x (pos high))) }
    ensures low { low ≤ result }
    ensures high { result ≤ high }
{
    x.clamp(i64::from(low), i64::from(high)) as u32
}

// The quotient of a residual and a diagonal, as a share, cut to 2^60 in absolute value.
fn part(x: i128, k: u128) -> i64
    requires x { unsigned_abs x < 2 ^ 94 }
    requires some { 1 ≤ k }
    requires most { k < 2 ^ 126 }
    ensures value { result ≡ part x k }
    ensures small { unsigned_abs result ≤ 2 ^ 60 }
{
    within_60(quotient(x * i128::from(ONE), k as i128))
}

// A number cut to 2^60 in absolute value, so that a share and a Newton step have a sum in 64 bits.
fn within_60(x: i128) -> i64
    ensures value { result ≡ within 60 x }
    ensures small { unsigned_abs result ≤ 2 ^ 60 }
{
    let most = 1 << 60;
    x.clamp(-most, most) as i64
}
