//! The search for prices at which all assets are even.
ghost use Rattle.std.specs.Prelude.{◌≡◌, ℕ, ◌+◌, ◌^◌, ◌<◌, ◌≤◌, length, map, All, IfOk, List, ℤ, Bool, true};
ghost use Rattle.weight_rows.specs.Rows.{IsPrice, IsPricedBy};
ghost use Rattle.flow_orders.specs.Orders.{Order, terms_of};
ghost use Rattle.joint_prices.specs.OrderStates.{IsShare, IsNear, line as line_in};
ghost use Rattle.joint_rounds.specs.Steps.{order_states, moves, priced, shared, joint_prices_by, joint_prices_quickly, joint_prices_slowly};

use crate::elimination::Elimination;
use crate::moving::{move_all, share_all, state_all};
use crate::order_states::OrderState;
use crate::rounds::Rounds;
use flow_orders::Order;
use joint_prices::line_of;
use out_of_memory::Memory;
use std::alloc::{AllocError, Global};

/// A test of prices: whether all assets are even at them, and how much roundings leave open.
///
/// Its answers don't depend on what was asked before.
pub trait TestsEven {
    /// What is answered at each list of prices.
    ghost even: { Self → List ℤ → Bool };

    /// How much roundings of the orders' demands leave open of each asset at each list of prices, in parts of 1/256 of a unit.
    ghost open_parts: { Self → List ℤ → List ℕ };

    /// How many prices there are.
    ghost assets: { Self → ℕ };

    /// The orders of the assets.
    ghost orders: { Self → List Order };

    /// Whether all assets are even at the prices, in grains by the assets' numbers.
    fn are_even(&mut self, prices: &[i64]) -> bool
        requires count { length prices.now ≡ assets self.old }
        requires range { All IsPrice prices.now }
        ensures answer { result ≡ even self.old prices.now }
        ensures same { (p : List ℤ) → even self.new p ≡ even self.old p }
        ensures same_parts { (p : List ℤ) → open_parts self.new p ≡ open_parts self.old p }
        ensures assets { assets self.new ≡ assets self.old }
        ensures orders { orders self.new ≡ orders self.old };

    /// Writes how much roundings leave open of each asset at the prices, in parts of 1/256 of a unit: what is asked for of it at
    /// most, less what is asked for of it at least.
    fn open_parts(&mut self, prices: &[i64], into: &mut [u64])
        requires count { length prices.now ≡ assets self.old }
        requires range { All IsPrice prices.now }
        requires room { length into.old ≡ length prices.now }
        ensures parts { into.new ≡ open_parts self.old prices.now }
        ensures same { (p : List ℤ) → even self.new p ≡ even self.old p }
        ensures same_parts { (p : List ℤ) → open_parts self.new p ≡ open_parts self.old p }
        ensures assets { assets self.new ≡ assets self.old }
        ensures orders { orders self.new ≡ orders self.old };
}

// By how much each price moves, in money.
fn find_moves<T: TestsEven>(
    direct: bool,
    orders: &[Order],
    states: &[OrderState],
    prices: &[i64],
    test: &mut T,
    rounds: &mut Rounds,
    elimination: &mut Elimination,
    open_parts: &mut [u64],
    by: &mut [i64],
)
    requires count { length states.now ≡ length orders.now }
    requires few { length orders.now ≤ 2 ^ 17 }
    requires priced { All (λ o. IsPricedBy o.row prices.now) orders.now }
    requires range { All IsPrice prices.now }
    requires assets { length prices.now ≡ T.assets test.old }
    requires moves { length by.old ≡ length prices.now }
    requires small { All IsPrice by.old }
    requires parts { length open_parts.old ≡ length prices.now }
    requires rounds { rounds.old ≡ length prices.now }
    requires elimination { direct ≡ true → elimination.old ≡ length prices.now }
    ensures value { by.new ≡ moves direct (T.open_parts test.old) prices.now orders.now states.now }
    ensures small { All IsPrice by.new }
    ensures rounds { rounds.new ≡ rounds.old }
    ensures elimination { elimination.new ≡ elimination.old }
    ensures same { (p : List ℤ) → T.even test.new p ≡ T.even test.old p }
    ensures same_parts { (p : List ℤ) → T.open_parts test.new p ≡ T.open_parts test.old p }
    ensures assets { T.assets test.new ≡ T.assets test.old }
    ensures orders { T.orders test.new ≡ T.orders test.old }
{
    if direct {
        elimination.solve(orders, states, by);
    } else {
        test.open_parts(prices, open_parts);
        rounds.solve(orders, states, open_parts, by);
    }
}

// Makes a step, after the barrier's parameter was halved s times: the states of the orders, how much all prices move, and then the
// shares and the prices.
fn step<T: TestsEven>(
    s: u32,
    direct: bool,
    lines: &[u128],
    orders: &[Order],
    test: &mut T,
    states: &mut [OrderState],
    rounds: &mut Rounds,
    elimination: &mut Elimination,
    open_parts: &mut [u64],
    by: &mut [i64],
    shares: &mut [u32],
    prices: &mut [i64],
)
    requires s { s ≤ 2 ^ 10 }
    requires lines { lines.now ≡ map (λ o. line_in (terms_of o)) orders.now }
    requires few { length orders.now ≤ 2 ^ 17 }
    requires shares { All IsShare shares.old }
    requires count { length shares.old ≡ length orders.now }
    requires room { length states.old ≡ length orders.now }
    requires priced { All (λ o. IsPricedBy o.row prices.old) orders.now }
    requires range { All IsPrice prices.old }
    requires assets { length prices.old ≡ T.assets test.old }
    requires moves { length by.old ≡ length prices.old }
    requires small { All IsPrice by.old }
    requires parts { length open_parts.old ≡ length prices.old }
    requires rounds { rounds.old ≡ length prices.old }
    requires elimination { direct ≡ true → elimination.old ≡ length prices.old }
    ensures prices { prices.new ≡ priced s prices.old (moves direct (T.open_parts test.old) prices.old orders.now (order_states s prices.old orders.now shares.old)) }
    ensures shares { shares.new ≡ shared (moves direct (T.open_parts test.old) prices.old orders.now (order_states s prices.old orders.now shares.old)) orders.now (order_states s prices.old orders.now shares.old) }
    ensures range { All IsPrice prices.new }
    ensures each { All IsShare shares.new }
    ensures small { All IsPrice by.new }
    ensures rounds { rounds.new ≡ rounds.old }
    ensures elimination { elimination.new ≡ elimination.old }
    ensures same { (p : List ℤ) → T.even test.new p ≡ T.even test.old p }
    ensures same_parts { (p : List ℤ) → T.open_parts test.new p ≡ T.open_parts test.old p }
    ensures assets { T.assets test.new ≡ T.assets test.old }
    ensures orders { T.orders test.new ≡ T.orders test.old }
{
    state_all(s, lines, orders, shares, prices, states);
    find_moves(
        direct,
        orders,
        states,
        prices,
        test,
        rounds,
        elimination,
        open_parts,
        by,
    );
    share_all(orders, states, by, shares);
    move_all(s, by, prices);
}

// Makes steps until all assets are even, at most 100. The barrier's parameter is halved `fall` times in each.
fn search<T: TestsEven>(
    direct: bool,
    fall: u32,
    orders: &[Order],
    start: &[i64],
    lines: &[u128],
    test: &mut T,
    states: &mut [OrderState],
    rounds: &mut Rounds,
    elimination: &mut Elimination,
    open_parts: &mut [u64],
    by: &mut [i64],
    shares: &mut [u32],
    prices: &mut [i64],
)
    requires fall { fall ≤ 8 }
    requires lines { lines.now ≡ map (λ o. line_in (terms_of o)) orders.now }
    requires few { length orders.now ≤ 2 ^ 17 }
    requires shares { shares.old ≡ map (λ o. 2 ^ 31) orders.now }
    requires room { length states.old ≡ length orders.now }
    requires prices { prices.old ≡ start.now }
    requires priced { All (λ o. IsPricedBy o.row start.now) orders.now }
    requires range { All IsPrice start.now }
    requires count { length start.now ≡ T.assets test.old }
    requires moves { length by.old ≡ length start.now }
    requires small { All IsPrice by.old }
    requires parts { length open_parts.old ≡ length start.now }
    requires rounds { rounds.old ≡ length start.now }
    requires elimination { direct ≡ true → elimination.old ≡ length start.now }
    ensures found { prices.new ≡ joint_prices_by (T.even test.old) (T.open_parts test.old) direct fall orders.now start.now }
    ensures range { All IsPrice prices.new }
    ensures near { All IsNear start.now → All IsNear prices.new }
    ensures same { (p : List ℤ) → T.even test.new p ≡ T.even test.old p }
    ensures same_parts { (p : List ℤ) → T.open_parts test.new p ≡ T.open_parts test.old p }
    ensures assets { T.assets test.new ≡ T.assets test.old }
    ensures orders { T.orders test.new ≡ T.orders test.old }
{
    let mut s = 0;
    for _step in 0..100_u32 {
        if test.are_even(prices) {
            return;
        }
        step(
            s,
            direct,
            lines,
            orders,
            test,
            states,
            rounds,
            elimination,
            open_parts,
            by,
            shares,
            prices,
        );
        s += fall;
    }
}

// The line of each order, which no step changes.
fn lines_of(alloc: Global, orders: &[Order]) -> Result<Vec<u128>, AllocError>
    ensures { IfOk result (λ lines. lines.items ≡ map (λ o. line_in (terms_of o)) orders.now) }
{
    let mut lines = Vec::with_capacity(alloc, orders.len())?;
    for order in orders {
        lines.push(line_of(order.curve()))?;
    }
    Ok(lines)
}

// The shares before the first step: half of each batch maximum, where the barrier's forces cancel.
fn half_of(alloc: Global, orders: &[Order]) -> Result<Vec<u32>, AllocError>
    ensures { IfOk result (λ shares. shares.items ≡ map (λ o. 2 ^ 31) orders.now) }
{
    let mut shares = Vec::with_capacity(alloc, orders.len())?;
    for _order in orders {
        shares.push(1 << 31)?;
    }
    Ok(shares)
}

// The moves before the first step, all 0.
fn no_moves(alloc: Global, count: usize) -> Result<Vec<i64>, AllocError>
    ensures { IfOk result (λ by. (length by.items ≡ count) × All IsPrice by.items) }
{
    let mut by = Vec::with_capacity(alloc, count)?;
    for _a in 0..count {
        by.push(0)?;
    }
    Ok(by)
}

// The memory of the elimination, and none where steps go by rounds.
fn elimination_for(alloc: Global, direct: bool, count: usize) -> Result<Elimination, AllocError>
    requires { count ≤ 2 ^ 9 }
    ensures { IfOk result (λ e. direct ≡ true → e ≡ count) }
{
    Elimination::new(alloc, if direct { count } else { 0 })
}

/// Returns the joint prices of orders and start prices, in grains by the assets' numbers: those after the fewest steps, at most
/// 100, at which all assets are even by the test, and else those after 100 steps. They are within 2^62 grains of 0, as the
/// start prices are.
///
/// The barrier's parameter is halved `fall` times in each step, 0 to 8. Steps go by elimination (`direct`), or by rounds of
/// conjugate gradients, at most 100 in a step.
///
/// There are at most 2^17 orders and 512 assets, and each asset that an order names has a price. A step costs one test and
/// three passes over the legs of all orders. By rounds it costs a pass and a call of [`TestsEven::open_parts`] more, and two
/// passes for each round; by elimination one pass over every two legs of each order, and a sixth of the cube of the number
/// of assets. It allocates once, before the first step: 70 bytes for each order, 150 for each asset, and by elimination 24
/// for each two assets.
///
/// It fails only with `Memory`.
pub fn joint_prices_by<T: TestsEven>(
    alloc: Global,
    direct: bool,
    fall: u32,
    orders: &[Order],
    start: &[i64],
    test: &mut T,
) -> Result<Vec<i64>, Memory>
    requires fall { fall ≤ 8 }
    requires few { length orders.now ≤ 2 ^ 17 }
    requires assets { length start.now ≤ 2 ^ 9 }
    requires range { All IsPrice start.now }
    requires priced { All (λ o. IsPricedBy o.row start.now) orders.now }
    requires count { length start.now ≡ T.assets test.old }
    ensures found { IfOk result (λ prices. prices.items ≡ joint_prices_by (T.even test.old) (T.open_parts test.old) direct fall orders.now start.now) }
    ensures count { IfOk result (λ prices. length prices.items ≡ length start.now) }
    ensures range { IfOk result (λ prices. All IsPrice prices.items) }
    ensures near { All IsNear start.now → IfOk result (λ prices. All IsNear prices.items) }
    ensures same { (p : List ℤ) → T.even test.new p ≡ T.even test.old p }
    ensures same_parts { (p : List ℤ) → T.open_parts test.new p ≡ T.open_parts test.old p }
    ensures assets { T.assets test.new ≡ T.assets test.old }
    ensures orders { T.orders test.new ≡ T.orders test.old }
{
    let lines = lines_of(alloc, orders)?;
    let mut shares = half_of(alloc, orders)?;
    let mut states = vec![in alloc; OrderState::none(); orders.len()]?;
    let mut rounds = Rounds::new(alloc, start.len())?;
    let mut elimination = elimination_for(alloc, direct, start.len())?;
    let mut open_parts = vec![in alloc; 0; start.len()]?;
    let mut by = no_moves(alloc, start.len())?;
    let mut prices = Vec::from_slice(alloc, start)?;
    search(
        direct,
        fall,
        orders,
        start,
        &lines,
        test,
        &mut states,
        &mut rounds,
        &mut elimination,
        &mut open_parts,
        &mut by,
        &mut shares,
        &mut prices,
    );
    Ok(prices)
}

/// Returns the joint prices sought quickly: those of [`joint_prices_by`] with a barrier that falls to a quarter in each step, by
/// rounds, and up to 64 assets by elimination. So it costs what that does, and fails only with `Memory`.
pub fn joint_prices_quickly<T: TestsEven>(
    alloc: Global,
    orders: &[Order],
    start: &[i64],
    test: &mut T,
) -> Result<Vec<i64>, Memory>
    requires few { length orders.now ≤ 2 ^ 17 }
    requires assets { length start.now ≤ 2 ^ 9 }
    requires range { All IsPrice start.now }
    requires priced { All (λ o. IsPricedBy o.row start.now) orders.now }
    requires count { length start.now ≡ T.assets test.old }
    ensures found { IfOk result (λ prices. prices.items ≡ joint_prices_quickly (T.even test.old) (T.open_parts test.old) orders.now start.now) }
    ensures count { IfOk result (λ prices. length prices.items ≡ length start.now) }
    ensures range { IfOk result (λ prices. All IsPrice prices.items) }
    ensures near { All IsNear start.now → IfOk result (λ prices. All IsNear prices.items) }
    ensures same { (p : List ℤ) → T.even test.new p ≡ T.even test.old p }
    ensures same_parts { (p : List ℤ) → T.open_parts test.new p ≡ T.open_parts test.old p }
    ensures assets { T.assets test.new ≡ T.assets test.old }
    ensures orders { T.orders test.new ≡ T.orders test.old }
{
    joint_prices_by(alloc, start.len() <= 64, 2, orders, start, test)
}

/// Returns the joint prices sought slowly: those of [`joint_prices_by`] with a barrier that falls to a half in each step, by
/// elimination. Some sparse books of heavy or steep orders reach even prices in this way alone. It costs what that does, and fails
/// only with `Memory`.
pub fn joint_prices_slowly<T: TestsEven>(
    alloc: Global,
    orders: &[Order],
    start: &[i64],
    test: &mut T,
) -> Result<Vec<i64>, Memory>
    requires few { length orders.now ≤ 2 ^ 17 }
    requires assets { length start.now ≤ 2 ^ 9 }
    requires range { All IsPrice start.now }
    requires priced { All (λ o. IsPricedBy o.row start.now) orders.now }
    requires count { length start.now ≡ T.assets test.old }
    ensures found { IfOk result (λ prices. prices.items ≡ joint_prices_slowly (T.even test.old) (T.open_parts test.old) orders.now start.now) }
    ensures count { IfOk result (λ prices. length prices.items ≡ length start.now) }
    ensures range { IfOk result (λ prices. All IsPrice prices.items) }
    ensures near { All IsNear start.now → IfOk result (λ prices. All IsNear prices.items) }
    ensures same { (p : List ℤ) → T.even test.new p ≡ T.even test.old p }
    ensures same_parts { (p : List ℤ) → T.open_parts test.new p ≡ T.open_parts test.old p }
    ensures assets { T.assets test.new ≡ T.assets test.old }
    ensures orders { T.orders test.new ≡ T.orders test.old }
{
    joint_prices_by(alloc, true, 1, orders, start, test)
}
