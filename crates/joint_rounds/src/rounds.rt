//! The system of a step, solved by rounds of conjugate gradients over the orders.
ghost use Rattle.std.specs.Prelude.{◌≡◌, ℕ, ◌^◌, ◌<◌, ◌≤◌, pos, length, map, All, IfOk};
ghost use Rattle.std.specs.List.{range_with_len};
ghost use Rattle.weight_rows.specs.Rows.{IsPrice, IsPricedBy, price_of};
ghost use Rattle.flow_orders.specs.Residuals.{HasEach};
ghost use Rattle.joint_prices.specs.Numbers.{zero_num, scaled};
ghost use Rattle.joint_prices.specs.Sums.{AreSmall};
ghost use Rattle.joint_prices.specs.Numbers.{over as quotient_of, minus as difference};
ghost use Rattle.joint_prices.specs.Solving.{reduced};
ghost use Rattle.joint_prices.specs.Steps.{zip_with};
ghost use Rattle.joint_rounds.specs.Rounds.{excess, size, flows, stride, left_after, turned, rounds, by_rounds};
ghost use Rattle.joint_rounds.specs.Sums.{IsFlat, HasRoom};

use crate::order_states::OrderState;
use crate::sums::{fill, gather_aims, gather_flows, gather_sizes};
use crate::vectors::{copy, cut_all, divide, dot, flatten, is_little, reduce};
use flow_orders::Order;
use joint_prices::{Number, minus, over, scale, whole_all};
use std::alloc::{AllocError, Global};
use std::marker::Model;

// The excess of each asset, in units.
fn excesses(orders: &[Order], states: &[OrderState], sums: &mut [i128], into: &mut [Number])
    requires count { length states.now ≡ length orders.now }
    requires few { length orders.now ≤ 2 ^ 17 }
    requires places { All (λ o. IsPricedBy o.row sums.old) orders.now }
    requires room { length into.old ≡ length sums.old }
    ensures { into.new ≡ map (excess orders.now states.now) (range_with_len 0 (length sums.old)) }
{
    fill(0, sums);
    gather_aims(orders, states, sums);
    cut_all(sums, -32, into);
}

// The size of each asset.
fn sizes_of(orders: &[Order], states: &[OrderState], sums: &mut [i128], into: &mut [Number])
    requires count { length states.now ≡ length orders.now }
    requires few { length orders.now ≤ 2 ^ 17 }
    requires places { All (λ o. IsPricedBy o.row sums.old) orders.now }
    requires room { length into.old ≡ length sums.old }
    ensures { into.new ≡ map (size orders.now states.now) (range_with_len 0 (length sums.old)) }
{
    fill(1, sums);
    gather_sizes(orders, states, sums);
    cut_all(sums, -70, into);
}

// The flows of no orders: those by the 1 of each size.
fn begin_flows(flat: &[i64], sums: &mut [i128])
    requires count { length sums.old ≡ length flat.now }
    requires flat { All IsFlat flat.now }
    ensures sums { HasEach (length flat.now) (λ a. scaled (price_of flat.now a) (pos 28)) sums.new }
    ensures small { AreSmall (2 ^ 20) sums.new }
{
    for a in 0..sums.len() {
        let number = begin_flow(flat[a]);
        sums[a] = number;
    }
}

// The flow of an asset by the 1 of its size.
fn begin_flow(c: i64) -> i128
    requires { IsFlat c }
    ensures { result ≡ scaled c (pos 28) }
{
    scale(i128::from(c), 28)
}

// How much less of each asset is asked for as prices move by a direction. It costs two passes over the legs of all orders.
fn flows(
    orders: &[Order],
    states: &[OrderState],
    direction: &[Number],
    flat: &mut [i64],
    sums: &mut [i128],
    into: &mut [Number],
)
    requires count { length states.now ≡ length orders.now }
    requires few { length orders.now ≤ 2 ^ 17 }
    requires places { All (λ o. IsPricedBy o.row sums.old) orders.now }
    requires room { length into.old ≡ length direction.now }
    requires sums { length sums.old ≡ length direction.now }
    requires flats { length flat.old ≡ length direction.now }
    requires flat { All IsFlat flat.old }
    ensures value { into.new ≡ flows orders.now states.now direction.now }
    ensures flat { All IsFlat flat.new }
{
    let top = flatten(direction, flat);
    begin_flows(flat, sums);
    gather_flows(orders, states, flat, sums);
    cut_all(sums, top - 26, into);
}

// A round: prices move along the direction to where least is left, and then the direction turns. It costs two passes over the
// legs of all orders.
fn round(
    orders: &[Order],
    states: &[OrderState],
    sizes: &[Number],
    moves: &mut [Number],
    direction: &mut [Number],
    left: &mut [Number],
    flow: &mut [Number],
    turn: &mut [Number],
    flat: &mut [i64],
    sums: &mut [i128],
)
    requires count { length states.now ≡ length orders.now }
    requires few { length orders.now ≤ 2 ^ 17 }
    requires places { All (λ o. IsPricedBy o.row sums.old) orders.now }
    requires sizes { length sizes.now ≡ length sums.old }
    requires moves { length moves.old ≡ length sums.old }
    requires direction { length direction.old ≡ length sums.old }
    requires left { length left.old ≡ length sums.old }
    requires flow { length flow.old ≡ length sums.old }
    requires turn { length turn.old ≡ length sums.old }
    requires flats { length flat.old ≡ length sums.old }
    requires flat { All IsFlat flat.old }
    ensures moves { moves.new ≡ reduced (difference zero_num (stride orders.now states.now direction.old left.old)) direction.old moves.old }
    ensures left { left.new ≡ left_after orders.now states.now direction.old left.old }
    ensures direction { direction.new ≡ turned orders.now states.now direction.old (zip_with quotient_of left.new sizes.now) }
    ensures flat { All IsFlat flat.new }
{
    flows(orders, states, direction, flat, sums, flow);
    let bent = dot(direction, flow);
    let stride = over(dot(direction, left), bent);
    reduce(minus(Number::zero(), stride), direction, moves);
    reduce(stride, flow, left);
    divide(left, sizes, turn);
    reduce(over(dot(turn, flow), bent), direction, turn);
    copy(turn, direction);
}

// At most 100 rounds, from moves, a direction and what is left.
fn make_rounds(
    orders: &[Order],
    states: &[OrderState],
    open_parts: &[u64],
    sizes: &[Number],
    moves: &mut [Number],
    direction: &mut [Number],
    left: &mut [Number],
    flow: &mut [Number],
    turn: &mut [Number],
    flat: &mut [i64],
    sums: &mut [i128],
)
    requires count { length states.now ≡ length orders.now }
    requires few { length orders.now ≤ 2 ^ 17 }
    requires places { All (λ o. IsPricedBy o.row sums.old) orders.now }
    requires open_parts { length open_parts.now ≡ length sums.old }
    requires sizes { length sizes.now ≡ length sums.old }
    requires moves { length moves.old ≡ length sums.old }
    requires direction { length direction.old ≡ length sums.old }
    requires left { length left.old ≡ length sums.old }
    requires flow { length flow.old ≡ length sums.old }
    requires turn { length turn.old ≡ length sums.old }
    requires flats { length flat.old ≡ length sums.old }
    requires flat { All IsFlat flat.old }
    ensures value { moves.new ≡ rounds 100 orders.now states.now open_parts.now sizes.now moves.old direction.old left.old }
    ensures flat { All IsFlat flat.new }
{
    for _round in 0..100_u32 {
        if is_little(left, open_parts) {
            return;
        }
        round(
            orders, states, sizes, moves, direction, left, flow, turn, flat, sums,
        );
    }
}

// Sets each number to zero.
fn clear(numbers: &mut [Number])
    ensures { numbers.new ≡ map (λ a. zero_num) numbers.old }
{
    for a in 0..numbers.len() {
        numbers[a] = Number::zero();
    }
}

// By how much each price moves, in money, given the states of the orders and what roundings leave open of each asset. The
// memory is lent part by part, so that loops see plain slices.
fn solve_in(
    orders: &[Order],
    states: &[OrderState],
    open_parts: &[u64],
    sizes: &mut [Number],
    moves: &mut [Number],
    direction: &mut [Number],
    left: &mut [Number],
    flow: &mut [Number],
    turn: &mut [Number],
    flat: &mut [i64],
    sums: &mut [i128],
    by: &mut [i64],
)
    requires count { length states.now ≡ length orders.now }
    requires few { length orders.now ≤ 2 ^ 17 }
    requires places { All (λ o. IsPricedBy o.row by.old) orders.now }
    requires open_parts { length open_parts.now ≡ length by.old }
    requires range { All IsPrice by.old }
    requires room { HasRoom (length by.old) sizes.old moves.old direction.old left.old flow.old turn.old flat.old sums.old }
    ensures value { by.new ≡ by_rounds (length by.old) open_parts.now orders.now states.now }
    ensures range { All IsPrice by.new }
    ensures room { HasRoom (length by.old) sizes.new moves.new direction.new left.new flow.new turn.new flat.new sums.new }
{
    excesses(orders, states, sums, left);
    sizes_of(orders, states, sums, sizes);
    clear(moves);
    divide(left, sizes, direction);
    make_rounds(
        orders, states, open_parts, sizes, moves, direction, left, flow, turn, flat, sums,
    );
    whole_all(moves, by);
}

/// The memory of the rounds of a search. All of it is allocated before the first step.
pub(crate) struct Rounds {
    sizes: Vec<Number>,
    moves: Vec<Number>,
    direction: Vec<Number>,
    left: Vec<Number>,
    flow: Vec<Number>,
    turn: Vec<Number>,
    flat: Vec<i64>,
    sums: Vec<i128>,
}

impl Drop for Rounds {
    // By hand, so that the end of a value is one call in the proofs of those who own it (docs/PROVING_TRAPS.md).
    fn drop(self) {
        let Rounds {
            sizes: _,
            moves: _,
            direction: _,
            left: _,
            flow: _,
            turn: _,
            flat: _,
            sums: _,
        } = self;
    }
}

impl Model for Rounds {
    ghost use Rattle.std.specs.Prelude.{ℕ, length};
    ghost use Rattle.joint_rounds.specs.Sums.{HasRoom};

    ghost Value = { ℕ };

    ghost view = { λ r. length r.sums.items };

    ghost invariant = { λ r. HasRoom (length r.sums.items) r.sizes.items r.moves.items r.direction.items r.left.items r.flow.items r.turn.items r.flat.items r.sums.items };
}

impl Rounds {
    // The memory for so many assets.
    pub(crate) fn new(alloc: Global, count: usize) -> Result<Rounds, AllocError>
        ensures { IfOk result (λ r. r ≡ count) }
    {
        let sizes = vec![in alloc; Number::zero(); count]?;
        let moves = vec![in alloc; Number::zero(); count]?;
        let direction = vec![in alloc; Number::zero(); count]?;
        let left = vec![in alloc; Number::zero(); count]?;
        let flow = vec![in alloc; Number::zero(); count]?;
        let turn = vec![in alloc; Number::zero(); count]?;
        let flat = flat_zeros(alloc, count)?;
        let sums = vec![in alloc; 0; count]?;
        Ok(Rounds {
            sizes,
            moves,
            direction,
            left,
            flow,
            turn,
            flat,
            sums,
        })
    }

    /// Finds by how much each price moves, in money, given the states of the orders and what roundings leave open of each
    /// asset, in parts of 1/256 of a unit. A round costs two passes over the legs of all orders.
    pub(crate) fn solve(
        &mut self,
        orders: &[Order],
        states: &[OrderState],
        open_parts: &[u64],
        by: &mut [i64],
    )
        requires count { length states.now ≡ length orders.now }
        requires few { length orders.now ≤ 2 ^ 17 }
        requires places { All (λ o. IsPricedBy o.row by.old) orders.now }
        requires open_parts { length open_parts.now ≡ length by.old }
        requires range { All IsPrice by.old }
        requires room { self.old ≡ length by.old }
        ensures value { by.new ≡ by_rounds (length by.old) open_parts.now orders.now states.now }
        ensures range { All IsPrice by.new }
        ensures room { self.new ≡ self.old }
    {
        solve_in(
            orders,
            states,
            open_parts,
            &mut self.sizes,
            &mut self.moves,
            &mut self.direction,
            &mut self.left,
            &mut self.flow,
            &mut self.turn,
            &mut self.flat,
            &mut self.sums,
            by,
        );
    }
}

// A flat direction of zeros.
fn flat_zeros(alloc: Global, count: usize) -> Result<Vec<i64>, AllocError>
    ensures { IfOk result (λ flat. (length flat.items ≡ count) × All IsFlat flat.items) }
{
    let mut flat = Vec::with_capacity(alloc, count)?;
    for _a in 0..count {
        flat.push(0)?;
    }
    Ok(flat)
}
