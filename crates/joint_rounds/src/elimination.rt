//! The system of a step, solved by elimination: for few assets, and where orders are too steep and too few for rounds.
ghost use Rattle.std.specs.Prelude.{◌≡◌, ℕ, ◌+◌, ◌*◌, ◌^◌, ◌<◌, ◌≤◌, pos, length, map, All, IfOk};
ghost use Rattle.std.specs.List.{range_with_len};
ghost use Rattle.weight_rows.specs.Rows.{IsPrice, IsPricedBy};
ghost use Rattle.flow_orders.specs.Orders.{IsOrder};
ghost use Rattle.joint_prices.specs.Solving.{IsTriangle};
ghost use Rattle.joint_prices.specs.Sums.{IsSquare, IsSquareAdded, AreSquareSmall};
ghost use Rattle.joint_rounds.specs.Elimination.{diagonal, no_grid, ArePaired, HasRoomFor, by_elimination};

use crate::order_states::OrderState;
use crate::sums::{fill, gather_aims};
use flow_orders::Order;
use joint_prices::{Number, Row, Sums, add_square, fill_all, solve, whole_all};
use std::alloc::{AllocError, Global};
use std::marker::Model;

// What the diagonal has besides the orders' slopes.
fn diagonal(asset: usize, other: usize) -> i128
    ensures { result ≡ diagonal asset other }
{
    if asset == other { 1 << 12 } else { 0 }
}

// Sets the sums of an asset to those of no orders.
fn reset_row(sums: &mut [i128], asset: usize)
    ensures { sums.new ≡ map (diagonal asset) (range_with_len 0 (length sums.old)) }
{
    for other in 0..sums.len() {
        sums[other] = diagonal(asset, other);
    }
}

// Sets the row of an asset to that of no orders.
fn reset(sums: &mut Sums, asset: usize)
    ensures { sums.new ≡ map (diagonal asset) (range_with_len 0 (length sums.old)) }
{
    reset_row(&mut sums.numbers, asset);
}

// The matrix of no orders.
fn reset_grid(grid: &mut [Sums])
    requires square { IsSquare (length grid.old) grid.old }
    ensures { grid.new ≡ no_grid (length grid.old) }
{
    for a in 0..grid.len() {
        reset(&mut grid[a], a);
    }
}

// Adds an order to the matrix: its slope times its weights.
fn add_pairs(order: &Order, state: OrderState, grid: &mut [Sums])
    requires places { All (λ e. e.asset < length grid.old) order.now.row }
    requires square { IsSquare (length grid.old) grid.old }
    requires small { AreSquareSmall (2 ^ 119) grid.old }
    ensures pairs { IsSquareAdded order.now.row (pos (state.slope * 2 ^ 12)) grid.old grid.new }
    ensures order { IsOrder order.now }
    ensures slope { state.slope ≤ 2 ^ 62 }
{
    add_square(order.row(), i128::from(state.slope()) * 4096, grid);
}

// Adds what each order contributes to the matrix.
fn gather_pairs(orders: &[Order], states: &[OrderState], grid: &mut [Sums])
    requires count { length states.now ≡ length orders.now }
    requires few { length orders.now ≤ 2 ^ 17 }
    requires places { All (λ o. All (λ e. e.asset < length grid.old) o.row) orders.now }
    requires square { IsSquare (length grid.old) grid.old }
    requires small { AreSquareSmall (2 ^ 20) grid.old }
    ensures { ArePaired orders.now states.now grid.old grid.new }
{
    for i in 0..orders.len() {
        add_pairs(&orders[i], states[i], grid);
    }
}

// By how much each price moves, in money, given the states of the orders. The memory is lent part by part, so that loops see
// plain slices.
fn solve_in(
    orders: &[Order],
    states: &[OrderState],
    grid: &mut [Sums],
    sides: &mut [i128],
    rows: &mut [Row],
    found: &mut [Number],
    by: &mut [i64],
)
    requires count { length states.now ≡ length orders.now }
    requires few { length orders.now ≤ 2 ^ 17 }
    requires places { All (λ o. IsPricedBy o.row by.old) orders.now }
    requires range { All IsPrice by.old }
    requires room { HasRoomFor (length by.old) grid.old sides.old rows.old found.old }
    ensures value { by.new ≡ by_elimination (length by.old) orders.now states.now }
    ensures range { All IsPrice by.new }
    ensures room { HasRoomFor (length by.old) grid.new sides.new rows.new found.new }
{
    reset_grid(grid);
    gather_pairs(orders, states, grid);
    fill(0, sides);
    gather_aims(orders, states, sides);
    fill_all(grid, sides, rows);
    solve(rows, found);
    whole_all(found, by);
}

/// The memory of the elimination of a search. All of it is allocated before the first step.
pub(crate) struct Elimination {
    grid: Vec<Sums>,
    sides: Vec<i128>,
    rows: Vec<Row>,
    found: Vec<Number>,
}

impl Drop for Elimination {
    // By hand, so that the end of a value is one call in the proofs of those who own it (docs/PROVING_TRAPS.md).
    fn drop(self) {
        let Elimination {
            grid: _,
            sides: _,
            rows: _,
            found: _,
        } = self;
    }
}

impl Model for Elimination {
    ghost use Rattle.std.specs.Prelude.{ℕ, length};
    ghost use Rattle.joint_rounds.specs.Elimination.{HasRoomFor};

    ghost Value = { ℕ };

    ghost view = { λ e. length e.sides.items };

    ghost invariant = { λ e. HasRoomFor (length e.sides.items) e.grid.items e.sides.items e.rows.items e.found.items };
}

impl Elimination {
    // The memory for so many assets.
    pub(crate) fn new(alloc: Global, count: usize) -> Result<Elimination, AllocError>
        requires { count ≤ 2 ^ 9 }
        ensures { IfOk result (λ e. e ≡ count) }
    {
        let grid = grid_of(alloc, count)?;
        let sides = vec![in alloc; 0; count]?;
        let rows = rows_of(alloc, count)?;
        let found = vec![in alloc; Number::zero(); count]?;
        Ok(Elimination {
            grid,
            sides,
            rows,
            found,
        })
    }

    /// Finds by how much each price moves, in money, given the states of the orders. It costs one pass over every two legs of
    /// each order, and a sixth of the cube of the number of assets.
    pub(crate) fn solve(&mut self, orders: &[Order], states: &[OrderState], by: &mut [i64])
        requires count { length states.now ≡ length orders.now }
        requires few { length orders.now ≤ 2 ^ 17 }
        requires places { All (λ o. IsPricedBy o.row by.old) orders.now }
        requires range { All IsPrice by.old }
        requires room { self.old ≡ length by.old }
        ensures value { by.new ≡ by_elimination (length by.old) orders.now states.now }
        ensures range { All IsPrice by.new }
        ensures room { self.new ≡ self.old }
    {
        solve_in(
            orders,
            states,
            &mut self.grid,
            &mut self.sides,
            &mut self.rows,
            &mut self.found,
            by,
        );
    }
}

// A matrix of zeros for so many assets.
fn grid_of(alloc: Global, count: usize) -> Result<Vec<Sums>, AllocError>
    ensures { IfOk result (λ grid. IsSquare count grid.items) }
{
    let mut grid = Vec::with_capacity(alloc, count)?;
    for _a in 0..count {
        grid.push(Sums::new(alloc, count)?)?;
    }
    Ok(grid)
}

// An upper triangle of zeros for so many assets, with its right sides.
fn rows_of(alloc: Global, count: usize) -> Result<Vec<Row>, AllocError>
    requires { count ≤ 2 ^ 9 }
    ensures { IfOk result (λ rows. IsTriangle rows.items × (length rows.items ≡ count)) }
{
    let mut rows = Vec::with_capacity(alloc, count)?;
    for a in 0..count {
        rows.push(Row::new(alloc, count + 1 - a)?)?;
    }
    Ok(rows)
}
