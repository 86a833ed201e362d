//! The solution of a symmetric linear system by Gaussian elimination of its upper triangle, in place and without pivoting.
ghost use Rattle.std.specs.Prelude.{◌≡◌, ℕ, ◌+◌, ◌<◌, ◌≤◌, ◌^◌, [], ◌++◌, length, map, take, drop, slice_index_or, unsigned_abs, All, IfOk};
ghost use Rattle.weight_rows.specs.Rows.{IsPrice};
ghost use Rattle.joint_prices.specs.Numbers.{whole};
ghost use Rattle.joint_prices.specs.Sums.{AreSmall, AreSquareSmall, IsSquare, row_from, rows_from};
ghost use Rattle.joint_prices.specs.Solving.{at, reduced, lessened, below, less, joined, solved, finished, IsTriangle};

use crate::numbers::{Number, cut, minus, over, times, whole};
use crate::sums::Sums;
use std::alloc::{AllocError, Global};
use std::marker::Model;

/// A row of the upper triangle: its diagonal, the coefficients after that, and its right side.
#[derive(Drop)]
pub struct Row {
    numbers: Vec<Number>,
}

impl Model for Row {
    ghost use Rattle.std.specs.Prelude.{List};
    ghost use Rattle.joint_prices.specs.Numbers.{Num};

    ghost Value = { List Num };

    ghost view = { λ row. row.numbers.items };
}

impl Row {
    /// A row of so many zeros.
    pub fn new(alloc: Global, count: usize) -> Result<Row, AllocError>
        ensures { IfOk result (λ r. length r ≡ count) }
    {
        let numbers = vec![in alloc; Number::zero(); count]?;
        Ok(Row { numbers })
    }

    // Takes over the sums of an asset, from its diagonal on, and its right side.
    pub(crate) fn fill(&mut self, asset: usize, sums: &Sums, side: i128)
        requires asset { asset < length sums.now }
        requires room { length self.old + asset ≡ length sums.now + 1 }
        requires small { AreSmall (2 ^ 120) sums.now }
        requires side { unsigned_abs side ≤ 2 ^ 120 }
        ensures { self.new ≡ row_from sums.now side asset }
    {
        fill_row(&mut self.numbers, asset, sums, side);
    }

    // How many numbers it has, the right side too.
    fn len(&self) -> usize
        ensures { result ≡ length self.now }
    {
        self.numbers.len()
    }

    // The number at a place.
    fn at(&self, k: usize) -> Number
        requires { k < length self.now }
        ensures { result ≡ at self.now k }
    {
        self.numbers[k]
    }

    // Subtracts f times another row, from a place on.
    fn reduce(&mut self, f: Number, other: &Row, from: usize)
        requires { length self.old + from ≡ length other.now }
        ensures { self.new ≡ reduced f (drop from other.now) self.old }
    {
        for i in 0..other.len() - from {
            self.numbers[i] = minus(self.numbers[i], times(f, other.at(from + i)));
        }
    }

    // Eliminates the unknown of the row `top` from this row, whose diagonal is at a place of that one. By symmetry the
    // coefficient to eliminate is the one at that place of `top`.
    fn lower(&mut self, top: &Row, place: usize)
        requires place { place < length top.now }
        requires length { length self.old + place ≡ length top.now }
        ensures { self.new ≡ lessened (at top.now 0) (drop place top.now) self.old }
    {
        let part = top.at(place);
        if part.is_zero() {
            return;
        }
        self.reduce(over(part, top.at(0)), top, place);
    }

    // The unknown of this row, given those after it, which are in `found` from a place on: one step of back substitution.
    fn unknown(&self, found: &[Number], from: usize) -> Number
        requires count { length self.now + from ≡ length found.now + 2 }
        requires from { from ≤ length found.now }
        ensures { result ≡ at (joined self.now (drop from found.now)) 0 }
    {
        let count = found.len() - from;
        let mut rest = self.at(count + 1);
        for i in 0..count {
            rest = minus(rest, times(self.at(i + 1), found[from + i]));
        }
        over(rest, self.at(0))
    }
}

// A row of the sums of an asset and its right side. The sums count 1/2^82 of a unit for each grain, and the side counts
// 1/2^32 of a unit, so the side is scaled by 2^50.
fn fill_row(numbers: &mut [Number], asset: usize, sums: &Sums, side: i128)
    requires asset { asset < length sums.now }
    requires room { length numbers.old + asset ≡ length sums.now + 1 }
    requires small { AreSmall (2 ^ 120) sums.now }
    requires side { unsigned_abs side ≤ 2 ^ 120 }
    ensures { numbers.new ≡ row_from sums.now side asset }
{
    let count = sums.len() - asset;
    for k in 0..count {
        numbers[k] = cut(sums.at(asset + k), 0);
    }
    numbers[count] = cut(side, 50);
}

/// Makes the upper triangle of a system of all sums and right sides, which are scaled by 2^50 for it.
pub fn fill_all(grid: &[Sums], sides: &[i128], rows: &mut [Row])
    requires triangle { IsTriangle rows.old }
    requires count { length rows.old ≡ length sides.now }
    requires square { IsSquare (length sides.now) grid.now }
    requires small { AreSquareSmall (2 ^ 120) grid.now }
    requires small_sides { AreSmall (2 ^ 120) sides.now }
    ensures value { rows.new ≡ rows_from grid.now sides.now }
    ensures triangle { IsTriangle rows.new }
    ensures rows { length rows.new ≡ length sides.now }
{
    for a in 0..rows.len() {
        let side = sides[a];
        rows[a].fill(a, &grid[a], side);
    }
}

/// The numbers rounded towards 0 to whole ones, each cut to 2^62 in absolute value.
pub fn whole_all(found: &[Number], by: &mut [i64])
    requires count { length by.old ≡ length found.now }
    requires range { All IsPrice by.old }
    ensures value { by.new ≡ map whole found.now }
    ensures range { All IsPrice by.new }
{
    for a in 0..found.len() {
        let amount = whole(found[a]);
        by[a] = amount;
    }
}

// Eliminates the unknown of a row from the rows below it.
fn lower(top: &Row, rows: &mut [Row])
    requires top { length top.now ≡ length rows.old + 2 }
    requires triangle { IsTriangle rows.old }
    ensures { rows.new ≡ below (at top.now 0) (drop 1 top.now) rows.old }
{
    for j in 0..rows.len() {
        rows[j].lower(top, j + 1);
    }
}

// Eliminates the unknown of each row from the rows below it, the first row first.
fn eliminate(rows: &mut [Row])
    requires triangle { IsTriangle rows.old }
    ensures value { solved rows.old ≡ finished rows.new [] }
    ensures triangle { IsTriangle rows.new }
    ensures count { length rows.new ≡ length rows.old }
{
    for k in 0..rows.len() {
        let (above, under) = rows.split_at_mut(k + 1);
        lower(&above[k], under);
    }
}

// Back substitution: the unknowns of rows from which those before them are eliminated, the last row first.
fn resolve(rows: &[Row], found: &mut [Number])
    requires triangle { IsTriangle rows.now }
    requires count { length found.old ≡ length rows.now }
    ensures value { found.new ≡ finished rows.now [] }
{
    let count = rows.len();
    for i in 0..count {
        let k = count - 1 - i;
        let unknown = rows[k].unknown(found, k + 1);
        found[k] = unknown;
    }
}

/// Solves a symmetric linear system: its unknowns, one a row, into `found`. Row k has n + 1 - k numbers: its diagonal, the
/// coefficients after that, and its right side. The rows are overwritten.
///
/// It costs about a sixth of the cube of their number in products, and allocates nothing.
pub fn solve(rows: &mut [Row], found: &mut [Number])
    requires triangle { IsTriangle rows.old }
    requires count { length found.old ≡ length rows.old }
    ensures value { found.new ≡ solved rows.old }
    ensures stays { IsTriangle rows.new }
    ensures rows { length rows.new ≡ length rows.old }
{
    eliminate(rows);
    resolve(rows, found);
}
