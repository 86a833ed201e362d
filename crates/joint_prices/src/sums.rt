//! Sums over the orders for each asset, and for every two assets: the right side and the matrix of the system.
ghost use Rattle.std.specs.Prelude.{◌≡◌, ℕ, ◌+◌, ◌*◌, ◌^◌, ◌<◌, ◌≤◌, ℤ, pos, ◌+ℤ◌, ◌*ℤ◌, unsigned_abs, length, map, slice_set, All, IfOk};
ghost use Rattle.std.specs.List.{range_with_len};
ghost use Rattle.weight_rows.specs.Rows.{most_weight, IsWeightVector, IsPricedBy, price_of};
ghost use Rattle.joint_prices.specs.Steps.{diagonal};
ghost use Rattle.joint_prices.specs.Sums.{IsRowAdded, AreSmall, IsSquare, IsSquareAdded, AreSquareSmall, sums_of};

use std::alloc::{AllocError, Global};
use std::marker::Model;
use weight_rows::{Entry, WeightRow};

/// A row of the matrix: the sums of an asset with each asset.
#[derive(Drop)]
pub struct Sums {
    /// The sums, by the assets' numbers.
    pub numbers: Vec<i128>,
}

impl Model for Sums {
    ghost use Rattle.std.specs.Prelude.{List, ℤ};

    ghost Value = { List ℤ };

    ghost view = { λ s. s.numbers.items };
}

impl Sums {
    /// A row of so many zeros.
    pub fn new(alloc: Global, count: usize) -> Result<Sums, AllocError>
        ensures { IfOk result (λ s. length s ≡ count) }
    {
        let numbers = vec![in alloc; 0; count]?;
        Ok(Sums { numbers })
    }

    // How many sums there are.
    pub(crate) fn len(&self) -> usize
        ensures { result ≡ length self.now }
    {
        self.numbers.len()
    }

    // The sum with an asset.
    pub(crate) fn at(&self, asset: usize) -> i128
        requires { asset < length self.now }
        ensures { result ≡ price_of self.now asset }
    {
        self.numbers[asset]
    }

    // Sets the sums of an asset to those of no orders.
    pub(crate) fn reset(&mut self, asset: usize)
        ensures { self.new ≡ map (diagonal asset) (range_with_len 0 (length self.old)) }
    {
        reset_row(&mut self.numbers, asset);
    }

    // Adds a weight vector times a factor.
    fn add(&mut self, row: &WeightRow, factor: i128)
        requires places { IsPricedBy row.now self.old }
        requires factor { unsigned_abs factor ≤ 2 ^ 86 }
        requires small { AreSmall (2 ^ 120) self.old }
        ensures { IsRowAdded row.now factor self.old self.new }
    {
        add_row(row, factor, &mut self.numbers);
    }
}

// Sets the sums of an asset to those of no orders: the regularization of the diagonal.
fn reset_row(sums: &mut [i128], asset: usize)
    ensures { sums.new ≡ map (diagonal asset) (range_with_len 0 (length sums.old)) }
{
    for other in 0..sums.len() {
        sums[other] = diagonal(asset, other);
    }
}

// The regularization: a little on the diagonal, which makes the matrix positive definite even where no order trades an asset.
fn diagonal(asset: usize, other: usize) -> i128
    ensures { result ≡ diagonal asset other }
{
    if asset == other { 1 << 20 } else { 0 }
}

// Adds a weight vector times a factor, leg by leg.
pub(crate) fn add_row(row: &WeightRow, factor: i128, sums: &mut [i128])
    requires places { IsPricedBy row.now sums.old }
    requires factor { unsigned_abs factor ≤ 2 ^ 86 }
    requires small { AreSmall (2 ^ 120) sums.old }
    ensures { IsRowAdded row.now factor sums.old sums.new }
{
    for entry in row.entries() {
        add_entry(entry, factor, sums);
    }
}

// Adds a leg's weight times a factor to the sum of its asset.
fn add_entry(entry: &Entry, factor: i128, sums: &mut [i128])
    requires place { entry.now.asset < length sums.old }
    requires weight { unsigned_abs entry.now.weight ≤ most_weight }
    requires factor { unsigned_abs factor ≤ 2 ^ 86 }
    requires small { unsigned_abs (price_of sums.old entry.now.asset) ≤ 2 ^ 121 }
    ensures { sums.new ≡ slice_set sums.old entry.now.asset (price_of sums.old entry.now.asset +ℤ entry.now.weight *ℤ factor) }
{
    let asset = usize::from(entry.asset);
    let sum = sum(sums[asset], weighed(entry.weight, factor));
    sums[asset] = sum;
}

// A sum that grows by a weighed factor, within the widths.
fn sum(x: i128, y: i128) -> i128
    requires x { unsigned_abs x ≤ 2 ^ 121 }
    requires y { unsigned_abs y ≤ 2 ^ 98 }
    ensures value { result ≡ x +ℤ y }
{
    x + y
}

// A factor times a weight, with its range as a clause.
fn weighed(weight: i32, factor: i128) -> i128
    requires weight { unsigned_abs weight ≤ most_weight }
    requires factor { unsigned_abs factor ≤ 2 ^ 86 }
    ensures value { result ≡ weight *ℤ factor }
    ensures small { unsigned_abs result ≤ unsigned_abs factor * 2 ^ 12 }
{
    i128::from(weight) * factor
}

/// Adds the outer product of a weight vector with itself, times a factor, to a square matrix. It costs one pass over every two legs.
pub fn add_square(row: &WeightRow, factor: i128, grid: &mut [Sums])
    requires places { All (λ e. e.asset < length grid.old) row.now }
    requires square { IsSquare (length grid.old) grid.old }
    requires factor { unsigned_abs factor ≤ 2 ^ 74 }
    requires small { AreSquareSmall (2 ^ 119) grid.old }
    ensures { IsSquareAdded row.now factor grid.old grid.new }
{
    for entry in row.entries() {
        add_with(entry, row, factor, grid);
    }
}

// Adds a weight vector times a leg's weight and a factor to the row of the leg's asset.
fn add_with(entry: &Entry, row: &WeightRow, factor: i128, grid: &mut [Sums])
    requires place { entry.now.asset < length grid.old }
    requires weight { unsigned_abs entry.now.weight ≤ most_weight }
    requires places { IsPricedBy row.now (sums_of grid.old entry.now.asset) }
    requires factor { unsigned_abs factor ≤ 2 ^ 74 }
    requires small { AreSmall (2 ^ 120) (sums_of grid.old entry.now.asset) }
    ensures added { IsRowAdded row.now (entry.now.weight *ℤ factor) (sums_of grid.old entry.now.asset) (sums_of grid.new entry.now.asset) }
    ensures others { grid.new ≡ slice_set grid.old entry.now.asset (sums_of grid.new entry.now.asset) }
{
    let asset = usize::from(entry.asset);
    let part = weighed(entry.weight, factor);
    grid[asset].add(row, part);
}
