ghost use Rattle.std.specs.Prelude.{◌≡◌, ◌<◌, ◌≤◌, ◌^◌, ◌*ℤ◌, ◌↔◌, length, slice_set, unsigned_abs, IsTrue, All};
ghost use Rattle.weight_rows.specs.Rows.{most_weight, IsWeightVector, IsPrice, IsPricedBy, price_of, weight_in, portfolio_price};

use crate::entries::{Entry, EntryList};
use std::marker::Model;

/// A weight vector: 1 to 16 legs with strictly ascending assets and absolute weights of 1 to 4,096.
#[derive(Drop)]
pub struct WeightRow {
    list: EntryList,
}

impl Model for WeightRow {
    ghost use Rattle.std.specs.Prelude.{List};
    ghost use Rattle.weight_rows.specs.declared.entries.Entry.{Entry};
    ghost use Rattle.weight_rows.specs.Rows.{IsWeightVector};

    ghost Value = { List Entry };

    ghost view = { λ row. row.list };

    ghost invariant = { λ row. IsWeightVector row.list };
}

impl WeightRow {
    /// Makes the weight vector of these legs, which have no fault. It keeps their memory.
    pub fn new(entries: EntryList) -> WeightRow
        requires { IsWeightVector entries }
        ensures { result ≡ entries }
    {
        WeightRow { list: entries }
    }

    /// Returns the legs, in ascending order of their assets.
    pub fn entries(&self) -> &[Entry]
        ensures value { result.now ≡ self.now }
        ensures lawful { IsWeightVector self.now }
    {
        self.list.as_slice()
    }

    /// Returns how many units of an asset one unit of the portfolio buys, 0 if the weight vector doesn't name it.
    /// It costs one pass over the legs.
    pub fn weight_of(&self, asset: u16) -> i64
        ensures value { result ≡ weight_in self.now asset }
        ensures bound { unsigned_abs result ≤ most_weight }
        ensures lawful { IsWeightVector self.now }
    {
        for entry in self.list.as_slice() {
            if entry.asset == asset {
                return i64::from(entry.weight);
            }
        }
        0
    }

    /// Returns whether the weight vector names one asset alone.
    pub fn is_single(&self) -> bool
        ensures value { IsTrue result ↔ (length self.now ≡ 1) }
        ensures lawful { IsWeightVector self.now }
    {
        self.list.as_slice().len() == 1
    }

    /// Returns the price of one unit of the portfolio, in grains: each weight times the price of its asset, summed over
    /// the legs. `prices` has one price per asset, in grains, by the asset's number.
    ///
    /// All orders trade at one price per asset (Budish, Cramton, Kyle, Lee and Malec, "Flow Trading", 2023).
    /// It costs one pass over the legs.
    pub fn price(&self, prices: &[i64]) -> i128
        requires priced { IsPricedBy self.now prices.now }
        requires range { All IsPrice prices.now }
        ensures value { result ≡ portfolio_price self.now prices.now }
        ensures bound { unsigned_abs result ≤ 2 ^ 78 }
        ensures lawful { IsWeightVector self.now }
    {
        let mut sum = 0;
        for entry in self.list.as_slice() {
            sum += entry_price(*entry, prices);
        }
        sum
    }

    /// Returns the price of one unit of the portfolio, in grains, with one asset's price changed: what
    /// [`WeightRow::price`] returns if `prices` has `price` at the asset's place.
    ///
    /// It costs one pass over the legs, and copies no list. If the price at `prices` is known already, this one
    /// differs from it as [`laws::price_follows_one_price`](crate::laws::price_follows_one_price) says.
    pub fn price_with(&self, prices: &[i64], asset: u16, price: i64) -> i128
        requires priced { IsPricedBy self.now prices.now }
        requires range { All IsPrice prices.now }
        requires asset { asset < length prices.now }
        requires price { IsPrice price }
        ensures value { result ≡ portfolio_price self.now (slice_set prices.now asset price) }
        ensures bound { unsigned_abs result ≤ 2 ^ 78 }
        ensures lawful { IsWeightVector self.now }
    {
        let mut sum = 0;
        for entry in self.list.as_slice() {
            sum += entry_price_with(*entry, prices, asset, price);
        }
        sum
    }
}

/// Returns what the units of one leg cost, in grains.
fn entry_price(entry: Entry, prices: &[i64]) -> i128
    requires { entry.asset < length prices.now }
    ensures { result ≡ entry.weight *ℤ price_of prices.now entry.asset }
{
    cost(entry.weight, prices[usize::from(entry.asset)])
}

/// Returns what the units of one leg cost, in grains, if one asset has this price instead of its own.
fn entry_price_with(entry: Entry, prices: &[i64], asset: u16, price: i64) -> i128
    requires priced { entry.asset < length prices.now }
    requires asset { asset < length prices.now }
    ensures { result ≡ entry.weight *ℤ price_of (slice_set prices.now asset price) entry.asset }
{
    if entry.asset == asset {
        cost(entry.weight, price)
    } else {
        entry_price(entry, prices)
    }
}

/// Returns what so many units cost at this price, in grains.
fn cost(weight: i32, price: i64) -> i128
    ensures { result ≡ weight *ℤ price }
{
    i128::from(weight) * i128::from(price)
}
