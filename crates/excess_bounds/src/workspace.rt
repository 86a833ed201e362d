//! The orders of a batch, and the prices of its search.
ghost use Rattle.std.specs.Prelude.{◌≡◌, ◌*◌, ◌^◌, ◌<◌, ◌≤◌, ◌≤ℤ◌, ◌+ℤ◌, ◌-ℤ◌, ◌↔◌, pos, neg_ℤ, true, false, length, slice_set, unsigned_abs, map, All, IsTrue, IfOk, IfSome, IfNone};
ghost use Rattle.std.specs.List.{range_with_len};
ghost use Rattle.weight_rows.specs.Rows.{IsPrice, IsPricedBy, price_of};
ghost use Rattle.flow_orders.specs.Orders.{IsOrder, most_orders};
ghost use Rattle.flow_orders.specs.Excess.{low_excess_in, high_excess_in, spread, steepness, is_unsettled};
ghost use Rattle.flow_orders.specs.WholeUnits.{low_excess, high_excess};
ghost use Rattle.flow_orders.specs.Residuals.{most_prices};
ghost use Rattle.excess_bounds.specs.Ends.{IsEnd};
ghost use Rattle.excess_bounds.specs.Columns.{column_of};
ghost use Rattle.excess_bounds.specs.Directions.{IsTowards, asked_towards, price_towards};
ghost use Rattle.excess_bounds.specs.Private.{IsColumn};

use crate::columns::{Cell, Column, columns_of};
use crate::directions::Direction;
use crate::narrowing::narrow;
use crate::parts::{Excess, excess_after, excess_of};
use crate::quotes::{Quote, quotes_of, requote};
use crate::steps::Step;
use flow_orders::Order;
use out_of_memory::Memory;
use std::alloc::Global;
use std::marker::Model;

/// The orders of a batch, at most 16,384, and one price for each asset, in grains, within 2^62 of 0. Each asset that an
/// order names has a price, and there are at most 64.
///
/// Contracts see both lists.
pub struct Workspace<'a> {
    orders: &'a [Order],
    prices: Vec<i64>,
    // Each order at the prices, in order.
    quotes: Vec<Quote>,
    // The column of each asset.
    columns: Vec<Column>,
    // Room for the steps of a column.
    steps: Vec<Step>,
}

impl Drop for Workspace<'_> {
    // By hand, so that the end of a value is one call in the proofs of those who own it (docs/PROVING_TRAPS.md).
    fn drop(self) {
        let Workspace {
            orders: _,
            prices: _,
            quotes: _,
            columns: _,
            steps: _,
        } = self;
    }
}

/// Prices, in grains by the assets' numbers, and each order of a batch at them.
#[derive(Drop)]
pub struct Quoted {
    /// The prices.
    pub prices: Vec<i64>,
    /// The orders at the prices, in their order.
    pub quotes: Vec<Quote>,
}

impl<'a> Model for Workspace<'a> {
    ghost use Rattle.std.specs.Prelude.{◌≤◌, length, vec_capacity};
    ghost use Rattle.excess_bounds.specs.Workspace.{Workspace as workspace_value};
    ghost use Rattle.excess_bounds.specs.Private.{IsKept};

    ghost Value = { workspace_value };

    ghost view = { λ w. record { orders = w.orders.now; prices = w.prices.items } };

    ghost invariant = { λ w. IsKept w.orders.now w.prices.items w.quotes.items w.columns.items
        × (length w.orders.now ≤ vec_capacity w.steps) };
}

impl<'a> Workspace<'a> {
    ghost use Rattle.excess_bounds.specs.Workspace.{ArePriced, AreQuoted};
    ghost use Rattle.excess_bounds.specs.Quotes.{quotes_at};

    /// Returns the state at the start of a search, with a copy of the prices, in grains by the assets' numbers. It costs one
    /// pass over the legs of all orders. It fails with `Memory` if there is none for prices, orders, columns or
    /// steps.
    pub fn new(alloc: Global, orders: &'a [Order], prices: &[i64]) -> Result<Workspace<'a>, Memory>
        requires few { length orders.now ≤ most_orders }
        requires assets { length prices.now ≤ most_prices }
        requires range { All IsPrice prices.now }
        requires priced { All (λ o. IsPricedBy o.row prices.now) orders.now }
        ensures orders { IfOk result (λ w. w.orders ≡ orders.now) }
        ensures prices { IfOk result (λ w. w.prices ≡ prices.now) }
    {
        let quotes = quotes_of(alloc, orders, prices)?;
        let columns = columns_of(alloc, orders, prices)?;
        let prices = Vec::from_slice(alloc, prices)?;
        let steps = Vec::with_capacity(alloc, orders.len())?;
        Ok(Workspace {
            orders,
            prices,
            quotes,
            columns,
            steps,
        })
    }

    /// Returns the column of an asset: the places of the orders that name it, ascending, with its weight in each. Constant
    /// time.
    pub fn column(&self, asset: u16) -> &[Cell]
        requires { asset < length self.now.prices }
        ensures { result.now ≡ column_of self.now.orders asset }
    {
        self.cells(asset)
    }

    // Returns the column of an asset as [`Workspace::column`] does, and ensures `IsColumn`.
    fn cells(&self, asset: u16) -> &[Cell]
        requires { asset < length self.now.prices }
        ensures value { result.now ≡ column_of self.now.orders asset }
        ensures column { IsColumn result.now }
    {
        self.columns[usize::from(asset)].cells()
    }

    /// Returns the prices, in grains by the assets' numbers.
    pub fn prices(&self) -> &[i64]
        ensures value { result.now ≡ self.now.prices }
        ensures priced { ArePriced self.now.orders self.now.prices }
    {
        self.prices.as_slice()
    }

    /// Returns each order at the prices, in order. Constant time.
    pub fn quotes(&self) -> &[Quote]
        ensures { result.now ≡ quotes_at self.now.orders self.now.prices }
    {
        self.quotes.as_slice()
    }

    /// Gives away the prices, and each order at them. It copies nothing.
    pub fn into_quoted(self) -> Quoted
        ensures prices { result.prices.items ≡ self.entry.prices }
        ensures quoted { AreQuoted self.entry.orders result.prices.items result.quotes.items }
    {
        let Workspace {
            orders: _,
            prices,
            quotes,
            columns: _,
            steps: _,
        } = self;
        Quoted { prices, quotes }
    }

    /// Returns the excess of an asset at the prices, in units: both bounds are within 2^50 of 0. It costs one pass over the
    /// asset's column, without a division.
    pub fn excess(&self, asset: u16) -> Excess
        requires { asset < length self.now.prices }
        ensures low { result.low ≡ low_excess self.now.orders self.now.prices asset }
        ensures high { result.high ≡ high_excess self.now.orders self.now.prices asset }
        ensures low_bound { unsigned_abs result.low ≤ 2 ^ 50 }
        ensures high_bound { unsigned_abs result.high ≤ 2 ^ 50 }
    {
        excess_of(&self.quotes, self.cells(asset))
    }

    /// Returns the excess of an asset with this price in place of its own, in parts of a unit, 1 to 256 of them: both bounds
    /// are within 2^58 of 0. The prices stay. It costs one pass over the asset's column, with at most one division for each
    /// order. No search calls it: [`Workspace::move_amount`] looks at ever fewer orders.
    pub fn excess_at(&self, parts: u16, asset: u16, price: i64) -> Excess
        requires some { 1 ≤ parts }
        requires few { parts ≤ 256 }
        requires asset { asset < length self.now.prices }
        requires price { IsPrice price }
        ensures low { result.low
            ≡ low_excess_in parts self.now.orders (slice_set self.now.prices asset price) asset }
        ensures high { result.high
            ≡ high_excess_in parts self.now.orders (slice_set self.now.prices asset price) asset }
        ensures low_bound { unsigned_abs result.low ≤ 2 ^ 58 }
        ensures high_bound { unsigned_abs result.high ≤ 2 ^ 58 }
    {
        excess_after(
            parts,
            &self.quotes,
            self.cells(asset),
            self.amount(asset, price),
        )
    }

    /// Returns by how many grains the price of an asset moves in a direction, at most `reach`: the least amount after which its
    /// low excess in parts of a unit, 1 to 256 of them, is no longer above the slope bound in parts, if it rises, or its high
    /// excess no longer below minus that, if it falls; or else the reach. The prices stay. It costs a few passes over the
    /// asset's column, each with at most one division for each order, and then passes over ever fewer of its orders.
    pub fn move_amount(&mut self, parts: u16, asset: u16, direction: Direction, reach: u64) -> u64
        requires some_parts { 1 ≤ parts }
        requires few_parts { parts ≤ 256 }
        requires asset { asset < length self.old.prices }
        requires some { 0 < reach }
        requires far { reach ≤ 2 ^ 61 }
        requires room { IsPrice (price_towards direction (price_of self.old.prices asset) reach) }
        ensures stays { self.new ≡ self.old }
        ensures end { IsEnd (asked_towards direction parts self.old.orders self.old.prices asset)
            (pos (parts * steepness self.old.orders asset)) reach result }
    {
        let bound = self.steepness_in(parts, asset);
        narrow(
            parts,
            &self.quotes,
            self.columns[usize::from(asset)].cells(),
            direction,
            &mut self.steps,
            bound,
            reach,
        )
    }

    /// Returns the rounding bound of an asset, in units: the sum of its absolute weights in all orders, at most 2^26.
    /// Constant time.
    pub fn spread(&self, asset: u16) -> i64
        requires { asset < length self.now.prices }
        ensures value { result ≡ pos (spread self.now.orders asset) }
        ensures most { result ≤ℤ pos (2 ^ 26) }
    {
        self.columns[usize::from(asset)].spread()
    }

    /// Returns the slope bound of an asset, in units, at most 2^30: a grain of its price moves its true excess by no more than
    /// that. Constant time.
    pub fn steepness(&self, asset: u16) -> i64
        requires { asset < length self.now.prices }
        ensures value { result ≡ pos (steepness self.now.orders asset) }
        ensures most { result ≤ℤ pos (2 ^ 30) }
    {
        self.columns[usize::from(asset)].steepness()
    }

    /// Returns the slope bound of an asset in parts of a unit, at most 256 of them. Constant time.
    pub fn steepness_in(&self, parts: u16, asset: u16) -> i64
        requires few { parts ≤ 256 }
        requires asset { asset < length self.now.prices }
        ensures value { result ≡ pos (parts * steepness self.now.orders asset) }
        ensures most { result ≤ℤ pos (2 ^ 38) }
    {
        i64::from(parts) * self.steepness(asset)
    }

    /// Returns whether an asset is settled at the prices: its low excess is at most its slope bound, and its high excess at
    /// least minus that. It costs one pass over the asset's column, without a division.
    pub fn is_settled(&self, asset: u16) -> bool
        requires { asset < length self.now.prices }
        ensures { IsTrue result ↔ (is_unsettled self.now.orders self.now.prices asset ≡ false) }
    {
        is_near(self.excess(asset), self.steepness(asset))
    }

    /// Returns which way the price of an asset moves, or `None` if the asset is settled at the prices. It costs what
    /// [`Workspace::is_settled`] costs.
    pub fn direction(&self, asset: u16) -> Option<Direction>
        requires { asset < length self.now.prices }
        ensures settled { IfNone result (is_unsettled self.now.orders self.now.prices asset ≡ false) }
        ensures unsettled { IfSome result (λ direction. is_unsettled self.now.orders self.now.prices asset ≡ true) }
        ensures towards { IfSome result (IsTowards self.now.orders self.now.prices asset) }
    {
        let excess = self.excess(asset);
        let steepness = self.steepness(asset);
        if steepness < excess.low {
            Some(Direction::Rise)
        } else if excess.high < -steepness {
            Some(Direction::Fall)
        } else {
            None
        }
    }

    // Returns how far a price is above the asset's price, in grains.
    fn amount(&self, asset: u16, price: i64) -> i128
        requires asset { asset < length self.now.prices }
        requires price { IsPrice price }
        ensures value { result ≡ price -ℤ price_of self.now.prices asset }
        ensures bound { unsigned_abs result ≤ 2 ^ 63 }
    {
        i128::from(price) - i128::from(self.price(asset))
    }

    // Returns the price of an asset, in grains.
    fn price(&self, asset: u16) -> i64
        requires { asset < length self.now.prices }
        ensures value { result ≡ price_of self.now.prices asset }
        ensures range { IsPrice result }
    {
        self.prices[usize::from(asset)]
    }

    /// Sets the price of an asset, in grains. It costs one pass over the asset's column, with at most one division for each
    /// order.
    pub fn set_price(&mut self, asset: u16, price: i64)
        requires asset { asset < length self.old.prices }
        requires price { IsPrice price }
        ensures orders { self.new.orders ≡ self.old.orders }
        ensures prices { self.new.prices ≡ slice_set self.old.prices asset price }
    {
        let amount = self.amount(asset, price);
        requote(
            &mut self.quotes,
            self.columns[usize::from(asset)].cells(),
            amount,
        );
        self.prices[usize::from(asset)] = price;
    }
}

// Returns whether the low bound is at most the slope bound, and the high one at least minus that.
fn is_near(excess: Excess, steepness: i64) -> bool
    requires { unsigned_abs steepness ≤ 2 ^ 38 }
    ensures { IsTrue result ↔ ((excess.low ≤ℤ steepness) × (neg_ℤ steepness ≤ℤ excess.high)) }
{
    excess.low <= steepness && -steepness <= excess.high
}
