//! A batch that cleared, in the bytes of its reply.
ghost use Rattle.std.specs.Prelude.{◌≡◌, ◌<◌, length, IfOk, IfSome, IfNone};
ghost use Rattle.weight_rows.specs.Rows.{price_of};
ghost use Rattle.journal_records.specs.Private.{EncodesCleared, EncodesNoCleared};

use crate::fills_view::{FillsView, take_fills};
use crate::numbers_view::{NumbersView, take_numbers};
use batch_outcome::{Cleared, ClearedParts, PriceList, RateList, ResidualList};
use std::alloc::Global;
use std::marker::Model;
use wire_fields::Cursor;
use wire_records::Memory;

/// What a reply says of a batch that cleared, with its lists in the borrowed bytes: the batch's number, a price in grains
/// and an imbalance in units for each asset, the number of each order with its rate in units of its portfolio, and the gap
/// in grains. There are at most 65,535 prices, and as many imbalances. Contracts see it as these numbers. Each call but
/// those that copy, [`to_prices`](ClearedView::to_prices) and [`to_cleared`](ClearedView::to_cleared), is of constant cost and
/// doesn't allocate.
#[derive(Drop)]
pub struct ClearedView<'a> {
    batch: u32,
    prices: NumbersView<'a>,
    fills: FillsView<'a>,
    residuals: NumbersView<'a>,
    gap: i128,
}

impl<'a> Model for ClearedView<'a> {
    ghost use Rattle.std.specs.Prelude.{◌≡◌, ◌<◌, ◌^◌, length};
    ghost use Rattle.journal_records.specs.Numbered.{ClearedBatch};

    ghost Value = { ClearedBatch };

    ghost view = { λ v. record {
      batch = v.batch;
      clearing = record { prices = v.prices; fills = v.fills; residuals = v.residuals; gap = v.gap };
    } };

    ghost invariant = { λ v. (length v.prices < 2 ^ 16) × (length v.fills < 2 ^ 32) × (length v.residuals ≡ length v.prices) };
}

impl<'a> ClearedView<'a> {
    ghost use Rattle.batch_outcome.specs.Parts.{rates_in};

    /// Returns the number of the batch.
    pub fn batch(&self) -> u32
        ensures { result ≡ self.now.batch }
    {
        self.batch
    }

    /// Returns the price of an asset that has one, in grains.
    pub fn price_at(&self, asset: u16) -> i64
        requires { asset < length self.now.clearing.prices }
        ensures { result ≡ price_of self.now.clearing.prices asset }
    {
        self.price(asset).unwrap()
    }

    /// Copies the prices, in grains. Fails only if out of memory. Costs one pass over them.
    pub fn to_prices(&self, alloc: Global) -> Result<Vec<i64>, Memory>
        ensures { IfOk result (λ prices. prices.items ≡ self.now.clearing.prices) }
    {
        self.prices.to_vec(alloc)
    }

    /// Copies the outcome into memory of its own, without the numbers of the orders. Fails only if out of memory. Costs one
    /// pass over the lists.
    pub fn to_cleared(&self, alloc: Global) -> Result<Cleared, Memory>
        ensures prices { IfOk result (λ cleared. cleared.prices ≡ self.now.clearing.prices) }
        ensures rates { IfOk result (λ cleared. cleared.rates ≡ rates_in self.now.clearing) }
        ensures residuals { IfOk result (λ cleared. cleared.residuals ≡ self.now.clearing.residuals) }
        ensures gap { IfOk result (λ cleared. cleared.gap ≡ self.now.clearing.gap) }
    {
        let prices = PriceList::new(self.prices.to_vec(alloc)?);
        let rates = RateList::new(self.fills.to_rates(alloc)?);
        let residuals = ResidualList::new(self.residuals.to_vec(alloc)?);
        Ok(Cleared {
            prices,
            rates,
            residuals,
            gap: self.gap,
        })
    }
}

impl<'a> ClearedParts for ClearedView<'a> {
    ghost clearing = { λ v. v.clearing };

    fn price_count(&self) -> u16 {
        self.prices.len() as u16
    }

    fn price(&self, k: u16) -> Option<i64> {
        self.prices.number(usize::from(k))
    }

    fn rate_count(&self) -> u32 {
        self.fills.len() as u32
    }

    fn order(&self, k: u32) -> Option<u64> {
        self.fills.order(k as usize)
    }

    fn rate(&self, k: u32) -> Option<u32> {
        self.fills.rate(k as usize)
    }

    fn residual(&self, k: u16) -> Option<i64> {
        self.residuals.number(usize::from(k))
    }

    fn gap(&self) -> i128 {
        self.gap
    }
}

// Returns the batch that a body encodes, or `None` if it encodes none. Only its number, the counts and the gap are read.
pub(crate) fn cleared_in(body: &[u8]) -> Option<ClearedView<'_>>
    ensures found { IfSome result (λ cleared. EncodesCleared body.now cleared) }
    ensures none { IfNone result (EncodesNoCleared body.now) }
{
    let mut cursor = Cursor::new(body);
    let batch = cursor.take_u32()?;
    let assets = usize::from(cursor.take_u16()?);
    let prices = take_numbers(&mut cursor, assets)?;
    let orders = cursor.take_u32()? as usize;
    let fills = take_fills(&mut cursor, orders)?;
    let residuals = take_numbers(&mut cursor, assets)?;
    let gap = cursor.take_i128()?;
    if !cursor.is_empty() {
        return None;
    }
    Some(ClearedView {
        batch,
        prices,
        fills,
        residuals,
        gap,
    })
}
