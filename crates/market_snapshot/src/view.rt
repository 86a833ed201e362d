//! A view of a checkpoint in borrowed bytes.
ghost use Rattle.std.specs.Prelude.{◌≡◌, ◌++◌, length, drop, IfOk};
ghost use Rattle.market_snapshot.specs.Encodings.{parts_encoding};
ghost use Rattle.market_snapshot.specs.Widths.{FitWidths};
ghost use Rattle.market_snapshot.specs.Layout.{BeginsWithNoParts};
ghost use Rattle.market_snapshot.specs.Answers.{IfNotSound};

use crate::SnapshotFault;
use crate::layout::{Layout, layout_of};
use crate::places::places_from;
use crate::readers::{
    entry_in, money_credit_in, money_in, number_in, order_in, ticker_in, unit_credit_in, units_in,
};
use byte_places::{i128_at, u8_at, u32_at, u64_at};
use flow_accounts::AccountParts;
use market_parts::{MarketParts, OrderParts};
use market_rules::MOST_ORDERS;
use std::alloc::Global;
use std::marker::Model;
use weight_rows::Entry;

// The parts of a market in borrowed bytes that begin with those of a checkpoint, consistent or not. Contracts see a view as these
// parts. Each is read in place, in constant time; orders differ in size, so their places are kept.
#[derive(Drop)]
pub(crate) struct SnapshotView<'a> {
    bytes: &'a [u8],
    layout: Layout,
    orders: Vec<usize>,
    // The place after the last order.
    end: usize,
}

impl<'a> Model for SnapshotView<'a> {
    ghost use Rattle.market_parts.specs.Parts.{Parts};
    ghost use Rattle.market_snapshot.specs.Kept.{parts_in, IsKept};

    ghost Value = { Parts };

    ghost view = { parts_in };

    ghost invariant = { IsKept };
}

// Returns the view of the parts that the bytes begin with. Costs one pass over the orders, and eight bytes of memory for each.
pub(crate) fn view_of(alloc: Global, bytes: &[u8]) -> Result<SnapshotView<'_>, SnapshotFault>
    ensures fits { IfOk result (λ view. FitWidths view) }
    ensures begins { IfOk result (λ view. bytes.now ≡ parts_encoding view ++ drop (length (parts_encoding view)) bytes.now) }
    ensures none { IfNotSound result (BeginsWithNoParts bytes.now) }
{
    let layout = match layout_of(bytes) {
        None => return Err(SnapshotFault::NotSound),
        Some(layout) => layout,
    };
    let place = layout.totals + 44 + 24 * usize::from(layout.assets);
    let count = u32_at(bytes, place);
    if count > MOST_ORDERS {
        return Err(SnapshotFault::NotSound);
    }
    let places = match places_from(alloc, bytes, place + 4, count as usize) {
        Err(fault) => return Err(fault),
        Ok(places) => places,
    };
    Ok(SnapshotView {
        bytes,
        layout,
        orders: places.starts,
        end: places.end,
    })
}

impl<'a> SnapshotView<'a> {
    // Returns how many bytes the parts take.
    pub(crate) fn len(&self) -> usize
        ensures { result ≡ length (parts_encoding self.now) }
    {
        self.end
    }
}

impl<'a> AccountParts for SnapshotView<'a> {
    ghost balances = { λ v. v.balances };

    fn asset_count(&self) -> u16 {
        self.layout.assets
    }

    fn account_count(&self) -> u32 {
        self.layout.accounts
    }

    fn money(&self, account: u32) -> Option<i128> {
        money_in(self.bytes, self.layout, account)
    }

    fn money_credit(&self, account: u32) -> Option<u64> {
        money_credit_in(self.bytes, self.layout, account)
    }

    fn units(&self, account: u32, asset: u16) -> Option<i64> {
        units_in(self.bytes, self.layout, account, asset)
    }

    fn unit_credit(&self, account: u32, asset: u16) -> Option<u64> {
        unit_credit_in(self.bytes, self.layout, account, asset)
    }

    fn total_money(&self) -> i128 {
        i128_at(self.bytes, self.layout.totals)
    }

    fn total_units(&self, asset: u16) -> Option<i64> {
        number_in(
            self.bytes,
            self.layout.totals + 16,
            self.layout.assets,
            asset,
        )
    }
}

impl<'a> MarketParts for SnapshotView<'a> {
    ghost parts = { λ v. v };

    fn version(&self) -> u8 {
        u8_at(self.bytes, 8)
    }

    fn ticker(&self, asset: u16) -> Option<[u8; 8]> {
        ticker_in(self.bytes, self.layout.assets, asset)
    }

    fn exchange_money(&self) -> i128 {
        i128_at(
            self.bytes,
            self.layout.totals + 16 + 8 * usize::from(self.layout.assets),
        )
    }

    fn exchange_units(&self, asset: u16) -> Option<i64> {
        number_in(
            self.bytes,
            self.layout.totals + 32 + 8 * usize::from(self.layout.assets),
            self.layout.assets,
            asset,
        )
    }

    fn next_number(&self) -> u64 {
        u64_at(
            self.bytes,
            self.layout.totals + 32 + 16 * usize::from(self.layout.assets),
        )
    }

    fn batches(&self) -> u32 {
        u32_at(
            self.bytes,
            self.layout.totals + 40 + 16 * usize::from(self.layout.assets),
        )
    }

    fn last_price(&self, asset: u16) -> Option<i64> {
        number_in(
            self.bytes,
            self.layout.totals + 44 + 16 * usize::from(self.layout.assets),
            self.layout.assets,
            asset,
        )
    }

    #[tactic(auto, using(flow_orders::proofs::Limits::orders_fit))]
    fn order_count(&self) -> u32 {
        self.orders.len() as u32
    }

    fn order(&self, k: u32) -> Option<OrderParts> {
        match self.orders.get(k as usize) {
            None => None,
            Some(place) => Some(order_in(self.bytes, *place)),
        }
    }

    fn entry(&self, k: u32, j: u8) -> Option<Entry> {
        match self.orders.get(k as usize) {
            None => None,
            Some(place) => entry_in(self.bytes, *place, j),
        }
    }
}
