//! The weight vector of an order.
ghost use Rattle.std.specs.Prelude.{◌≡◌, ◌<◌, ◌↔◌, All, length, slice_get, IsTrue, IfOk, OnOk, IsErrOf};
ghost use Rattle.flow_accounts.specs.Balances.{asset_count};
ghost use Rattle.market_parts.specs.Tests.{order_at, IsConsistentRow};

use crate::{MarketParts, RestoreFault};
use std::alloc::{AllocError, Global};
use weight_rows::{Entry, EntryList, WeightRow, row_fault};

// Returns the weight vector of the order at a place, or `Unsound` if it breaks a rule, has more legs than this or names an asset
// that isn't there.
pub(crate) fn row_at<P: MarketParts>(
    alloc: Global,
    parts: &P,
    place: u32,
    entries: u8,
    legs: u16,
) -> Result<WeightRow, RestoreFault>
    requires place { place < length (P.parts parts.now).orders }
    requires entries { entries ≡ length (order_at (P.parts parts.now) place).row }
    ensures row { IfOk result (λ row. row ≡ (order_at (P.parts parts.now) place).row) }
    ensures consistent { OnOk result (IsConsistentRow legs (asset_count (P.balances parts.now)) (order_at (P.parts parts.now) place).row) }
    ensures unsound { IsErrOf result RestoreFault.Unsound →
        ¬ IsConsistentRow legs (asset_count (P.balances parts.now)) (order_at (P.parts parts.now) place).row }
{
    let list = entries_at(alloc, parts, place, entries)?;
    if !is_consistent_row(list.as_slice(), legs, parts.asset_count()) {
        return Err(RestoreFault::Unsound);
    }
    Ok(WeightRow::new(list))
}

// Returns the legs of the order at a place.
fn entries_at<P: MarketParts>(
    alloc: Global,
    parts: &P,
    place: u32,
    entries: u8,
) -> Result<EntryList, AllocError>
    requires place { place < length (P.parts parts.now).orders }
    requires entries { entries ≡ length (order_at (P.parts parts.now) place).row }
    ensures { IfOk result (λ list. list ≡ (order_at (P.parts parts.now) place).row) }
{
    let mut list = Vec::with_capacity(alloc, usize::from(entries))?;
    for k in 0..entries {
        list.push_reserved(parts.entry(place, k).unwrap());
    }
    Ok(EntryList::new(list))
}

// Returns whether the entries are a weight vector of at most so many legs, and of assets that are there.
fn is_consistent_row(entries: &[Entry], legs: u16, assets: u16) -> bool
    ensures { IsTrue result ↔ IsConsistentRow legs assets entries.now }
{
    if row_fault(entries).is_some() {
        return false;
    }
    if entries.len() > usize::from(legs) {
        return false;
    }
    are_assets(entries, assets)
}

fn are_assets(entries: &[Entry], assets: u16) -> bool
    ensures { IsTrue result ↔ All (λ e. e.asset < assets) entries.now }
{
    for entry in entries {
        if entry.asset >= assets {
            return false;
        }
    }
    true
}
