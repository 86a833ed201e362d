//! A book that is drawn.
ghost use Rattle.std.specs.Prelude.{◌<◌};

use crate::draws::Draws;
use flow_orders::{Order, order_fault};
use std::alloc::{AllocError, Global};
use weight_rows::{Entry, EntryList, WeightRow, row_fault};

// Returns the next number, brought below `end`, which isn't 0.
fn below(draws: &mut Draws, end: u32) -> u32
    requires { 0 < end }
    ensures { result < end }
{
    (draws.any() >> 33) as u32 % end
}

// Returns the leg of an asset: a weight of 1 to 4, bought or sold.
fn entry(draws: &mut Draws, asset: u16) -> Entry {
    let size = below(draws, 4) as i32 + 1;
    let sells = below(draws, 2) == 1;
    Entry {
        asset,
        weight: if sells { -size } else { size },
    }
}

// Returns the next order, or `None` if its numbers or its weight vector had a fault: one to three assets side by side, around prices
// of 1,000 ticks for each asset's number.
fn order(alloc: Global, draws: &mut Draws, assets: u16) -> Result<Option<Order>, AllocError> {
    let count = (below(draws, 3) as u16 + 1).min(assets);
    let first = below(draws, u32::from(assets.saturating_sub(count)) + 1) as u16;
    let mut entries = Vec::with_capacity(alloc, usize::from(count))?;
    let mut middle = 0i64;
    for at in 0..count {
        let entry = entry(draws, first.saturating_add(at));
        middle = middle.saturating_add(i64::from(entry.weight).saturating_mul(
            1000 * (i64::from(entry.asset) + 1),
        ));
        entries.push(entry)?;
    }
    let middle = middle.saturating_add(i64::from(below(draws, 41)) - 20);
    let half = i64::from(below(draws, 50)) + 1;
    let rate = below(draws, 1000) + 1;
    let turns = below(draws, 20) + 1;
    let low = middle.saturating_sub(half);
    let high = middle.saturating_add(half);
    let cap = u64::from(rate) * u64::from(turns);
    Ok(made((low, high), rate, cap, EntryList::new(entries)))
}

// Returns the order, or `None` if its numbers or its weight vector have a fault.
fn made(limits: (i64, i64), rate: u32, cap: u64, entries: EntryList) -> Option<Order> {
    let (low, high) = limits;
    if row_fault(entries.as_slice()).is_some() || order_fault(low, high, rate, cap).is_some() {
        return None;
    }
    Some(Order::new(1, 1, low, high, rate, cap, WeightRow::new(entries)))
}

/// Returns this many orders of this many assets, at most 64.
pub fn drawn(alloc: Global, assets: u16, count: u32) -> Result<Vec<Order>, AllocError> {
    let mut draws = Draws::new(7);
    let mut orders = Vec::new(alloc);
    for _ in 0..count {
        if let Some(order) = order(alloc, &mut draws, assets)? {
            orders.push(order)?;
        }
    }
    Ok(orders)
}
