//! A fixed book of orders with many legs.
ghost use Rattle.std.specs.Prelude.{IsTrue};
ghost use Rattle.weight_rows.specs.Rows.{IsPricedBy};

use flow_orders::{Order, order_fault};
use std::alloc::{AllocError, Global};
use weight_rows::{Entry, EntryList, WeightRow, row_fault};

/// How many orders there are.
pub const ORDERS: u32 = 16_384;

// How many legs an order has, at most 16.
const ENTRIES: u16 = 16;

// How many assets an order's first leg may name.
const FIRSTS: u32 = 49;

// Returns the leg at a place of an order. Of each two orders the second one sells what the first one buys.
fn entry(number: u32, place: u16) -> Entry {
    let first = (number / 2 % FIRSTS) as u16;
    let size = i32::from(place % 4) + 1;
    let buys = (number ^ u32::from(place)) % 2 == 0;
    Entry {
        asset: first + place % ENTRIES,
        weight: if buys { size } else { -size },
    }
}

// Returns the order of a number, or `None` if its numbers or its weight vector had a fault.
fn order(alloc: Global, number: u32) -> Result<Option<Order>, AllocError> {
    let mut entries = Vec::with_capacity(alloc, usize::from(ENTRIES))?;
    for place in 0..ENTRIES {
        entries.push(entry(number % ORDERS, place))?;
    }
    let entries = EntryList::new(entries);
    if row_fault(entries.as_slice()).is_some() || order_fault(-10, 10, 999, 1 << 30).is_some() {
        return Ok(None);
    }
    let row = WeightRow::new(entries);
    Ok(Some(Order::new(u64::from(number) + 1, 1, -10, 10, 999, 1 << 30, row)))
}

/// Returns whether each asset that the order names has a price.
pub fn is_priced(order: &Order, prices: &[i64]) -> bool
    ensures { IsTrue result → IsPricedBy order.now.row prices.now }
{
    order
        .row()
        .entries()
        .iter()
        .all(|entry| usize::from(entry.asset) < prices.len())
}

/// Returns 16,384 orders of 16 legs each over 64 assets. At prices of 0 each asks for 499 and a half, and what one buys of an
/// asset another one sells.
pub fn fixed(alloc: Global) -> Result<Vec<Order>, AllocError> {
    let mut orders = Vec::with_capacity(alloc, ORDERS as usize)?;
    for number in 0..ORDERS {
        if let Some(order) = order(alloc, number)? {
            orders.push(order)?;
        }
    }
    Ok(orders)
}
