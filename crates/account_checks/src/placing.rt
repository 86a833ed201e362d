//! An order as it is asked for.
use flow_orders::{Order, order_fault};
use std::alloc::Global;
use std::str::SplitWhitespace;
use weight_rows::{Entry, EntryList, WeightRow, row_fault};

// The numbers of an order.
#[derive(Clone, Copy)]
struct Numbers {
    number: u64,
    account: u32,
    low: i64,
    high: i64,
    rate: u32,
    cap: u64,
}

// Returns the numbers that words begin with.
fn numbers_of(words: &mut SplitWhitespace<'_>) -> Option<Numbers> {
    Some(Numbers {
        number: words.next()?.parse().ok()?,
        account: words.next()?.parse().ok()?,
        low: words.next()?.parse().ok()?,
        high: words.next()?.parse().ok()?,
        rate: words.next()?.parse().ok()?,
        cap: words.next()?.parse().ok()?,
    })
}

fn entry_of(item: &str) -> Option<Entry> {
    let (asset, weight) = item.split_once('/')?;
    Some(Entry {
        asset: asset.parse().ok()?,
        weight: weight.parse().ok()?,
    })
}

// Returns the legs of a list.
fn entries_of(alloc: Global, list: &str) -> Option<EntryList> {
    let mut entries = Vec::new(alloc);
    for item in list.split(',') {
        entries.push(entry_of(item)?).ok()?;
    }
    Some(EntryList::new(entries))
}

// Returns the order of `NUMBER ACCOUNT LOW HIGH RATE CAP LEGS`, or `None` if its numbers or its weight vector have a fault.
pub(crate) fn order_of(alloc: Global, words: &str) -> Option<Order> {
    let mut words = words.split_whitespace();
    let asked = numbers_of(&mut words)?;
    let entries = entries_of(alloc, words.next()?)?;
    if row_fault(entries.as_slice()).is_some()
        || order_fault(asked.low, asked.high, asked.rate, asked.cap).is_some()
    {
        return None;
    }
    Some(Order::new(
        asked.number,
        asked.account,
        asked.low,
        asked.high,
        asked.rate,
        asked.cap,
        WeightRow::new(entries),
    ))
}
