//! The place of each order of a checkpoint.
ghost use Rattle.std.specs.Prelude.{◌≡◌, ◌+◌, ◌≤◌, length, IfOk, IfSome, IfNone};
ghost use Rattle.market_snapshot.specs.Layout.{order_size, AreOrders, HasNoOrders, BeginsWithNoOrder};
ghost use Rattle.market_snapshot.specs.Answers.{IfNotSound};

use crate::SnapshotFault;
use crate::layout::{ENTRY, ORDER};
use byte_places::u8_at;
use std::alloc::Global;

// Returns how many bytes the order at a place takes, if all of them are there.
fn whole_size(bytes: &[u8], place: usize) -> Option<usize>
    requires { place ≤ length bytes.now }
    ensures size { IfSome result (λ size. size ≡ order_size place bytes.now) }
    ensures there { IfSome result (λ size. place + size ≤ length bytes.now) }
    ensures none { IfNone result (BeginsWithNoOrder place bytes.now) }
{
    let left = bytes.len() - place;
    if left < ORDER {
        return None;
    }
    let size = ORDER + ENTRY * usize::from(u8_at(bytes, place + 52));
    if left < size {
        return None;
    }
    Some(size)
}

// The places of orders, and the place after the last one.
#[derive(Drop)]
pub(crate) struct Places {
    pub(crate) starts: Vec<usize>,
    pub(crate) end: usize,
}

// Returns the places of `count` orders from a place on. Allocates eight bytes for each.
pub(crate) fn places_from(
    alloc: Global,
    bytes: &[u8],
    first: usize,
    count: usize,
) -> Result<Places, SnapshotFault>
    requires { first ≤ length bytes.now }
    ensures found { IfOk result (λ places. AreOrders bytes.now first places.end places.starts.items) }
    ensures count { IfOk result (λ places. length places.starts.items ≡ count) }
    ensures none { IfNotSound result (HasNoOrders count first bytes.now) }
{
    let mut starts = Vec::with_capacity(alloc, count)?;
    let mut end = first;
    while starts.len() < count {
        match whole_size(bytes, end) {
            None => return Err(SnapshotFault::NotSound),
            Some(size) => {
                starts.push_reserved(end);
                end += size;
            }
        }
    }
    Ok(Places { starts, end })
}
