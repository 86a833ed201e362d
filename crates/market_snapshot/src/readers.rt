//! Reads the fields at the places of a checkpoint.
ghost use Rattle.std.specs.Prelude.{◌≡◌, ◌+◌, ◌-◌, ◌*◌, ◌<◌, ◌≤◌, length, SomeIff, IfSome};
ghost use Rattle.std.specs.Int.{w64, w128};
ghost use Rattle.byte_places.specs.Places.{part, unsigned_at, signed_at};
ghost use Rattle.market_parts.specs.Parts.{numbers_of};
ghost use Rattle.market_snapshot.specs.Layout.{account_size, account_place, entry_at, entries_at, order_at, IsLayout};

use crate::layout::{ENTRY, Layout, NUMBER, ORDER, UNITS, account_size};
use byte_places::{i32_at, i64_at, i128_at, u8_at, u16_at, u32_at, u64_at};
use market_parts::OrderParts;
use weight_rows::Entry;

// Returns the place of an account; accounts are numbered from 1.
fn place_of(bytes: &[u8], layout: Layout, account: u32) -> Option<usize>
    requires { IsLayout bytes.now layout }
    ensures value { SomeIff result ((0 < account) × (account ≤ layout.accounts)) (account_place layout.assets (account - 1)) }
    ensures inside { IfSome result (λ place. place + account_size layout.assets ≤ length bytes.now) }
{
    if account == 0 {
        return None;
    }
    if account > layout.accounts {
        return None;
    }
    let first = 15 + NUMBER * usize::from(layout.assets);
    Some(first + account_size(layout.assets) * (account - 1) as usize)
}

// Returns the money of an account.
pub(crate) fn money_in(bytes: &[u8], layout: Layout, account: u32) -> Option<i128>
    requires { IsLayout bytes.now layout }
    ensures { SomeIff result ((0 < account) × (account ≤ layout.accounts))
        (signed_at w128 (account_place layout.assets (account - 1)) bytes.now) }
{
    let place = place_of(bytes, layout, account)?;
    Some(i128_at(bytes, place))
}

// Returns the credit of an account in money.
pub(crate) fn money_credit_in(bytes: &[u8], layout: Layout, account: u32) -> Option<u64>
    requires { IsLayout bytes.now layout }
    ensures { SomeIff result ((0 < account) × (account ≤ layout.accounts))
        (unsigned_at 8 (account_place layout.assets (account - 1) + 16) bytes.now) }
{
    let place = place_of(bytes, layout, account)?;
    Some(u64_at(bytes, place + 16))
}

// Returns the units of an asset that an account holds.
pub(crate) fn units_in(bytes: &[u8], layout: Layout, account: u32, asset: u16) -> Option<i64>
    requires { IsLayout bytes.now layout }
    ensures { SomeIff result (((0 < account) × (account ≤ layout.accounts)) × (asset < layout.assets))
        (signed_at w64 (account_place layout.assets (account - 1) + 24 + 16 * asset) bytes.now) }
{
    let place = place_of(bytes, layout, account)?;
    if asset >= layout.assets {
        return None;
    }
    Some(i64_at(bytes, place + 24 + UNITS * usize::from(asset)))
}

// Returns the credit of an account in an asset.
pub(crate) fn unit_credit_in(bytes: &[u8], layout: Layout, account: u32, asset: u16) -> Option<u64>
    requires { IsLayout bytes.now layout }
    ensures { SomeIff result (((0 < account) × (account ≤ layout.accounts)) × (asset < layout.assets))
        (unsigned_at 8 (account_place layout.assets (account - 1) + 32 + 16 * asset) bytes.now) }
{
    let place = place_of(bytes, layout, account)?;
    if asset >= layout.assets {
        return None;
    }
    Some(u64_at(bytes, place + 32 + UNITS * usize::from(asset)))
}

// Returns number `k` of `count` numbers with a sign, the first of which is at the place `first`.
pub(crate) fn number_in(bytes: &[u8], first: usize, count: u16, k: u16) -> Option<i64>
    requires { first + 8 * count ≤ length bytes.now }
    ensures { SomeIff result (k < count) (signed_at w64 (first + 8 * k) bytes.now) }
{
    if k >= count {
        return None;
    }
    Some(i64_at(bytes, first + NUMBER * usize::from(k)))
}

// Returns ticker `k` of `count`.
pub(crate) fn ticker_in(bytes: &[u8], count: u16, k: u16) -> Option<[u8; 8]>
    requires { 11 + 8 * count ≤ length bytes.now }
    ensures { SomeIff result (k < count) (part (11 + 8 * k) 8 bytes.now) }
{
    if k >= count {
        return None;
    }
    let place = 11 + NUMBER * usize::from(k);
    let mut ticker = [0u8; 8];
    ticker.copy_from_slice(&bytes[place..place + 8]);
    Some(ticker)
}

// Returns the numbers of the order at a place.
pub(crate) fn order_in(bytes: &[u8], place: usize) -> OrderParts
    requires { place + 53 ≤ length bytes.now }
    ensures { result ≡ numbers_of (order_at place bytes.now) }
{
    OrderParts {
        number: u64_at(bytes, place),
        account: u32_at(bytes, place + 8),
        low: i64_at(bytes, place + 12),
        high: i64_at(bytes, place + 20),
        rate: u32_at(bytes, place + 28),
        cap: u64_at(bytes, place + 32),
        filled: u64_at(bytes, place + 40),
        last: u32_at(bytes, place + 48),
        entries: u8_at(bytes, place + 52),
    }
}

// Returns leg `j` of the order at a place.
pub(crate) fn entry_in(bytes: &[u8], place: usize, j: u8) -> Option<Entry>
    requires { place + (53 + 6 * entries_at place bytes.now) ≤ length bytes.now }
    ensures { SomeIff result (j < entries_at place bytes.now) (entry_at (place + 53 + 6 * j) bytes.now) }
{
    if j >= u8_at(bytes, place + 52) {
        return None;
    }
    let entry = place + ORDER + ENTRY * usize::from(j);
    Some(Entry {
        asset: u16_at(bytes, entry),
        weight: i32_at(bytes, entry + 2),
    })
}
