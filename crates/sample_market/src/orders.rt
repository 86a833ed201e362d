//! The orders, one after the other.
ghost use Rattle.std.specs.Prelude.{◌≡◌, ◌≤◌, ◌^◌, ◌+◌, ◌*◌, if◌then◌else◌, pos, neg_ℤ, ◌+ℤ◌, ◌-ℤ◌, ◌*ℤ◌, unsigned_abs, length, IfOk, OnOk};
ghost use Rattle.wire_records.specs.Commands.{Place};
ghost use Rattle.wire_records.specs.Views.{command_in};
ghost use Rattle.wire_records.specs.CommandRecords.{HasShortRow};
ghost use Rattle.sample_market.specs.Draws.{next_state, drawn, state_after};
ghost use Rattle.sample_market.specs.Orders.{drawn_weight, drawn_row, after_row, usual_price, drawn_order, after_order};

use crate::draws::Draws;
use std::alloc::Global;
use weight_rows::{Entry, EntryList};
use wire_records::{Command, Memory};

// The weight of so many units that are bought or, if `sold`, sold.
fn signed(size: u32, sold: bool) -> i32
    requires { size ≤ 4 }
    ensures { result ≡ (if sold then neg_ℤ (pos size) else pos size) }
{
    if sold { -(size as i32) } else { size as i32 }
}

// Draws a weight of 1 to 4, bought or sold.
fn weight(draws: &mut Draws) -> i32
    ensures value { result ≡ drawn_weight draws.old }
    ensures following { draws.new ≡ state_after 2 draws.old }
{
    let size = 1 + draws.below(4);
    let sold = draws.below(2) == 1;
    signed(size, sold)
}

// Draws the legs of an order: one to three consecutive assets of the eight.
fn row(alloc: Global, draws: &mut Draws) -> Result<Vec<Entry>, Memory>
    ensures row { IfOk result (λ entries. entries.items ≡ drawn_row draws.old) }
    ensures few { IfOk result (λ entries. length entries.items ≤ 3) }
    ensures following { OnOk result (draws.new ≡ after_row draws.old) }
{
    let count = 1 + draws.below(3) as u16;
    let first = draws.below(u32::from(9 - count)) as u16;
    let mut entries = Vec::with_capacity(alloc, usize::from(count))?;
    for asset in first..first + count {
        let weight = weight(draws);
        entries.push_reserved(Entry { asset, weight });
    }
    Ok(entries)
}

// What the units of one leg cost, in ticks, if asset k costs 1,000 * (k + 1) ticks.
fn entry_price(entry: Entry) -> i64
    ensures value { result ≡ entry.weight *ℤ pos (1000 * (entry.asset + 1)) }
    ensures bound { unsigned_abs result ≤ 2 ^ 57 }
{
    i64::from(entry.weight) * (1000 * (i64::from(entry.asset) + 1))
}

// What the legs of an order cost, in ticks, if asset k costs 1,000 * (k + 1) ticks.
fn usual_price(entries: &[Entry]) -> i64
    requires { length entries.now ≤ 3 }
    ensures value { result ≡ usual_price entries.now }
    ensures bound { unsigned_abs result ≤ 2 ^ 60 }
{
    let mut sum = 0;
    for entry in entries {
        sum += entry_price(*entry);
    }
    sum
}

// Draws the middle between the limits of an order with these legs, in ticks.
fn middle(draws: &mut Draws, entries: &[Entry]) -> i64
    requires { length entries.now ≤ 3 }
    ensures value { result ≡ (usual_price entries.now +ℤ pos (drawn 41 draws.old)) -ℤ pos 20 }
    ensures next { draws.new ≡ next_state draws.old }
    ensures bound { unsigned_abs result ≤ 2 ^ 61 }
{
    usual_price(entries) + i64::from(draws.below(41)) - 20
}

// The two limits, which are `half` ticks off the middle.
fn limits(middle: i64, half: u32) -> (i64, i64)
    requires { unsigned_abs middle ≤ 2 ^ 61 }
    ensures low { result.0 ≡ middle -ℤ pos half }
    ensures high { result.1 ≡ middle +ℤ pos half }
    ensures bound { (unsigned_abs result.0 ≤ 2 ^ 62) × (unsigned_abs result.1 ≤ 2 ^ 62) }
{
    (middle - i64::from(half), middle + i64::from(half))
}

/// Draws the order at this place, counted from 0. It allocates one list of at most three legs.
pub(crate) fn order(alloc: Global, draws: &mut Draws, place: u32) -> Result<Command, Memory>
    ensures order { IfOk result (λ command. command_in command ≡ Place None (drawn_order place draws.old)) }
    ensures short { IfOk result (λ command. HasShortRow (command_in command)) }
    ensures following { OnOk result (draws.new ≡ after_order draws.old) }
{
    let entries = row(alloc, draws)?;
    let middle = middle(draws, &entries);
    let half = 1 + draws.below(50);
    let rate = 1 + draws.below(1000);
    let turns = 1 + draws.below(20);
    let (low, high) = limits(middle, half);
    Ok(Command::PlaceOrder {
        account: 1 + place % 64,
        low,
        high,
        rate,
        cap: u64::from(rate) * u64::from(turns),
        row: EntryList::new(entries),
    })
}
