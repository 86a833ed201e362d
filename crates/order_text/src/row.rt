//! The weight vector that an object of weights is.
ghost use Rattle.std.specs.Prelude.{◌≡◌, ◌≤◌, length, option_map, option_and_then, Some, None, [], IfOk, IfSome, IsErrOf};
ghost use Rattle.std.specs.List.{insert};
ghost use Rattle.weight_rows.specs.declared.entries.Entry.{Entry};
ghost use Rattle.serde_json.specs.View.{view, members_view};
ghost use Rattle.ticker_table.specs.Tickers.{ticker_limit};
ghost use Rattle.order_text.specs.Private.{weight_of, entry_of, put_entry, put_members};

use crate::LineFault;
use crate::fields::asset_named;
use serde_json::{Map, Value};
use std::alloc::Global;
use ticker_table::TickerTable;
use weight_rows::{Entry, EntryList};

fn weight_of(value: &Value) -> Option<i32>
    ensures { result ≡ weight_of (view value.now) }
{
    let weight = value.as_i64()?;
    if weight < i32::MIN as i64 || weight > i32::MAX as i64 {
        return None;
    }
    Some(weight as i32)
}

fn entry_of(tickers: &TickerTable, key: &str, value: &Value) -> Option<Entry>
    ensures { result ≡ entry_of tickers.now key.now (view value.now) }
{
    let asset = asset_named(tickers, key)?;
    let weight = weight_of(value)?;
    Some(Entry { asset, weight })
}

// Returns the place for a leg of this asset, or `None` if there is one already.
fn place_for(row: &[Entry], asset: u16) -> Option<usize>
    ensures within { IfSome result (λ place. place ≤ length row.now) }
    ensures put { (e : Entry) → e.asset ≡ asset
        → put_entry e row.now ≡ option_map (λ place. insert row.now place e) result }
{
    let mut place = 0;
    while place < row.len() {
        let other = row[place].asset;
        if other == asset {
            return None;
        }
        if other > asset {
            return Some(place);
        }
        place += 1;
    }
    Some(place)
}

// Inserts a leg at its place. After an error `row` is of no use.
fn put_entry(row: &mut Vec<Entry>, entry: Entry) -> Result<(), LineFault>
    ensures put { IfOk result (λ _. put_entry entry row.old.items ≡ Some row.new.items) }
    ensures taken { IsErrOf result LineFault.NoCommand → put_entry entry row.old.items ≡ None }
{
    let Some(place) = place_for(row.as_slice(), entry.asset) else {
        return Err(LineFault::NoCommand);
    };
    match row.insert(place, entry) {
        Ok(()) => Ok(()),
        Err(_) => Err(LineFault::Memory),
    }
}

// Inserts the leg that a member is. After an error `row` is of no use.
fn put_member(
    tickers: &TickerTable,
    key: &str,
    value: &Value,
    row: &mut Vec<Entry>,
) -> Result<(), LineFault>
    ensures put { IfOk result (λ _. option_and_then (λ e. put_entry e row.old.items)
        (entry_of tickers.now key.now (view value.now)) ≡ Some row.new.items) }
    ensures taken { IsErrOf result LineFault.NoCommand → option_and_then (λ e. put_entry e row.old.items)
        (entry_of tickers.now key.now (view value.now)) ≡ None }
{
    match entry_of(tickers, key, value) {
        Some(entry) => put_entry(row, entry),
        None => Err(LineFault::NoCommand),
    }
}

/// Returns the weight vector that the members are, by ascending asset number.
pub(crate) fn row_of(
    alloc: Global,
    tickers: &TickerTable,
    members: &Map<String, Value>,
) -> Result<EntryList, LineFault>
    ensures row { IfOk result (λ row. put_members tickers.now (members_view members.now.entries) [] ≡ Some row) }
    ensures short { IfOk result (λ row. length row ≤ ticker_limit) }
    ensures none { IsErrOf result LineFault.NoCommand
        → put_members tickers.now (members_view members.now.entries) [] ≡ None }
{
    let most = members.len().min(tickers.len() as usize);
    let Ok(mut row) = Vec::with_capacity(alloc, most) else {
        return Err(LineFault::Memory);
    };
    for (key, value) in members.iter() {
        put_member(tickers, key.as_str(), value, &mut row)?;
    }
    Ok(EntryList::new(row))
}
