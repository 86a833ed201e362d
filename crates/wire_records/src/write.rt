//! How a command is written.
ghost use Rattle.std.specs.Prelude.{◌≡◌, ◌+◌, ◌*◌, ◌++◌, ◌≤◌, [], length, All, OnOk, OnErr, vec_len, vec_capacity};
ghost use Rattle.std.specs.List.{flat_map};
ghost use Rattle.wire_fields.specs.Numbers.{unsigned};
ghost use Rattle.wire_records.specs.Records.{AreBytes, head, encoding};
ghost use Rattle.wire_records.specs.CommandRecords.{record_of, IsCommand, HasShortRow, most_row, most_row_until};
ghost use Rattle.wire_records.specs.Bodies.{entry_encoding, request_encoding, record_encoding, IsEntry, IsRequest, FitsCommand};
ghost use Rattle.wire_records.specs.Private.{room_of};
ghost use Rattle.wire_records.specs.Views.{command_in};

use crate::Command;
use out_of_memory::Memory;
use weight_rows::Entry;
use wire_fields::{put_bytes, put_i32, put_i64, put_u8, put_u16, put_u32, put_u64};

// The length of the longest record of a command without legs, in bytes.
const LONGEST: usize = 19;

/// Appends the head of a record: the tag, and the length in bytes of the body, which the caller appends
/// next. `out` has the capacity for the 5 bytes, so nothing is allocated.
pub fn put_head(out: &mut Vec<u8>, tag: u8, length: u32)
    requires { vec_len out.old + 5 ≤ vec_capacity out.old }
    ensures written { out.new.items ≡ out.old.items ++ head tag length }
    ensures len { vec_len out.new ≡ vec_len out.old + 5 }
    ensures capacity { vec_capacity out.new ≡ vec_capacity out.old }
{
    put_u8(out, tag);
    put_u32(out, length);
}

// Appends a record of a ticker.
fn put_ticker(out: &mut Vec<u8>, tag: u8, ticker: [u8; 8])
    requires { vec_len out.old + 13 ≤ vec_capacity out.old }
    ensures written { out.new.items ≡ out.old.items ++ encoding (record { tag = tag; body = ticker }) }
    ensures fits { (length ticker ≡ 8) × AreBytes ticker }
{
    put_head(out, tag, 8);
    put_bytes(out, &ticker);
}

// Appends a record without a body.
fn put_bare(out: &mut Vec<u8>, tag: u8)
    requires { vec_len out.old + 5 ≤ vec_capacity out.old }
    ensures { out.new.items ≡ out.old.items ++ encoding (record { tag = tag; body = [] }) }
{
    put_head(out, tag, 0);
}

// Appends a record of an account and an amount of money, or of an account and an order.
fn put_money(out: &mut Vec<u8>, tag: u8, account: u32, ticks: u64)
    requires { vec_len out.old + 17 ≤ vec_capacity out.old }
    ensures { out.new.items ≡ out.old.items
        ++ encoding (record { tag = tag; body = unsigned 4 account ++ unsigned 8 ticks }) }
{
    put_head(out, tag, 12);
    put_u32(out, account);
    put_u64(out, ticks);
}

// Appends a record of an account and units of an asset.
fn put_units(out: &mut Vec<u8>, tag: u8, account: u32, asset: u16, units: u64)
    requires { vec_len out.old + 19 ≤ vec_capacity out.old }
    ensures { out.new.items ≡ out.old.items
        ++ encoding (record { tag = tag; body = unsigned 4 account ++ (unsigned 2 asset ++ unsigned 8 units) }) }
{
    put_head(out, tag, 14);
    put_u32(out, account);
    put_u16(out, asset);
    put_u64(out, units);
}

// Appends the legs of an order.
fn put_entries(out: &mut Vec<u8>, entries: &[Entry])
    requires { vec_len out.old + 6 * length entries.now ≤ vec_capacity out.old }
    ensures written { out.new.items ≡ out.old.items ++ flat_map entry_encoding entries.now }
    ensures fit { All IsEntry entries.now }
{
    for entry in entries {
        put_u16(out, entry.asset);
        put_i32(out, entry.weight);
    }
}

// Appends the fields of an order that is asked for.
fn put_request(
    out: &mut Vec<u8>,
    account: u32,
    low: i64,
    high: i64,
    rate: u32,
    cap: u64,
    row: &[Entry],
)
    requires short { length row.now ≤ most_row }
    requires room { vec_len out.old + (33 + 6 * length row.now) ≤ vec_capacity out.old }
    ensures written { out.new.items ≡ out.old.items ++ request_encoding
        (record { account = account; low = low; high = high; rate = rate; cap = cap; row = row.now }) }
    ensures fits { IsRequest
        (record { account = account; low = low; high = high; rate = rate; cap = cap; row = row.now }) }
{
    put_u32(out, account);
    put_i64(out, low);
    put_i64(out, high);
    put_u32(out, rate);
    put_u64(out, cap);
    put_u8(out, row.len() as u8);
    put_entries(out, row);
}

// Appends a record of an order that is asked for.
fn put_order(
    out: &mut Vec<u8>,
    account: u32,
    low: i64,
    high: i64,
    rate: u32,
    cap: u64,
    row: &[Entry],
)
    requires short { length row.now ≤ most_row }
    requires room { vec_len out.old + (38 + 6 * length row.now) ≤ vec_capacity out.old }
    ensures written { out.new.items ≡ out.old.items ++ encoding (record {
      tag = 7;
      body = request_encoding
          (record { account = account; low = low; high = high; rate = rate; cap = cap; row = row.now });
    }) }
    ensures fits { IsRequest
        (record { account = account; low = low; high = high; rate = rate; cap = cap; row = row.now }) }
{
    put_head(out, 7, 33 + 6 * row.len() as u32);
    put_request(out, account, low, high, rate, cap, row);
}

// Appends a record of an order that is asked for up to a last batch.
fn put_until(
    out: &mut Vec<u8>,
    last: u32,
    account: u32,
    low: i64,
    high: i64,
    rate: u32,
    cap: u64,
    row: &[Entry],
)
    requires short { length row.now ≤ most_row_until }
    requires room { vec_len out.old + (42 + 6 * length row.now) ≤ vec_capacity out.old }
    ensures written { out.new.items ≡ out.old.items ++ encoding (record {
      tag = 10;
      body = unsigned 4 last ++ request_encoding
          (record { account = account; low = low; high = high; rate = rate; cap = cap; row = row.now });
    }) }
    ensures fits { IsRequest
        (record { account = account; low = low; high = high; rate = rate; cap = cap; row = row.now }) }
{
    put_head(out, 10, 37 + 6 * row.len() as u32);
    put_u32(out, last);
    put_request(out, account, low, high, rate, cap, row);
}

// Appends a record of a batch.
fn put_batch(out: &mut Vec<u8>, budget: u32)
    requires { vec_len out.old + 9 ≤ vec_capacity out.old }
    ensures { out.new.items ≡ out.old.items ++ encoding (record { tag = 9; body = unsigned 4 budget }) }
{
    put_head(out, 9, 4);
    put_u32(out, budget);
}

// The most bytes that the record of a command takes.
fn room_for(command: &Command) -> usize
    requires { HasShortRow (command_in command.now) }
    ensures { result ≡ room_of (command_in command.now) }
{
    match command {
        Command::PlaceOrder { row, .. } => 38 + 6 * row.as_slice().len(),
        Command::PlaceUntil { row, .. } => 42 + 6 * row.as_slice().len(),
        _ => LONGEST,
    }
}

// Appends the record of a command.
#[tactic(auto, unfolding(crate::specs::Bodies::body_encoding))]
fn put_command(command: &Command, out: &mut Vec<u8>)
    requires short { HasShortRow (command_in command.now) }
    requires room { vec_len out.old + room_of (command_in command.now) ≤ vec_capacity out.old }
    ensures written { out.new.items ≡ out.old.items ++ encoding (record_encoding (command_in command.now)) }
    ensures fits { FitsCommand (command_in command.now) }
{
    match command {
        Command::AddAsset { ticker } => put_ticker(out, 1, *ticker),
        Command::OpenAccount => put_bare(out, 2),
        Command::DepositMoney { account, ticks } => put_money(out, 3, *account, *ticks),
        Command::DepositAsset {
            account,
            asset,
            units,
        } => put_units(out, 4, *account, *asset, *units),
        Command::WithdrawMoney { account, ticks } => put_money(out, 5, *account, *ticks),
        Command::WithdrawAsset {
            account,
            asset,
            units,
        } => put_units(out, 6, *account, *asset, *units),
        Command::PlaceOrder {
            account,
            low,
            high,
            rate,
            cap,
            row,
        } => put_order(out, *account, *low, *high, *rate, *cap, row.as_slice()),
        Command::CancelOrder { account, order } => put_money(out, 8, *account, *order),
        Command::RunBatch { budget } => put_batch(out, *budget),
        Command::PlaceUntil {
            last,
            account,
            low,
            high,
            rate,
            cap,
            row,
        } => put_until(
            out,
            *last,
            *account,
            *low,
            *high,
            *rate,
            *cap,
            row.as_slice(),
        ),
        Command::SetMoneyCredit { account, ticks } => put_money(out, 11, *account, *ticks),
        Command::SetUnitCredit {
            account,
            asset,
            units,
        } => put_units(out, 12, *account, *asset, *units),
    }
}

/// Appends the record of a command: at most 19 bytes, or 42 and 6 for each leg. The command has at most
/// [`MOST_ROW`](crate::MOST_ROW) legs, if it has any, and at most [`MOST_ROW_UNTIL`](crate::MOST_ROW_UNTIL) if it
/// names a last batch. After `Memory` the bytes are as before. The cost is that of the bytes,
/// and of a move of `out` if it has to grow.
pub fn write_command(command: &Command, out: &mut Vec<u8>) -> Result<(), Memory>
    requires { HasShortRow (command_in command.now) }
    ensures written { OnOk result (out.new.items ≡ out.old.items ++ encoding (record_of (command_in command.now))) }
    ensures stays { OnErr result (out.new.items ≡ out.old.items) }

    // So the record encodes this command, and by the laws it is framed and read as it, whatever follows it.
    ensures fits { OnOk result (IsCommand (command_in command.now)) }
{
    out.reserve(room_for(command))?;
    put_command(command, out);
    Ok(())
}
