//! The members of commands.
ghost use Rattle.std.specs.Prelude.{◌≡◌, ◌<◌, ◌++◌, ℕ, List, [], length, slice_index_or, None, Some, OnOk};
ghost use Rattle.wire_records.specs.Commands.{AddAsset, CancelOrder};
ghost use Rattle.wire_records.specs.Views.{command_of};
ghost use Rattle.answer_text.specs.Texts.{listed, comma};
ghost use Rattle.pair_text.specs.Texts.{◌then◌};
ghost use Rattle.answer_text.specs.Answers.{amount_members, last_member, leg_member, terms_members, place_members, command_members};
ghost use Rattle.answer_text.specs.Private.{no_entry};

use crate::quoted::{put_comma, put_quoted, put_ticker, unpadded_len};
use pair_text::Text;
use ticker_table::TickerTable;
use weight_rows::Entry;
use wire_records::{CommandView, Memory, PlaceView, RowView};

// Appends a deposit, a withdrawal or a credit in money.
fn put_money(word: &[u8], account: u32, ticks: u64, out: &mut Text) -> Result<(), Memory>
    ensures before { out.new.before ≡ out.old.before }
    ensures put { OnOk result (out.new.text ≡ out.old.text ++ amount_members word.now [] account None ticks) }
{
    out.put(b"\"do\":\"")?;
    out.put(word)?;
    out.put_number(b"\",\"account\":", account)?;
    out.put_number(b",\"ticks\":", ticks)
}

// Appends a deposit, a withdrawal or a credit in an asset's units.
fn put_units(
    word: &[u8],
    tickers: &TickerTable,
    account: u32,
    asset: u16,
    units: u64,
    out: &mut Text,
) -> Result<(), Memory>
    ensures before { out.new.before ≡ out.old.before }
    ensures put { OnOk result (out.new.text ≡ out.old.text ++ amount_members word.now tickers.now account (Some asset) units) }
{
    out.put(b"\"do\":\"")?;
    out.put(word)?;
    out.put_number(b"\",\"account\":", account)?;
    out.put(b",\"asset\":")?;
    put_ticker(tickers, asset, out)?;
    out.put_number(b",\"units\":", units)
}

// Returns the leg at a place that has one.
fn leg_at(row: &RowView<'_>, place: usize) -> Entry
    requires { place < length row.now }
    ensures { result ≡ slice_index_or row.now place no_entry }
{
    row.entry(place).unwrap()
}

// Appends a leg of an order, with the comma before it.
fn put_leg(
    tickers: &TickerTable,
    row: &RowView<'_>,
    place: usize,
    out: &mut Text,
) -> Result<(), Memory>
    requires { place < length row.now }
    ensures before { out.new.before ≡ out.old.before }
    ensures put { OnOk result (out.new.text ≡ out.old.text ++ (comma place then leg_member tickers.now row.now place)) }
{
    let leg = leg_at(row, place);
    put_comma(place, out)?;
    put_ticker(tickers, leg.asset, out)?;
    out.put_number(b":", leg.weight)
}

// Appends the legs of an order.
fn put_legs(tickers: &TickerTable, row: &RowView<'_>, out: &mut Text) -> Result<(), Memory>
    ensures before { out.new.before ≡ out.old.before }
    ensures put { OnOk result (out.new.text ≡ out.old.text ++ listed (leg_member tickers.now row.now) (length row.now)) }
{
    for place in 0..row.len() {
        put_leg(tickers, row, place, out)?;
    }
    Ok(())
}

// Appends the terms of an order.
fn put_terms(tickers: &TickerTable, place: &PlaceView<'_>, out: &mut Text) -> Result<(), Memory>
    ensures before { out.new.before ≡ out.old.before }
    ensures put { OnOk result (out.new.text ≡ out.old.text ++ terms_members tickers.now place.now) }
{
    out.put_number(b"\"low\":", place.low())?;
    out.put_number(b",\"high\":", place.high())?;
    out.put_number(b",\"rate\":", place.rate())?;
    out.put_number(b",\"cap\":", place.cap())?;
    out.put(b",\"weights\":{")?;
    put_legs(tickers, &place.row(), out)?;
    out.put(b"}")
}

/// Appends the last batch of an order, if it has one.
pub(crate) fn put_last(last: Option<u32>, out: &mut Text) -> Result<(), Memory>
    ensures before { out.new.before ≡ out.old.before }
    ensures put { OnOk result (out.new.text ≡ out.old.text ++ last_member last) }
{
    match last {
        Some(last) => {
            out.put_number(b"\"last\":", last)?;
            out.put(b",")
        }
        None => Ok(()),
    }
}

// Appends a placement.
fn put_place(
    tickers: &TickerTable,
    last: Option<u32>,
    place: &PlaceView<'_>,
    out: &mut Text,
) -> Result<(), Memory>
    ensures before { out.new.before ≡ out.old.before }
    ensures put { OnOk result (out.new.text ≡ out.old.text ++ place_members tickers.now last place.now) }
{
    out.put(b"\"do\":\"place\",")?;
    put_last(last, out)?;
    out.put_number(b"\"account\":", place.account())?;
    out.put(b",")?;
    put_terms(tickers, place, out)
}

// Appends the addition of an asset.
fn put_asset(ticker: &[u8], out: &mut Text) -> Result<(), Memory>
    ensures before { out.new.before ≡ out.old.before }
    ensures put { OnOk result (out.new.text ≡ out.old.text ++ command_members [] (AddAsset ticker.now)) }
{
    out.put(b"\"do\":\"asset\",\"ticker\":")?;
    put_quoted(&ticker[..unpadded_len(ticker)], out)
}

// Appends a cancel.
fn put_cancel(account: u32, order: u64, out: &mut Text) -> Result<(), Memory>
    ensures before { out.new.before ≡ out.old.before }
    ensures put { OnOk result (out.new.text ≡ out.old.text ++ command_members [] (CancelOrder account order)) }
{
    out.put_number(b"\"do\":\"cancel\",\"account\":", account)?;
    out.put_number(b",\"order\":", order)
}

/// Appends the members of a command, in the order of their table: a line with these members asks for the command. A ticker
/// is written without its padding.
pub fn put_command(
    tickers: &TickerTable,
    command: &CommandView<'_>,
    out: &mut Text,
) -> Result<(), Memory>
    ensures before { out.new.before ≡ out.old.before }
    ensures put { OnOk result (out.new.text ≡ out.old.text ++ command_members tickers.now (command_of command.now)) }
{
    match *command {
        CommandView::AddAsset(ticker) => put_asset(ticker, out),
        CommandView::OpenAccount => out.put(b"\"do\":\"account\""),
        CommandView::DepositMoney { account, ticks } => put_money(b"deposit", account, ticks, out),
        CommandView::DepositAsset {
            account,
            asset,
            units,
        } => put_units(b"deposit", tickers, account, asset, units, out),
        CommandView::WithdrawMoney { account, ticks } => {
            put_money(b"withdraw", account, ticks, out)
        }
        CommandView::WithdrawAsset {
            account,
            asset,
            units,
        } => put_units(b"withdraw", tickers, account, asset, units, out),
        CommandView::PlaceOrder(ref place) => put_place(tickers, None, place, out),
        CommandView::PlaceUntil { last, ref place } => put_place(tickers, Some(last), place, out),
        CommandView::CancelOrder { account, order } => put_cancel(account, order, out),
        CommandView::RunBatch { budget } => {
            out.put_number(b"\"do\":\"batch\",\"budget\":", budget)
        }
        CommandView::SetMoneyCredit { account, ticks } => put_money(b"credit", account, ticks, out),
        CommandView::SetUnitCredit {
            account,
            asset,
            units,
        } => put_units(b"credit", tickers, account, asset, units, out),
    }
}
