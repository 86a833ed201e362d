//! Records of commands.
ghost use Rattle.std.specs.Prelude.{IsTrue};
ghost use Rattle.wire_records.specs.CommandRecords.{HasShortRow};
ghost use Rattle.wire_records.specs.Views.{command_in};

use crate::rows::put_row_fault;
use crate::telling::{put, put_bytes, put_command, put_item};
use check_lines::Told;
use journal_records::{MOST_REPLY_BODY, journal_version};
use std::alloc::Global;
use wire_records::{
    BodyFault, Command, CommandView, Framed, MOST_ROW, MOST_ROW_UNTIL, RecordView, Refusal,
    RowView, Version, command_version, next_record, put_head, write_command,
};

// Returns the one record that these bytes are.
pub(crate) fn record_in(bytes: &[u8]) -> Option<RecordView<'_>> {
    match next_record(bytes, MOST_REPLY_BODY) {
        Framed::Whole(record, taken) if taken == bytes.len() => Some(record),
        _ => None,
    }
}

fn put_framed(framed: Framed<'_>, told: &mut Told) {
    match framed {
        Framed::Whole(record, taken) => {
            put("whole", &[record.tag().into(), taken as i128], told);
            put_bytes(record.body(), told);
            put_bytes(record.bytes(), told);
        }
        Framed::End => put("end", &[], told),
        Framed::TooLarge(length) => put("too_large", &[length.into()], told),
        Framed::Short => put("short", &[], told),
    }
}

pub(crate) fn put_prefix(limit: &str, bytes: &[u8], told: &mut Told) {
    match limit.parse() {
        Ok(limit) => put_framed(next_record(bytes, limit), told),
        Err(_) => told.give_up(),
    }
}

// Prints each leg by its place, up to the first that isn't there, and why they are no weight vector.
fn put_row(row: &RowView<'_>, told: &mut Told) {
    for place in 0..=row.len() {
        match row.entry(place) {
            Some(entry) => put_item(entry.asset.into(), entry.weight.into(), told),
            None => told.put(" -"),
        }
    }
    put_row_fault(row.fault(), told);
}

// Returns the command in memory of its own.
fn owned(alloc: Global, command: CommandView<'_>) -> Option<Command> {
    Some(match command {
        CommandView::AddAsset(ticker) => Command::AddAsset {
            ticker: ticker.try_into().ok()?,
        },
        CommandView::OpenAccount => Command::OpenAccount,
        CommandView::DepositMoney { account, ticks } => Command::DepositMoney { account, ticks },
        CommandView::DepositAsset {
            account,
            asset,
            units,
        } => Command::DepositAsset {
            account,
            asset,
            units,
        },
        CommandView::WithdrawMoney { account, ticks } => Command::WithdrawMoney { account, ticks },
        CommandView::WithdrawAsset {
            account,
            asset,
            units,
        } => Command::WithdrawAsset {
            account,
            asset,
            units,
        },
        CommandView::PlaceOrder(place) => Command::PlaceOrder {
            account: place.account(),
            low: place.low(),
            high: place.high(),
            rate: place.rate(),
            cap: place.cap(),
            row: place.row().to_list(alloc).ok()?,
        },
        CommandView::CancelOrder { account, order } => Command::CancelOrder { account, order },
        CommandView::RunBatch { budget } => Command::RunBatch { budget },
        CommandView::PlaceUntil { last, place } => Command::PlaceUntil {
            last,
            account: place.account(),
            low: place.low(),
            high: place.high(),
            rate: place.rate(),
            cap: place.cap(),
            row: place.row().to_list(alloc).ok()?,
        },
        CommandView::SetMoneyCredit { account, ticks } => {
            Command::SetMoneyCredit { account, ticks }
        }
        CommandView::SetUnitCredit {
            account,
            asset,
            units,
        } => Command::SetUnitCredit {
            account,
            asset,
            units,
        },
    })
}

fn put_owned(command: Option<Command>, told: &mut Told) {
    match command {
        Some(command) => put_command(command, told),
        None => told.give_up(),
    }
}

fn put_view(alloc: Global, command: CommandView<'_>, told: &mut Told) {
    match command {
        CommandView::PlaceOrder(place) => {
            let numbers = [
                place.account().into(),
                place.low().into(),
                place.high().into(),
                place.rate().into(),
                place.cap().into(),
            ];
            put("place_order", &numbers, told);
            put_row(&place.row(), told)
        }
        CommandView::PlaceUntil { last, place } => {
            let numbers = [
                last.into(),
                place.account().into(),
                place.low().into(),
                place.high().into(),
                place.rate().into(),
                place.cap().into(),
            ];
            put("place_until", &numbers, told);
            put_row(&place.row(), told)
        }
        plain => put_owned(owned(alloc, plain), told),
    }
}

fn put_asked(alloc: Global, record: &RecordView<'_>, told: &mut Told) {
    match record.command() {
        Ok(command) => put_view(alloc, command, told),
        Err(BodyFault::UnknownTag) => put("unknown_tag", &[], told),
        Err(BodyFault::BadBody) => put("bad_body", &[], told),
    }
}

pub(crate) fn put_read(alloc: Global, bytes: &[u8], told: &mut Told) {
    match record_in(bytes) {
        Some(record) => put_asked(alloc, &record, told),
        None => told.give_up(),
    }
}

// Returns whether the weight vector of a command, if it has one, isn't too long to be written.
fn has_short_row(command: &Command) -> bool
    ensures { IsTrue result → HasShortRow (command_in command.now) }
{
    match command {
        Command::PlaceOrder { row, .. } => row.as_slice().len() <= MOST_ROW,
        Command::PlaceUntil { row, .. } => row.as_slice().len() <= MOST_ROW_UNTIL,
        _ => true,
    }
}

// Appends the record of the command that a record encodes.
pub(crate) fn append_again(
    alloc: Global,
    record: &RecordView<'_>,
    out: &mut Vec<u8>,
) -> Option<()> {
    let command = owned(alloc, record.command().ok()?)?;
    if !has_short_row(&command) {
        return None;
    }
    write_command(&command, out).ok()
}

fn put_head_bytes(alloc: Global, tag: u8, length: u32, told: &mut Told) {
    match Vec::with_capacity(alloc, 5) {
        Ok(mut out) => {
            put_head(&mut out, tag, length);
            put_bytes(&out, told);
        }
        Err(_) => told.give_up(),
    }
}

pub(crate) fn put_head_of(alloc: Global, with: &str, told: &mut Told) {
    let (tag, length) = with.split_once(' ').unwrap_or((with, ""));
    match (tag.parse(), length.parse()) {
        (Ok(tag), Ok(length)) => put_head_bytes(alloc, tag, length, told),
        _ => told.give_up(),
    }
}

fn put_refusal(alloc: Global, refusal: Refusal, told: &mut Told) {
    match format!(in alloc; " {refusal:?}") {
        Ok(name) => told.put(&name),
        Err(_) => told.give_up(),
    }
    told.put_number(" ", refusal.code().into());
}

pub(crate) fn put_code(alloc: Global, code: &str, told: &mut Told) {
    match code.parse() {
        Ok(code) => match Refusal::of_code(code) {
            Some(refusal) => put_refusal(alloc, refusal, told),
            None => put("none", &[], told),
        },
        Err(_) => told.give_up(),
    }
}

pub(crate) fn put_magic(bytes: &[u8], told: &mut Told) {
    match (command_version(bytes), journal_version(bytes)) {
        (Some(version), None) => put("commands", &[i128::from(version.number())], told),
        (None, Some(version)) => put("journal", &[i128::from(version.number())], told),
        (None, None) => put("neither", &[], told),
        (Some(_), Some(_)) => put("both", &[], told),
    }
}
