//! Answers.
ghost use Rattle.std.specs.Prelude.{IsTrue};
ghost use Rattle.wire_records.specs.CommandRecords.{HasShortRow};
ghost use Rattle.wire_records.specs.Views.{command_in};

use answer_text::{
    Heading, Recipient, put_cleared_batch, put_command, put_end, put_head, put_reply,
    put_skipped_batch,
};
use check_lines::Told;
use journal_records::{MOST_REPLY_BODY, ReplyView, reply};
use order_text::{LineFault, LineRead, ask_line};
use pair_text::Text;
use std::alloc::Global;
use ticker_table::TickerTable;
use wire_records::{
    Command, CommandView, Framed, MOST_ROW, MOST_ROW_UNTIL, Memory, RecordView, Version,
    next_record, write_command,
};

// Returns a name, padded with spaces.
fn padded(name: &str) -> Option<[u8; 8]> {
    let bytes = name.as_bytes();
    if bytes.len() > 8 {
        return None;
    }
    let mut ticker = [b' '; 8];
    ticker[..bytes.len()].copy_from_slice(bytes);
    Some(ticker)
}

fn add_name(tickers: &mut TickerTable, name: &str) -> Option<()> {
    tickers.add(padded(name)?).ok()?;
    Some(())
}

// The table of these names.
pub(crate) fn table_of(alloc: Global, names: &str, told: &mut Told) -> TickerTable {
    let mut tickers = TickerTable::new(alloc);
    for name in names.split_whitespace() {
        told.keep(add_name(&mut tickers, name));
    }
    tickers
}

// Returns the one record that these bytes are.
fn record_in(bytes: &[u8]) -> Option<RecordView<'_>> {
    match next_record(bytes, MOST_REPLY_BODY) {
        Framed::Whole(record, taken) if taken == bytes.len() => Some(record),
        _ => None,
    }
}

// Prints what was appended in a row of its own, and nothing if nothing was.
pub(crate) fn put_members(text: Text, put: Result<(), Memory>, told: &mut Told) {
    match put {
        Ok(()) => told.put_text(&text.whole()),
        Err(_) => told.give_up(),
    }
}

// Prints the members of a command.
fn put_view(alloc: Global, tickers: &TickerTable, command: &CommandView<'_>, told: &mut Told) {
    let mut bytes = Vec::new(alloc);
    let mut text = Text::following(&mut bytes);
    let put = put_command(tickers, command, &mut text);
    put_members(text, put, told);
}

// Prints the members of the command of a record.
fn put_record(alloc: Global, tickers: &TickerTable, bytes: &[u8], told: &mut Told) {
    match record_in(bytes) {
        Some(record) => match record.command() {
            Ok(command) => put_view(alloc, tickers, &command, told),
            Err(_) => told.give_up(),
        },
        None => told.give_up(),
    }
}

// Returns whether the weight vector of a command, if it has one, isn't too long to be written.
fn has_short_row(command: &Command) -> bool
    ensures { IsTrue result → HasShortRow (command_in command.now) }
{
    match command {
        Command::PlaceOrder { row, .. } => row.as_slice().len() <= MOST_ROW,
        Command::PlaceUntil { row, .. } => row.as_slice().len() <= MOST_ROW_UNTIL,
        _ => true,
    }
}

fn put_asked(alloc: Global, tickers: &TickerTable, command: &Command, told: &mut Told) {
    if !has_short_row(command) {
        return told.give_up();
    }
    let mut bytes = Vec::new(alloc);
    match write_command(command, &mut bytes) {
        Ok(()) => put_record(alloc, tickers, &bytes, told),
        Err(_) => told.give_up(),
    }
}

fn put_said(
    alloc: Global,
    tickers: &TickerTable,
    said: Result<LineRead, LineFault>,
    told: &mut Told,
) {
    match said {
        Ok(LineRead::Asks(command)) => put_asked(alloc, tickers, &command, told),
        Ok(LineRead::Many(commands)) => {
            for command in commands.as_slice() {
                put_asked(alloc, tickers, command, told);
            }
        }
        Ok(LineRead::Blank) => told.put("  none\n"),
        Err(LineFault::NoCommand) => told.put("  none\n"),
        Err(LineFault::Memory) => told.give_up(),
    }
}

pub(crate) fn put_echo(alloc: Global, names: &str, line: &[u8], told: &mut Told) {
    told.put("\n");
    let tickers = table_of(alloc, names, told);
    put_said(
        alloc,
        &tickers,
        ask_line(alloc, line, Version::Four, &tickers),
        told,
    );
}

// Prints the members of an answer.
fn put_view_of(alloc: Global, tickers: &TickerTable, answer: &ReplyView<'_>, told: &mut Told) {
    let mut bytes = Vec::new(alloc);
    let mut text = Text::following(&mut bytes);
    let put = put_reply(tickers, answer, &mut text);
    put_members(text, put, told);
}

pub(crate) fn put_answer(alloc: Global, names: &str, bytes: &[u8], told: &mut Told) {
    told.put("\n");
    let tickers = table_of(alloc, names, told);
    match record_in(bytes) {
        Some(record) => match reply(&record) {
            Some(answer) => put_view_of(alloc, &tickers, &answer, told),
            None => told.put("  none\n"),
        },
        None => told.give_up(),
    }
}

// Prints what all are told of a batch.
fn put_batch(alloc: Global, tickers: &TickerTable, answer: &ReplyView<'_>, told: &mut Told) {
    let mut bytes = Vec::new(alloc);
    let mut text = Text::following(&mut bytes);
    let put = match answer {
        ReplyView::Plain(_) => text.put(b"none"),
        ReplyView::Cleared(view) => put_cleared_batch(tickers, view, &mut text),
        ReplyView::Skipped(view) => put_skipped_batch(view, &mut text),
    };
    put_members(text, put, told);
}

pub(crate) fn put_outcome(alloc: Global, names: &str, bytes: &[u8], told: &mut Told) {
    told.put("\n");
    let tickers = table_of(alloc, names, told);
    match record_in(bytes) {
        Some(record) => match reply(&record) {
            Some(answer) => put_batch(alloc, &tickers, &answer, told),
            None => told.put("  none\n"),
        },
        None => told.give_up(),
    }
}

// Returns whom a word names.
fn recipient(word: &str) -> Option<Recipient> {
    match word {
        "operator" => Some(Recipient::Operator),
        "all" => Some(Recipient::All),
        _ => match word.parse() {
            Ok(account) => Some(Recipient::Desk(account)),
            Err(_) => None,
        },
    }
}

// Returns the heading that words state.
fn heading_of(words: &str) -> Option<Heading> {
    let mut parts = words.split_whitespace();
    let to = recipient(parts.next()?)?;
    let number = parts.next()?.parse().ok()?;
    let line = parts.next()?.parse().ok();
    let entry = parts.next()?.parse().ok();
    Some(Heading {
        to,
        number,
        line,
        entry,
    })
}

// Appends an answer without members.
fn put_empty(heading: &Heading, text: &mut Text) -> Result<(), Memory> {
    put_head(heading, text)?;
    put_end(text)
}

pub(crate) fn put_heading(alloc: Global, words: &str, told: &mut Told) {
    told.put("\n");
    match heading_of(words) {
        Some(heading) => {
            let mut bytes = Vec::new(alloc);
            let mut text = Text::following(&mut bytes);
            let put = put_empty(&heading, &mut text);
            put_members(text, put, told);
        }
        None => told.give_up(),
    }
}
