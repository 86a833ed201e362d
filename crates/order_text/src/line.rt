//! One line, and what it asks for.
ghost use Rattle.std.specs.Prelude.{◌≡◌, ◌≤◌, ◌↔◌, Some, None, IsTrue, IsUtf8, OnOk, OnErr, IfOk, IsErrOf};
ghost use Rattle.serde_json.specs.View.{view};
ghost use Rattle.serde_json.specs.Read.{read};
ghost use Rattle.ticker_table.specs.Tickers.{AreTickers, ticker_limit};
ghost use Rattle.order_text.specs.Lines.{IsBlank};
ghost use Rattle.order_text.specs.Private.{AreWith, AddsSome, AreAfter};
ghost use Rattle.order_text.specs.Answers.{IsAskedAs, IsLineRead, IsShort};

use crate::asking::asked_by;
use curve_ladder::CommandList;
use serde_json::{Category, Value};
use std::alloc::Global;
use thiserror::Error;
use ticker_table::TickerTable;
use wire_records::{Command, Version};

/// What a line is.
#[derive(Drop)]
pub enum LineRead {
    /// It has no byte but spaces, tabs and carriage returns.
    Blank,
    /// It asks for this command. A weight vector has at most one leg for each ticker of the lines before.
    Asks(Command),
    /// It asks for the orders of a ladder: one [`PlaceOrder`](Command::PlaceOrder) for each drop of its rate, in ascending
    /// prices, all with one weight vector.
    Many(CommandList),
}

/// Why a line wasn't read.
#[derive(Clone, Copy, Debug, PartialEq, Eq, Error)]
pub enum LineFault {
    /// It is neither blank nor asks for a command.
    #[error("no command")]
    NoCommand,
    /// Memory ran out.
    #[error("no memory")]
    Memory,
}

/// Returns whether a line is blank: it has no byte but spaces, tabs and carriage returns.
pub fn is_blank(line: &[u8]) -> bool
    ensures { IsTrue result ↔ IsBlank line.now }
{
    line.iter()
        .all(|byte| matches!(*byte, b' ' | b'\t' | b'\r'))
}

// Parses a line as a JSON value.
pub(crate) fn value_of(alloc: Global, line: &[u8]) -> Result<Value, LineFault>
    ensures value { IfOk result (λ v. IsUtf8 line.now × (read line.now ≡ Some (view v))) }
    ensures none { IsErrOf result LineFault.NoCommand → IsUtf8 line.now → read line.now ≡ None }
{
    match Value::from_slice(alloc, line) {
        Ok(value) => Ok(value),
        Err(error) => match error.classify() {
            Category::Memory => Err(LineFault::Memory),
            Category::Io | Category::Syntax | Category::Data | Category::Eof => {
                Err(LineFault::NoCommand)
            }
        },
    }
}

// Adds a ticker if it can be added to a table of at most so many.
fn add(tickers: &mut TickerTable, ticker: [u8; 8], most: u16) -> Result<(), LineFault>
    requires most { most ≤ ticker_limit }
    ensures after { OnOk result (AreWith most tickers.old ticker tickers.new) }
    ensures stays { OnErr result (tickers.new ≡ tickers.old) }
    ensures fault { ¬ IsErrOf result LineFault.NoCommand }
{
    if tickers.fault(&ticker, most).is_some() {
        return Ok(());
    }
    match tickers.add_within(ticker, most) {
        Ok(_) => Ok(()),
        Err(_) => Err(LineFault::Memory),
    }
}

// Adds the ticker that a line adds in a version, if it adds one.
fn add_ticker(tickers: &mut TickerTable, read: &LineRead, version: Version) -> Result<(), LineFault>
    ensures after { OnOk result (AreAfter version tickers.old read.now tickers.new) }
    ensures asked { OnErr result (AddsSome read.now) }
    ensures stays { OnErr result (tickers.new ≡ tickers.old) }
    ensures fault { ¬ IsErrOf result LineFault.NoCommand }
{
    match read {
        LineRead::Asks(Command::AddAsset { ticker }) => add(
            tickers,
            *ticker,
            version.limits().assets,
        ),
        _ => Ok(()),
    }
}

/// Reads a line of JSON, given the tickers of the lines before it. The line has no line feed at its end.
///
/// A command is an object with exactly the keys of one row of this table. `credit`, and `place` with `last`, are commands
/// from version Two on:
///
/// | `do` | further keys | command |
/// |---|---|---|
/// | `asset` | `ticker` | [`AddAsset`](Command::AddAsset) |
/// | `account` | | [`OpenAccount`](Command::OpenAccount) |
/// | `deposit` | `account`, `ticks` | [`DepositMoney`](Command::DepositMoney) |
/// | `deposit` | `account`, `asset`, `units` | [`DepositAsset`](Command::DepositAsset) |
/// | `withdraw` | `account`, `ticks` | [`WithdrawMoney`](Command::WithdrawMoney) |
/// | `withdraw` | `account`, `asset`, `units` | [`WithdrawAsset`](Command::WithdrawAsset) |
/// | `place` | `account`, `low`, `high`, `rate`, `cap`, `weights` | [`PlaceOrder`](Command::PlaceOrder) |
/// | `cancel` | `account`, `order` | [`CancelOrder`](Command::CancelOrder) |
/// | `batch` | `budget` | [`RunBatch`](Command::RunBatch) |
/// | `place` | `account`, `low`, `high`, `rate`, `cap`, `weights`, `last` | [`PlaceUntil`](Command::PlaceUntil) |
/// | `credit` | `account`, `ticks` | [`SetMoneyCredit`](Command::SetMoneyCredit) |
/// | `credit` | `account`, `asset`, `units` | [`SetUnitCredit`](Command::SetUnitCredit) |
/// | `ladder` | `account`, `points`, `turns`, `weights` | a [`PlaceOrder`](Command::PlaceOrder) for each segment of the [`Ladder`](curve_ladder::Ladder) |
///
/// A ticker is an ASCII text of at most 8 bytes, valid or not. An asset is a text of at most 8 bytes that names a ticker
/// of the table. Numbers are whole and fit the command's fields, without fraction or exponent. `weights` is an object of
/// a weight for each asset by its ticker; its legs come out by ascending asset number, at most one for each ticker of
/// the table. `points` is an array of arrays of two numbers, a price in ticks and a rate; if
/// [`ladder_fault`](curve_ladder::ladder_fault) finds a fault in the points and `turns`, the line is no command. If a
/// key is doubled, its last value counts, as the JSON reader has it.
///
/// The ticker of an `asset` line is added to the table if it can be added, and the line is a command either way.
/// Fails with `NoCommand` only for lines that are neither blank nor a command, and with `Memory` possibly for any line
/// that isn't blank. After an error the table is as before.
///
/// The cost is that of the line's bytes, and for each weight that of the legs before it. A ladder's commands, at most
/// 32, are allocated, each with its weight vector; if there are too many points, neither points nor commands are.
pub fn read_line(
    alloc: Global,
    line: &[u8],
    version: Version,
    tickers: &mut TickerTable,
) -> Result<LineRead, LineFault>
    ensures read { IsLineRead version tickers.old line.now tickers.new result }
    ensures short { IfOk result IsShort }
{
    let read = ask_line(alloc, line, version, tickers)?;
    match add_ticker(tickers, &read, version) {
        Ok(()) => Ok(read),
        Err(fault) => Err(fault),
    }
}

/// Reads a line of JSON as [`read_line`] does, given the tickers of a table, which it leaves as they are: also the ticker of an
/// `asset` line isn't added.
pub fn ask_line(
    alloc: Global,
    line: &[u8],
    version: Version,
    tickers: &TickerTable,
) -> Result<LineRead, LineFault>
    ensures asked { IsAskedAs version tickers.now line.now result }
    ensures short { IfOk result IsShort }
{
    if is_blank(line) {
        return Ok(LineRead::Blank);
    }
    let value = value_of(alloc, line)?;
    asked_by(alloc, version, tickers, &value)
}
