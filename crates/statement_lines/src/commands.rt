//! The lines of commands.
ghost use Rattle.std.specs.Prelude.{◌≡◌, ◌++◌, None, Some, OnOk};
ghost use Rattle.wire_records.specs.Refusals.{code_of};
ghost use Rattle.statement_rules.specs.Statements.{amount_line};
ghost use Rattle.statement_lines.specs.Lines.{opening_line, cancel_line, refused_line};

use pair_text::Text;
use ticker_table::TickerTable;
use wire_records::{Memory, Refusal};

// Appends the line of a deposit, a withdrawal or a credit in money.
fn put_ticks(word: &[u8], tickers: &TickerTable, ticks: u64, out: &mut Text) -> Result<(), Memory>
    ensures before { out.new.before ≡ out.old.before }
    ensures put { OnOk result (out.new.text ≡ out.old.text ++ amount_line word.now tickers.now None ticks) }
{
    out.put(word)?;
    out.put_number(b" ticks ", ticks)?;
    out.put(b"\n")
}

// Appends the line of a deposit, a withdrawal or a credit in an asset's units.
fn put_units(
    word: &[u8],
    tickers: &TickerTable,
    asset: u16,
    units: u64,
    out: &mut Text,
) -> Result<(), Memory>
    ensures before { out.new.before ≡ out.old.before }
    ensures put { OnOk result (out.new.text ≡ out.old.text ++ amount_line word.now tickers.now (Some asset) units) }
{
    out.put(word)?;
    out.put_name(b" ", tickers, asset)?;
    out.put_number(b" units ", units)?;
    out.put(b"\n")
}

/// Appends the line of a deposit, a withdrawal or a credit, which begins with the word: of a count of ticks if no asset
/// is given, and else of whole units of this asset.
pub fn put_amount(
    word: &[u8],
    tickers: &TickerTable,
    asset: Option<u16>,
    count: u64,
    out: &mut Text,
) -> Result<(), Memory>
    ensures before { out.new.before ≡ out.old.before }
    ensures put { OnOk result (out.new.text ≡ out.old.text ++ amount_line word.now tickers.now asset count) }
{
    match asset {
        None => put_ticks(word, tickers, count, out),
        Some(asset) => put_units(word, tickers, asset, count, out),
    }
}

/// Appends the line of a cancel of the order of this number.
pub fn put_cancel(number: u64, out: &mut Text) -> Result<(), Memory>
    ensures before { out.new.before ≡ out.old.before }
    ensures put { OnOk result (out.new.text ≡ out.old.text ++ cancel_line number) }
{
    out.put_number(b"cancel ", number)?;
    out.put(b"\n")
}

/// Appends the line of a refusal, with its code.
pub fn put_refused(refusal: Refusal, out: &mut Text) -> Result<(), Memory>
    ensures before { out.new.before ≡ out.old.before }
    ensures put { OnOk result (out.new.text ≡ out.old.text ++ refused_line (code_of refusal)) }
{
    out.put_number(b"refused ", refusal.code())?;
    out.put(b"\n")
}

/// Appends the line of the entry that opened the account.
pub fn put_opening(account: u32, out: &mut Text) -> Result<(), Memory>
    ensures before { out.new.before ≡ out.old.before }
    ensures put { OnOk result (out.new.text ≡ out.old.text ++ opening_line account) }
{
    out.put_number(b"account ", account)?;
    out.put(b"\n")
}
