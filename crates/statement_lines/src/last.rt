//! The last lines of a statement.
ghost use Rattle.std.specs.Prelude.{◌≡◌, ◌++◌, OnOk};
ghost use Rattle.statement_lines.specs.Lines.{money_held_line, units_held_line};

use pair_text::Text;
use ticker_table::TickerTable;
use wire_records::Memory;

/// Appends the line of money: what the account has, and what its live orders need of it, in grains.
pub fn put_money(money: i128, reserved: u128, out: &mut Text) -> Result<(), Memory>
    ensures before { out.new.before ≡ out.old.before }
    ensures put { OnOk result (out.new.text ≡ out.old.text ++ money_held_line money reserved) }
{
    out.put_number(b"money ", money)?;
    out.put_number(b" reserved ", reserved)?;
    out.put(b"\n")
}

/// Appends the line of an asset: the units that the account has, and those that its live orders need.
pub fn put_asset(
    tickers: &TickerTable,
    asset: u16,
    units: i64,
    reserved: u128,
    out: &mut Text,
) -> Result<(), Memory>
    ensures before { out.new.before ≡ out.old.before }
    ensures put { OnOk result (out.new.text ≡ out.old.text ++ units_held_line tickers.now asset units reserved) }
{
    out.put_name(b"", tickers, asset)?;
    out.put_number(b" units ", units)?;
    out.put_number(b" reserved ", reserved)?;
    out.put(b"\n")
}
