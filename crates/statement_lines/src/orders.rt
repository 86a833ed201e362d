//! The line of an order that was placed.
ghost use Rattle.std.specs.Prelude.{◌≡◌, ◌++◌, OnOk};
ghost use Rattle.statement_rules.specs.Statements.{order_numbers, placed_line};

use pair_text::Text;
use ticker_table::TickerTable;
use wire_records::{Memory, PlaceView};

// Appends an order's number, and the numbers of its request.
fn put_numbers(place: &PlaceView<'_>, number: u64, out: &mut Text) -> Result<(), Memory>
    ensures before { out.new.before ≡ out.old.before }
    ensures put { OnOk result (out.new.text ≡ out.old.text ++ order_numbers number place.now) }
{
    out.put_number(b"order ", number)?;
    out.put_number(b" low ", place.low())?;
    out.put_number(b" high ", place.high())?;
    out.put_number(b" rate ", place.rate())?;
    out.put_number(b" cap ", place.cap())
}

/// Appends the line of an order that was placed: its number, and what was asked for, limits in ticks, with its last batch
/// if it has one.
pub fn put_order(
    tickers: &TickerTable,
    number: u64,
    last: Option<u32>,
    place: &PlaceView<'_>,
    out: &mut Text,
) -> Result<(), Memory>
    ensures before { out.new.before ≡ out.old.before }
    ensures put { OnOk result (out.new.text ≡ out.old.text ++ placed_line tickers.now number last place.now) }
{
    put_numbers(place, number, out)?;
    out.put_last(last)?;
    out.put_entries(tickers, &place.row())?;
    out.put(b"\n")
}
