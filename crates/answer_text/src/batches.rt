//! What all are told of batches.
ghost use Rattle.std.specs.Prelude.{◌≡◌, ◌<◌, ◌++◌, [], length, OnOk};
ghost use Rattle.flow_orders.specs.Outcomes.{Cleared, Skipped};
ghost use Rattle.pair_text.specs.Texts.{◌then◌};
ghost use Rattle.answer_text.specs.Texts.{listed, comma};
ghost use Rattle.answer_text.specs.Answers.{price_member, batch_members};

use crate::quoted::{put_comma, put_ticker};
use batch_outcome::ClearedParts;
use journal_records::{ClearedView, SkippedView};
use pair_text::Text;
use ticker_table::TickerTable;
use wire_records::Memory;

// Appends the price of an asset, with the comma before it.
fn put_price(
    tickers: &TickerTable,
    view: &ClearedView<'_>,
    asset: u16,
    out: &mut Text,
) -> Result<(), Memory>
    requires { asset < length view.now.clearing.prices }
    ensures before { out.new.before ≡ out.old.before }
    ensures put { OnOk result (out.new.text ≡ out.old.text ++ (comma asset then price_member tickers.now view.now.clearing.prices asset)) }
{
    put_comma(asset as usize, out)?;
    put_ticker(tickers, asset, out)?;
    out.put_number(b":\"", view.price_at(asset))?;
    out.put(b"\"")
}

// Appends the prices of all assets.
fn put_prices(tickers: &TickerTable, view: &ClearedView<'_>, out: &mut Text) -> Result<(), Memory>
    ensures before { out.new.before ≡ out.old.before }
    ensures put { OnOk result (out.new.text ≡ out.old.text
        ++ listed (price_member tickers.now view.now.clearing.prices) (length view.now.clearing.prices)) }
{
    for asset in 0..view.price_count() {
        put_price(tickers, view, asset, out)?;
    }
    Ok(())
}

/// Appends the members of a batch that cleared which all are told: its number, and the prices in grains.
pub fn put_cleared_batch(
    tickers: &TickerTable,
    view: &ClearedView<'_>,
    out: &mut Text,
) -> Result<(), Memory>
    ensures before { out.new.before ≡ out.old.before }
    ensures put { OnOk result (out.new.text ≡ out.old.text ++ batch_members tickers.now view.now.batch (Cleared view.now.clearing)) }
{
    out.put_number(b"\"do\":\"batch\",\"batch\":", view.batch())?;
    out.put(b",\"cleared\":true,\"prices\":{")?;
    put_prices(tickers, view, out)?;
    out.put(b"}")
}

/// Appends the members of a batch that was skipped which all are told: its number.
pub fn put_skipped_batch(view: &SkippedView<'_>, out: &mut Text) -> Result<(), Memory>
    ensures before { out.new.before ≡ out.old.before }
    ensures put { OnOk result (out.new.text ≡ out.old.text ++ batch_members [] view.now.batch (Skipped view.now.skipping)) }
{
    out.put_number(b"\"do\":\"batch\",\"batch\":", view.batch())?;
    out.put(b",\"cleared\":false")
}
