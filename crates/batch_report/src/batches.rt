//! The lines of batches.
ghost use Rattle.std.specs.Prelude.{◌≡◌, ◌<◌, ◌++◌, length, OnOk};
ghost use Rattle.std.specs.List.{flat_map, range_with_len};
ghost use Rattle.flow_orders.specs.Residuals.{residual_in};
ghost use Rattle.batch_report.specs.Reports.{price_line, rate_line, cleared_lines, skipped_line};
ghost use Rattle.batch_report.specs.Private.{fill_at};

use batch_outcome::ClearedParts;
use journal_records::{ClearedView, SkippedView};
use pair_text::Text;
use ticker_table::TickerTable;
use wire_records::Memory;

// Returns the imbalance of an asset that has one.
fn residual_at(view: &ClearedView<'_>, asset: u16) -> i64
    requires { asset < length view.now.clearing.residuals }
    ensures { result ≡ residual_in view.now.clearing.residuals asset }
{
    view.residual(asset).unwrap()
}

// Returns the number of the order at a place that has a rate.
fn number_at(view: &ClearedView<'_>, place: u32) -> u64
    requires { place < length view.now.clearing.fills }
    ensures { result ≡ (fill_at view.now.clearing.fills place).order }
{
    view.order(place).unwrap()
}

// Returns the rate at a place that has one.
fn rate_at(view: &ClearedView<'_>, place: u32) -> u32
    requires { place < length view.now.clearing.fills }
    ensures { result ≡ (fill_at view.now.clearing.fills place).rate }
{
    view.rate(place).unwrap()
}

// Appends the line of an asset.
fn put_price(
    tickers: &TickerTable,
    view: &ClearedView<'_>,
    asset: u16,
    out: &mut Text,
) -> Result<(), Memory>
    requires priced { asset < length view.now.clearing.prices }
    requires left { asset < length view.now.clearing.residuals }
    ensures before { out.new.before ≡ out.old.before }
    ensures put { OnOk result (out.new.text ≡ out.old.text ++ price_line tickers.now view.now.clearing asset) }
{
    out.put_name(b"  ", tickers, asset)?;
    out.put_number(b" price ", view.price_at(asset))?;
    out.put_number(b" residual ", residual_at(view, asset))?;
    out.put(b"\n")
}

// Appends the lines of all assets.
fn put_prices(tickers: &TickerTable, view: &ClearedView<'_>, out: &mut Text) -> Result<(), Memory>
    ensures before { out.new.before ≡ out.old.before }
    ensures put { OnOk result (out.new.text ≡ out.old.text
        ++ flat_map (price_line tickers.now view.now.clearing) (range_with_len 0 (length view.now.clearing.prices))) }
{
    for asset in 0..view.price_count() {
        put_price(tickers, view, asset, out)?;
    }
    Ok(())
}

// Appends the line of an order.
fn put_rate(view: &ClearedView<'_>, place: u32, out: &mut Text) -> Result<(), Memory>
    requires { place < length view.now.clearing.fills }
    ensures before { out.new.before ≡ out.old.before }
    ensures put { OnOk result (out.new.text ≡ out.old.text ++ rate_line (fill_at view.now.clearing.fills place)) }
{
    out.put_number(b"  order ", number_at(view, place))?;
    out.put_number(b" rate ", rate_at(view, place))?;
    out.put(b"\n")
}

// Appends the lines of all orders that were live.
fn put_rates(view: &ClearedView<'_>, out: &mut Text) -> Result<(), Memory>
    ensures before { out.new.before ≡ out.old.before }
    ensures put { OnOk result (out.new.text ≡ out.old.text ++ flat_map rate_line view.now.clearing.fills) }
{
    for place in 0..view.rate_count() {
        put_rate(view, place, out)?;
    }
    Ok(())
}

// Appends the lines of a batch that cleared.
pub(crate) fn put_cleared(
    tickers: &TickerTable,
    view: &ClearedView<'_>,
    out: &mut Text,
) -> Result<(), Memory>
    ensures before { out.new.before ≡ out.old.before }
    ensures put { OnOk result (out.new.text ≡ out.old.text ++ cleared_lines tickers.now view.now.batch view.now.clearing) }
{
    out.put_number(b"batch ", view.batch())?;
    out.put_number(b" cleared gap ", view.gap())?;
    out.put(b"\n")?;
    put_prices(tickers, view, out)?;
    put_rates(view, out)
}

// Appends the line of a batch that was skipped.
pub(crate) fn put_skipped(view: &SkippedView<'_>, out: &mut Text) -> Result<(), Memory>
    ensures before { out.new.before ≡ out.old.before }
    ensures put { OnOk result (out.new.text ≡ out.old.text ++ skipped_line view.now.batch view.now.skipping) }
{
    out.put_number(b"batch ", view.batch())?;
    out.put_number(b" skipped moves ", view.trace().len())?;
    out.put_number(b" duals ", view.start_dual())?;
    out.put_number(b" ", view.end_dual())?;
    out.put(b"\n")
}
