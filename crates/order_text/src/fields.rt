//! The values at the keys of an object.
ghost use Rattle.std.specs.Prelude.{◌≡◌, ◌↔◌, codes, Some, IsTrue, IfSome, IfNone, option_map, ℕ, ℤ, List, []};
ghost use Rattle.serde_json.specs.View.{view};
ghost use Rattle.order_text.specs.Lines.{HasKeys, padded, asset_named, Ticker, Asset, Small, Number, Signed, HasAt};
ghost use Rattle.order_text.specs.Private.{text_at};

use serde_json::Value;
use ticker_table::TickerTable;

// The length of a ticker, in bytes.
const TICKER: usize = 8;

pub(crate) fn text_at<'a>(value: &'a Value, key: &str) -> Option<&'a str>
    ensures { option_map (λ text. text.now) result ≡ text_at key.now (view value.now) }
{
    value.get(key)?.as_str()
}

pub(crate) fn has_keys(value: &Value, count: usize) -> bool
    ensures { IsTrue result ↔ HasKeys count (view value.now) }
{
    match value.as_object() {
        Some(members) => members.len() == count,
        None => false,
    }
}

pub(crate) fn number_at(value: &Value, key: &str) -> Option<u64>
    ensures some { IfSome result (λ number. HasAt [] (view value.now) key.now (Number number)) }
    ensures none { IfNone result ((number : ℕ) → ¬ HasAt [] (view value.now) key.now (Number number)) }
{
    value.get(key)?.as_u64()
}

pub(crate) fn small_at(value: &Value, key: &str) -> Option<u32>
    ensures some { IfSome result (λ number. HasAt [] (view value.now) key.now (Small number)) }
    ensures none { IfNone result ((number : ℕ) → ¬ HasAt [] (view value.now) key.now (Small number)) }
{
    let number = number_at(value, key)?;
    if number > u32::MAX as u64 {
        return None;
    }
    Some(number as u32)
}

pub(crate) fn signed_at(value: &Value, key: &str) -> Option<i64>
    ensures some { IfSome result (λ number. HasAt [] (view value.now) key.now (Signed number)) }
    ensures none { IfNone result ((number : ℤ) → ¬ HasAt [] (view value.now) key.now (Signed number)) }
{
    value.get(key)?.as_i64()
}

// Returns the bytes of a text, padded with spaces to 8, or `None` if there are more.
fn padded(text: &str) -> Option<[u8; 8]>
    ensures { result ≡ padded text.now }
{
    let bytes = text.as_bytes();
    if bytes.len() > TICKER {
        return None;
    }
    let mut ticker = [b' '; TICKER];
    ticker[..bytes.len()].copy_from_slice(bytes);
    Some(ticker)
}

pub(crate) fn asset_named(tickers: &TickerTable, text: &str) -> Option<u16>
    ensures { result ≡ asset_named tickers.now text.now }
{
    tickers.find(&padded(text)?)
}

pub(crate) fn asset_at(tickers: &TickerTable, value: &Value, key: &str) -> Option<u16>
    ensures some { IfSome result (λ asset. HasAt tickers.now (view value.now) key.now (Asset asset)) }
    ensures none { IfNone result ((asset : ℕ) → ¬ HasAt tickers.now (view value.now) key.now (Asset asset)) }
{
    asset_named(tickers, text_at(value, key)?)
}

pub(crate) fn ticker_at(value: &Value, key: &str) -> Option<[u8; 8]>
    ensures some { IfSome result (λ ticker. HasAt [] (view value.now) key.now (Ticker ticker)) }
    ensures none { IfNone result ((ticker : List ℕ) → ¬ HasAt [] (view value.now) key.now (Ticker ticker)) }
{
    let text = text_at(value, key)?;
    if !text.is_ascii() {
        return None;
    }
    padded(text)
}
