//! Texts in quotes.
ghost use Rattle.std.specs.Prelude.{◌≡◌, ◌≤◌, ◌<◌, ◌+◌, ◌++◌, ℕ, length, take, OnOk};
ghost use Rattle.std.specs.List.{flat_map};
ghost use Rattle.pair_text.specs.Texts.{◌then◌};
ghost use Rattle.answer_text.specs.Texts.{hex_digit, escaped, quoted, unpadded, comma, ticker_text};

use pair_text::Text;
use ticker_table::TickerTable;
use wire_records::Memory;

// Returns a digit of a hexadecimal number, in capitals.
fn hex_digit(digit: u8) -> u8
    requires { digit < 16 }
    ensures { result ≡ hex_digit digit }
{
    if digit < 10 {
        b'0' + digit
    } else {
        b'A' + (digit - 10)
    }
}

// Appends a byte of a text.
fn put_byte(byte: u8, out: &mut Text) -> Result<(), Memory>
    ensures before { out.new.before ≡ out.old.before }
    ensures put { OnOk result (out.new.text ≡ out.old.text ++ escaped byte) }
{
    if byte == b'"' {
        return out.put(b"\\\"");
    }
    if byte == b'\\' {
        return out.put(b"\\\\");
    }
    if byte < b' ' {
        out.put(b"\\u00")?;
        return out.put(&[hex_digit(byte / 16), hex_digit(byte % 16)]);
    }
    out.put(&[byte])
}

/// Appends a text in quotes.
pub(crate) fn put_quoted(text: &[u8], out: &mut Text) -> Result<(), Memory>
    ensures before { out.new.before ≡ out.old.before }
    ensures put { OnOk result (out.new.text ≡ out.old.text ++ quoted text.now) }
{
    out.put(b"\"")?;
    put_bytes(text, out)?;
    out.put(b"\"")
}

// Appends the bytes of a text.
fn put_bytes(text: &[u8], out: &mut Text) -> Result<(), Memory>
    ensures before { out.new.before ≡ out.old.before }
    ensures put { OnOk result (out.new.text ≡ out.old.text ++ flat_map escaped text.now) }
{
    for place in 0..text.len() {
        put_byte(text[place], out)?;
    }
    Ok(())
}

/// Returns how many bytes of a ticker are before its padding.
pub(crate) fn unpadded_len(ticker: &[u8]) -> usize
    ensures within { result ≤ length ticker.now }
    ensures name { take result ticker.now ≡ unpadded ticker.now }
{
    let mut count = 0;
    for place in 0..ticker.len() {
        if ticker[place] != b' ' {
            count = place + 1;
        }
    }
    count
}

/// Appends the text of an asset's ticker; that of no asset is empty.
pub(crate) fn put_ticker(tickers: &TickerTable, asset: u16, out: &mut Text) -> Result<(), Memory>
    ensures before { out.new.before ≡ out.old.before }
    ensures put { OnOk result (out.new.text ≡ out.old.text ++ ticker_text tickers.now asset) }
{
    match tickers.ticker(asset) {
        Some(ticker) => put_quoted(&ticker[..unpadded_len(&ticker)], out),
        None => out.put(b"\"\""),
    }
}

/// Appends what is before an item of a list.
pub(crate) fn put_comma(place: usize, out: &mut Text) -> Result<(), Memory>
    ensures before { out.new.before ≡ out.old.before }
    ensures put { OnOk result (out.new.text ≡ out.old.text ++ comma place) }
{
    if place == 0 {
        return Ok(());
    }
    out.put(b",")
}
