//! Answers to questions about a market.
ghost use Rattle.std.specs.Prelude.{◌≡◌, ◌<◌, ◌^◌, ◌++◌, length, OnOk};
ghost use Rattle.pair_text.specs.Texts.{◌then◌};
ghost use Rattle.answer_text.specs.Texts.{listed, comma};
ghost use Rattle.answer_text.specs.Answers.{price_member, market_members, units_member, exchange_members};

use crate::quoted::{put_comma, put_ticker};
use pair_text::Text;
use ticker_table::TickerTable;
use wire_records::{Memory, Version};

// Appends the price of an asset, with the comma before it.
fn put_price(
    tickers: &TickerTable,
    prices: &[i64],
    asset: u16,
    out: &mut Text,
) -> Result<(), Memory>
    requires { asset < length prices.now }
    ensures before { out.new.before ≡ out.old.before }
    ensures put { OnOk result (out.new.text ≡ out.old.text ++ (comma asset then price_member tickers.now prices.now asset)) }
{
    put_comma(asset as usize, out)?;
    put_ticker(tickers, asset, out)?;
    out.put_number(b":\"", prices[asset as usize])?;
    out.put(b"\"")
}

// Appends the prices of all assets.
fn put_prices(tickers: &TickerTable, prices: &[i64], out: &mut Text) -> Result<(), Memory>
    requires few { length prices.now < 2 ^ 16 }
    ensures before { out.new.before ≡ out.old.before }
    ensures put { OnOk result (out.new.text ≡ out.old.text ++ listed (price_member tickers.now prices.now) (length prices.now)) }
{
    for asset in 0..prices.len() as u16 {
        put_price(tickers, prices, asset, out)?;
    }
    Ok(())
}

/// Appends the members that answer what a market is: its version, its number of batches, and the prices with which the next one begins,
/// in grains by the assets' numbers, of fewer than 65,536 assets.
pub fn put_market(
    tickers: &TickerTable,
    version: Version,
    batches: u32,
    prices: &[i64],
    out: &mut Text,
) -> Result<(), Memory>
    requires few { length prices.now < 2 ^ 16 }
    ensures before { out.new.before ≡ out.old.before }
    ensures put { OnOk result (out.new.text ≡ out.old.text ++ market_members tickers.now version batches prices.now) }
{
    out.put_number(b"\"ask\":\"market\",\"version\":", version.number())?;
    out.put_number(b",\"batches\":", batches)?;
    out.put(b",\"prices\":{")?;
    put_prices(tickers, prices, out)?;
    out.put(b"}")
}

// Appends the exchange's units of an asset, with the comma before them.
fn put_unit(tickers: &TickerTable, units: &[i64], asset: u16, out: &mut Text) -> Result<(), Memory>
    requires { asset < length units.now }
    ensures before { out.new.before ≡ out.old.before }
    ensures put { OnOk result (out.new.text ≡ out.old.text ++ (comma asset then units_member tickers.now units.now asset)) }
{
    put_comma(asset as usize, out)?;
    put_ticker(tickers, asset, out)?;
    out.put_number(b":", units[asset as usize])
}

// Appends the exchange's units of all assets.
fn put_units(tickers: &TickerTable, units: &[i64], out: &mut Text) -> Result<(), Memory>
    requires few { length units.now < 2 ^ 16 }
    ensures before { out.new.before ≡ out.old.before }
    ensures put { OnOk result (out.new.text ≡ out.old.text ++ listed (units_member tickers.now units.now) (length units.now)) }
{
    for asset in 0..units.len() as u16 {
        put_unit(tickers, units, asset, out)?;
    }
    Ok(())
}

/// Appends the members that answer what the exchange holds: its money in grains, and its units of each asset by the assets' numbers,
/// of fewer than 65,536 assets.
pub fn put_exchange(
    tickers: &TickerTable,
    money: i128,
    units: &[i64],
    out: &mut Text,
) -> Result<(), Memory>
    requires few { length units.now < 2 ^ 16 }
    ensures before { out.new.before ≡ out.old.before }
    ensures put { OnOk result (out.new.text ≡ out.old.text ++ exchange_members tickers.now money units.now) }
{
    out.put_number(b"\"ask\":\"exchange\",\"money\":\"", money)?;
    out.put(b"\",\"units\":{")?;
    put_units(tickers, units, out)?;
    out.put(b"}")
}
