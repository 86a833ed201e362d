//! What is made of the parts of a consistent market.
ghost use Rattle.std.specs.Prelude.{◌≡◌, IfOk, OnOk, IsErrOf};
ghost use Rattle.market_parts.specs.Parts.{AreConsistent};
ghost use Rattle.market_parts.specs.Made.{AreMadeOf};
ghost use Rattle.market_parts.specs.Tests.{IsInShape};

use crate::assets::exchange_of;
use crate::book::book_of;
use crate::needs::covers_needs;
use crate::numbers::are_consistent_numbers;
use crate::tickers::tickers_of;
use crate::{MarketParts, RestoreFault};
use flow_accounts::Accounts;
use order_book::Book;
use residual_account::ResidualAccount;
use std::alloc::Global;
use ticker_table::TickerTable;
use wire_records::Version;

/// What a consistent market keeps besides single numbers and prices.
#[derive(Drop)]
pub struct ConsistentParts {
    /// The version of the market.
    pub version: Version,
    /// The tickers, by the assets' numbers.
    pub tickers: TickerTable,
    /// The accounts, with all their balances.
    pub accounts: Accounts,
    /// The exchange's account.
    pub exchange: ResidualAccount,
    /// The live orders.
    pub book: Book,
}

/// Returns what a market with these parts keeps.
///
/// Succeeds only if they are the parts of a consistent market and the number that the next order gets is below 2^63, and
/// fails with `Unsound` only if they aren't. May fail with `Memory` at all that it makes: the accounts, the tickers, and
/// each order with its weight vector.
pub fn read_consistent<P: MarketParts>(
    alloc: Global,
    parts: &P,
) -> Result<ConsistentParts, RestoreFault>
    ensures made { IfOk result (AreMadeOf (P.parts parts.now)) }
    ensures shape { OnOk result (IsInShape (P.balances parts.now) (P.parts parts.now)) }
    ensures unsound { IsErrOf result RestoreFault.Unsound → ¬ AreConsistent (P.parts parts.now) }
{
    let version = match Version::of_number(parts.version()) {
        Some(version) => version,
        None => return Err(RestoreFault::Unsound),
    };
    if !are_consistent_numbers(parts, version) {
        return Err(RestoreFault::Unsound);
    }
    let tickers = tickers_of(alloc, parts)?;
    let book = book_of(alloc, parts, version)?;
    let accounts = Accounts::restore(alloc, parts)?;
    if !covers_needs(&accounts, &book) {
        return Err(RestoreFault::Unsound);
    }
    Ok(ConsistentParts {
        version,
        tickers,
        accounts,
        exchange: exchange_of(parts),
        book,
    })
}
