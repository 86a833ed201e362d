//! A market made of its parts.
ghost use Rattle.std.specs.Prelude.{◌≡◌, IfOk, OnOk, IsErrOf};
ghost use Rattle.market_parts.specs.Parts.{AreConsistent, HasParts};

use crate::Market;
use crate::prices::LastPrices;
use market_parts::{MarketParts, RestoreFault, read_consistent};
use std::alloc::Global;

impl Market {
    /// Makes the market that has these parts.
    ///
    /// Returns `Unsound` exactly if they are the parts of no consistent market, or the number that the next order gets
    /// is 2^63 or more. Returns `Memory` only if there is no memory for the tickers, the accounts, or an order and its
    /// weight vector.
    ///
    /// The cost is that of the parts: each is read a few times at most and copied once, and for each balance of an
    /// account what its orders need is looked up once.
    pub fn restore<P: MarketParts>(alloc: Global, parts: &P) -> Result<Market, RestoreFault>
        ensures restored { IfOk result (HasParts (P.parts parts.now)) }
        ensures consistent { OnOk result (AreConsistent (P.parts parts.now)) }
        ensures unsound { IsErrOf result RestoreFault.Unsound → ¬ AreConsistent (P.parts parts.now) }
    {
        let made = read_consistent(alloc, parts)?;
        let next_order = parts.next_number();
        let batches = parts.batches();
        let last_prices = LastPrices::read(parts);
        Ok(Market {
            version: made.version,
            alloc,
            tickers: made.tickers,
            accounts: made.accounts,
            exchange: made.exchange,
            book: made.book,
            next_order,
            batches,
            last_prices,
        })
    }
}
