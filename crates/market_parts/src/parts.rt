//! A market that is read number by number, from wherever it is.
ghost use Rattle.std.specs.Prelude.{◌≡◌, length, slice_get, option_map};
ghost use Rattle.market_parts.specs.Parts.{Parts, HasOneForEach, numbers_of, row_of};

use crate::OrderParts;
use flow_accounts::AccountParts;
use weight_rows::Entry;

/// Reads all that a market keeps, from wherever it is, as from the bytes of a file. Assets, orders and the legs of an
/// order are named by their place, counted from 0; the result is `None` if there is no such place, and only then. What is
/// read may break every limit.
///
/// Contracts see one value, which has the balances too.
pub trait MarketParts: AccountParts {
    // All parts of the market.
    ghost parts: { Self → Parts };

    /// Returns the number of the version: 1, 2 or 3 in a consistent market. There is one ticker, one last price and one of the
    /// exchange's balances for each asset.
    fn version(&self) -> u8
        ensures version { result ≡ (parts self.now).version }
        ensures balances { (parts self.now).balances ≡ Self.balances self.now }
        ensures one_each { HasOneForEach (parts self.now) };

    /// Returns the ticker of an asset.
    fn ticker(&self, asset: u16) -> Option<[u8; 8]>
        ensures { result ≡ slice_get (parts self.now).tickers asset };

    /// Returns the money that the exchange holds, in grains.
    fn exchange_money(&self) -> i128
        ensures { result ≡ (parts self.now).exchange.money };

    /// Returns the units of an asset that the exchange holds.
    fn exchange_units(&self, asset: u16) -> Option<i64>
        ensures { result ≡ slice_get (parts self.now).exchange.units asset };

    /// Returns the number that the next order gets.
    fn next_number(&self) -> u64
        ensures { result ≡ (parts self.now).next_order };

    /// Returns how many batches were held.
    fn batches(&self) -> u32
        ensures { result ≡ (parts self.now).batches };

    /// Returns the last cleared price of an asset, in grains, or 0 if there is none.
    fn last_price(&self, asset: u16) -> Option<i64>
        ensures { result ≡ slice_get (parts self.now).last_prices asset };

    /// Returns how many live orders there are.
    fn order_count(&self) -> u32
        ensures { result ≡ length (parts self.now).orders };

    /// Returns the live order at place `k`, except its legs.
    fn order(&self, k: u32) -> Option<OrderParts>
        ensures { result ≡ option_map numbers_of (slice_get (parts self.now).orders k) };

    /// Returns the leg at place `j` of the order at place `k`.
    fn entry(&self, k: u32, j: u8) -> Option<Entry>
        ensures { result ≡ slice_get (row_of (slice_get (parts self.now).orders k)) j };
}
