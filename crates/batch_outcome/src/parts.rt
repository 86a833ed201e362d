//! What is published of a clearing, part by part.
ghost use Rattle.std.specs.Prelude.{◌≡◌, length, slice_get};
ghost use Rattle.flow_orders.specs.Outcomes.{Clearing};
ghost use Rattle.batch_outcome.specs.Parts.{numbers_in, rates_in};

/// A published clearing, whose numbers may be in memory or in the bytes of a journal: one price and one imbalance
/// for each asset, by the assets' numbers, one rate for each order that was live, by the orders' places, and the gap.
///
/// Each call takes constant time. A call with a place `k` returns `None` exactly if `k` isn't below the count.
pub trait ClearedParts {
    // The whole clearing.
    ghost clearing: { Self → Clearing };

    /// Returns how many prices there are, and as many imbalances.
    fn price_count(&self) -> u16
        ensures prices { result ≡ length (clearing self.now).prices }
        ensures residuals { result ≡ length (clearing self.now).residuals };

    /// Returns the price of asset `k`, in grains.
    fn price(&self, k: u16) -> Option<i64>
        ensures { result ≡ slice_get (clearing self.now).prices k };

    /// Returns how many rates there are, and as many numbers of orders.
    fn rate_count(&self) -> u32
        ensures { result ≡ length (clearing self.now).fills };

    /// Returns the number of the order at place `k`.
    fn order(&self, k: u32) -> Option<u64>
        ensures { result ≡ slice_get (numbers_in (clearing self.now)) k };

    /// Returns the rate of the order at place `k`, in units of its portfolio.
    fn rate(&self, k: u32) -> Option<u32>
        ensures { result ≡ slice_get (rates_in (clearing self.now)) k };

    /// Returns the imbalance of asset `k`, in units, bought less sold.
    fn residual(&self, k: u16) -> Option<i64>
        ensures { result ≡ slice_get (clearing self.now).residuals k };

    /// Returns the gap, in grains. It may be negative.
    fn gap(&self) -> i128
        ensures { result ≡ (clearing self.now).gap };
}
