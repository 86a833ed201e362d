//! What is published of a batch.
use crate::lists::{PriceList, RateList, ResidualList, Trace};

/// A batch that cleared: all live orders trade at one price for each asset.
#[derive(Drop)]
pub struct Cleared {
    /// The price of each asset, in grains.
    pub prices: PriceList,
    /// The rate of each live order, in units of its portfolio, by the orders' places.
    pub rates: RateList,
    /// The imbalance of each asset, in units, bought less sold.
    pub residuals: ResidualList,
    /// The gap, in grains: what rounding loses on all orders, less what the imbalances cost at the prices. It may be negative.
    pub gap: i128,
}

/// A batch whose search used up its budget before all assets were settled. Nothing trades.
#[derive(Drop)]
pub struct Skipped {
    /// The assets that were moved, one for each move of the budget.
    pub trace: Trace,
    /// The dual value at the start prices, in grains.
    pub start_dual: i128,
    /// The dual value at the prices at which the search ended, in grains.
    pub end_dual: i128,
}

/// How a batch ended.
#[derive(Drop)]
pub enum Outcome {
    /// It cleared.
    Cleared(Cleared),
    /// It was skipped.
    Skipped(Skipped),
}
