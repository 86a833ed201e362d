//! The verdict on a published clearing.

/// Whether a published clearing is admissible, or else the first part of it that is wrong.
#[derive(Clone, Copy, PartialEq, Eq)]
pub enum Verdict {
    /// All parts are right: the clearing is admissible.
    Right,
    /// There isn't one price for each asset, or one rate for each live order under its number.
    Count,
    /// The price of this asset is out of range, or no order names the asset and it isn't the start price.
    Price(u16),
    /// The rate at this place is no rounding of its order's demand at the prices.
    Rate(u32),
    /// The residual of this asset isn't the imbalance at these rates, or is past its tolerance.
    Residual(u16),
    /// The gap isn't what rounding loses on all orders, less what the imbalances cost at the prices.
    Gap,
}
