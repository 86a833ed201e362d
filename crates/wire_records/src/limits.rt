//! What a market may have at most.
use crate::Version;

/// What a market of one version may have at most. What would pass a limit is refused.
#[derive(Clone, Copy, Debug, PartialEq, Eq)]
pub struct Limits {
    /// The assets.
    pub assets: u16,
    /// The legs of an order.
    pub legs: u16,
    /// The live orders, of all accounts.
    pub orders: u32,
    /// The batches that were held, cleared or skipped.
    pub batches: u32,
}

impl Version {
    ghost use Rattle.std.specs.Prelude.{◌≡◌};
    ghost use Rattle.wire_records.specs.Limits.{limits_of};

    /// Returns what a market of the version may have at most. Constant cost.
    #[tactic(auto, unfolding(crate::specs::Limits::limits_of))]
    pub fn limits(self) -> Limits
        ensures { result ≡ limits_of self }
    {
        match self {
            Version::One | Version::Two | Version::Three | Version::Four => Limits {
                assets: 64,
                legs: 16,
                orders: 16_384,
                batches: 1 << 24,
            },
        }
    }
}
