//! A published clearing in memory.
ghost use Rattle.std.specs.Prelude.{◌<◌, ◌≤◌, ◌^◌, length};

use batch_outcome::ClearedParts;

/// Price and imbalance of each asset, number and rate of each order, and the gap.
#[derive(Drop)]
pub struct Published<'a> {
    /// At most 64.
    pub assets: &'a [(i64, i64)],
    /// Fewer than 2^32.
    pub fills: &'a [(u64, u32)],
    /// The gap, in grains.
    pub gap: i128,
    ghost few: { length assets.now ≤ 64 },
    ghost few_fills: { length fills.now < 2 ^ 32 },
}

impl<'a> ClearedParts for Published<'a> {
    ghost use Rattle.std.specs.Prelude.{ℕ, ℤ, map};

    ghost clearing = { λ p. record {
      prices = map (λ (a : ℤ × ℤ). a.0) p.assets.now;
      fills = map (λ (f : ℕ × ℕ). record { order = f.0; rate = f.1 }) p.fills.now;
      residuals = map (λ (a : ℤ × ℤ). a.1) p.assets.now;
      gap = p.gap;
    } };

    fn price_count(&self) -> u16 {
        self.assets.len() as u16
    }

    fn price(&self, k: u16) -> Option<i64> {
        Some(self.assets.get(usize::from(k))?.0)
    }

    fn rate_count(&self) -> u32 {
        self.fills.len() as u32
    }

    fn order(&self, k: u32) -> Option<u64> {
        Some(self.fills.get(k as usize)?.0)
    }

    fn rate(&self, k: u32) -> Option<u32> {
        Some(self.fills.get(k as usize)?.1)
    }

    fn residual(&self, k: u16) -> Option<i64> {
        Some(self.assets.get(usize::from(k))?.1)
    }

    fn gap(&self) -> i128 {
        self.gap
    }
}
