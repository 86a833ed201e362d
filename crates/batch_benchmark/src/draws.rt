//! Numbers that look random.
ghost use Rattle.std.specs.Prelude.{◌<◌};

/// A fixed sequence of numbers without a visible pattern: Knuth's linear congruential generator of 64 bits.
#[derive(Drop)]
pub struct Draws {
    state: u64,
}

impl Draws {
    /// Returns the sequence of a seed, at its first number.
    pub fn new(seed: u64) -> Draws {
        Draws { state: seed }
    }

    /// Returns the next number. Its high bits vary most.
    pub fn any(&mut self) -> u64 {
        self.state = self
            .state
            .wrapping_mul(6_364_136_223_846_793_005)
            .wrapping_add(1_442_695_040_888_963_407);
        self.state
    }

    /// Returns the next number, brought below a limit of at most 2^40.
    pub fn below(&mut self, limit: u64) -> u64
        requires some { 0 < limit }
        ensures below { result < limit }
    {
        (self.any() >> 20) % limit
    }
}
