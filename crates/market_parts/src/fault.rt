//! Why parts aren't made into a market.
ghost use Rattle.std.specs.Prelude.{◌≡◌};
ghost use Rattle.market_parts.specs.declared.fault.RestoreFault.TheVariants.{Memory};

use std::alloc::AllocError;

/// Why parts aren't made into a market.
#[derive(Clone, Copy, Debug, PartialEq, Eq)]
pub enum RestoreFault {
    /// They are the parts of no consistent market, or the number that the next order gets is 2^63 or more.
    Unsound,
    /// Memory ran out.
    Memory,
}

impl From<AllocError> for RestoreFault {
    ghost from_gives = { λ _ fault. fault ≡ Memory };

    fn from(_error: AllocError) -> RestoreFault {
        RestoreFault::Memory
    }
}

impl From<out_of_memory::Memory> for RestoreFault {
    ghost from_gives = { λ _ fault. fault ≡ Memory };

    fn from(_error: out_of_memory::Memory) -> RestoreFault {
        RestoreFault::Memory
    }
}
