//! How a market is read from its checkpoint.
ghost use Rattle.market_snapshot.specs.Answers.{IsMarketRead};

use crate::view::view_of;
use market_core::Market;
use market_parts::RestoreFault;
use std::alloc::{AllocError, Global};

/// Why no market was read.
#[derive(Clone, Copy, PartialEq, Eq)]
pub enum SnapshotFault {
    /// The bytes don't begin with a checkpoint: they are too few, or of another form, or encode no consistent market, or one whose
    /// next order would get a number of 2^63 or more.
    NotSound,
    /// An allocation failed.
    Memory,
}

impl From<AllocError> for SnapshotFault {
    ghost use Rattle.std.specs.Prelude.{◌≡◌};
    ghost use Rattle.market_snapshot.specs.declared.reading.SnapshotFault.TheVariants.{Memory};

    ghost from_gives = { λ _ fault. fault ≡ Memory };

    fn from(_error: AllocError) -> SnapshotFault {
        SnapshotFault::Memory
    }
}

/// Returns the market whose checkpoint the bytes begin with, and how many bytes the checkpoint takes; what follows it isn't
/// looked at. `alloc` is for the market's collections. Besides these it allocates only eight bytes for each order while it reads.
///
/// Costs one pass over the checkpoint's bytes, which are read in place, and the test of consistency.
pub fn read_market(alloc: Global, bytes: &[u8]) -> Result<(Market, usize), SnapshotFault>
    ensures { IsMarketRead bytes.now result }
{
    let view = match view_of(alloc, bytes) {
        Err(fault) => return Err(fault),
        Ok(view) => view,
    };
    match Market::restore(alloc, &view) {
        Err(RestoreFault::Unsound) => Err(SnapshotFault::NotSound),
        Err(RestoreFault::Memory) => Err(SnapshotFault::Memory),
        Ok(market) => Ok((market, view.len())),
    }
}
