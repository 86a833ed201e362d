//! Making the moves of a walk again.
ghost use Rattle.std.specs.Prelude.{◌≡◌, ℕ, ◌+◌, ◌^◌, ◌≤◌, true, false, length, unsigned_abs, All};
ghost use Rattle.demand_curve.specs.Demand.{IsWithin};
ghost use Rattle.flow_orders.specs.Outcomes.{most_budget, step_of};
ghost use Rattle.flow_orders.specs.Duals.{movement_of};
ghost use Rattle.price_moves.specs.Retracing.{IsRetraced, IsMovable, IsLowered, made_of};

use crate::moves::make_move;
use excess_bounds::Workspace;

/// How far the moves of a walk could be made again.
#[derive(Clone, Copy, PartialEq, Eq)]
pub enum Retraced {
    /// All moves of the walk are valid, and were made.
    Legal,
    /// The first place, from 0, whose byte names no asset, or one that is settled when its move comes. The moves before it
    /// were made.
    Illegal(u32),
}

/// Makes the moves of a walk again, each of at most 2^45 grains, up to the first that isn't valid. They end by excess in parts
/// of a unit, 1 to 256 of them.
///
/// Each byte is the number of an asset. Its move is valid if there is such an asset and it isn't settled when its move
/// comes; the order of the assets is free.
///
/// The prices are within 2^60 grains of 0 at the start, and there are at most 65,536 bytes. Each byte costs a test whether
/// its asset is settled, and its move. It allocates nothing.
pub fn retrace(work: &mut Workspace<'_>, parts: u16, trace: &[u8]) -> Retraced
    requires some_parts { 1 ≤ parts }
    requires few_parts { parts ≤ 256 }
    requires most { length trace.now ≤ most_budget }
    requires start { All (IsWithin (2 ^ 60)) work.old.prices }
    ensures orders { work.new.orders ≡ work.old.orders }
    ensures retraced { IsRetraced parts result work.old.orders work.old.prices trace.now work.new.prices }

    // Each grain of the moves that were made lowers the exact dual value by at least a grain.
    ensures lowers { IsLowered work.old.orders work.old.prices
        (movement_of parts work.old.orders work.old.prices (made_of result trace.now)) work.new.prices }
{
    // Called for its contract: each order is within the limits.
    let _prices = work.prices();
    for (place, asset) in trace.iter().enumerate() {
        if !move_again(work, parts, *asset) {
            return Retraced::Illegal(place as u32);
        }
    }
    Retraced::Legal
}

// Returns whether the move of an asset is valid, and makes it if it is.
fn move_again(work: &mut Workspace<'_>, parts: u16, asset: u8) -> bool
    requires some_parts { 1 ≤ parts }
    requires few_parts { parts ≤ 256 }
    requires near { All (λ price. unsigned_abs price ≤ 2 ^ 60 + 2 ^ 61) work.old.prices }
    ensures orders { work.new.orders ≡ work.old.orders }
    ensures legal { (result ≡ true) → IsMovable work.old.orders work.old.prices asset }
    ensures moved { (result ≡ true) → work.new.prices ≡ step_of parts work.old.orders work.old.prices asset }
    ensures illegal { (result ≡ false) → ¬ IsMovable work.old.orders work.old.prices asset }
    ensures stays { (result ≡ false) → work.new.prices ≡ work.old.prices }
{
    let asset = u16::from(asset);
    if usize::from(asset) >= work.prices().len() {
        return false;
    }
    let Some(direction) = work.direction(asset) else {
        return false;
    };
    make_move(work, parts, asset, direction);
    true
}
