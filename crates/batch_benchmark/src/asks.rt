//! What curves are asked, and a checksum of their answers.
ghost use Rattle.std.specs.Prelude.{◌^◌};
ghost use Rattle.demand_curve.specs.Demand.{IsWithin};

use crate::draws::Draws;
use demand_curve::Curve;

/// The range of the prices.
#[derive(Clone, Copy)]
pub enum Kind {
    /// From -2^42 to 2^42 grains, of which the limits of a curve enclose few.
    Cut,
    /// From -2^31 to 2^31 grains, all of which the limits of every curve enclose.
    Uncut,
}

impl Kind {
    // Returns the price that a number of 64 bits gives, in grains.
    fn price(self, draw: u64) -> i128
        ensures { IsWithin (2 ^ 78) result }
    {
        match self {
            Kind::Cut => i128::from(draw >> 21) - (1 << 42),
            Kind::Uncut => i128::from(draw >> 32) - (1 << 31),
        }
    }
}

/// Asks each curve for both roundings in each pass, and returns a checksum of all answers.
pub fn checksum(curves: &[Curve], kind: Kind, passes: u32) -> u64 {
    let mut draws = Draws::new(1);
    let mut checksum = 0u64;
    for _ in 0..passes {
        for curve in curves {
            let price = kind.price(draws.any());
            let roundings = curve.roundings(price);
            let answer = u64::from(roundings.floor) + (1 << 32) * u64::from(roundings.ceil);
            checksum = checksum.wrapping_mul(31).wrapping_add(answer);
        }
    }
    checksum
}
