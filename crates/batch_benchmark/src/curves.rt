//! A fixed book of curves.
use crate::draws::Draws;
use demand_curve::Curve;
use std::alloc::{AllocError, Global};

const CURVES: u32 = 1 << 14;

// How far from 0 a limit is at least, in grains.
const NEAREST: i64 = 1 << 31;

// How much farther from 0 a limit is at most, in grains.
const SPREAD: u64 = 1 << 38;

const MOST_RATE: u64 = 1 << 24;

// Returns a curve whose limits lie on both sides of 0, and whose batch maximum is a little less than its rate.
fn curve(draws: &mut Draws) -> Curve {
    let below = draws.below(SPREAD) as i64;
    let above = draws.below(SPREAD) as i64;
    let rate = draws.below(MOST_RATE) as u32 + 1;
    Curve {
        low: -NEAREST - below,
        high: NEAREST + above,
        rate,
        room: rate - rate / 16,
    }
}

/// Returns 16,384 curves, the same each time.
pub fn fixed(alloc: Global) -> Result<Vec<Curve>, AllocError> {
    let mut draws = Draws::new(1);
    let mut curves = Vec::with_capacity(alloc, CURVES as usize)?;
    for _ in 0..CURVES {
        curves.push(curve(&mut draws))?;
    }
    Ok(curves)
}
