//! A demand rounded to whole units, or to parts of a unit, both ways by one division.

ghost use Rattle.std.specs.Prelude.{◌≡◌, ◌<◌, ◌≤◌, ◌*◌, ◌/◌, min};
ghost use Rattle.std.specs.Int.{div_ceil};

/// Both roundings of one demand, in whole units per batch. They differ by at most 1, and are equal exactly if
/// the demand is a whole number.
#[derive(Clone, Copy, PartialEq, Eq)]
pub struct Roundings {
    /// The demand rounded down.
    pub floor: u32,
    /// The demand rounded up.
    pub ceil: u32,
}

impl Roundings {
    // Both roundings of a demand that is a whole number.
    pub(crate) fn of_whole(rate: u32) -> Roundings
        ensures floor { result.floor ≡ rate }
        ensures ceil { result.ceil ≡ rate }
    {
        Roundings {
            floor: rate,
            ceil: rate,
        }
    }

    // Both roundings of the fraction n/d, which is less than `most`.
    #[tactic(auto, using(crate::proofs::Quotients::rounding_steps))]
    pub(crate) fn of_fraction(n: u128, d: u64, most: u32) -> Roundings
        requires positive { 0 < d }
        requires below { n < most * d }
        ensures floor { result.floor ≡ n / d }
        ensures ceil { result.ceil ≡ div_ceil n d }
        ensures within { result.ceil ≤ most }
    {
        let floor = quotient(n, d) as u32;
        let is_whole = u128::from(floor) * u128::from(d) == n;
        let ceil = if is_whole { floor } else { floor + 1 };
        Roundings { floor, ceil }
    }
}

/// Both roundings of one demand in parts of a unit. They differ by at most 1.
#[derive(Clone, Copy, Debug, PartialEq, Eq)]
pub struct PartRoundings {
    /// The demand in parts, rounded down.
    pub floor: u64,
    /// The demand in parts, rounded up.
    pub ceil: u64,
}

impl PartRoundings {
    // Both roundings, in parts, of the fraction n/d, or of `room` if that is less.
    pub(crate) fn of_least(parts: u16, n: u128, d: u64, room: u32) -> PartRoundings
        requires some { 1 ≤ parts }
        requires positive { 0 < d }
        ensures floor { result.floor ≡ parts * min n (room * d) / d }
        ensures ceil { result.ceil ≡ div_ceil (parts * min n (room * d)) d }
        ensures floor_within_room { result.floor ≤ parts * room }
        ensures ceil_within_room { result.ceil ≤ parts * room }
    {
        let most = u64::from(parts) * u64::from(room);
        if u128::from(room) * u128::from(d) <= n {
            PartRoundings::of_whole(most)
        } else {
            PartRoundings::of_fraction(u128::from(parts) * n, d, most)
        }
    }

    // Both roundings of a whole number of parts.
    pub(crate) fn of_whole(number: u64) -> PartRoundings
        ensures floor { result.floor ≡ number }
        ensures ceil { result.ceil ≡ number }
    {
        PartRoundings {
            floor: number,
            ceil: number,
        }
    }

    // Both roundings of the fraction n/d, which is less than `most`.
    #[tactic(auto, using(crate::proofs::Quotients::rounding_steps))]
    fn of_fraction(n: u128, d: u64, most: u64) -> PartRoundings
        requires positive { 0 < d }
        requires below { n < most * d }
        ensures floor { result.floor ≡ n / d }
        ensures ceil { result.ceil ≡ div_ceil n d }
        ensures floor_within { result.floor ≤ most }
        ensures ceil_within { result.ceil ≤ most }
    {
        let floor = quotient(n, d) as u64;
        let is_whole = u128::from(floor) * u128::from(d) == n;
        let ceil = if is_whole { floor } else { floor + 1 };
        PartRoundings { floor, ceil }
    }
}

// n/d, rounded down. Dividing 128 bits is slow, so 64 bits are divided if n fits them.
fn quotient(n: u128, d: u64) -> u128
    requires positive { 0 < d }
    ensures value { result ≡ n / d }
{
    if n <= u128::from(u64::MAX) {
        u128::from(n as u64 / d)
    } else {
        n / u128::from(d)
    }
}
