//! Distances and squares, in numbers of at most 128 bits.

ghost use Rattle.std.specs.Prelude.{◌≡◌, ◌<◌, ◌≤◌, ◌*◌, ◌/◌, ◌^◌};
ghost use Rattle.demand_curve.specs.Numbers.{distance};

// Returns how far the upper price is above the lower one, or 0 if it is not above.
#[tactic(auto, unfolding(crate::specs::Numbers::distance), using(crate::proofs::Distances::distance_steps))]
pub(crate) fn distance(upper: i128, lower: i128) -> u128
    ensures { result ≡ distance upper lower }
{
    if lower < upper {
        upper.abs_diff(lower)
    } else {
        0
    }
}

// Returns the square of `n` over the product of `divisor` and `span`, rounded down. The square itself may not fit 128
// bits: by the quotient q and the remainder r of n over the span, it is (q * q * span + 2 * q * r) * span + r * r.
#[tactic(auto, using(crate::proofs::Quotients::square_steps))]
pub(crate) fn floor_square_over(n: u128, span: u128, divisor: u128) -> u128
    requires span_least { 0 < span }
    requires span_most { span ≤ 2 ^ 61 }
    requires divisor_least { 0 < divisor }
    requires quotient_most { n ≤ 2 ^ 24 * span }
    ensures value { result ≡ n * n / (divisor * span) }
    ensures most { result < 2 ^ 127 }
{
    let quotient = n / span;
    let rest = n % span;
    (quotient * quotient * span + 2 * quotient * rest + rest * rest / span) / divisor
}
