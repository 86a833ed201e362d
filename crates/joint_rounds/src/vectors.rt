//! Vectors of floating point numbers, one number for each asset.
ghost use Rattle.std.specs.Prelude.{◌≡◌, ◌+◌, ◌/◌, ◌^◌, ◌<◌, ◌≤◌, ℤ, pos, neg_ℤ, ◌+ℤ◌, ◌-ℤ◌, ◌≤ℤ◌, nat_le, unsigned_abs, length, map, All};
ghost use Rattle.std.specs.Int.{int_min, int_max};
ghost use Rattle.std.specs.List.{range_with_len};
ghost use Rattle.weight_rows.specs.Rows.{price_of};
ghost use Rattle.joint_prices.specs.Numbers.{cut, over as quotient_of};
ghost use Rattle.joint_prices.specs.Solving.{reduced};
ghost use Rattle.joint_prices.specs.Steps.{zip_with};
ghost use Rattle.joint_prices.specs.Sums.{AreSmall};
ghost use Rattle.joint_rounds.specs.Rounds.{top, flat_by, flat, dot, parts, is_little};
ghost use Rattle.joint_rounds.specs.Sums.{IsFlat};

use joint_prices::{Number, cut, minus, over, scale, times};

// The sum of products.
pub(crate) fn dot(xs: &[Number], ys: &[Number]) -> Number
    requires { length ys.now ≡ length xs.now }
    ensures { result ≡ dot xs.now ys.now }
{
    let mut sum = Number::zero();
    for a in 0..xs.len() {
        sum = minus(sum, times(minus(Number::zero(), xs[a]), ys[a]));
    }
    sum
}

// Subtracts f times another vector.
pub(crate) fn reduce(f: Number, other: &[Number], xs: &mut [Number])
    requires { length xs.old ≡ length other.now }
    ensures { xs.new ≡ reduced f other.now xs.old }
{
    for a in 0..xs.len() {
        let left = minus(xs[a], times(f, other[a]));
        xs[a] = left;
    }
}

// The quotients, place by place.
pub(crate) fn divide(xs: &[Number], ys: &[Number], into: &mut [Number])
    requires count { length ys.now ≡ length xs.now }
    requires room { length into.old ≡ length xs.now }
    ensures { into.new ≡ zip_with quotient_of xs.now ys.now }
{
    for a in 0..into.len() {
        let quotient = over(xs[a], ys[a]);
        into[a] = quotient;
    }
}

// Takes over the numbers of another vector.
pub(crate) fn copy(xs: &[Number], into: &mut [Number])
    requires { length into.old ≡ length xs.now }
    ensures { into.new ≡ xs.now }
{
    into.copy_from_slice(xs);
}

// The greatest exponent of a vector.
fn top(ds: &[Number]) -> i32
    ensures value { result ≡ top ds.now }
    ensures each { All (λ d. d.e ≤ℤ result) ds.now }
    ensures small { unsigned_abs result ≤ 2 ^ 20 }
{
    let mut top = Number::zero().e();
    for a in 0..ds.len() {
        top = top.max(ds[a].e());
    }
    top
}

// How many bits a mantissa loses when its number becomes a multiple of 2^(top + 16); 126 leave nothing of it.
fn shift_to_flat(top: i32, d: Number) -> i32
    requires above { d.e ≤ℤ top }
    requires most { top ≤ℤ pos (2 ^ 20) }
    ensures value { result ≡ int_min (top +ℤ pos 16 -ℤ d.e) (pos 126) }
    ensures low { pos 16 ≤ℤ result }
    ensures high { result ≤ℤ pos 126 }
{
    (top + 16 - d.e()).min(126)
}

// A number as a multiple of 2^(top + 16), rounded towards 0.
fn flat_by(top: i32, d: Number) -> i64
    requires above { d.e ≤ℤ top }
    requires most { top ≤ℤ pos (2 ^ 20) }
    ensures value { result ≡ flat_by top d }
    ensures flat { IsFlat result }
{
    scale(d.m(), shift_to_flat(top, d)) as i64
}

// A direction as multiples of one power of 2, whose exponent less 16 is the answer.
pub(crate) fn flatten(ds: &[Number], into: &mut [i64]) -> i32
    requires count { length into.old ≡ length ds.now }
    requires flat { All IsFlat into.old }
    ensures value { into.new ≡ flat ds.now }
    ensures flat { All IsFlat into.new }
    ensures top { result ≡ top ds.now }
    ensures small { unsigned_abs result ≤ 2 ^ 20 }
{
    let top = top(ds);
    flatten_by(top, ds, into);
    top
}

// Each number as a multiple of 2^(top + 16), rounded towards 0.
fn flatten_by(top: i32, ds: &[Number], into: &mut [i64])
    requires above { All (λ d. d.e ≤ℤ top) ds.now }
    requires most { top ≤ℤ pos (2 ^ 20) }
    requires count { length into.old ≡ length ds.now }
    requires flat { All IsFlat into.old }
    ensures value { into.new ≡ map (flat_by top) ds.now }
    ensures flat { All IsFlat into.new }
{
    for a in 0..into.len() {
        let number = flat_by(top, ds[a]);
        into[a] = number;
    }
}

// Each sum as a number, times 2^e.
pub(crate) fn cut_all(sums: &[i128], e: i32, into: &mut [Number])
    requires count { length into.old ≡ length sums.now }
    requires small { AreSmall (2 ^ 125 + 2 ^ 20) sums.now }
    requires e { unsigned_abs e ≤ 2 ^ 21 }
    ensures { into.new ≡ map (λ a. cut (price_of sums.now a) e) (range_with_len 0 (length sums.now)) }
{
    for a in 0..into.len() {
        let number = cut(sums[a], e);
        into[a] = number;
    }
}

// By how many bits the mantissa is shifted to make the parts of a unit, of which there are 256.
fn shift_to_parts(x: Number) -> i32
    ensures value { result ≡ int_max (neg_ℤ (pos 62)) (int_min (neg_ℤ (x.e +ℤ pos 8)) (pos 62)) }
    ensures low { neg_ℤ (pos 62) ≤ℤ result }
    ensures high { result ≤ℤ pos 62 }
{
    (-(x.e() + 8)).clamp(-62, 62)
}

// An amount of units in parts of 1/256, rounded towards 0 and cut to 2^62 in absolute value.
fn parts(x: Number) -> i64
    ensures { result ≡ parts x }
{
    let most = 1 << 62;
    scale(x.m(), shift_to_parts(x)).clamp(-most, most) as i64
}

// Whether what is left of an asset is at most a quarter of what roundings leave open.
fn is_part_little(left: Number, open_parts: u64) -> bool
    ensures { result ≡ nat_le (unsigned_abs (parts left)) (open_parts / 4) }
{
    parts(left).unsigned_abs() <= open_parts / 4
}

// Whether what is left of each asset is at most a quarter of what roundings leave open.
pub(crate) fn is_little(left: &[Number], open_parts: &[u64]) -> bool
    requires { length open_parts.now ≡ length left.now }
    ensures { result ≡ is_little left.now open_parts.now }
{
    for a in 0..left.len() {
        if !is_part_little(left[a], open_parts[a]) {
            return false;
        }
    }
    true
}
