//! Finds how far the price of an asset moves.
//!
//! As a price moves, what an order asks for of the asset never grows: it falls in steps. Between two amounts most orders
//! soon ask for the same at both ends, and aren't looked at again.

ghost use Rattle.std.specs.Prelude.{◌≡◌, ◌*◌, ◌^◌, ◌+◌, ◌-◌, ◌/◌, ◌<◌, ◌≤◌, ◌⊎◌, min, if◌then◌else◌, int_lt, pos, length, map, unsigned_abs, vec_len, vec_capacity, All};
ghost use Rattle.list_sums.specs.Sums.{int_sum_by};
ghost use Rattle.flow_orders.specs.Orders.{most_orders};
ghost use Rattle.excess_bounds.specs.Ends.{IsEnd};
ghost use Rattle.excess_bounds.specs.Private.{IsColumn};
ghost use Rattle.excess_bounds.specs.Steps.{CanLook, IsSmall, IsNarrowed, CanMove, asked_after, part_after, looked, closed, still_open, settled_sum, most_slow};

use crate::columns::Cell;
use crate::directions::Direction;
use crate::quotes::Quote;
use crate::steps::Step;

// Two amounts, in grains, between which the move of a price ends: after the low one it goes on, and after the high one it
// has ended or can't go further.
#[derive(Clone, Copy)]
struct Bracket {
    // The low amount: 0, or it is known that the move goes on.
    low: u64,
    // The high amount: the reach of the move, or it is known that the move has ended.
    high: u64,
}

// What steps ask for together, in parts of a unit, and how fast that falls: about 2^40 times the parts per grain.
#[derive(Clone, Copy)]
struct Seen {
    sum: i64,
    slope: u64,
}

// How many amounts in a row may leave more than half of the bracket. The next one is its middle, so of four in a row one at
// least halves the bracket, and at most 248 are looked at.
const MOST_SLOW: u32 = 3;

// With so few steps left, amounts are looked at at which one of them asks for less.
const FEW: usize = 2;

// Returns the least amount, of at most `reach`, after which the orders of a column ask for no more than the bound, both in
// parts of a unit; or the reach, if there is none. A bracket is narrowed until its ends are one grain apart.
pub(crate) fn narrow(
    parts: u16,
    quotes: &[Quote],
    cells: &[Cell],
    direction: Direction,
    steps: &mut Vec<Step>,
    bound: i64,
    reach: u64,
) -> u64
    requires some_parts { 1 ≤ parts }
    requires few_parts { parts ≤ 256 }
    requires column { IsColumn cells.now }
    requires there { All (λ c. c.place < length quotes.now) cells.now }
    requires moves { All (CanMove quotes.now direction reach) cells.now }
    requires room { length cells.now ≤ vec_capacity steps.old }
    requires some { 0 < reach }
    requires most { reach ≤ 2 ^ 62 }
    ensures end { IsEnd (asked_after parts quotes.now direction cells.now) bound reach result }
    ensures capacity { vec_capacity steps.new ≡ vec_capacity steps.old }
{
    let seen = begin(parts, quotes, cells, direction, reach, steps);
    let mut rest = 0;
    let mut bracket = Bracket {
        low: 0,
        high: reach,
    };
    let mut guess = Guess::first(missing(seen.sum, bound), seen.slope);
    while bracket.low + 1 < bracket.high {
        let amount = guess.amount(steps, bracket);
        let seen = ask(steps, amount);
        let asked = rest + seen.sum;
        let is_low = is_above(asked, bound);
        rest += close(steps, is_low);
        let next = bracket.with(amount, is_low);
        guess = guess.next(bracket, next, is_low, missing(asked, bound), seen.slope);
        bracket = next;
    }
    bracket.high
}

impl Bracket {
    // Returns the amount in the middle of both.
    fn middle(self) -> u64
        requires { self.low ≤ self.high }
        ensures { result ≡ self.low + (self.high - self.low) / 2 }
    {
        self.low + (self.high - self.low) / 2
    }

    fn with(self, amount: u64, is_low: bool) -> Bracket
        ensures { result ≡ (if is_low then record { low = amount; high = self.high } else record { low = self.low; high = amount }) }
    {
        if is_low {
            Bracket {
                low: amount,
                high: self.high,
            }
        } else {
            Bracket {
                low: self.low,
                high: amount,
            }
        }
    }
}

// Returns how far what is asked for is from the bound, and a little more, so that guesses go a little too far.
fn missing(asked: i64, bound: i64) -> u64 {
    asked.abs_diff(bound).saturating_add(4)
}

fn is_above(asked: i64, bound: i64) -> bool
    ensures { result ≡ int_lt bound asked }
{
    bound < asked
}

// Fills `steps` with the steps of a column's orders before the move, and returns what they ask for.
fn begin(
    parts: u16,
    quotes: &[Quote],
    cells: &[Cell],
    direction: Direction,
    reach: u64,
    steps: &mut Vec<Step>,
) -> Seen
    requires some_parts { 1 ≤ parts }
    requires few_parts { parts ≤ 256 }
    requires column { IsColumn cells.now }
    requires there { All (λ c. c.place < length quotes.now) cells.now }
    requires moves { All (CanMove quotes.now direction reach) cells.now }
    requires room { length cells.now ≤ vec_capacity steps.old }
    ensures narrowed { IsNarrowed (asked_after parts quotes.now direction cells.now) steps.new.items (pos 0) (length cells.now) 0 reach }
    ensures capacity { vec_capacity steps.new ≡ vec_capacity steps.old }
{
    let mut sum = 0i64;
    let mut slope = 0u64;
    steps.clear();
    for cell in cells {
        let cell = cell.turned(direction);
        let step = quotes[cell.place as usize].step(parts, cell);
        sum = sum.wrapping_add(step.first);
        slope = slope.saturating_add(step.pull_now());
        steps.push_reserved(step);
    }
    Seen { sum, slope }
}

// Looks at what each step asks for after an amount, and returns the sum.
fn ask(steps: &mut Vec<Step>, amount: u64) -> Seen
    requires few { length steps.old.items ≤ most_orders }
    requires each { All (CanLook amount) steps.old.items }
    requires amount { amount ≤ 2 ^ 62 }
    ensures steps { steps.new.items ≡ map (looked amount) steps.old.items }
    ensures sum { result.sum ≡ int_sum_by (part_after amount) steps.old.items }
    ensures bound { unsigned_abs result.sum ≤ length steps.old.items * 2 ^ 44 }
    ensures capacity { vec_capacity steps.new ≡ vec_capacity steps.old }
{
    let mut sum = 0;
    let mut slope = 0u64;
    for at in 0..steps.len() {
        let step = steps[at].looked(amount);
        sum += step.here;
        slope = slope.saturating_add(step.pull_here());
        steps[at] = step;
    }
    Seen { sum, slope }
}

// Takes the amount that was looked at last as an end of the bracket, removes the steps that ask for the same at both ends,
// and returns what these ask for together.
fn close(steps: &mut Vec<Step>, is_low: bool) -> i64
    requires few { length steps.old.items ≤ most_orders }
    requires each { All IsSmall steps.old.items }
    ensures steps { steps.new.items ≡ still_open (map (closed is_low) steps.old.items) }
    ensures rest { result ≡ settled_sum (map (closed is_low) steps.old.items) }
    ensures capacity { vec_capacity steps.new ≡ vec_capacity steps.old }
{
    let mut kept = 0;
    let mut rest = 0;
    for at in 0..steps.len() {
        let step = steps[at].closed(is_low);
        if step.is_closed() {
            rest += step.first;
        } else {
            steps[kept] = step;
            kept += 1;
        }
    }
    steps.truncate(kept);
    rest
}

// Which amount to look at next.
//
// From each end of the bracket, the slope there says where what is asked for comes to the bound. The nearer one is guessed,
// and a little more, so that the next end is just past it.
#[derive(Clone, Copy)]
struct Guess {
    // How many grains after the low end, and before the high one, that is; the most if nothing is known of the high end.
    after_low: u64,
    before_high: u64,
    // How many amounts in a row left more than half of the bracket.
    slow: u32,
}

impl Guess {
    // Returns the first guess, for this much missing at the low end.
    fn first(missing: u64, slope: u64) -> Guess {
        Guess {
            after_low: distance(missing, slope),
            before_high: u64::MAX,
            slow: 0,
        }
    }

    // Returns the next guess, after a bracket was narrowed at an end at which this much is missing, or too much.
    fn next(self, before: Bracket, next: Bracket, is_low: bool, missing: u64, slope: u64) -> Guess
        requires before { before.low ≤ before.high }
        requires next { next.low ≤ next.high }
        ensures slow { (next.high - next.low ≤ (before.high - before.low) / 2) ⊎ (min (self.slow + 1) most_slow ≤ result.slow) }
    {
        let far = distance(missing, slope);
        Guess {
            after_low: if is_low { far } else { self.after_low },
            before_high: if is_low { self.before_high } else { far },
            slow: self.slow_after(before, next),
        }
    }

    // Returns how many amounts in a row left more than half of the bracket, after it was narrowed.
    fn slow_after(self, before: Bracket, next: Bracket) -> u32
        requires before { before.low ≤ before.high }
        requires next { next.low ≤ next.high }
        ensures slow { (next.high - next.low ≤ (before.high - before.low) / 2) ⊎ (min (self.slow + 1) most_slow ≤ result) }
    {
        if next.high - next.low > (before.high - before.low) / 2 {
            self.slow.saturating_add(1)
        } else {
            0
        }
    }

    // Returns an amount between both ends.
    fn amount(self, steps: &[Step], bracket: Bracket) -> u64
        requires { bracket.low + 1 < bracket.high }
        ensures above { bracket.low < result }
        ensures below { result < bracket.high }
        ensures middle { most_slow ≤ self.slow → result ≡ bracket.low + (bracket.high - bracket.low) / 2 }
    {
        self.wanted(steps, bracket)
            .clamp(bracket.low + 1, bracket.high - 1)
    }

    // Returns the amount that would be looked at, wherever the ends are.
    fn wanted(self, steps: &[Step], bracket: Bracket) -> u64
        requires { bracket.low < bracket.high }
        ensures { most_slow ≤ self.slow → result ≡ bracket.low + (bracket.high - bracket.low) / 2 }
    {
        if self.slow >= MOST_SLOW {
            return bracket.middle();
        }
        match steps.first() {
            Some(step) if steps.len() <= FEW => step.middle(),
            _ => self.by_slope(bracket),
        }
    }

    // Returns the nearer of the two amounts to which the slopes lead, and a little more. Where both lead out of the bracket,
    // its high end is taken down by powers of two first, since a reach is far.
    fn by_slope(self, bracket: Bracket) -> u64
        requires { bracket.low < bracket.high }
    {
        let near = self.after_low.min(self.before_high);
        let far = near.saturating_add(near / 64);
        if far < bracket.high - bracket.low {
            if self.after_low <= self.before_high {
                bracket.low + far
            } else {
                bracket.high - far
            }
        } else if self.may_reach(bracket) {
            bracket.high
        } else if bracket.low < bracket.high / 16 {
            bracket.high / 16
        } else {
            bracket.middle()
        }
    }

    // Returns whether the move may go to its reach: nothing is known of the high end, and the low end is past 0 or has a slope.
    fn may_reach(self, bracket: Bracket) -> bool {
        self.before_high == u64::MAX && (bracket.low > 0 || self.after_low < MOST_DISTANCE)
    }
}

// The most grains to which a slope leads; to so many, if there is none.
const MOST_DISTANCE: u64 = 1 << 62;

// Returns the grains over which this much less is asked for, 1 to 2^62.
fn distance(missing: u64, slope: u64) -> u64 {
    let grains = (u128::from(missing) << 40) / u128::from(slope.max(1));
    grains.clamp(1, u128::from(MOST_DISTANCE)) as u64
}
