ghost use Rattle.std.specs.Prelude.{◌+◌, ◌^◌, ◌<◌, ◌≤◌, pos, neg_ℤ, ◌<ℤ◌, ◌≤ℤ◌};
ghost use Rattle.single_bisect.specs.Places.{SameTest};
ghost use Rattle.single_bisect.specs.Turns.{TurnsOnce, IsLastBefore};

use crate::places::Probe;

// Returns the place such that, between `low` and `high`, the probe answers `turned` exactly at the places after it.
// It is from `low` on, and before `high`. Only places between the two are asked.
pub(crate) fn last_before_turn<P: Probe>(probe: &mut P, low: i64, high: i64, turned: bool) -> i64
    requires ends { low <ℤ high }
    requires low_end { neg_ℤ (pos (2 ^ 62)) ≤ℤ low }
    requires high_end { high ≤ℤ pos (2 ^ 62) }
    requires turns { TurnsOnce (P.test probe.old) low high turned }
    requires asks_left { P.asked probe.old < 2 ^ 63 }

    ensures last { IsLastBefore (P.test probe.old) low high turned result }

    ensures test_stays { SameTest (P.test probe.new) (P.test probe.old) }
    ensures asks_counted { P.asked probe.old ≤ P.asked probe.new }
    ensures few_asks { P.asked probe.new ≤ P.asked probe.old + 63 }
{
    // The result is from `before` on, less than `width` places later.
    let mut before = low;
    let mut width = high.abs_diff(low);
    while width > 1 {
        let half = width / 2;
        let middle = before + half as i64;
        if probe.at(middle) == turned {
            width = half;
        } else {
            before = middle;
            width -= half;
        }
    }
    before
}
