ghost use Rattle.std.specs.Prelude.{◌+◌, ◌^◌, ◌<◌, ◌≤◌, pos, neg_ℤ, ◌<ℤ◌, ◌≤ℤ◌, IsTrue};
ghost use Rattle.single_bisect.specs.Places.{IsClosedDownwards, IsGreatestTrue, SameTest};

use crate::places::Probe;
use crate::turn::last_before_turn;

/// Returns the greatest place below `high` at which the probe answers yes.
///
/// The caller has to know that the probe answers yes at `low`, and that below `high` it answers yes
/// at every place before one with a yes. It costs at most 63 asks, however far apart the ends are,
/// and allocates nothing.
pub fn greatest_true<P: Probe>(probe: &mut P, low: i64, high: i64) -> i64
    requires ends { low <ℤ high }
    requires low_end { neg_ℤ (pos (2 ^ 62)) ≤ℤ low }
    requires high_end { high ≤ℤ pos (2 ^ 62) }
    requires downwards { IsClosedDownwards (P.test probe.old) low high }
    requires true_at_low { IsTrue (P.test probe.old low) }
    requires asks_left { P.asked probe.old < 2 ^ 63 }

    ensures greatest { IsGreatestTrue (P.test probe.old) high result }
    ensures within { low ≤ℤ result }

    ensures test_stays { SameTest (P.test probe.new) (P.test probe.old) }
    ensures asks_counted { P.asked probe.old ≤ P.asked probe.new }
    ensures few_asks { P.asked probe.new ≤ P.asked probe.old + 63 }
{
    last_before_turn(probe, low, high, false)
}
