ghost use Rattle.std.specs.Prelude.{◌+◌, ◌^◌, ◌<◌, ◌≤◌, pos, neg_ℤ, ◌<ℤ◌, ◌≤ℤ◌, IsTrue};
ghost use Rattle.single_bisect.specs.Places.{IsClosedUpwards, IsLeastTrue, SameTest};

use crate::places::Probe;
use crate::turn::last_before_turn;

/// Returns the least place above `low` at which the probe answers yes.
///
/// The caller has to know that the probe answers yes at `high`, and that above `low` it answers yes at every
/// place after one with a yes. It costs at most 63 asks, however far apart the ends are, and allocates nothing.
pub fn least_true<P: Probe>(probe: &mut P, low: i64, high: i64) -> i64
    requires ends { low <ℤ high }
    requires low_end { neg_ℤ (pos (2 ^ 62)) ≤ℤ low }
    requires high_end { high ≤ℤ pos (2 ^ 62) }
    requires upwards { IsClosedUpwards (P.test probe.old) low high }
    requires true_at_high { IsTrue (P.test probe.old high) }
    requires asks_left { P.asked probe.old < 2 ^ 63 }

    ensures least { IsLeastTrue (P.test probe.old) low result }
    ensures within { result ≤ℤ high }

    ensures test_stays { SameTest (P.test probe.new) (P.test probe.old) }
    ensures asks_counted { P.asked probe.old ≤ P.asked probe.new }
    ensures few_asks { P.asked probe.new ≤ P.asked probe.old + 63 }
{
    last_before_turn(probe, low, high, true) + 1
}
