//! What holds of books of orders, whatever the code. Each law is the contract of a function that does nothing.
ghost use Rattle.flow_orders.specs.Laws.{MovesLowerTheDual, MovesWithinReachSettle, PartsNarrowExcess, WalksLowerTheDual, AdmissibleSkipsLowerTheDual, AdmissibleClearingsAreOptimal, GapsAreBounded, CommonsExist, WelfareIsAsSaid};

/// A move of an unsettled asset lowers the exact dual value by at least its amount, whatever the reach and the parts.
pub fn moves_lower_the_dual()
    ensures { MovesLowerTheDual }
{}

/// A move that wasn't ended by its reach leaves its asset settled, by whole units.
pub fn moves_within_reach_settle()
    ensures { MovesWithinReachSettle }
{}

/// Excess in parts of a unit is within excess in whole units.
pub fn parts_narrow_excess()
    ensures { PartsNarrowExcess }
{}

/// A valid walk lowers the exact dual value by at least its movement, which is at least a grain for each move.
pub fn walks_lower_the_dual()
    ensures { WalksLowerTheDual }
{}

/// The moves of an admissible skip lower the dual value by more than their movement less the number of orders.
pub fn admissible_skips_lower_the_dual()
    ensures { AdmissibleSkipsLowerTheDual }
{}

/// No balanced rates beat those of an admissible clearing by more than its gap.
pub fn admissible_clearings_are_optimal()
    ensures { AdmissibleClearingsAreOptimal }
{}

/// The gap of an admissible clearing is at most what all roundings can lose, `span / (2 * rate)` rounded up each, and
/// what imbalances within their tolerances can cost.
pub fn gaps_are_bounded()
    ensures { GapsAreBounded }
{}

/// Every book has a number that twice the rate of each order divides, so in parts of it welfare is a whole number.
pub fn commons_exist()
    ensures { CommonsExist }
{}

/// Welfare is what a trader expects. Whole rates are worth the high limit for each unit, less `span / (2 * rate)`
/// times the square of the rate. Trading nothing is balanced and worth nothing. With `k` above 0, the fractions
/// `k * n / (k * K)` are balanced if `n / K` are, and worth the same.
pub fn welfare_is_as_said()
    ensures { WelfareIsAsSaid }
{}
