//! Laws of every demand curve, for crates that reason about prices and rates.
//!
//! Each function does nothing. Its clause is a law, stated in the crate's `specs/Laws.antt` for all terms within
//! their limits and all prices; a caller has the law after the call. All are free.

ghost use Rattle.demand_curve.specs.Laws.{SpanIsInRange, DemandIsCutAtLimits, DemandNeverRises, DemandMovesLittle, RoundingsEncloseDemand, WholeDemandIsRoundedOnce, RoundingsAreFloorAndCeil, RoundingIsWithinRoom, RoundingIsExactAtCuts, RoundingsMoveLittle, PartsEncloseDemand, PartsNeverRise, PartsMoveLittle, OnePartIsAUnit, LossIsZeroAtDemand, LossIsSmall, GainIsDifferenceOfSquares, LossCoversBestRate, LossCoversBestRateInParts, DualIsByCases, DualIsGreatestGain, DualFallsByDemand, DualFallsInParts, DualFloorInParts, DualIsSmooth};

/// The span `high - low` is 2^32 to 2^61 grains.
pub fn span_is_in_range()
    ensures { SpanIsInRange }
{}

/// The demand is none from the high limit on, and the batch maximum up to the low limit and on to where the line asks
/// for less. From there to the high limit it is `rate * (high - price) / span`. It never passes the batch maximum.
pub fn demand_is_cut_at_limits()
    ensures { DemandIsCutAtLimits }
{}

/// Demand and its two roundings never rise as the price rises.
pub fn demand_never_rises()
    ensures { DemandNeverRises }
{}

/// A price that moves by some grains moves the demand by at most 1/256 of a unit for each grain.
pub fn demand_moves_little()
    ensures { DemandMovesLittle }
{}

/// The demand is between its two roundings, which differ by at most one and don't pass the batch maximum.
pub fn roundings_enclose_demand()
    ensures { RoundingsEncloseDemand }
{}

/// Both roundings are equal exactly if the demand is a whole number, and then they are the demand.
pub fn whole_demand_is_rounded_once()
    ensures { WholeDemandIsRoundedOnce }
{}

/// A rate is a rounding exactly if it is the demand rounded down or the demand rounded up.
pub fn roundings_are_floor_and_ceil()
    ensures { RoundingsAreFloorAndCeil }
{}

/// A rounding is at most the batch maximum.
pub fn rounding_is_within_room()
    ensures { RoundingIsWithinRoom }
{}

/// If the demand is cut, to nothing or to the batch maximum, every rounding is the demand itself.
pub fn rounding_is_exact_at_cuts()
    ensures { RoundingIsExactAtCuts }
{}

/// The demand rounded down is above the demand rounded up at a higher price by at most 1/256 of a unit for each
/// grain between the two prices.
pub fn roundings_move_little()
    ensures { RoundingsMoveLittle }
{}

/// The demand in parts of a unit is between its two roundings, which differ by at most one part and are between the
/// roundings in whole units.
pub fn parts_enclose_demand()
    ensures { PartsEncloseDemand }
{}

/// Neither rounding in parts rises as the price rises.
pub fn parts_never_rise()
    ensures { PartsNeverRise }
{}

/// The demand in parts, rounded down, is above the demand in parts, rounded up, at a higher price by at most 1/256 of
/// a unit for each grain between the two prices.
pub fn parts_move_little()
    ensures { PartsMoveLittle }
{}

/// In one part the roundings are those in whole units.
pub fn one_part_is_a_unit()
    ensures { OnePartIsAUnit }
{}

/// The loss is 0 exactly if the rate is the demand.
pub fn loss_is_zero_at_demand()
    ensures { LossIsZeroAtDemand }
{}

/// A rounding's loss is at most `span / (2 * rate)` rounded up, and at most 2^60 grains.
pub fn loss_is_small()
    ensures { LossIsSmall }
{}

/// What a rate gains is a difference of two squares: with y the rate, e0 the line at the price and S the span,
/// `2 * rate * S * (high * y - S * y * y / (2 * rate) - price * y)` is `e0 * e0 - (e0 - S * y) * (e0 - S * y)`.
/// So the demand is the best rate. Here y is the fraction n/k, and for k = 1 a whole rate.
pub fn gain_is_difference_of_squares()
    ensures { GainIsDifferenceOfSquares }
{}

/// A rounding gains, together with its loss, at least what any rate within the batch maximum gains at that price,
/// also a fraction n/k.
pub fn loss_covers_best_rate()
    ensures { LossCoversBestRate }
{}

/// [`loss_covers_best_rate`] in the parts in which the orders of a book add up: M is any number that 2 * rate divides.
pub fn loss_covers_best_rate_in_parts()
    ensures { LossCoversBestRateInParts }
{}

/// The dual value by cases: 0 from the high limit on, a square on the line, and at the batch maximum what the price
/// spares less a square; and all three in one formula.
pub fn dual_is_by_cases()
    ensures { DualIsByCases }
{}

/// The dual value is the greatest gain of a rate within the batch maximum at that price.
pub fn dual_is_greatest_gain()
    ensures { DualIsGreatestGain }
{}

/// When the price moves, the dual value falls by at least the move times the demand after it.
pub fn dual_falls_by_demand()
    ensures { DualFallsByDemand }
{}

/// [`dual_falls_by_demand`] in parts k times as fine, for any k: in these the orders of a book add up.
pub fn dual_falls_in_parts()
    ensures { DualFallsInParts }
{}

/// In parts of which a grain has N, where N is k times the order's own `2 * rate * span`, the dual value is at
/// least `dual_floor`, and less than one grain above it.
pub fn dual_floor_in_parts()
    ensures { DualFloorInParts }
{}

/// A price that moves by some grains lowers the dual value by at least the move times the demand before it, less half of
/// the move times what it may change the demand by.
pub fn dual_is_smooth()
    ensures { DualIsSmooth }
{}
