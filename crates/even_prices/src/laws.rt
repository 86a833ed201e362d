//! What holds at even prices. Each law is the contract of a function that does nothing.
ghost use Rattle.even_prices.specs.Laws.{EvenResidualsAreBounded, ActiveBoundsAreWithinTolerances, SteadyOrdersWidenNothing, NobodyTradesAlone, UnevenIsTested, MovesMakeEven, EvenMovesLowerTheDual, SinglesEndEven};

/// The imbalance of an even asset is at most its bound by active legs, however the demands are rounded.
pub fn even_residuals_are_bounded()
    ensures { EvenResidualsAreBounded }
{}

/// The bound by active legs is at most the tolerance of the asset. So at even prices each imbalance is within its tolerance,
/// and what is promised of such imbalances holds.
pub fn active_bounds_are_within_tolerances()
    ensures { ActiveBoundsAreWithinTolerances }
{}

/// An order whose demand is the same at all prices within a grain widens nobody's residual: it adds one number to the low
/// and the high excess of an asset, and its legs needn't be counted. Each order that isn't active is one, and some that are
/// active are too, such as one that is near its cap.
pub fn steady_orders_widen_nothing()
    ensures { SteadyOrdersWidenNothing }
{}

/// Who has nobody to trade with asks for less than 1/256 of a unit, whatever the weights and the rate. Of an even asset that
/// nobody sells, or that nobody buys, no order demands as much, and a unit more of any order adds to the imbalance. An order
/// that is alone at even prices has 0 as its demand rounded down. The only other rounding is 1, which leaves a larger
/// imbalance, so a choice that leaves no larger one trades nothing.
pub fn nobody_trades_alone()
    ensures { NobodyTradesAlone }
{}

/// The tests by which walks of prices are defined tell which assets are even, and no price is both too low and too high.
pub fn uneven_is_tested()
    ensures { UnevenIsTested }
{}

/// A move of an asset that isn't even makes it even, unless its reach ends it.
pub fn moves_make_even()
    ensures { MovesMakeEven }
{}

/// Each grain of such a move but the last lowers the exact dual value by 1/256 of a grain or more. The last one may raise it,
/// by at most half of the slope bound.
pub fn even_moves_lower_the_dual()
    ensures { EvenMovesLowerTheDual }
{}

/// In a book in which each order names one asset, one move of each asset that isn't even makes all prices even: from
/// within 2^60 grains of 0 it ends there, and no other asset becomes uneven by it.
pub fn singles_end_even()
    ensures { SinglesEndEven }
{}
