//! What holds of the canonical rule. Each law is the contract of a function that does nothing.
ghost use Rattle.canonical_rule.specs.Laws.{OneCanonicalOutcome, EveryBatchHasACanonicalOutcome, CanonicalOutcomesAreAdmissible, OneAssetBooksClear, JointPricesSkipNoMore, ChosenRatesAreNoWorse, OneWalkOfEachLength, CanonicalWalksAreShortest, OnePartIsWholeUnits};

/// A batch has at most one canonical outcome.
pub fn one_canonical_outcome()
    ensures { OneCanonicalOutcome }
{}

/// Every batch has a canonical outcome.
pub fn every_batch_has_a_canonical_outcome()
    ensures { EveryBatchHasACanonicalOutcome }
{}

/// A canonical outcome is admissible.
pub fn canonical_outcomes_are_admissible()
    ensures { CanonicalOutcomesAreAdmissible }
{}

/// In a book of one-asset orders a canonical outcome is a clearing, at prices within 2^60 grains of 0, and an asset that
/// was settled keeps its price.
pub fn one_asset_books_clear()
    ensures { OneAssetBooksClear }
{}

/// A batch that clears without joint prices clears with them too, and one that is skipped with them is skipped without them,
/// in the same way.
pub fn joint_prices_skip_no_more()
    ensures { JointPricesSkipNoMore }
{}

/// Chosen rates have no larger sum of absolute imbalances than all demands rounded down.
pub fn chosen_rates_are_no_worse()
    ensures { ChosenRatesAreNoWorse }
{}

/// There is at most one walk in turn of each length.
pub fn one_walk_of_each_length()
    ensures { OneWalkOfEachLength }
{}

/// The canonical walk is the shortest walk in turn that settles all assets, if one of at most `budget` moves does, and else the
/// walk in turn of exactly `budget` moves.
pub fn canonical_walks_are_shortest()
    ensures { CanonicalWalksAreShortest }
{}

/// With one part, excess, moves, walks, skips and outcomes without joint prices are those by whole units, as versions 1 and 2
/// have them.
pub fn one_part_is_whole_units()
    ensures { OnePartIsWholeUnits }
{}
