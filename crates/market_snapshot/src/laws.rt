//! Laws of checkpoints. A function here does nothing when it runs: its `ensures` is the law.
ghost use Rattle.market_snapshot.specs.Laws.{OneMarket};

/// Bytes begin with a checkpoint of at most one market, whatever follows it, and leave one rest.
pub fn one_market()
    ensures { OneMarket }
{}
