//! Laws of the lines on samples, whatever code makes them. Each law is the contract of a function that does nothing.
ghost use Rattle.sample_summary.specs.Laws.{OneSummary};

/// A sample has one line.
pub fn one_summary()
    ensures { OneSummary }
{}
