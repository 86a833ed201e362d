//! Laws of how inputs begin. A function here does nothing when it runs: its `ensures` is the law.
ghost use Rattle.desk_opening.specs.Laws.{OneBeginning};

/// An input begins in at most one way, with the checkpoint of one market or with the line of one version, whatever follows, and leaves one rest.
pub fn one_beginning()
    ensures { OneBeginning }
{}
