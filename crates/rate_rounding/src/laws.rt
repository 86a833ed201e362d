//! What holds of demands rounded down, whatever the code. The law is the contract of a function that does
//! nothing.
ghost use Rattle.rate_rounding.specs.Laws.{FloorsAreRoundings};

/// Rounding down gives one rate for each order, less than 1 apart from its demand and at most its batch maximum.
pub fn floors_are_roundings()
    ensures { FloorsAreRoundings }
{}
