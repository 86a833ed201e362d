//! Laws of the texts of entries. Each law is the contract of a function that does nothing.
ghost use Rattle.batch_report.specs.Laws.{OneReport};

/// An entry has one text, with a given market and number.
pub fn one_report()
    ensures { OneReport }
{}
