//! Laws of tickers and tables. A function here does nothing when it runs: its `ensures` is the law.
ghost use Rattle.ticker_table.specs.Laws.{OneName, OneNumber};

/// A valid ticker has one name: its bytes before the spaces.
pub fn one_name()
    ensures { OneName }
{}

/// A ticker of a table has one number.
pub fn one_number()
    ensures { OneNumber }
{}
