//! Laws of views and statements, whatever code there is. Each law is the contract of a function that does nothing.
ghost use Rattle.statement_rules.specs.Laws.{OneView, ViewsCompose, EqualViewsEqualStatements, ViewsTellHoldings, StatementsEndWithBalances};
ghost use Rattle.statement_rules.specs.Laws.{OneStatement, TextsGoOn, AbsentAccountsHaveNoText, OwnRatesArePublished, HoldingsTellAlike};
ghost use Rattle.statement_rules.specs.Laws.{JournalsCarryNothing, OneStatementFrom, EqualStartsEqualStatements, EqualCarriedLinesEqualStatements, StatementsJoin};

/// A list of valid steps has exactly one view of an account.
pub fn one_view()
    ensures { OneView }
{}

/// The view of a part of a journal, followed by the view of what comes after it, is the view of both.
pub fn views_compose()
    ensures { ViewsCompose }
{}

/// Two valid journals with equal views of an account give equal statements of it.
pub fn equal_views_equal_statements()
    ensures { EqualViewsEqualStatements }
{}

/// What the view of an account says of it is what the account has in the market of the journal.
pub fn views_tell_holdings()
    ensures { ViewsTellHoldings }
{}

/// The last lines of a statement are the account's balances, and what its live orders need, in the market of the
/// journal.
pub fn statements_end_with_balances()
    ensures { StatementsEndWithBalances }
{}

/// Each account of the market after a valid journal has exactly one statement.
pub fn one_statement()
    ensures { OneStatement }
{}

/// What was written of a journal stays as it is when the journal is continued.
pub fn texts_go_on()
    ensures { TextsGoOn }
{}

/// Nothing is written of an account that isn't there at the end of a valid journal.
pub fn absent_accounts_have_no_text()
    ensures { AbsentAccountsHaveNoText }
{}

/// The rates of a batch in a statement are those that were published for the account's live orders.
pub fn own_rates_are_published()
    ensures { OwnRatesArePublished }
{}

/// What is written of an account depends on the market alone, whichever of its holdings there is used.
pub fn holdings_tell_alike()
    ensures { HoldingsTellAlike }
{}

/// Nothing is carried forward from the empty market, in which a journal begins: the statement there is that of the view alone.
pub fn journals_carry_nothing()
    ensures { JournalsCarryNothing }
{}

/// Each account of the market after valid entries has exactly one statement that begins in the market before them.
pub fn one_statement_from()
    ensures { OneStatementFrom }
{}

/// What an account has in a market, and what it sees of the entries after it, determine its statement.
pub fn equal_starts_equal_statements()
    ensures { EqualStartsEqualStatements }
{}

/// If two markets have the same assets and an account has the same live orders in both, equal lines that are carried forward and equal
/// views give equal statements.
pub fn equal_carried_lines_equal_statements()
    ensures { EqualCarriedLinesEqualStatements }
{}

/// The statements of two consecutive parts of a history join to the statement of all of it: the last lines of the first one are the
/// lines that are carried forward to the second one.
pub fn statements_join()
    ensures { StatementsJoin }
{}
