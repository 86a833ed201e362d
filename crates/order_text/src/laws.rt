//! What holds of lines. Each law is the contract of a function that does nothing.
ghost use Rattle.order_text.specs.Laws.{OneSaying, OneTable, RowsAreShort, CommandsFit, OneAnswer, NoneIsUnanswered, LadderAsksTogether, NoMoreThanBytes};

/// A line asks for at most one thing, a command or a ladder's orders, and there is one table of tickers after it.
pub fn one_saying()
    ensures { OneSaying }
{}

/// There is at most one table of tickers after given commands.
pub fn one_table()
    ensures { OneTable }
{}

/// The weight vector of each command that a line asks for fits in a record.
pub fn rows_are_short()
    ensures { RowsAreShort }
{}

/// The fields of each command that a line asks for are within the widths of its record, and the version has the command.
pub fn commands_fit()
    ensures { CommandsFit }
{}

/// Unless memory runs out, a line has at most one answer, and there is one table of tickers after it.
pub fn one_answer()
    ensures { OneAnswer }
{}

/// No line is without an answer other than out of memory.
pub fn none_is_unanswered()
    ensures { NoneIsUnanswered }
{}

/// The orders that a ladder's line asks for make up its curve: at every price their demands, before any fill, add up to
/// the ladder's value, and at most one of them isn't a whole number.
pub fn ladder_asks_together()
    ensures { LadderAsksTogether }
{}

/// A line asks for no more commands than it has bytes.
pub fn no_more_than_bytes()
    ensures { NoMoreThanBytes }
{}
