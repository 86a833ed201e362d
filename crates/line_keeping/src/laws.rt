//! What holds of lines that are answered, whatever the code. Each law is the contract of a function that does nothing.
ghost use Rattle.line_keeping.specs.Laws.{OneInput, OneAnswer, OneOutput, SomeAnswer, AnswersAsKept};

/// An input has at most one list of lines, and at most one thing before them.
pub fn one_input()
    ensures { OneInput }
{}

/// Lines add one list of entries, are answered in one way, and lead to one market.
pub fn one_answer()
    ensures { OneAnswer }
{}

/// The bytes of a disk and of an input lead to one journal and one output, if all lines are answered.
pub fn one_output()
    ensures { OneOutput }
{}

/// Lines are answered in some way, whatever they are, and their entries fit a journal, while the numbers of 32 orders a line do. Stated as not denied.
pub fn some_answer()
    ensures { SomeAnswer }
{}

/// Where each line is blank or a command as `encode` reads it, the entries are those that answer the records that `encode` writes.
pub fn answers_as_kept()
    ensures { AnswersAsKept }
{}
