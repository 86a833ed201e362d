//! Laws of the lines of many senders, in the words of the market: a line that is sent twice is counted once, an account does nothing but place and
//! cancel its own orders, and the same lines give the same entries and texts again.
//!
//! Each law is the contract of a function that does nothing. No code depends on them. They are about the lines that `desk_session` serves, from any
//! market and any counts on, so they hold of each call that serves lines, whatever it keeps.
#![tactic(auto)]

ghost use Rattle.desk_laws.specs.Laws.{ServedLinesAreHeard, CountedOnce, CountedInOrder, LinesKeepConsistency, AccountsPlaceAndCancel, EntriesAreAskedFor, QuestionsChangeNothing, OthersChangeNoOrders, AccountsChangeOnlyOrders, LinesHaveOneOutcome, LinesHaveSomeOutcome, FirstLinesGetFirstParts, CanonicalLinesAreValid, CanonicalEntriesMakeCanonicalLines, ResumedLinesAreOneRun};

use desk_lines::laws::{one_hearing, one_wish, some_hearing, some_wish};

/// Each of the lines that were served was heard in some way, and lines that were heard so were served.
pub fn served_lines_are_heard()
    ensures { ServedLinesAreHeard }
{}

/// Of two lines of one sender with one number at most one is counted.
pub fn counted_once()
    ensures { CountedOnce }
{}

/// A line with a number that is counted is the one of its sender with this place: the first has the number 1, if nothing was counted before.
pub fn counted_in_order()
    ensures { CountedInOrder }
{}

/// Lines from a consistent market on lead to a consistent one of the same version.
pub fn lines_keep_consistency()
    ensures { LinesKeepConsistency }
{}

/// Each entry that a line of an account adds is a placement or a cancel of this account.
pub fn accounts_place_and_cancel()
    ensures { AccountsPlaceAndCancel }
{}

/// Each entry is asked for by a line of the operator, or, if it is a placement or a cancel of an account, by one of this account's own.
pub fn entries_are_asked_for()
    ensures { EntriesAreAskedFor }
{}

/// A question of any sender adds no entry and changes nothing of the market.
pub fn questions_change_nothing()
    ensures { QuestionsChangeNothing }
{
    one_wish();
}

/// Lines that are neither the operator's nor an account's own leave this account's live orders as they are.
pub fn others_change_no_orders()
    ensures { OthersChangeNoOrders }
{}

/// Lines that aren't the operator's change nothing but which orders are live and the number of the next one.
pub fn accounts_change_only_orders()
    ensures { AccountsChangeOnlyOrders }
{}

/// From one market and the same counts the same lines get the same entries and texts by the canonical rule.
pub fn lines_have_one_outcome()
    ensures { LinesHaveOneOutcome }
{
    one_hearing();
    one_wish();
}

/// From a consistent market no lines are without an outcome by the canonical rule.
pub fn lines_have_some_outcome()
    ensures { LinesHaveSomeOutcome }
{
    some_hearing();
    some_wish();
}

/// What the first of some lines get by the canonical rule is a first part of what all of them get.
pub fn first_lines_get_first_parts()
    ensures { FirstLinesGetFirstParts }
{
    one_hearing();
    one_wish();
}

/// Lines that are served by the canonical rule from a consistent market are served validly.
pub fn canonical_lines_are_valid()
    ensures { CanonicalLinesAreValid }
{}

/// Lines that are served validly are served by the canonical rule if their entries are steps by it.
pub fn canonical_entries_make_canonical_lines()
    ensures { CanonicalEntriesMakeCanonicalLines }
{}

/// If a first part of the entries was made by the canonical rule and the others were added by it, they are those of one run from the beginning.
pub fn resumed_lines_are_one_run()
    ensures { ResumedLinesAreOneRun }
{
    one_hearing();
    one_wish();
}
