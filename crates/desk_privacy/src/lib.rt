//! What an account of a market of many senders is told, and what it isn't: laws, whatever code there is.
//!
//! Each law is the contract of a function that does nothing. No code depends on them, so they come after the program, which is built without
//! them.
#![tactic(auto)]

ghost use Rattle.desk_privacy.specs.Laws.{LettersAreWritten, ViewsAreObserved, LettersArePrivate, InputsArePrivate, FirstLettersAreWritten, FirstLettersArePrivate};

use desk_lines::laws::{one_hearing, one_wish};

/// The texts that answer lines are letters, one after the other, and lines that are served have their letters and what an account observes, and
/// only these.
pub fn letters_are_written()
    ensures { LettersAreWritten }
{
    one_hearing();
    one_wish();
}

/// What an account sees, among what it observes, is its view of the entries.
pub fn views_are_observed()
    ensures { ViewsAreObserved }
{}

/// What is written to an account and to all depends on what the account knows at the beginning and observes then, and on nothing else.
pub fn letters_are_private()
    ensures { LettersArePrivate }
{
    one_wish();
}

/// Two inputs that agree on this give an account the same messages, byte for byte.
pub fn inputs_are_private()
    ensures { InputsArePrivate }
{
    one_wish();
}

/// The first lines that are served, and perhaps the first commands of one more, have their letters and what an account observes too.
pub fn first_letters_are_written()
    ensures { FirstLettersAreWritten }
{}

/// What is written to an account and to all is the same of two inputs wherever a run stops, if the account has observed the same.
pub fn first_letters_are_private()
    ensures { FirstLettersArePrivate }
{
    one_wish();
}
