//! What the arguments on the command line ask for.
ghost use Rattle.std.specs.Prelude.{◌≡◌, ◌↔◌, IfSome, IfNone, IsTrue, map, string_bytes, [], ◌∷◌};
ghost use Rattle.flow_exchange.specs.declared.form.Form.{Form};
ghost use Rattle.flow_exchange.specs.Forms.{Asks};

use crate::sample_form::sample_of;
use crate::statement_form::statement_of;
use wire_records::Version;

/// What the program is asked for.
#[derive(Clone, Copy, PartialEq, Eq)]
pub enum Form {
    /// `run`: reads a command file, and writes its journal.
    Run,
    /// `audit`: reads a history, which is a journal or a checkpoint followed by entries, and writes a line if its entries are valid.
    Audit,
    /// `explain`: reads a history, and writes the line of an audit, or what is found of the first invalid entry.
    Explain,
    /// `report`: reads a history, and writes the text of its entries.
    Report,
    /// `encode`, or `encode` with 2, 3 or 4: reads lines of JSON, and writes the command file of their commands, of this version.
    Encode(Version),
    /// `sample NUMBER ORDERS`: writes a line on a sample of this many orders, 1 to 16,384, that are drawn from this number on.
    Sample { number: u64, orders: u32 },
    /// `statement NUMBER`: reads a history, and writes the statement of the account of this number.
    Statement { number: u64 },
    /// `checkpoint`: reads a history, and writes the checkpoint of the market at its end.
    Checkpoint,
    /// `resume`: reads a journal or a checkpoint followed by commands, and writes the entries of these commands.
    Resume,
}

// Returns whether the arguments are this one alone.
fn is_word(words: &[String], word: &str) -> bool
    ensures { IsTrue result ↔ (map string_bytes words.now ≡ word.now ∷ []) }
{
    words.len() == 1 && words[0].as_str() == word
}

// Returns whether the arguments are these two.
fn are_two(words: &[String], first: &str, second: &str) -> bool
    ensures { IsTrue result ↔ (map string_bytes words.now ≡ first.now ∷ second.now ∷ []) }
{
    if words.len() != 2 {
        return false;
    }
    if words[0].as_str() == first {
        return words[1].as_str() == second;
    }
    false
}

/// Returns the form that the arguments ask for.
pub(crate) fn form_of(words: &[String]) -> Option<Form>
    ensures form { IfSome result (λ form. Asks (map string_bytes words.now) form) }
    ensures none { IfNone result ((form : Form) → ¬ Asks (map string_bytes words.now) form) }
{
    if is_word(words, "run") {
        return Some(Form::Run);
    }
    if is_word(words, "audit") {
        return Some(Form::Audit);
    }
    if is_word(words, "explain") {
        return Some(Form::Explain);
    }
    if is_word(words, "report") {
        return Some(Form::Report);
    }
    if is_word(words, "encode") {
        return Some(Form::Encode(Version::One));
    }
    if are_two(words, "encode", "2") {
        return Some(Form::Encode(Version::Two));
    }
    if are_two(words, "encode", "3") {
        return Some(Form::Encode(Version::Three));
    }
    if are_two(words, "encode", "4") {
        return Some(Form::Encode(Version::Four));
    }
    if is_word(words, "checkpoint") {
        return Some(Form::Checkpoint);
    }
    if is_word(words, "resume") {
        return Some(Form::Resume);
    }
    match sample_of(words) {
        Some((number, orders)) => return Some(Form::Sample { number, orders }),
        None => {}
    }
    match statement_of(words) {
        Some(number) => Some(Form::Statement { number }),
        None => None,
    }
}
