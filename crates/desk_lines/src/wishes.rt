//! What the text of a line asks for.
ghost use Rattle.std.specs.Prelude.{◌↔◌, ℕ, List, IsTrue, IfOk, OnErr};
ghost use Rattle.wire_records.specs.declared.version.Version.{Version as version_value};
ghost use Rattle.order_text.specs.Lines.{IsBlank, SaysNothing};
ghost use Rattle.desk_lines.specs.Wishes.{IsReadable, IsWish};
ghost use Rattle.desk_lines.specs.Answers.{wish_in, IsShort, IsAnsweredAs};

use crate::rights::{may_ask, may_ask_all, may_know};
use answer_text::Recipient;
use curve_ladder::CommandList;
use desk_messages::Desks;
use memchr::memchr;
use order_text::{LineFault, LineRead, Question, ask_line, read_question};
use std::alloc::Global;
use ticker_table::TickerTable;
use wire_records::{Command, Memory, Version};

/// The most bytes of a text.
pub const MOST_TEXT: usize = 32_768;

/// Why nothing is done for a text.
#[derive(Clone, Copy, PartialEq, Eq)]
pub enum TextFault {
    /// It asks for nothing that there is.
    NoCommand,
    /// It asks for what its sender may not ask for.
    NotYours,
    /// It asks about an account that isn't there.
    NoAccount,
}

/// What a text asks for.
#[derive(Drop)]
pub enum Wish {
    /// Nothing: it is blank.
    Nothing,
    /// This command, which its sender may ask for.
    Serve(Command),
    /// The orders of a ladder, which its sender may ask for.
    ServeAll(CommandList),
    /// The answer to this question, which its sender may know.
    Answer(Question),
    /// Something that there isn't, or that its sender may not ask for.
    Refuse(TextFault),
}

// Returns whether a text is read at all.
fn is_readable(text: &[u8]) -> bool
    ensures { IsTrue result ↔ IsReadable text.now }
{
    text.len() <= MOST_TEXT && memchr(b'\n', text).is_none()
}

// Returns what a question is answered by.
fn answer_to(question: Question, sender: Recipient, desks: &Desks) -> Wish
    ensures { IsAnsweredAs desks.now sender question (wish_in result) }
{
    if !may_know(sender, question) {
        return Wish::Refuse(TextFault::NotYours);
    }
    match question {
        Question::Account(account) if !desks.is_there(Recipient::Desk(account)) => {
            Wish::Refuse(TextFault::NoAccount)
        }
        _ => Wish::Answer(question),
    }
}

// Returns what a text asks for that is no command of any version.
fn question_in(alloc: Global, text: &[u8], sender: Recipient, desks: &Desks) -> Result<Wish, Memory>
    ensures wish { IfOk result (λ wish. IsReadable text.now → (version : version_value) (tickers : List (List ℕ)) → SaysNothing version tickers text.now →
        IsWish version tickers desks.now sender text.now (wish_in wish)) }
    ensures short { IfOk result IsShort }
{
    match read_question(alloc, text) {
        Ok(question) => Ok(answer_to(question, sender, desks)),
        Err(LineFault::NoCommand) => Ok(Wish::Refuse(TextFault::NoCommand)),
        Err(LineFault::Memory) => Err(Memory),
    }
}

/// Returns what the text of a line asks for in a version, with the tickers of a market: a blank text for nothing, another for commands, as
/// [`ask_line`](order_text::ask_line) reads them, or a question, as [`read_question`](order_text::read_question) does. A text of more than 32,768
/// bytes or with a line feed asks for nothing that there is. The sender is the operator or an account. An account may ask for placements and cancels of its
/// own, and for the market and what it has itself; the operator for all commands, and for all but what it has itself. Fails only if
/// memory ran out, which it can't at a blank text or one that isn't read.
///
/// The cost is that of the text's bytes.
pub fn wish_of(
    alloc: Global,
    text: &[u8],
    version: Version,
    tickers: &TickerTable,
    sender: Recipient,
    desks: &Desks,
) -> Result<Wish, Memory>
    ensures wish { IfOk result (λ wish. IsWish version tickers.now desks.now sender text.now (wish_in wish)) }
    ensures short { IfOk result IsShort }
    ensures memory { OnErr result (IsReadable text.now × (¬ IsBlank text.now)) }
{
    if !is_readable(text) {
        return Ok(Wish::Refuse(TextFault::NoCommand));
    }
    match ask_line(alloc, text, version, tickers) {
        Ok(LineRead::Blank) => Ok(Wish::Nothing),
        Ok(LineRead::Asks(command)) => {
            if may_ask(sender, &command) {
                return Ok(Wish::Serve(command));
            }
            Ok(Wish::Refuse(TextFault::NotYours))
        }
        Ok(LineRead::Many(commands)) => {
            if may_ask_all(sender, commands.as_slice()) {
                return Ok(Wish::ServeAll(commands));
            }
            Ok(Wish::Refuse(TextFault::NotYours))
        }
        Err(LineFault::NoCommand) => question_in(alloc, text, sender, desks),
        Err(LineFault::Memory) => Err(Memory),
    }
}
