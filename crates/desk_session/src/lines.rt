//! A line: who sent it, what it asks for, and its answer, but for its commands.
ghost use Rattle.std.specs.Prelude.{ℕ, ◌<◌, ◌+◌, ◌^◌, List, length, IfOk, OnOk};
ghost use Rattle.desk_messages.specs.Desks.{IsThere};
ghost use Rattle.desk_lines.specs.Answers.{wish_in, IsShort};
ghost use Rattle.desk_session.specs.States.{CountsAccounts};
ghost use Rattle.desk_lines.specs.Hearing.{most_envelope};
ghost use Rattle.desk_session.specs.Said.{IsAnswered, IsSaid};
ghost use Rattle.desk_session.specs.Private.{IsLeft, CanAnswer};

use crate::session::DeskSession;
use answer_text::Recipient;
use curve_ladder::CommandList;
use desk_lines::{Heard, Wish, hear, wish_of};
use wire_records::{Command, Memory};

/// What is left to do of a line that was heard.
#[derive(Drop)]
pub enum Said {
    /// Nothing: the line adds no entry, and its answer is among the texts, if it has one.
    Done,
    /// This command of a sender is to be served, or taken from its entry. The line has this number among the sender's.
    Serve(Recipient, u64, Command),
    /// The orders of this ladder are.
    ServeAll(Recipient, u64, CommandList),
}

impl DeskSession {
    /// Hears a line: counts it, and answers it but for its commands, which are returned. The text of an answer is put after the others. Fails only if
    /// memory ran out. Fewer than 2^64 - 2 lines were heard, and fewer than 2^64 - 1 messages told.
    ///
    /// The cost is that of the line's bytes and of the answer.
    pub fn hear_line(&mut self, line: &[u8]) -> Result<Said, Memory>
        requires lines { self.old.talk.desks.total.lines + 2 < 2 ^ 64 }
        requires messages { self.old.talk.desks.total.messages + 1 < 2 ^ 64 }
        requires counted { CountsAccounts self.old }
        ensures said { IfOk result (λ said. IsSaid said self.old line.now self.new) }
        ensures counted { OnOk result (CountsAccounts self.new) }
    {
        match hear(self.alloc, line, &mut self.scratch, self.talk.desks())? {
            Heard::Nothing => {
                self.talk.skip_line();
                Ok(Said::Done)
            }
            Heard::Noise => {
                self.talk.skip_line();
                self.talk.tell_no_envelope()?;
                Ok(Said::Done)
            }
            Heard::Other(sender) => {
                self.talk.skip_line();
                self.talk.tell_expected(sender)?;
                Ok(Said::Done)
            }
            Heard::From(sender, text) => {
                let wish = wish_of(
                    self.alloc,
                    text.as_bytes(),
                    self.market.version(),
                    self.market.tickers(),
                    sender,
                    self.talk.desks(),
                )?;
                self.talk.count_line(sender);
                let number = self.talk.desks().lines_of(sender);
                self.answer(sender, number, wish)
            }
        }
    }

    /// Hears a line of more than 262,144 bytes, whatever they are, which is no envelope: counts it, and puts its answer after the other texts. Fails only if
    /// memory ran out. Fewer than 2^64 - 2 lines were heard, and fewer than 2^64 - 1 messages told. Costs the answer.
    pub fn hear_long(&mut self) -> Result<(), Memory>
        requires lines { self.old.talk.desks.total.lines + 2 < 2 ^ 64 }
        requires messages { self.old.talk.desks.total.messages + 1 < 2 ^ 64 }
        requires counted { CountsAccounts self.old }
        ensures said { OnOk result ((line : List ℕ) → most_envelope < length line → IsAnswered self.old line self.new) }
        ensures counted { OnOk result (CountsAccounts self.new) }
    {
        self.talk.skip_line();
        self.talk.tell_no_envelope()
    }

    // Answers what the text of a line asks for, but for its commands. The line was counted, and this is its number.
    fn answer(&mut self, sender: Recipient, line: u64, wish: Wish) -> Result<Said, Memory>
        requires there { IsThere self.old.talk.desks sender }
        requires short { IsShort wish }
        requires about { CanAnswer self.old.market.balances sender (wish_in wish) }
        requires messages { self.old.talk.desks.total.messages + 1 < 2 ^ 64 }
        ensures said { IfOk result (λ said. IsLeft said self.old sender line (wish_in wish) self.new) }
    {
        match wish {
            Wish::Nothing => Ok(Said::Done),
            Wish::Serve(command) => Ok(Said::Serve(sender, line, command)),
            Wish::ServeAll(commands) => Ok(Said::ServeAll(sender, line, commands)),
            Wish::Answer(question) => {
                self.talk
                    .tell_answer(&mut self.market, sender, line, question)?;
                Ok(Said::Done)
            }
            Wish::Refuse(fault) => {
                self.talk.tell_fault(sender, line, fault)?;
                Ok(Said::Done)
            }
        }
    }
}
