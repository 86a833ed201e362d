//! The texts that are to be written, and the counts that they rest on.
ghost use Rattle.std.specs.Prelude.{◌≡◌, ◌<◌, ◌+◌, ◌++◌, ◌^◌, [], ◌∷◌, length, slice_index_or, IsOk, OnOk, OnErr, IfOk};
ghost use Rattle.wire_records.specs.Views.{command_of};
ghost use Rattle.journal_records.specs.Views.{answer_of};
ghost use Rattle.desk_messages.specs.Desks.{no_desks, IsThere, tally_of, with_read, with_line};
ghost use Rattle.desk_messages.specs.Messages.{Tells, opened_by, with_opened, no_envelope, expected, error_to};
ghost use Rattle.desk_session.specs.Talks.{says, says_of};
ghost use Rattle.desk_session.specs.Lines.{entry_messages, fault_word, answer_members, answer_to};
ghost use Rattle.desk_session.specs.Private.{segments, EndAt, FitsFills, IsAnswerable};

use crate::questions::put_answer;
use answer_text::Recipient;
use desk_lines::TextFault;
use desk_messages::{Desks, Served};
use journal_records::ReplyView;
use market_core::Market;
use order_text::Question;
use pair_text::Text;
use std::alloc::Global;
use std::marker::Model;
use wire_records::{CommandView, Memory};

// Texts that are to be written, each by one call, and how many lines and messages there were. Contracts see it as the counts and the list of texts.
pub(crate) struct Talk {
    desks: Desks,
    // All texts, one after the other.
    text: Vec<u8>,
    // Where each of them ends.
    ends: Vec<usize>,
}

impl Drop for Talk {
    // By hand, so that the end of a value is one call in the proofs of those who own it (docs/PROVING_TRAPS.md).
    fn drop(self) {
        let Talk {
            desks: _,
            text: _,
            ends: _,
        } = self;
    }
}

impl Model for Talk {
    ghost use Rattle.desk_session.specs.Talks.{Talk};
    ghost use Rattle.desk_session.specs.Private.{segments, EndAt};

    ghost Value = { Talk };

    ghost view = { λ talk. record { desks = talk.desks; texts = segments 0 talk.ends.items talk.text.items } };

    ghost invariant = { λ talk. EndAt 0 talk.ends.items talk.text.items };
}

// Returns the word for what is wrong with a text.
fn fault_word(fault: TextFault) -> &'static [u8]
    ensures { result.now ≡ fault_word fault }
{
    match fault {
        TextFault::NoCommand => b"no command",
        TextFault::NotYours => b"not yours",
        TextFault::NoAccount => b"no account",
    }
}

// Returns where the text at a place begins: where the one before it ends.
fn begin_of(ends: &[usize], place: usize) -> usize
    requires { place < length ends.now }
    ensures { result ≡ slice_index_or (0 ∷ ends.now) place 0 }
{
    if place == 0 {
        return 0;
    }
    ends[place - 1]
}

// Returns the text at a place, of all texts, one after the other, with these ends.
fn part_at<'a>(text: &'a [u8], ends: &[usize], place: usize) -> &'a [u8]
    requires there { place < length ends.now }
    requires ascend { EndAt 0 ends.now text.now }
    ensures { result.now ≡ slice_index_or (segments 0 ends.now text.now) place [] }
{
    &text[begin_of(ends, place)..ends[place]]
}

// Ends a text: it is one of those that are to be written if it was told, and else it is taken back.
fn end(
    bytes: &mut Vec<u8>,
    ends: &mut Vec<usize>,
    text: Text,
    told: Result<(), Memory>,
) -> Result<(), Memory>
    ensures told { OnOk result (OnOk told (bytes.new.items ≡ text.before.items ++ text.text)) }
    ensures ended { OnOk result (ends.new.items ≡ ends.old.items ++ length bytes.new.items ∷ []) }
    ensures right { OnOk result (IsOk told) }
    ensures back { OnErr result ((bytes.new.items ≡ text.before.items) × (ends.new.items ≡ ends.old.items)) }
{
    match told {
        Ok(()) => match ends.reserve(1) {
            Ok(()) => {
                *bytes = text.whole();
                ends.push_reserved(bytes.len());
                Ok(())
            }
            Err(_) => {
                *bytes = text.taken_back();
                Err(Memory)
            }
        },
        Err(memory) => {
            *bytes = text.taken_back();
            Err(memory)
        }
    }
}

impl Talk {
    // Begins: nothing was counted, and nothing is to be written.
    pub(crate) fn new(alloc: Global, accounts: u32) -> Result<Talk, Memory>
        ensures { IfOk result (λ talk. talk ≡ record { desks = no_desks accounts; texts = [] }) }
    {
        Ok(Talk {
            desks: Desks::new(alloc, accounts)?,
            text: Vec::new(alloc),
            ends: Vec::new(alloc),
        })
    }

    // Returns the counts of lines and messages.
    pub(crate) fn desks(&self) -> &Desks
        ensures { result.now ≡ self.now.desks }
    {
        &self.desks
    }

    // Returns how many texts are to be written.
    pub(crate) fn count(&self) -> usize
        ensures { result ≡ length self.now.texts }
    {
        self.ends.len()
    }

    // Returns the text at a place.
    pub(crate) fn text_at(&self, place: usize) -> &[u8]
        requires { place < length self.now.texts }
        ensures { result.now ≡ slice_index_or self.now.texts place [] }
    {
        part_at(&self.text, &self.ends, place)
    }

    // Forgets all texts, which were written, and keeps the memory.
    pub(crate) fn clear(&mut self)
        ensures { self.new ≡ record (self.old) { texts = [] } }
    {
        self.text.clear();
        self.ends.clear();
    }

    // Adds a line of the input that counts for no sender.
    pub(crate) fn skip_line(&mut self)
        requires few { self.old.desks.total.lines + 1 < 2 ^ 64 }
        ensures { self.new ≡ record (self.old) { desks = with_read self.old.desks } }
    {
        self.desks.skip_line();
    }

    // Adds a line of the input that counts for its sender.
    pub(crate) fn count_line(&mut self, sender: Recipient)
        requires there { IsThere self.old.desks sender }
        requires few { self.old.desks.total.lines + 1 < 2 ^ 64 }
        ensures { self.new ≡ record (self.old) { desks = with_line self.old.desks sender } }
    {
        self.desks.count_line(sender);
    }

    // Tells the operator that the last line of the input is no envelope.
    pub(crate) fn tell_no_envelope(&mut self) -> Result<(), Memory>
        requires few { self.old.desks.total.messages + 1 < 2 ^ 64 }
        ensures { OnOk result (self.new ≡ says self.old (no_envelope self.old.desks.total.lines ∷ [])) }
    {
        let mut text = Text::following(&mut self.text);
        let told = self.desks.tell_no_envelope(&mut text);
        end(&mut self.text, &mut self.ends, text, told)
    }

    // Tells a sender which number its next line has.
    pub(crate) fn tell_expected(&mut self, sender: Recipient) -> Result<(), Memory>
        requires there { IsThere self.old.desks sender }
        requires lines { self.old.desks.total.lines + 1 < 2 ^ 64 }
        requires few { self.old.desks.total.messages + 1 < 2 ^ 64 }
        ensures { OnOk result (self.new ≡ says self.old (expected sender ((tally_of self.old.desks sender).lines + 1) ∷ [])) }
    {
        let mut text = Text::following(&mut self.text);
        let told = self.desks.tell_expected(sender, &mut text);
        end(&mut self.text, &mut self.ends, text, told)
    }

    // Tells a sender what is wrong with its line of this number.
    pub(crate) fn tell_fault(
        &mut self,
        sender: Recipient,
        line: u64,
        fault: TextFault,
    ) -> Result<(), Memory>
        requires there { IsThere self.old.desks sender }
        requires few { self.old.desks.total.messages + 1 < 2 ^ 64 }
        ensures { OnOk result (self.new ≡ says self.old (error_to sender line (fault_word fault) ∷ [])) }
    {
        let mut text = Text::following(&mut self.text);
        let told = self
            .desks
            .tell_error(sender, line, fault_word(fault), &mut text);
        end(&mut self.text, &mut self.ends, text, told)
    }

    // Tells a sender the answer to a question.
    pub(crate) fn tell_answer(
        &mut self,
        market: &mut Market,
        sender: Recipient,
        line: u64,
        question: Question,
    ) -> Result<(), Memory>
        requires there { IsThere self.old.desks sender }
        requires about { IsAnswerable market.old.balances sender question }
        requires few { self.old.desks.total.messages + 1 < 2 ^ 64 }
        ensures market { market.new ≡ market.old }
        ensures told { OnOk result (self.new ≡ says self.old (answer_to sender line (answer_members market.old sender question) ∷ [])) }
    {
        let mut text = Text::following(&mut self.text);
        let told = put_answer(&mut self.desks, market, sender, line, question, &mut text);
        end(&mut self.text, &mut self.ends, text, told)
    }

    // Tells of an entry: all of a command that was served, and of a batch before it is settled.
    pub(crate) fn tell_entry(
        &mut self,
        market: &mut Market,
        served: &Served,
        command: &CommandView<'_>,
        answer: &ReplyView<'_>,
    ) -> Result<(), Memory>
        requires there { IsThere self.old.desks served.now.sender }
        requires fits { FitsFills (length self.old.desks.accounts) market.old.orders (answer_of answer.now) }
        requires few { self.old.desks.total.messages + (length self.old.desks.accounts + 3) < 2 ^ 64 }
        ensures market { market.new ≡ market.old }
        ensures told { OnOk result (self.new ≡ says_of self.old (opened_by (answer_of answer.now))
            (λ d. entry_messages d market.old market.old served.now.sender served.now.line served.now.entry (command_of command.now) (answer_of answer.now))) }
    {
        let mut text = Text::following(&mut self.text);
        let told = tell_all(&mut self.desks, market, served, command, answer, &mut text);
        end(&mut self.text, &mut self.ends, text, told)
    }
}

// Appends all that is told of an entry.
fn tell_all(
    desks: &mut Desks,
    market: &mut Market,
    served: &Served,
    command: &CommandView<'_>,
    answer: &ReplyView<'_>,
    text: &mut Text,
) -> Result<(), Memory>
    requires there { IsThere desks.old served.now.sender }
    requires fits { FitsFills (length desks.old.accounts) market.old.orders (answer_of answer.now) }
    requires few { desks.old.total.messages + (length desks.old.accounts + 3) < 2 ^ 64 }
    ensures market { market.new ≡ market.old }
    ensures before { text.new.before ≡ text.old.before }
    ensures told { OnOk result (Tells (with_opened (opened_by (answer_of answer.now)) desks.old) desks.new text.old.text text.new.text
        (entry_messages (with_opened (opened_by (answer_of answer.now)) desks.old) market.old market.old served.now.sender served.now.line served.now.entry
        (command_of command.now) (answer_of answer.now))) }
{
    let alloc = market.alloc();
    desks.tell_served(served, market.tickers(), command, answer, text)?;
    match answer {
        ReplyView::Plain(_) => Ok(()),
        ReplyView::Skipped(_) => Ok(()),
        ReplyView::Cleared(view) => desks.tell_fills(alloc, market.orders(), view, text),
    }
}
