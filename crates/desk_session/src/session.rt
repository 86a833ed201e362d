//! One command of a line: it is served, or taken from an entry that is there already.
ghost use Rattle.std.specs.Prelude.{◌≡◌, ◌<◌, ◌+◌, ◌^◌, ◌↔◌, [], length, slice_index_or, OnOk, IfOk, IsTrue};
ghost use Rattle.wire_records.specs.Records.{Record, AreEncoding};
ghost use Rattle.wire_records.specs.Commands.{Pair};
ghost use Rattle.wire_records.specs.CommandRecords.{HasShortRow};
ghost use Rattle.wire_records.specs.Views.{command_in, command_of};
ghost use Rattle.journal_records.specs.Replies.{EncodesAnswer};
ghost use Rattle.journal_records.specs.Views.{answer_of};
ghost use Rattle.flow_accounts.specs.Balances.{account_count};
ghost use Rattle.flow_orders.specs.Outcomes.{Outcome};
ghost use Rattle.batch_audit.specs.Legal.{IsLegalPair};
ghost use Rattle.batch_audit.specs.Judging.{IsChangeOf};
ghost use Rattle.desk_messages.specs.Desks.{no_desks, IsThere};
ghost use Rattle.desk_messages.specs.Messages.{opened_by};
ghost use Rattle.desk_session.specs.Talks.{says_of};
ghost use Rattle.desk_session.specs.Lines.{entry_messages};
ghost use Rattle.desk_session.specs.States.{CountsAccounts, HasRoom, Serves, IsReplayed};

use crate::talk::Talk;
use answer_text::Recipient;
use batch_audit::{Change, judge, make};
use desk_messages::Served;
use exchange_session::{Answered, Served as Told, answer_command};
use journal_records::{PairView, ReplyView, reply};
use json::Scratch;
use market_core::Market;
use std::alloc::Global;
use std::marker::Model;
use wire_records::{Command, CommandView, Memory, RecordView, write_command};

/// A market of many senders, from line to line. Contracts see it as its market, its counts, the texts that are to be written, how many entries there
/// were, and the bytes of the last one that was served. Each call keeps the counts those of the market's accounts, and requires that; after `Memory`
/// that need not be so, and the session is of no more use.
pub struct DeskSession {
    pub(crate) alloc: Global,
    pub(crate) market: Market,
    pub(crate) talk: Talk,
    pub(crate) scratch: Scratch<Global>,
    entries: u64,
    // The last entry that was served; one buffer for all.
    entry: Vec<u8>,
}

impl Drop for DeskSession {
    // By hand, so that the end of a value is one call in the proofs of those who own it (docs/PROVING_TRAPS.md).
    fn drop(self) {
        let DeskSession {
            alloc: _,
            market: _,
            talk: _,
            scratch: _,
            entries: _,
            entry: _,
        } = self;
    }
}

impl Model for DeskSession {
    ghost use Rattle.desk_session.specs.States.{State};

    ghost Value = { State };

    ghost view = { λ s. record { market = s.market; talk = s.talk; entries = s.entries; entry = s.entry.items } };
}

/// What came of an entry that was taken for a command.
#[derive(Clone, Copy, PartialEq, Eq)]
pub enum Replayed {
    /// The entry is valid and has the command's record; its step was made, and the texts tell of it.
    Same,
    /// The entry is valid, and of another record.
    Differs,
    /// The entry isn't valid.
    Rejected,
}

// Returns whether a record is the one that these bytes encode.
fn is_same(held: &RecordView<'_>, bytes: &[u8]) -> bool
    requires { (asked : Record) × AreEncoding asked bytes.now }
    ensures { (asked : Record) → AreEncoding asked bytes.now → IsTrue result ↔ (held.now ≡ asked) }
{
    let other = RecordView::of(bytes);
    held.tag() == other.tag() && held.body() == other.body()
}

// Makes the step of an entry that was judged, and tells of it: of a batch before it is settled.
fn take(
    market: &mut Market,
    talk: &mut Talk,
    served: &Served,
    command: &CommandView<'_>,
    pair: &PairView<'_>,
    seen: &ReplyView<'_>,
    change: Change<'_>,
) -> Result<(), Memory>
    requires seen { EncodesAnswer pair.now.1 (answer_of seen.now) }
    requires change { IsChangeOf market.old pair.now change }
    requires next { market.old.next_order + 1 < 2 ^ 64 }
    requires there { IsThere talk.old.desks served.now.sender }
    requires counted { length talk.old.desks.accounts ≡ account_count market.old.balances }
    requires few { talk.old.desks.total.messages + (length talk.old.desks.accounts + 3) < 2 ^ 64 }
    ensures legal { OnOk result (IsLegalPair market.old pair.now market.new) }
    ensures told { OnOk result (talk.new ≡ says_of talk.old (opened_by (answer_of seen.now))
        (λ d. entry_messages d market.old market.new served.now.sender served.now.line served.now.entry (command_of command.now) (answer_of seen.now))) }
{
    // Called for its contract: the market is consistent.
    let _consistent = market.alloc();
    match *seen {
        ReplyView::Plain(_) => {
            make(market, pair, change)?;
            talk.tell_entry(market, served, command, seen)
        }
        ReplyView::Cleared(_) => {
            talk.tell_entry(market, served, command, seen)?;
            make(market, pair, change)
        }
        ReplyView::Skipped(_) => {
            talk.tell_entry(market, served, command, seen)?;
            make(market, pair, change)
        }
    }
}

impl DeskSession {
    /// Begins in a market: no line was heard, and no entry kept. Takes 16 bytes for each account.
    pub fn over(alloc: Global, market: Market) -> Result<DeskSession, Memory>
        ensures value { IfOk result (λ session. session ≡ record {
          market = market;
          talk = record { desks = no_desks (account_count market.balances); texts = [] };
          entries = 0;
          entry = [];
        }) }
        ensures counted { IfOk result CountsAccounts }
    {
        let talk = Talk::new(alloc, market.accounts().count())?;
        Ok(DeskSession {
            alloc,
            market,
            talk,
            scratch: Scratch::new(alloc),
            entries: 0,
            entry: Vec::new(alloc),
        })
    }

    /// Returns the market after the entries.
    pub fn market(&self) -> &Market
        ensures { result.now ≡ self.now.market }
    {
        &self.market
    }

    /// Returns how many entries there were.
    pub fn entries(&self) -> u64
        ensures { result ≡ self.now.entries }
    {
        self.entries
    }

    /// Returns the bytes of the entry that was served last. The next call of [`DeskSession::serve`] or [`DeskSession::replay`] changes them.
    pub fn entry(&self) -> &[u8]
        ensures { result.now ≡ self.now.entry }
    {
        &self.entry
    }

    /// Returns how many texts are to be written, each by one call.
    pub fn text_count(&self) -> usize
        ensures { result ≡ length self.now.talk.texts }
    {
        self.talk.count()
    }

    /// Returns the text at a place. Constant cost.
    pub fn text_at(&self, place: usize) -> &[u8]
        requires { place < length self.now.talk.texts }
        ensures { result.now ≡ slice_index_or self.now.talk.texts place [] }
    {
        self.talk.text_at(place)
    }

    /// Forgets all texts, which were written. Keeps their memory.
    pub fn clear_texts(&mut self)
        ensures { self.new ≡ record (self.old) { talk = record (self.old.talk) { texts = [] } } }
    {
        self.talk.clear();
    }

    /// Serves a command of a line by the canonical rule, and puts its entry into the session's buffer, and what is told of it into the next text.
    /// The sender is the operator or an account that is there, and `line` the number that [`DeskSession::hear_line`] returned. The command has few
    /// enough legs for its record, if it has any. There is room for one more order, entry and message to each account below 2^64.
    ///
    /// The cost is that of [`answer_command`](exchange_session::answer_command), of settling a batch, and of the texts. After `Memory` the market
    /// may be past what is told.
    pub fn serve(&mut self, sender: Recipient, line: u64, command: &Command) -> Result<(), Memory>
        requires short { HasShortRow (command_in command.now) }
        requires there { IsThere self.old.talk.desks sender }
        requires counted { CountsAccounts self.old }
        requires room { HasRoom self.old }
        ensures served { OnOk result ((pair : Pair Record Outcome) × Serves self.old sender line (command_in command.now) pair self.new) }
        ensures counted { OnOk result (CountsAccounts self.new) }
    {
        self.entry.clear();
        let answered = answer_command(&mut self.market, command, &mut self.entry)?;
        self.entries += 1;
        let served = Served {
            sender,
            line,
            entry: self.entries,
        };
        let seen = command.view(&self.entry);
        match answered {
            Answered::Plain(reply) => {
                let answer = ReplyView::Plain(reply);
                self.talk
                    .tell_entry(&mut self.market, &served, &seen, &answer)
            }
            Answered::Batch(held) => {
                // Called for its contract: the market is consistent.
                let _consistent = self.market.alloc();
                let answer = Told::Batch(held.place).reply(&self.entry);
                self.talk
                    .tell_entry(&mut self.market, &served, &seen, &answer)?;
                self.market.settle(&held.outcome);
                Ok(())
            }
        }
    }

    /// Takes an entry for a command of a line: it has to be valid, whoever made it, and of the command's record. Then its step is made,
    /// and what is told of it is put into the next text. Else nothing is changed but the buffer. The rest is as for [`DeskSession::serve`].
    ///
    /// The cost is that of auditing the entry, and of the texts. After `Memory` the market may be past what is told.
    pub fn replay(
        &mut self,
        sender: Recipient,
        line: u64,
        command: &Command,
        pair: &PairView<'_>,
    ) -> Result<Replayed, Memory>
        requires short { HasShortRow (command_in command.now) }
        requires there { IsThere self.old.talk.desks sender }
        requires counted { CountsAccounts self.old }
        requires room { HasRoom self.old }
        ensures replayed { IfOk result (λ replayed. IsReplayed replayed self.old sender line (command_in command.now) pair.now self.new) }
        ensures counted { OnOk result (CountsAccounts self.new) }
    {
        match reply(&pair.answered()) {
            None => Ok(Replayed::Rejected),
            Some(seen) => match judge(&mut self.market, pair, &seen)? {
                None => Ok(Replayed::Rejected),
                Some(change) => self.replay_valid(sender, line, command, pair, &seen, change),
            },
        }
    }

    // Takes an entry that is valid for a command of a line, as `replay` does.
    fn replay_valid(
        &mut self,
        sender: Recipient,
        line: u64,
        command: &Command,
        pair: &PairView<'_>,
        seen: &ReplyView<'_>,
        change: Change<'_>,
    ) -> Result<Replayed, Memory>
        requires seen { EncodesAnswer pair.now.1 (answer_of seen.now) }
        requires change { IsChangeOf self.old.market pair.now change }
        requires short { HasShortRow (command_in command.now) }
        requires there { IsThere self.old.talk.desks sender }
        requires counted { CountsAccounts self.old }
        requires room { HasRoom self.old }
        ensures replayed { IfOk result (λ replayed. IsReplayed replayed self.old sender line (command_in command.now) pair.now self.new) }
        ensures counted { OnOk result (CountsAccounts self.new) }
    {
        self.entry.clear();
        write_command(command, &mut self.entry)?;
        if !is_same(&pair.asked(), &self.entry) {
            return Ok(Replayed::Differs);
        }
        self.entries += 1;
        let served = Served {
            sender,
            line,
            entry: self.entries,
        };
        let asked = command.view(&self.entry);
        take(
            &mut self.market,
            &mut self.talk,
            &served,
            &asked,
            pair,
            seen,
            change,
        )?;
        Ok(Replayed::Same)
    }
}
