//! What is told of a command that was served.
ghost use Rattle.std.specs.Prelude.{◌≡◌, ◌<◌, ◌+◌, ◌^◌, [], ◌∷◌, length, OnOk};
ghost use Rattle.wire_records.specs.Commands.{Plain};
ghost use Rattle.wire_records.specs.Views.{command_of};
ghost use Rattle.journal_records.specs.Views.{answer_of};
ghost use Rattle.answer_text.specs.Answers.{echo_members};
ghost use Rattle.desk_messages.specs.Desks.{IsThere};
ghost use Rattle.desk_messages.specs.Messages.{Tells, entry_for, opened_by, concerned, notices, announced, with_opened, served_messages};

use crate::counts::Desks;
use answer_text::{
    Recipient, put_cleared_batch, put_command, put_end, put_reply, put_skipped_batch,
};
use journal_records::ReplyView;
use pair_text::Text;
use ticker_table::TickerTable;
use wire_records::{CommandView, Memory, Reply};

/// A command that was served: who sent the line that asked for it, which of the sender's lines it is, and the number of the entry.
#[derive(Clone, Copy)]
pub struct Served {
    /// The sender.
    pub sender: Recipient,
    /// Which of the sender's lines it is, counted from 1.
    pub line: u64,
    /// Which entry of the file the command has, counted from 1.
    pub entry: u64,
}

// Returns the number of the account that was opened.
fn opened_by(answer: &ReplyView<'_>) -> Option<u32>
    ensures { result ≡ opened_by (answer_of answer.now) }
{
    match *answer {
        ReplyView::Plain(Reply::Account(account)) => Some(account),
        _ => None,
    }
}

// Returns the account that a command names, or that it opened.
fn concerned(command: &CommandView<'_>, answer: &ReplyView<'_>) -> Option<u32>
    ensures { result ≡ concerned (command_of command.now) (answer_of answer.now) }
{
    match *command {
        CommandView::AddAsset(_) => None,
        CommandView::OpenAccount => opened_by(answer),
        CommandView::DepositMoney { account, .. } => Some(account),
        CommandView::DepositAsset { account, .. } => Some(account),
        CommandView::WithdrawMoney { account, .. } => Some(account),
        CommandView::WithdrawAsset { account, .. } => Some(account),
        CommandView::PlaceOrder(ref place) => Some(place.account()),
        CommandView::PlaceUntil { ref place, .. } => Some(place.account()),
        CommandView::CancelOrder { account, .. } => Some(account),
        CommandView::RunBatch { .. } => None,
        CommandView::SetMoneyCredit { account, .. } => Some(account),
        CommandView::SetUnitCredit { account, .. } => Some(account),
    }
}

// Returns the number of an entry, which the operator alone is told.
fn entry_for(sender: Recipient, entry: u64) -> Option<u64>
    ensures { result ≡ entry_for sender entry }
{
    match sender {
        Recipient::Operator => Some(entry),
        _ => None,
    }
}

impl Desks {
    // Adds the account that was opened, if one was.
    fn count_opened(&mut self, answer: &ReplyView<'_>) -> Result<(), Memory>
        ensures { OnOk result (self.new ≡ with_opened (opened_by (answer_of answer.now)) self.old) }
    {
        match opened_by(answer) {
            Some(_) => self.add_account(),
            None => Ok(()),
        }
    }

    // Appends a message with the members of a command and of what came of it.
    fn echo(
        &mut self,
        to: Recipient,
        line: Option<u64>,
        entry: Option<u64>,
        tickers: &TickerTable,
        command: &CommandView<'_>,
        answer: &ReplyView<'_>,
        out: &mut Text,
    ) -> Result<(), Memory>
        requires there { IsThere self.old to }
        requires few { self.old.total.messages + 1 < 2 ^ 64 }
        ensures before { out.new.before ≡ out.old.before }
        ensures told { OnOk result (Tells self.old self.new out.old.text out.new.text (record {
          to = to;
          line = line;
          entry = entry;
          members = echo_members tickers.now (command_of command.now) (answer_of answer.now);
        } ∷ [])) }
    {
        self.address(to, line, entry, out)?;
        put_command(tickers, command, out)?;
        put_reply(tickers, answer, out)?;
        put_end(out)
    }

    // Appends what the account hears that a command of the operator names or opens.
    fn tell_concerned(
        &mut self,
        sender: Recipient,
        tickers: &TickerTable,
        command: &CommandView<'_>,
        answer: &ReplyView<'_>,
        out: &mut Text,
    ) -> Result<(), Memory>
        requires few { self.old.total.messages + 1 < 2 ^ 64 }
        ensures before { out.new.before ≡ out.old.before }
        ensures told { OnOk result (Tells self.old self.new out.old.text out.new.text
            (notices (length self.old.accounts) sender (concerned (command_of command.now) (answer_of answer.now))
            (echo_members tickers.now (command_of command.now) (answer_of answer.now)))) }
    {
        match sender {
            Recipient::Operator => {}
            _ => return Ok(()),
        }
        match concerned(command, answer) {
            Some(account) if self.is_there(Recipient::Desk(account)) => self.echo(
                Recipient::Desk(account),
                None,
                None,
                tickers,
                command,
                answer,
                out,
            ),
            _ => Ok(()),
        }
    }

    // Appends a message to all with the members of a command, if it added an asset.
    fn tell_plain(
        &mut self,
        tickers: &TickerTable,
        command: &CommandView<'_>,
        answer: Reply,
        out: &mut Text,
    ) -> Result<(), Memory>
        requires few { self.old.total.messages + 1 < 2 ^ 64 }
        ensures before { out.new.before ≡ out.old.before }
        ensures told { OnOk result (Tells self.old self.new out.old.text out.new.text
            (announced tickers.now (command_of command.now) (Plain answer))) }
    {
        match answer {
            Reply::Asset(_) => {
                self.address(Recipient::All, None, None, out)?;
                put_command(tickers, command, out)?;
                put_end(out)
            }
            _ => Ok(()),
        }
    }

    // Appends a message to all with the members that a command, or the outcome of a batch, has for them.
    fn tell_all(
        &mut self,
        tickers: &TickerTable,
        command: &CommandView<'_>,
        answer: &ReplyView<'_>,
        out: &mut Text,
    ) -> Result<(), Memory>
        requires few { self.old.total.messages + 1 < 2 ^ 64 }
        ensures before { out.new.before ≡ out.old.before }
        ensures told { OnOk result (Tells self.old self.new out.old.text out.new.text
            (announced tickers.now (command_of command.now) (answer_of answer.now))) }
    {
        match answer {
            ReplyView::Plain(answer) => self.tell_plain(tickers, command, *answer, out),
            ReplyView::Cleared(view) => {
                self.address(Recipient::All, None, None, out)?;
                put_cleared_batch(tickers, view, out)?;
                put_end(out)
            }
            ReplyView::Skipped(view) => {
                self.address(Recipient::All, None, None, out)?;
                put_skipped_batch(view, out)?;
                put_end(out)
            }
        }
    }

    /// Appends what is told of a command that was served: to its sender, then to the account that a command of the operator names or opens,
    /// if it is there, and then to all, of an asset that was added and of a batch. An account that was opened is counted from then on. The
    /// sender is the operator or an account that is there. What accounts are told of a batch follows, by [`Desks::tell_fills`].
    ///
    /// The cost is that of the texts. After `Memory` the counts and a part of the texts may have been changed.
    pub fn tell_served(
        &mut self,
        served: &Served,
        tickers: &TickerTable,
        command: &CommandView<'_>,
        answer: &ReplyView<'_>,
        out: &mut Text,
    ) -> Result<(), Memory>
        requires there { IsThere self.old served.now.sender }
        requires few { self.old.total.messages + 3 < 2 ^ 64 }
        ensures before { out.new.before ≡ out.old.before }
        ensures told { OnOk result (Tells (with_opened (opened_by (answer_of answer.now)) self.old) self.new out.old.text out.new.text
            (served_messages (length (with_opened (opened_by (answer_of answer.now)) self.old).accounts) served.now.sender served.now.line served.now.entry
            tickers.now (command_of command.now) (answer_of answer.now))) }
    {
        self.count_opened(answer)?;
        self.echo(
            served.sender,
            Some(served.line),
            entry_for(served.sender, served.entry),
            tickers,
            command,
            answer,
            out,
        )?;
        self.tell_concerned(served.sender, tickers, command, answer, out)?;
        self.tell_all(tickers, command, answer, out)
    }
}
