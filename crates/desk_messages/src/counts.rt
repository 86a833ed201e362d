//! How many lines of each sender were counted, and how many messages each recipient was told.
ghost use Rattle.std.specs.Prelude.{◌≡◌, ◌<◌, ◌≤◌, ◌+◌, ◌++◌, ◌^◌, ◌↔◌, length, IsTrue, IfOk, OnOk, OnErr};
ghost use Rattle.answer_text.specs.Answers.{answer_head};
ghost use Rattle.desk_messages.specs.Desks.{no_desks, recipient_of, tally_of, IsThere, with_tally, with_read, with_line, with_message, with_account};

use answer_text::{Heading, Recipient, put_head};
use pair_text::Text;
use std::alloc::Global;
use std::marker::Model;
use wire_records::Memory;

/// Two counts: of a sender's lines, and of the messages to whoever it is.
#[derive(Clone, Copy)]
pub struct Tally {
    /// How many lines were counted.
    pub lines: u64,
    /// How many messages were written.
    pub messages: u64,
}

// Nothing was counted.
const NONE: Tally = Tally {
    lines: 0,
    messages: 0,
};

/// Counts the lines of senders, and the messages to recipients. Contracts see it as these counts.
///
/// A call that appends messages may end with `Memory`. Then what was in the list before is still there, but the counts and a part of the text
/// may have been changed.
pub struct Desks {
    // All lines of the input, and all messages.
    total: Tally,
    operator: Tally,
    // What is told to all; nobody sends lines for all.
    all: Tally,
    // By the accounts' numbers, from 1.
    accounts: Vec<Tally>,
}

impl Drop for Desks {
    // By hand, so that the end of a value is one call in the proofs of those who own it (docs/PROVING_TRAPS.md).
    fn drop(self) {
        let Desks {
            total: _,
            operator: _,
            all: _,
            accounts: _,
        } = self;
    }
}

impl Model for Desks {
    ghost use Rattle.std.specs.Prelude.{All};
    ghost use Rattle.desk_messages.specs.Desks.{Desks};
    ghost use Rattle.desk_messages.specs.Private.{IsWithin};

    ghost Value = { Desks };

    ghost view = { λ desks. record {
      total = desks.total;
      operator = desks.operator;
      all = desks.all;
      accounts = desks.accounts.items;
    } };

    ghost invariant = { λ desks. IsWithin desks.total desks.operator × IsWithin desks.total desks.all
        × All (IsWithin desks.total) desks.accounts.items };
}

/// Returns the recipient that a sender is: number 0 is the operator, and any other the account of this number.
pub fn recipient_of(from: u32) -> Recipient
    ensures { result ≡ recipient_of from }
{
    if from == 0 {
        return Recipient::Operator;
    }
    Recipient::Desk(from)
}

impl Desks {
    /// Makes the counts of a market with so many accounts: nothing was sent or told yet. Takes 16 bytes for each account.
    pub fn new(alloc: Global, accounts: u32) -> Result<Desks, Memory>
        ensures { IfOk result (λ desks. desks ≡ no_desks accounts) }
    {
        Ok(Desks {
            total: NONE,
            operator: NONE,
            all: NONE,
            accounts: vec![in alloc; NONE; accounts as usize]?,
        })
    }

    // Returns the counts of a sender or recipient.
    fn tally(&self, of: Recipient) -> Tally
        requires there { IsThere self.now of }
        ensures value { result ≡ tally_of self.now of }
        ensures lines { result.lines ≤ self.now.total.lines }
        ensures messages { result.messages ≤ self.now.total.messages }
    {
        match of {
            Recipient::Operator => self.operator,
            Recipient::Desk(account) => self.accounts[account as usize - 1],
            Recipient::All => self.all,
        }
    }

    // Changes the counts of a sender or recipient, and the total.
    fn set(&mut self, of: Recipient, tally: Tally, total: Tally)
        requires there { IsThere self.old of }
        requires lines { (self.old.total.lines ≤ total.lines) × (tally.lines ≤ total.lines) }
        requires messages { (self.old.total.messages ≤ total.messages) × (tally.messages ≤ total.messages) }
        ensures { self.new ≡ record (with_tally self.old of tally) { total = total } }
    {
        match of {
            Recipient::Operator => self.operator = tally,
            Recipient::Desk(account) => self.accounts[account as usize - 1] = tally,
            Recipient::All => self.all = tally,
        }
        self.total = total;
    }

    /// Returns how many lines of the input there were so far. Constant cost.
    pub fn lines(&self) -> u64
        ensures { result ≡ self.now.total.lines }
    {
        self.total.lines
    }

    /// Returns how many lines of a sender were counted, which is the operator or an account that is there. Constant cost.
    pub fn lines_of(&self, sender: Recipient) -> u64
        requires { IsThere self.now sender }
        ensures value { result ≡ (tally_of self.now sender).lines }
        ensures within { result ≤ self.now.total.lines }
    {
        self.tally(sender).lines
    }

    /// Adds a line of the input that counts for no sender. Constant cost.
    pub fn skip_line(&mut self)
        requires few { self.old.total.lines + 1 < 2 ^ 64 }
        ensures { self.new ≡ with_read self.old }
    {
        self.total.lines += 1;
    }

    /// Adds a line of the input that counts for its sender, which is the operator or an account that is there. Constant cost.
    pub fn count_line(&mut self, sender: Recipient)
        requires there { IsThere self.old sender }
        requires few { self.old.total.lines + 1 < 2 ^ 64 }
        ensures { self.new ≡ with_line self.old sender }
    {
        let tally = self.tally(sender);
        let total = self.total;
        self.set(
            sender,
            Tally {
                lines: tally.lines + 1,
                messages: tally.messages,
            },
            Tally {
                lines: total.lines + 1,
                messages: total.messages,
            },
        );
    }

    /// Adds an account, which was opened. After `Memory` the counts are as before. Constant cost on average.
    pub fn add_account(&mut self) -> Result<(), Memory>
        ensures added { OnOk result (self.new ≡ with_account self.old) }
        ensures stays { OnErr result (self.new ≡ self.old) }
    {
        match self.accounts.push(NONE) {
            Ok(()) => Ok(()),
            Err(_) => Err(Memory),
        }
    }

    // Returns how many accounts there are.
    pub(crate) fn accounts(&self) -> usize
        ensures { result ≡ length self.now.accounts }
    {
        self.accounts.len()
    }

    /// Returns whether a sender or recipient is there: an account has to be one of those that are counted. Constant cost.
    pub fn is_there(&self, who: Recipient) -> bool
        ensures { IsTrue result ↔ IsThere self.now who }
    {
        match who {
            Recipient::Operator => true,
            Recipient::Desk(account) => 0 < account && account as usize <= self.accounts.len(),
            Recipient::All => true,
        }
    }

    /// Counts a message to a recipient, who is there, and appends what is before its members. The members and
    /// [`put_end`](answer_text::put_end) are to follow. Constant cost.
    pub fn address(
        &mut self,
        to: Recipient,
        line: Option<u64>,
        entry: Option<u64>,
        out: &mut Text,
    ) -> Result<(), Memory>
        requires there { IsThere self.old to }
        requires few { self.old.total.messages + 1 < 2 ^ 64 }
        ensures counted { self.new ≡ with_message self.old to }
        ensures before { out.new.before ≡ out.old.before }
        ensures put { OnOk result (out.new.text ≡ out.old.text ++ answer_head (record {
          to = to;
          number = (tally_of self.old to).messages + 1;
          line = line;
          entry = entry;
        })) }
    {
        let tally = self.tally(to);
        let total = self.total;
        let number = tally.messages + 1;
        self.set(
            to,
            Tally {
                lines: tally.lines,
                messages: number,
            },
            Tally {
                lines: total.lines,
                messages: total.messages + 1,
            },
        );
        put_head(
            &Heading {
                to,
                number,
                line,
                entry,
            },
            out,
        )
    }
}
