//! What a statement keeps of its account, by the number that was asked for.
ghost use Rattle.std.specs.Prelude.{◌≡◌, ◌≤◌, ℕ, [], IfOk, OnOk, OnErr, vec_capacity};
ghost use Rattle.wire_records.specs.declared.version.Version.{Version};
ghost use Rattle.market_rules.specs.Market.{Market as market_value, empty_market};
ghost use Rattle.flow_accounts.specs.Balances.{IsAccount};
ghost use Rattle.statement_rules.specs.Statements.{carried_lines};
ghost use Rattle.account_statement.specs.Telling.{AllocatesCopy};
ghost use Rattle.journal_records.specs.Views.{answer_of};
ghost use Rattle.journal_records.specs.Replies.{EncodesAnswer};
ghost use Rattle.batch_audit.specs.Legal.{IsLegalPair};
ghost use Rattle.batch_audit.specs.Judging.{IsChangeOf};
ghost use Rattle.journal_words.specs.Private.{IsClosedBy};
ghost use Rattle.statement_word.specs.Stating.{stating};
ghost use Rattle.statement_word.specs.Private.{IsOf, HasTold};

use crate::no_statement::NoStatement;
use account_statement::Statement;
use batch_audit::Change;
use journal_records::{PairView, ReplyView};
use market_core::Market;
use std::alloc::Global;
use word_driver::{Halt, Memory};

// The statement of the account of a number, from entry to entry.
#[derive(Drop)]
pub(crate) struct Own {
    pub(crate) number: u64,
    // None if no account can have the number, since it has more than 32 bits.
    pub(crate) statement: Option<Statement>,
}

impl Own {
    // Creates it for an empty market. Allocates nothing.
    pub(crate) fn new(alloc: Global, number: u64) -> Own
        ensures number { result.number ≡ number }
        ensures is_of { (version : Version) → IsOf result.number (empty_market version) result.statement }
    {
        let statement = match u32::try_from(number) {
            Ok(account) => Some(Statement::new(alloc, account)),
            Err(_) => None,
        };
        Own { number, statement }
    }

    // Creates it for a market, which is as before: copies what the account has there.
    pub(crate) fn from_market(
        alloc: Global,
        number: u64,
        market: &mut Market,
    ) -> Result<Own, Memory>
        ensures number { IfOk result (λ own. own.number ≡ number) }
        ensures is_of { IfOk result (λ own. IsOf own.number market.old own.statement) }
        ensures wanted { OnErr result (AllocatesCopy number market.old) }
        ensures market { market.new ≡ market.old }
    {
        match u32::try_from(number) {
            Ok(account) => match Statement::from_market(alloc, account, market) {
                Ok(statement) => Ok(Own {
                    number,
                    statement: Some(statement),
                }),
                Err(_) => Err(Memory),
            },
            Err(_) => Ok(Own {
                number,
                statement: None,
            }),
        }
    }

    // Puts the lines that are carried forward from a market into the buffer, which is empty.
    pub(crate) fn carry(&self, market: &Market, text: &mut Vec<u8>) -> Result<(), Memory>
        requires is_of { IsOf self.now.number market.now self.now.statement }
        requires empty { text.old.items ≡ [] }
        ensures carried { OnOk result (text.new.items ≡ carried_lines self.now.number market.now) }
        ensures wanted { OnErr result (IsAccount market.now.balances self.now.number) }
        ensures room { vec_capacity text.old ≤ vec_capacity text.new }
    {
        // Called for its contract: the market is consistent.
        let _consistent = market.version();
        match &self.statement {
            Some(statement) if statement.is_open() => statement.finish(text),
            Some(_) => Ok(()),
            None => Ok(()),
        }
    }

    // Takes a valid entry, with its reply and what it changes: puts the lines of what the account sees of it into the buffer, which is
    // empty. After `Memory` the statement is unchanged.
    pub(crate) fn tell(
        &mut self,
        market: &Market,
        pair: &PairView<'_>,
        reply: &ReplyView<'_>,
        change: &Change<'_>,
        text: &mut Vec<u8>,
    ) -> Result<(), Memory>
        requires is_of { IsOf self.old.number market.now self.old.statement }
        requires replied { EncodesAnswer pair.now.1 (answer_of reply.now) }
        requires change { IsChangeOf market.now pair.now change.now }
        requires empty { text.old.items ≡ [] }
        ensures number { self.new.number ≡ self.old.number }
        ensures told { OnOk result ((next : market_value) (legal : IsLegalPair market.now pair.now next)
            → HasTold self.old.number market.now pair.now self.new.statement text.new.items next legal) }
        ensures stays { OnErr result (self.new.statement ≡ self.old.statement) }
        ensures room { vec_capacity text.old ≤ vec_capacity text.new }
    {
        match &mut self.statement {
            Some(statement) => statement.pair(market, pair, reply, change, text),
            None => {
                // Called for its contract: the market is consistent.
                let _consistent = market.version();
                Ok(())
            }
        }
    }

    // Takes the end of a valid history, in this market: puts the last lines into the buffer, if there is such an account.
    pub(crate) fn finish(
        &self,
        market: &Market,
        text: &mut Vec<u8>,
    ) -> Result<(), Halt<NoStatement>>
        requires is_of { IsOf self.now.number market.now self.now.statement }
        requires empty { text.old.items ≡ [] }
        ensures closed { (pairs : ℕ) → IsClosedBy stating market.now pairs
            (record { account = self.now.number; market = market.now }) result text.new.items }
        ensures room { vec_capacity text.old ≤ vec_capacity text.new }
    {
        // Called for its contract: the market is consistent.
        let _consistent = market.version();
        match &self.statement {
            Some(statement) if statement.is_open() => match statement.finish(text) {
                Ok(()) => Ok(()),
                Err(_) => Err(Halt::Memory),
            },
            Some(_) => Err(Halt::Stopped(NoStatement::NoAccount(self.number))),
            None => Err(Halt::Stopped(NoStatement::NoAccount(self.number))),
        }
    }
}
