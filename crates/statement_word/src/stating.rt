//! What is done with the entries of a history: the lines of what an account sees of them are written.
ghost use Rattle.std.proofs.Props.{props};
ghost use Rattle.std.specs.Prelude.{◌≡◌};
ghost use Rattle.statement_word.specs.Stating.{stating};
ghost use Rattle.statement_word.specs.Private.{IsOf};

use crate::no_statement::NoStatement;
use crate::own::Own;
use batch_audit::{Audit, Change};
use history_words::OnHistory;
use journal_records::{PairView, ReplyView};
use journal_words::OnPair;
use market_core::Market;
use std::alloc::Global;
use word_driver::{Halt, Memory};

/// Writes of each valid entry what the account of a number sees of it, by the market before the entry.
#[derive(Drop)]
pub struct Stating {
    alloc: Global,
    own: Own,
}

/// Asks for the statement of an account over a history. It begins with the lines that are carried forward from the market that the
/// history begins in: the account's last lines there, or nothing if it isn't there. So the last lines of an account's statement are the
/// first ones of its statement over a history that begins with the checkpoint of the same market.
///
/// Its start may allocate, for a copy of what the account has and for these lines, only if the market has an asset or the account.
#[derive(Clone, Copy)]
pub struct StatementOf {
    /// The number of the account. There needn't be such an account.
    pub number: u64,
}

impl OnHistory<Stating> for StatementOf {
    ghost use Rattle.statement_rules.specs.Statements.{carried_lines};
    ghost use Rattle.account_statement.specs.Telling.{AllocatesCopy};

    ghost makes = { λ s market on. on.own.number ≡ s.number };

    ghost opens = { λ s. carried_lines s.number };

    ghost allocates = { λ s. AllocatesCopy s.number };

    fn begin(
        self,
        alloc: Global,
        market: &mut Market,
        text: &mut Vec<u8>,
    ) -> Result<Stating, Memory> {
        let own = match Own::from_market(alloc, self.number, market) {
            Ok(own) => own,
            Err(_) => return Err(Memory),
        };
        match own.carry(market, text) {
            Ok(()) => Ok(Stating { alloc, own }),
            Err(_) => Err(Memory),
        }
    }
}

impl OnPair for Stating {
    ghost use Rattle.statement_word.specs.Stating.{Stated};

    type Stop = NoStatement;

    const ROOM: usize = 0;

    ghost ROOM = { 0 };

    ghost Seen = { Stated };

    ghost watch = { stating };

    ghost seen = { λ s market. record { account = s.own.number; market = market } };

    ghost is_within = { λ s market pairs. IsOf s.own.number market s.own.statement };

    ghost within_is_prop = { λ state market pairs. Prim.hlevel props };

    // What the account sees is written first, since it depends on the market before the entry. If memory then runs out in the change, the
    // statement is an entry ahead of the market, so both are replaced by those of an empty market.
    fn legal(
        &mut self,
        audit: &mut Audit,
        pair: &PairView<'_>,
        reply: &ReplyView<'_>,
        change: Change<'_>,
        _pairs: u64,
        text: &mut Vec<u8>,
    ) -> Result<(), Memory> {
        match self.own.tell(audit.market(), pair, reply, &change, text) {
            Ok(()) => {}
            Err(_) => return Err(Memory),
        }
        match audit.make(pair, change) {
            Ok(()) => Ok(()),
            Err(_) => {
                *audit = Audit::new(self.alloc);
                self.own = Own::new(self.alloc, self.own.number);
                Err(Memory)
            }
        }
    }

    fn illegal(
        &self,
        _audit: &mut Audit,
        _pair: &PairView<'_>,
        pairs: u64,
        _text: &mut Vec<u8>,
    ) -> Result<NoStatement, Memory> {
        Ok(NoStatement::Rejected(pairs + 1))
    }

    fn end(
        &self,
        audit: &mut Audit,
        _pairs: u64,
        text: &mut Vec<u8>,
    ) -> Result<(), Halt<NoStatement>> {
        self.own.finish(audit.market(), text)
    }
}
