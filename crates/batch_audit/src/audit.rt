//! The audit of one entry: whether it is valid, and its step.
ghost use Rattle.std.specs.Prelude.{◌≡◌, ◌+◌, ◌^◌, ◌<◌, IfOk, OnOk, OnErr};
ghost use Rattle.journal_records.specs.Views.{answer_of};
ghost use Rattle.journal_records.specs.Replies.{EncodesAnswer};
ghost use Rattle.market_rules.specs.Allocating.{RecordMayAllocate};
ghost use Rattle.batch_audit.specs.Legal.{IsLegalPair};
ghost use Rattle.batch_audit.specs.Judging.{IsChangeOf, IsWeighed};

use crate::change::Change;
use crate::explaining::finding_of;
use crate::finding::Finding;
use crate::judging::judge_record;
use journal_records::{PairView, ReplyView, reply};
use market_core::Market;
use std::alloc::Global;
use std::marker::Model;
use wire_records::Memory;

/// Whether an entry is valid.
#[derive(Clone, Copy, PartialEq, Eq)]
pub enum Legality {
    /// The entry is a step of the audit's market, which has made it.
    Legal,
    /// The entry is no step of the market. The audit is as before.
    Illegal,
}

/// Returns what an entry changes in a market, which stays as it is: `None` exactly if the entry is no step of it, so exactly if
/// [`Audit::pair`] returns `Illegal`. `seen` is the answer that the entry's second record encodes, as
/// [`reply`](journal_records::reply) finds it; an entry whose second record encodes none is invalid. The number that the next order gets is
/// below 2^64 - 1.
///
/// It costs what the audit of the entry costs without the step. Memory is taken for the start prices of a batch, for the
/// prices, rates and residuals of an admissible clearing, and for the walk of a skip what a search takes, without its trace.
pub fn judge<'a>(
    market: &mut Market,
    pair: &PairView<'a>,
    seen: &ReplyView<'_>,
) -> Result<Option<Change<'a>>, Memory>
    requires seen { EncodesAnswer pair.now.1 (answer_of seen.now) }
    requires next { market.old.next_order + 1 < 2 ^ 64 }
    ensures weighed { IfOk result (IsWeighed market.old pair.now) }
    ensures stays { market.new ≡ market.old }
    // Memory may run out only at a record for which the audit of the entry may allocate.
    ensures wanted { OnErr result (RecordMayAllocate market.old pair.now.0) }
{
    let asked = pair.asked();
    let alloc = market.alloc();
    Ok(judge_record(alloc, market, &asked, seen)?)
}

/// Makes the step of an entry that was judged over this market: `change` is what [`judge`] returned for it. The number that the
/// next order gets is below 2^64 - 1. After `Memory` the market is as before.
///
/// It costs what the step costs: the change has the command, so nothing of the entry is read again. Memory is taken for
/// what the market keeps of a command; a batch takes none.
pub fn make(market: &mut Market, pair: &PairView<'_>, change: Change<'_>) -> Result<(), Memory>
    requires change { IsChangeOf market.old pair.now change }
    requires next { market.old.next_order + 1 < 2 ^ 64 }
    ensures legal { OnOk result (IsLegalPair market.old pair.now market.new) }
    ensures stays { OnErr result (market.new ≡ market.old) }
    ensures wanted { OnErr result (RecordMayAllocate market.old pair.now.0) }
{
    match change {
        Change::Nothing => Ok(()),
        Change::Refused(_) => Ok(()),
        Change::Command(command) => {
            market.make(&command)?;
            Ok(())
        }
        Change::Batch(outcome) => {
            market.settle(&outcome);
            Ok(())
        }
    }
}

/// The market of a journal, from entry to entry. Contracts see it as that market.
#[derive(Drop)]
pub struct Audit {
    alloc: Global,
    market: Market,
}

impl Model for Audit {
    ghost use Rattle.market_rules.specs.Market.{Market as market_value};

    ghost Value = { market_value };

    ghost view = { λ audit. audit.market };
}

impl Audit {
    ghost use Rattle.wire_records.specs.declared.version.Version.TheVariants.{One};
    ghost use Rattle.market_rules.specs.Market.{empty_market, IsConsistent};
    ghost use Rattle.batch_audit.specs.Judging.{IsJudged};
    ghost use Rattle.batch_audit.specs.Findings.{IsFinding};

    /// Begins the audit of a journal of version One, at its first entry. Takes no memory.
    pub fn new(alloc: Global) -> Audit
        ensures { result ≡ empty_market One }
    {
        Audit::over(Market::new(alloc))
    }

    /// Begins the audit of the entries that follow those that have made this market; over the empty market of a
    /// version, it is the audit of a journal of that version from its first entry on. Takes no memory.
    pub fn over(market: Market) -> Audit
        ensures { result ≡ market }
    {
        Audit {
            alloc: market.alloc(),
            market,
        }
    }

    /// Returns the market after the valid entries so far.
    pub fn market(&self) -> &Market
        ensures value { result.now ≡ self.now }
        ensures consistent { IsConsistent self.now }
    {
        // Called for its contract: the market is consistent.
        let _consistent = self.market.accounts();
        &self.market
    }

    /// Returns the market after the valid entries so far, and ends the audit.
    pub fn into_market(self) -> Market
        ensures { result ≡ self }
    {
        self.market
    }

    /// Makes the step of an entry, if the entry is one of the market: returns `Legal` exactly if its second record
    /// encodes the reply that the market gives to its first, or, for a batch, any admissible outcome under the batch's
    /// number. Else it returns `Illegal`, and the market is as before, as it is after `Memory`. The number that the
    /// next order gets is below 2^64 - 1.
    ///
    /// The entry is checked in place. Of a reply nothing is copied but the prices, rates and residuals of an admissible
    /// clearing, and of a command what the market keeps of it. These take memory, as do the start prices of a batch,
    /// and for the walk of a skip what a search takes, without its trace.
    pub fn pair(&mut self, pair: &PairView<'_>) -> Result<Legality, Memory>
        requires next { self.old.next_order + 1 < 2 ^ 64 }
        ensures judged { IfOk result (λ legality. IsJudged legality self.old pair.now self.new) }
        ensures stays { OnErr result (self.new ≡ self.old) }
        // Only a new asset, account or order, or a batch, may run out of memory, and only if no refusal holds.
        ensures wanted { OnErr result (RecordMayAllocate self.old pair.now.0) }
    {
        match reply(&pair.answered()) {
            None => Ok(Legality::Illegal),
            Some(seen) => Ok(self.replied_pair(pair, &seen)?),
        }
    }

    // Makes the step of an entry whose second record encodes this answer, as `pair` does.
    fn replied_pair(
        &mut self,
        pair: &PairView<'_>,
        seen: &ReplyView<'_>,
    ) -> Result<Legality, Memory>
        requires seen { EncodesAnswer pair.now.1 (answer_of seen.now) }
        requires next { self.old.next_order + 1 < 2 ^ 64 }
        ensures judged { IfOk result (λ legality. IsJudged legality self.old pair.now self.new) }
        ensures stays { OnErr result (self.new ≡ self.old) }
        ensures wanted { OnErr result (RecordMayAllocate self.old pair.now.0) }
    {
        match self.judge(pair, seen)? {
            None => Ok(Legality::Illegal),
            Some(change) => {
                self.make(pair, change)?;
                Ok(Legality::Legal)
            }
        }
    }

    /// Returns what the entry changes in the market, which stays as it is, as [`judge`] does.
    pub fn judge<'a>(
        &mut self,
        pair: &PairView<'a>,
        seen: &ReplyView<'_>,
    ) -> Result<Option<Change<'a>>, Memory>
        requires seen { EncodesAnswer pair.now.1 (answer_of seen.now) }
        requires next { self.old.next_order + 1 < 2 ^ 64 }
        ensures weighed { IfOk result (IsWeighed self.old pair.now) }
        ensures stays { self.new ≡ self.old }
        ensures wanted { OnErr result (RecordMayAllocate self.old pair.now.0) }
    {
        judge(&mut self.market, pair, seen)
    }

    /// Makes the step of an entry that was judged over this market, as [`make`] does.
    pub fn make(&mut self, pair: &PairView<'_>, change: Change<'_>) -> Result<(), Memory>
        requires change { IsChangeOf self.old pair.now change }
        requires next { self.old.next_order + 1 < 2 ^ 64 }
        ensures legal { OnOk result (IsLegalPair self.old pair.now self.new) }
        ensures stays { OnErr result (self.new ≡ self.old) }
        ensures wanted { OnErr result (RecordMayAllocate self.old pair.now.0) }
    {
        make(&mut self.market, pair, change)
    }

    /// Returns why the entry is no step of the market: the first of the findings that holds, and `Legal` exactly if it
    /// is one, so exactly if [`Audit::pair`] returns that. Nothing is changed. The number that the next order gets is
    /// below 2^64 - 1.
    ///
    /// It costs what the audit of the entry costs without the step. Memory is taken for the start prices of a batch,
    /// and for the walk of a skip what a search takes, without its trace.
    pub fn explain(&mut self, pair: &PairView<'_>) -> Result<Finding, Memory>
        requires next { self.old.next_order + 1 < 2 ^ 64 }
        ensures found { IfOk result (IsFinding self.old pair.now) }
        ensures stays { self.new ≡ self.old }
        // Memory may run out only at a record for which the audit of the entry may allocate.
        ensures wanted { OnErr result (RecordMayAllocate self.old pair.now.0) }
    {
        match reply(&pair.answered()) {
            None => Ok(Finding::NoReply),
            Some(seen) => {
                let asked = pair.asked();
                Ok(finding_of(self.alloc, &mut self.market, &asked, &seen)?)
            }
        }
    }
}
