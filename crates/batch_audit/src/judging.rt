//! What an entry would change in a market, by its reply and by what its record is read as. Nothing is changed.
ghost use Rattle.std.specs.Prelude.{◌≡◌, ◌+◌, ◌^◌, ◌<◌, ℕ, if◌then◌else◌, Some, None, Ok, IfOk, IfSome, IfNone, OnErr};
ghost use Rattle.wire_records.specs.Commands.{RunBatch};
ghost use Rattle.wire_records.specs.CommandRecords.{IsCommand};
ghost use Rattle.wire_records.specs.Versions.{IsOfVersion};
ghost use Rattle.wire_records.specs.Views.{command_of};
ghost use Rattle.wire_records.specs.declared.reply.Refusal.{Refusal as refusal_type};
ghost use Rattle.journal_records.specs.Views.{answer_of};
ghost use Rattle.market_rules.specs.Allocating.{MayAllocate, RecordMayAllocate};
ghost use Rattle.batch_audit.specs.Private.{IsReadWeighed, IsAnswerWeighed};

use crate::change::Change;
use crate::explaining::is_plain;
use crate::outcomes::outcome_for;
use journal_records::ReplyView;
use market_core::Market;
use std::alloc::Global;
use wire_records::{CommandView, Memory, RecordView, Refusal, Reply};

// Returns the change `Nothing` if the test holds, and else `None`: there is no step.
fn nothing_where<'a>(test: bool) -> Option<Change<'a>>
    ensures { result ≡ (if test then Some Change.Nothing else None) }
{
    if test { Some(Change::Nothing) } else { None }
}

// Returns that a batch with this budget is refused if the test holds, and else `None`: there is no step.
fn refused_where<'a>(test: bool, budget: u32) -> Option<Change<'a>>
    ensures { result ≡ (if test then Some (Change.Refused (CommandView.RunBatch budget)) else None) }
{
    if test {
        Some(Change::Refused(CommandView::RunBatch { budget }))
    } else {
        None
    }
}

// Returns the refusal in a reply, if it is one.
fn refusal_in(reply: Reply) -> Option<Refusal>
    ensures some { IfSome result (λ refusal. reply ≡ Reply.Refused refusal) }
    ensures none { IfNone result ((refusal : refusal_type) → ¬ (reply ≡ Reply.Refused refusal)) }
{
    match reply {
        Reply::Refused(refusal) => Some(refusal),
        Reply::Done => None,
        Reply::Asset(_) => None,
        Reply::Account(_) => None,
        Reply::Order(_) => None,
    }
}

// Returns what a command that holds no batch changes in the market, if this is the reply to it.
fn judge_plain<'a>(
    market: &Market,
    command: CommandView<'a>,
    seen: &ReplyView<'_>,
) -> Option<Change<'a>>
    requires command { IsCommand (command_of command) }
    requires version { IsOfVersion market.now.version (command_of command) }
    requires no_batch { (budget : ℕ) → ¬ (command_of command ≡ RunBatch budget) }
    requires next { market.now.next_order + 1 < 2 ^ 64 }
    ensures { IsReadWeighed market.now (Ok (command_of command.entry)) (answer_of seen.now) result }
{
    let expected = market.expected(&command);
    if !is_plain(seen, expected) {
        return None;
    }
    match refusal_in(expected) {
        Some(_refusal) => Some(Change::Refused(command)),
        None => Some(Change::Command(command)),
    }
}

// Returns what a batch with this budget changes in the market, if the reply has an admissible outcome of it or its
// refusal.
fn judge_batch<'a>(
    alloc: Global,
    market: &mut Market,
    budget: u32,
    seen: &ReplyView<'_>,
) -> Result<Option<Change<'a>>, Memory>
    ensures weighed { IfOk result (IsReadWeighed market.old (Ok (RunBatch budget)) (answer_of seen.now)) }
    ensures stays { market.new ≡ market.old }
    ensures wanted { OnErr result (MayAllocate market.old (RunBatch budget)) }
{
    if let Err(refusal) = market.batch_allowed(budget) {
        let refused = is_plain(seen, Reply::Refused(refusal));
        return Ok(refused_where(refused, budget));
    }
    match outcome_for(alloc, market, budget, seen)? {
        None => Ok(None),
        Some(outcome) => Ok(Some(Change::Batch(outcome))),
    }
}

// Returns what a record changes in the market, if this is the reply to it.
pub(crate) fn judge_record<'a>(
    alloc: Global,
    market: &mut Market,
    asked: &RecordView<'a>,
    seen: &ReplyView<'_>,
) -> Result<Option<Change<'a>>, Memory>
    requires next { market.old.next_order + 1 < 2 ^ 64 }
    ensures weighed { IfOk result (IsAnswerWeighed market.old asked.now (answer_of seen.now)) }
    ensures stays { market.new ≡ market.old }
    ensures wanted { OnErr result (RecordMayAllocate market.old asked.now) }
{
    match market.read(asked) {
        Ok(CommandView::RunBatch { budget }) => Ok(judge_batch(alloc, market, budget, seen)?),
        Ok(command) => Ok(judge_plain(market, command, seen)),
        Err(refusal) => Ok(nothing_where(is_plain(seen, Reply::Refused(refusal)))),
    }
}
