//! The lines of an entry.
ghost use Rattle.std.specs.Prelude.{◌≡◌, ◌≤◌, ◌++◌, ℕ, List, OnOk, OnErr, vec_capacity};
ghost use Rattle.wire_records.specs.CommandRecords.{record_of, IsCommand};
ghost use Rattle.wire_records.specs.Versions.{IsReadAs};
ghost use Rattle.wire_records.specs.Views.{command_of};
ghost use Rattle.flow_orders.specs.Outcomes.{IsAdmissibleOutcome};
ghost use Rattle.journal_records.specs.Replies.{answer_record, IsAnswer};
ghost use Rattle.journal_records.specs.Views.{answer_of};
ghost use Rattle.market_rules.specs.Journal.{Step};
ghost use Rattle.market_rules.specs.Market.{Market};
ghost use Rattle.batch_audit.specs.Legal.{IsLegalPair};
ghost use Rattle.batch_report.specs.Reports.{IsReport};
ghost use Rattle.batch_report.specs.Private.{told_text, IsAnswered};

use crate::batches::{put_cleared, put_skipped};
use crate::plain::{put_plain, put_refused};
use batch_audit::Audit;
use journal_records::{PairView, ReplyView, reply};
use market_core::Market;
use pair_text::Text;
use ticker_table::TickerTable;
use wire_records::{CommandView, Memory};

// Appends what is reported of a command and its answer.
fn put_told(
    tickers: &TickerTable,
    command: &CommandView<'_>,
    answer: &ReplyView<'_>,
    out: &mut Text,
) -> Result<(), Memory>
    ensures before { out.new.before ≡ out.old.before }
    ensures put { OnOk result (out.new.text ≡ out.old.text ++ told_text tickers.now (command_of command.now) (answer_of answer.now)) }
{
    match answer {
        ReplyView::Plain(told) => put_plain(tickers, command, *told, out),
        ReplyView::Cleared(view) => put_cleared(tickers, view, out),
        ReplyView::Skipped(view) => put_skipped(view, out),
    }
}

// Appends the lines of a command that was served.
fn put_served(
    market: &Market,
    command: &CommandView<'_>,
    answer: &ReplyView<'_>,
    number: u64,
    out: &mut Text,
) -> Result<(), Memory>
    requires served { IsAnswered market.now (record_of (command_of command.now)) (answer_of answer.now) }
    requires fits { IsCommand (command_of command.now) × IsAnswer (answer_of answer.now) }
    ensures before { out.new.before ≡ out.old.before }
    ensures put { OnOk result ((text : List ℕ)
        × IsReport market.now number (record_of (command_of command.now), answer_record (answer_of answer.now)) text
        × (out.new.text ≡ out.old.text ++ text)) }
{
    out.put_number(b"", number)?;
    out.put(b" ")?;
    put_told(market.tickers(), command, answer, out)
}

// Appends the lines of an entry.
fn put_pair(market: &Market, pair: &PairView<'_>, number: u64, out: &mut Text) -> Result<(), Memory>
    requires { (old : Market) × IsLegalPair old pair.now market.now }
    ensures before { out.new.before ≡ out.old.before }
    ensures put { OnOk result ((text : List ℕ) × IsReport market.now number pair.now text
        × (out.new.text ≡ out.old.text ++ text)) }
{
    out.put_number(b"", number)?;
    out.put(b" ")?;
    match market.read(&pair.asked()) {
        Ok(command) => match reply(&pair.answered()) {
            Some(answer) => put_told(market.tickers(), &command, &answer, out),
            None => unreachable!(),
        },
        Err(refusal) => put_refused(refusal, out),
    }
}

// Hands a buffer back with the text that follows its bytes, or as it was if memory ran out for the text.
fn hand_back(text: Text, written: Result<(), Memory>, out: &mut Vec<u8>) -> Result<(), Memory>
    ensures same { result ≡ written }
    ensures whole { OnOk written (out.new.items ≡ text.before.items ++ text.text) }
    ensures taken_back { OnErr written (out.new.items ≡ text.before.items) }
    ensures room { text.before.room ≤ vec_capacity out.new }
{
    match written {
        Ok(()) => {
            *out = text.whole();
            Ok(())
        }
        Err(memory) => {
            *out = text.taken_back();
            Err(memory)
        }
    }
}

/// Appends the lines of a command that was just served, and led to this market, as [`report_entry`] does for its entry. The command and
/// the answer are values, and nothing is read again. Memory and costs are those of [`report_entry`].
pub fn report_served(
    market: &Market,
    command: &CommandView<'_>,
    answer: &ReplyView<'_>,
    number: u64,
    out: &mut Vec<u8>,
) -> Result<(), Memory>
    requires served { (old : Market)
        × Step IsReadAs IsAdmissibleOutcome old (record_of (command_of command.now)) (answer_of answer.now) market.now }
    requires fits { IsCommand (command_of command.now) × IsAnswer (answer_of answer.now) }
    ensures reported { OnOk result ((text : List ℕ)
        × IsReport market.now number (record_of (command_of command.now), answer_record (answer_of answer.now)) text
        × (out.new.items ≡ out.old.items ++ text)) }
    ensures stays { OnErr result (out.new.items ≡ out.old.items) }
    ensures room { vec_capacity out.old ≤ vec_capacity out.new }
{
    let mut text = Text::following(out);
    let written = put_served(market, command, answer, number, &mut text);
    hand_back(text, written, out)
}

/// Appends the lines of an entry that led to this market, under its number, counted from 1. They name assets by the tickers of the
/// market, which is the one after the entry, without spaces. Prices, gaps and dual values are in grains,
/// limits in ticks, all other amounts in whole units; numbers are plain decimal, with `-` before a negative one, and
/// each line ends with a line feed.
///
/// A plain command has one line with what it was given or did, or with the code of its refusal. A batch that cleared
/// has, after its own line, one for each asset and one for each order that was live, including those with a rate of 0.
/// The error is `Memory`: there was no memory for the text; then `out` is as before, since what was written of the text
/// is taken back. It costs what the entry has of numbers, and takes memory only if `out` has no room for the text.
pub fn report_entry(
    market: &Market,
    pair: &PairView<'_>,
    number: u64,
    out: &mut Vec<u8>,
) -> Result<(), Memory>
    requires legal { (old : Market) × IsLegalPair old pair.now market.now }
    ensures reported { OnOk result ((text : List ℕ) × IsReport market.now number pair.now text
        × (out.new.items ≡ out.old.items ++ text)) }
    ensures stays { OnErr result (out.new.items ≡ out.old.items) }
    ensures room { vec_capacity out.old ≤ vec_capacity out.new }
{
    let mut text = Text::following(out);
    let written = put_pair(market, pair, number, &mut text);
    hand_back(text, written, out)
}

/// Appends the lines of an entry that the audit has just found valid, as [`report_entry`] does with the audit's market.
pub fn report_pair(
    audit: &Audit,
    pair: &PairView<'_>,
    number: u64,
    out: &mut Vec<u8>,
) -> Result<(), Memory>
    requires legal { (old : Market) × IsLegalPair old pair.now audit.now }
    ensures reported { OnOk result ((text : List ℕ) × IsReport audit.now number pair.now text
        × (out.new.items ≡ out.old.items ++ text)) }
    ensures stays { OnErr result (out.new.items ≡ out.old.items) }
    ensures room { vec_capacity out.old ≤ vec_capacity out.new }
{
    report_entry(audit.market(), pair, number, out)
}
