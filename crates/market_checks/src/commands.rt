//! What a market says that it will answer, and what it answers.
ghost use Rattle.std.specs.Prelude.{◌≡◌, ℕ, ◌+◌, ◌<◌, ◌^◌};
ghost use Rattle.wire_records.specs.Commands.{RunBatch};
ghost use Rattle.wire_records.specs.CommandRecords.{IsCommand};
ghost use Rattle.wire_records.specs.Versions.{IsOfVersion};
ghost use Rattle.wire_records.specs.Views.{command_of};

use crate::MANY;
use crate::state::put_market;
use check_lines::{Told, records};
use market_core::Market;
use std::alloc::Global;
use wire_records::{CommandView, Framed, MOST_BODY, RecordView, Refusal, Reply, next_record};

pub(crate) fn put_reply(reply: Reply, told: &mut Told) {
    match reply {
        Reply::Done => told.put("done"),
        Reply::Asset(number) => told.put_number("asset ", i128::from(number)),
        Reply::Account(number) => told.put_number("account ", i128::from(number)),
        Reply::Order(number) => told.put_number("order ", i128::from(number)),
        Reply::Refused(refusal) => put_refusal(refusal, told),
    }
}

fn put_refusal(refusal: Refusal, told: &mut Told) {
    told.put_number("refused ", i128::from(refusal.code()));
}

// Appends the reply that a command is said to get, and the one that it gets.
fn put_replies(market: &mut Market, command: &CommandView<'_>, told: &mut Told)
    requires command { IsCommand (command_of command.now) }
    requires version { IsOfVersion market.old.version (command_of command.now) }
    requires no_batch { (budget : ℕ) → ¬ (command_of command.now ≡ RunBatch budget) }
    requires next { market.old.next_order + 1 < 2 ^ 64 }
{
    put_reply(market.expected(command), told);
    told.put(", ");
    match market.apply(command) {
        Ok(reply) => put_reply(reply, told),
        Err(_) => told.give_up(),
    }
}

// Appends whether a batch with this budget is allowed.
fn put_batch(market: &Market, budget: u32, told: &mut Told) {
    told.put("batch: ");
    match market.batch_allowed(budget) {
        Ok(()) => told.put("allowed"),
        Err(refusal) => put_refusal(refusal, told),
    }
}

// Appends the answer to a record.
fn put_answer(market: &mut Market, asked: &RecordView<'_>, told: &mut Told) {
    if market.next_number() >= MANY {
        return told.give_up();
    }
    match market.read(asked) {
        Ok(CommandView::RunBatch { budget }) => put_batch(market, budget, told),
        Ok(command) => put_replies(market, &command, told),
        Err(refusal) => {
            told.put("unread: ");
            put_refusal(refusal, told);
        }
    }
}

// Appends the row of a record.
fn put_row(market: &mut Market, record: &[u8], told: &mut Told) {
    told.put("  ");
    match next_record(record, MOST_BODY) {
        Framed::Whole(asked, _) => put_answer(market, &asked, told),
        _ => told.give_up(),
    }
    told.put("\n");
}

fn put_all(market: &mut Market, records: &[&[u8]], told: &mut Told) {
    for record in records {
        put_row(market, record, told);
    }
}

// Serves each record, and appends its row. Then come those of the market.
pub(crate) fn put_served(alloc: Global, bytes: &[u8], told: &mut Told) {
    let mut market = Market::new(alloc);
    match records(alloc, bytes) {
        Some(records) => put_all(&mut market, &records, told),
        None => told.give_up(),
    }
    put_market(alloc, &mut market, told);
}
