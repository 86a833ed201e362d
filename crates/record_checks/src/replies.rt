//! Replies that are read, and entries.
use crate::records::record_in;
use crate::telling::{put, put_bytes, put_item};
use batch_outcome::{Cleared, ClearedParts};
use check_lines::Told;
use journal_records::{ClearedView, PairFramed, ReplyView, is_overlong, next_pair, reply};
use std::alloc::Global;
use wire_records::{RecordView, Reply};

fn put_plain(reply: Reply, told: &mut Told) {
    match reply {
        Reply::Done => put("done", &[], told),
        Reply::Asset(asset) => put("asset", &[asset.into()], told),
        Reply::Account(account) => put("account", &[account.into()], told),
        Reply::Order(order) => put("order", &[order.into()], told),
        Reply::Refused(refusal) => put("refused", &[refusal.code().into()], told),
    }
}

// Prints each price with its imbalance, by place, up to the first that isn't there.
fn put_assets(view: &ClearedView<'_>, told: &mut Told) {
    for place in 0..=view.price_count() {
        match (view.price(place), view.residual(place)) {
            (Some(price), Some(residual)) => put_item(price.into(), residual.into(), told),
            (None, None) => told.put(" -"),
            _ => told.give_up(),
        }
    }
}

// Prints each order with its rate, by place, up to the first that isn't there.
fn put_fills(view: &ClearedView<'_>, told: &mut Told) {
    for place in 0..=view.rate_count() {
        match (view.order(place), view.rate(place)) {
            (Some(order), Some(rate)) => put_item(order.into(), rate.into(), told),
            (None, None) => told.put(" -"),
            _ => told.give_up(),
        }
    }
}

fn put_numbers(numbers: &[i64], told: &mut Told) {
    for number in numbers {
        told.put_number(" ", i128::from(*number));
    }
    told.put(" -")
}

// Prints an outcome in memory of its own.
fn put_copy(copy: &Cleared, told: &mut Told) {
    put("copy", &[copy.gap], told);
    put_numbers(copy.prices.as_slice(), told);
    put_numbers(copy.residuals.as_slice(), told);
    for rate in copy.rates.as_slice() {
        told.put_number(" ", i128::from(*rate));
    }
    told.put(" -")
}

fn put_cleared(alloc: Global, view: &ClearedView<'_>, told: &mut Told) {
    put("cleared", &[view.batch().into(), view.gap()], told);
    put_assets(view, told);
    put_fills(view, told);
    match view.to_cleared(alloc) {
        Ok(copy) => put_copy(&copy, told),
        Err(_) => told.give_up(),
    }
}

fn put_answered(alloc: Global, answered: &RecordView<'_>, told: &mut Told) {
    match reply(answered) {
        Some(ReplyView::Plain(reply)) => put_plain(reply, told),
        Some(ReplyView::Cleared(view)) => put_cleared(alloc, &view, told),
        Some(ReplyView::Skipped(view)) => {
            let numbers = [view.batch().into(), view.start_dual(), view.end_dual()];
            put("skipped", &numbers, told);
            put_bytes(view.trace(), told)
        }
        None => put("none", &[], told),
    }
}

pub(crate) fn put_reply(alloc: Global, bytes: &[u8], told: &mut Told) {
    match record_in(bytes) {
        Some(record) => put_answered(alloc, &record, told),
        None => told.give_up(),
    }
}

pub(crate) fn put_pair(alloc: Global, bytes: &[u8], told: &mut Told) {
    match next_pair(bytes) {
        PairFramed::Whole(pair, taken) => {
            put("whole", &[taken as i128], told);
            put_bytes(pair.asked().bytes(), told);
            put_answered(alloc, &pair.answered(), told);
        }
        PairFramed::End => put("end", &[], told),
        PairFramed::Broken => put("broken", &[], told),
    }
    if is_overlong(bytes) {
        put("overlong", &[], told);
    }
}
