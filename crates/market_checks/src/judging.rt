//! Whether entries are valid, and what is reported of them.
use crate::MANY;
use crate::state::put_market;
use batch_audit::{Audit, Legality};
use batch_report::report_pair;
use check_lines::{Told, pairs};
use journal_records::{PairFramed, PairView, next_pair};
use std::alloc::Global;

// Returns whether the entry is valid.
fn judge(audit: &mut Audit, pair: &PairView<'_>) -> Option<Legality> {
    if audit.market().next_number() >= MANY {
        return None;
    }
    audit.pair(pair).ok()
}

// Returns whether the entry that these bytes are is valid.
fn judge_one(audit: &mut Audit, pair: &[u8]) -> Option<Legality> {
    match next_pair(pair) {
        PairFramed::Whole(pair, _) => judge(audit, &pair),
        _ => None,
    }
}

fn put_legality(legality: Option<Legality>, told: &mut Told) {
    match legality {
        Some(Legality::Legal) => told.put(" legal"),
        Some(Legality::Illegal) => told.put(" illegal"),
        None => told.give_up(),
    }
}

// Appends whether each entry is valid.
fn put_legalities(audit: &mut Audit, pairs: &[&[u8]], told: &mut Told) {
    told.put(" ");
    for pair in pairs {
        put_legality(judge_one(audit, pair), told);
    }
    told.put("\n");
}

// Judges each entry. Then come the rows of the market.
pub(crate) fn put_judged(alloc: Global, bytes: &[u8], told: &mut Told) {
    let mut audit = Audit::new(alloc);
    match pairs(alloc, bytes) {
        Some(pairs) => put_legalities(&mut audit, &pairs, told),
        None => told.give_up(),
    }
    put_market(alloc, &mut audit.into_market(), told);
}

// Appends the text of the entry, which has to be valid.
fn report(audit: &mut Audit, pair: &PairView<'_>, number: u64, text: &mut Vec<u8>) -> Option<()> {
    if audit.market().next_number() >= MANY {
        return None;
    }
    match audit.pair(pair).ok()? {
        Legality::Legal => report_pair(audit, pair, number, text).ok(),
        Legality::Illegal => None,
    }
}

// Appends the text of the entry that these bytes are, which has to be valid.
fn report_one(audit: &mut Audit, pair: &[u8], number: u64, text: &mut Vec<u8>) -> Option<()> {
    match next_pair(pair) {
        PairFramed::Whole(pair, _) => report(audit, &pair, number, text),
        _ => None,
    }
}

// Reports each entry, and appends the lines of the text.
fn put_reports(audit: &mut Audit, pairs: &[&[u8]], text: &mut Vec<u8>, told: &mut Told) {
    for (place, pair) in pairs.iter().enumerate() {
        told.keep(report_one(audit, pair, place as u64 + 1, text));
    }
    told.put_text(text);
}

// Reports each entry in these bytes, and appends the lines of the text.
pub(crate) fn put_report(alloc: Global, bytes: &[u8], told: &mut Told) {
    let mut audit = Audit::new(alloc);
    let mut text = Vec::new(alloc);
    match pairs(alloc, bytes) {
        Some(pairs) => put_reports(&mut audit, &pairs, &mut text, told),
        None => told.give_up(),
    }
}
