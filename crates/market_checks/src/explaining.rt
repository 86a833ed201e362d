//! Why entries aren't valid.
use crate::MANY;
use crate::commands::put_reply;
use batch_audit::{Audit, Finding};
use batch_certificate::Verdict;
use check_lines::{Told, pairs};
use journal_records::{PairFramed, PairView, next_pair};
use std::alloc::Global;
use wire_records::Reply;

fn put_expected(reply: Reply, told: &mut Told) {
    told.put("reply ");
    put_reply(reply, told);
    told.put(" expected");
}

fn put_part(part: Verdict, told: &mut Told) {
    match part {
        Verdict::Right => told.put("right"),
        Verdict::Count => told.put("count"),
        Verdict::Price(asset) => told.put_number("price ", i128::from(asset)),
        Verdict::Rate(place) => told.put_number("rate ", i128::from(place)),
        Verdict::Residual(asset) => told.put_number("residual ", i128::from(asset)),
        Verdict::Gap => told.put("gap"),
    }
}

fn put_batch(number: u32, told: &mut Told) {
    told.put_number("batch ", i128::from(number));
    told.put(" expected");
}

fn put_finding(found: Finding, told: &mut Told) {
    match found {
        Finding::NoReply => told.put("no reply"),
        Finding::OtherReply(reply) => put_expected(reply, told),
        Finding::Batch(number) => put_batch(number, told),
        Finding::Part(part) => put_part(part, told),
        Finding::SingleBook => told.put("one-asset book"),
        Finding::TraceLength => told.put("trace length"),
        Finding::TraceStep(place) => told.put_number("trace step ", i128::from(place)),
        Finding::AllSettled => told.put("all settled"),
        Finding::StartDual(dual) => told.put_number("start dual ", dual),
        Finding::EndDual(dual) => told.put_number("end dual ", dual),
        Finding::Legal => told.put("legal"),
    }
}

// Returns what is found of the entry, which is then applied if it is valid.
fn find(audit: &mut Audit, pair: &PairView<'_>) -> Option<Finding> {
    if audit.market().next_number() >= MANY {
        return None;
    }
    let found = audit.explain(pair).ok()?;
    audit.pair(pair).ok()?;
    Some(found)
}

// Returns what is found of the entry that these bytes are.
fn find_one(audit: &mut Audit, pair: &[u8]) -> Option<Finding> {
    match next_pair(pair) {
        PairFramed::Whole(pair, _) => find(audit, &pair),
        _ => None,
    }
}

// Appends what was found of an entry, if it isn't valid.
fn put_found(found: Option<Finding>, number: usize, told: &mut Told) {
    match found {
        Some(Finding::Legal) => (),
        Some(found) => {
            told.put_number("  pair ", number as i128);
            told.put(": ");
            put_finding(found, told);
            told.put("\n");
        }
        None => told.give_up(),
    }
}

// Appends what is found of each entry that isn't valid.
fn put_all_found(audit: &mut Audit, pairs: &[&[u8]], told: &mut Told) {
    for (place, pair) in pairs.iter().enumerate() {
        put_found(find_one(audit, pair), place + 1, told);
    }
}

// Appends what is found of each entry in these bytes that isn't valid.
pub(crate) fn put_explained(alloc: Global, bytes: &[u8], told: &mut Told) {
    let mut audit = Audit::new(alloc);
    match pairs(alloc, bytes) {
        Some(pairs) => put_all_found(&mut audit, &pairs, told),
        None => told.give_up(),
    }
}
