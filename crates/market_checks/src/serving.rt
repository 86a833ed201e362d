//! The entries that a session answers.
ghost use Rattle.wire_records.specs.Records.{IsRecord, most_body};

use crate::MANY;
use crate::state::put_market;
use check_lines::{Told, records};
use exchange_session::Session;
use std::alloc::Global;
use wire_records::{Framed, MOST_BODY, RecordView, next_record};

// Serves a record, and appends its entry.
fn serve(session: &mut Session, asked: &RecordView<'_>, pairs: &mut Vec<u8>) -> Option<()>
    requires { IsRecord most_body asked.now }
{
    if session.market().next_number() >= MANY {
        return None;
    }
    session.serve(asked, pairs).ok()
}

// Serves the record that these bytes are, or begin with.
pub(crate) fn serve_one(session: &mut Session, record: &[u8], pairs: &mut Vec<u8>) -> Option<()> {
    match next_record(record, MOST_BODY) {
        Framed::Whole(asked, _) => serve(session, &asked, pairs),
        _ => None,
    }
}

// Serves each record, and appends the rows of their entries.
fn put_served(session: &mut Session, records: &[&[u8]], pairs: &mut Vec<u8>, told: &mut Told) {
    for record in records {
        told.keep(serve_one(session, record, pairs));
    }
    told.put_records(pairs, pairs.len());
}

// Serves each record, and appends the rows of their entries. Then come those of the market.
pub(crate) fn put_pairs(alloc: Global, bytes: &[u8], told: &mut Told) {
    let mut session = Session::new(alloc);
    let mut pairs = Vec::new(alloc);
    match records(alloc, bytes) {
        Some(records) => put_served(&mut session, &records, &mut pairs, told),
        None => told.give_up(),
    }
    put_market(alloc, &mut session.into_market(), told);
}
