//! Resumes from a journal that was cut after one of its entries.
use crate::serving::serve_one;
use check_lines::{Told, pairs};
use exchange_session::Session;
use journal_replay::replay;
use market_core::Market;
use std::alloc::Global;

// The bytes of a journal's magic.
const MAGIC: usize = 8;

// Appends the entries that a session answers to the commands of other entries.
fn serve_all(session: &mut Session, pairs: &[&[u8]], answered: &mut Vec<u8>, told: &mut Told) {
    for pair in pairs {
        told.keep(serve_one(session, pair, answered));
    }
}

// Appends the entries that a session over this market answers to the commands of other entries.
fn serve_over(market: Market, pairs: &[&[u8]], answered: &mut Vec<u8>, told: &mut Told) {
    let mut session = Session::over(market);
    serve_all(&mut session, pairs, answered, told);
}

// Appends the entries that a session over the market of a journal answers to the commands of other entries.
fn serve_after(
    alloc: Global,
    journal: &[u8],
    pairs: &[&[u8]],
    answered: &mut Vec<u8>,
    told: &mut Told,
) {
    match replay(alloc, journal) {
        Ok(market) => serve_over(market, pairs, answered, told),
        Err(_) => told.give_up(),
    }
}

// Appends whether the entries that are served after the first `count` are those of the journal.
fn put_cut(alloc: Global, first: &[u8], following: &[u8], count: usize, told: &mut Told) {
    let mut answered = Vec::new(alloc);
    match pairs(alloc, following) {
        Some(pairs) => serve_after(alloc, first, &pairs, &mut answered, told),
        None => told.give_up(),
    }
    told.put_number("  behind ", count as i128);
    told.put_number(": ", answered.len() as i128);
    if answered.as_slice() == following {
        told.put(" bytes, as they were\n");
    } else {
        told.put(" bytes, others\n");
    }
}

// Cuts the journal after `count` entries, at this byte, and appends what is served from there on.
fn put_cut_at(alloc: Global, journal: &[u8], end: usize, count: usize, told: &mut Told) {
    match journal.split_at_checked(end) {
        Some((first, following)) => put_cut(alloc, first, following, count, told),
        None => told.give_up(),
    }
}

// Cuts the journal after each of its entries in turn, after the magic first, and appends what is served from there on.
pub(crate) fn put_resumed(alloc: Global, journal: &[u8], told: &mut Told) {
    let (magic, following) = journal.split_at(journal.len().min(MAGIC));
    put_cut_at(alloc, journal, magic.len(), 0, told);
    match pairs(alloc, following) {
        Some(pairs) => put_cuts(alloc, journal, magic.len(), &pairs, told),
        None => told.give_up(),
    }
}

// Cuts the journal after each of these entries in turn, of which the first begins here, and appends what is served from there on.
fn put_cuts(alloc: Global, journal: &[u8], begin: usize, pairs: &[&[u8]], told: &mut Told) {
    let mut end = begin;
    for (place, pair) in pairs.iter().enumerate() {
        end = end.saturating_add(pair.len());
        put_cut_at(alloc, journal, end, place + 1, told);
    }
}
