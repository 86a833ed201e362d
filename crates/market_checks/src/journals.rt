//! Complete journals.
use crate::state::put_market;
use check_lines::Told;
use file_units::Ending;
use journal_records::journal_version;
use journal_replay::{Audited, PairFault, ReplayFault, audit_pairs, replay};
use std::alloc::Global;

// The bytes of a journal's magic.
const MAGIC: usize = 8;

fn put_ending(ending: Ending, told: &mut Told) {
    match ending {
        Ending::End => told.put("  end"),
        Ending::Torn(place) => told.put_number("  torn at ", i128::from(place)),
        Ending::TooLong => told.put("  more"),
    }
}

// Appends what was found if all entries are valid.
fn put_found(alloc: Global, found: &mut Audited, told: &mut Told) {
    put_ending(found.ending, told);
    told.put("\n");
    put_market(alloc, &mut found.market, told);
}

// Audits the entries after the magic, and appends what was found.
pub(crate) fn put_ended(alloc: Global, journal: &[u8], more: bool, told: &mut Told) {
    if journal.len() < MAGIC {
        return told.give_up();
    }
    let Some(version) = journal_version(journal) else {
        return told.give_up();
    };
    match audit_pairs(alloc, version, journal, MAGIC, more) {
        Ok(mut found) => put_found(alloc, &mut found, told),
        Err(PairFault::Illegal(number)) => {
            told.put_number("  illegal ", i128::from(number));
            told.put("\n");
        }
        Err(PairFault::Memory) => told.give_up(),
    }
}

fn put_fault(alloc: Global, fault: &ReplayFault, told: &mut Told) {
    match format!(in alloc; "  {fault}\n") {
        Ok(row) => told.put(&row),
        Err(_) => told.give_up(),
    }
}

// Appends the market of a journal, or why there is none.
pub(crate) fn put_replayed(alloc: Global, journal: &[u8], told: &mut Told) {
    match replay(alloc, journal) {
        Ok(mut market) => put_market(alloc, &mut market, told),
        Err(fault) => put_fault(alloc, &fault, told),
    }
}

// Appends the texts of the faults.
pub(crate) fn put_faults(alloc: Global, number: u64, told: &mut Told) {
    for fault in [
        ReplayFault::NotJournal,
        ReplayFault::Torn(number),
        ReplayFault::Illegal(number),
        ReplayFault::Memory,
    ] {
        put_fault(alloc, &fault, told);
    }
}
