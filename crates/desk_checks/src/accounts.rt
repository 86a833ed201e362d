//! What accounts have, in a market that commands made.
ghost use Rattle.wire_records.specs.Records.{IsRecord, most_body};

use crate::answers::put_members;
use crate::values::{number_first, version_of};
use answer_text::put_account;
use check_lines::{Told, records};
use exchange_session::Session;
use market_core::Market;
use pair_text::Text;
use std::alloc::Global;
use wire_records::{Framed, MOST_BODY, RecordView, Version, next_record};

// More orders than a case places.
const MANY: u64 = 1_000_000;

// Serves a record.
fn serve(session: &mut Session, asked: &RecordView<'_>, pairs: &mut Vec<u8>) -> Option<()>
    requires { IsRecord most_body asked.now }
{
    if session.market().next_number() >= MANY {
        return None;
    }
    session.serve(asked, pairs).ok()
}

// Serves the record that these bytes are, or begin with.
fn serve_one(session: &mut Session, record: &[u8], pairs: &mut Vec<u8>) -> Option<()> {
    match next_record(record, MOST_BODY) {
        Framed::Whole(asked, _) => serve(session, &asked, pairs),
        _ => None,
    }
}

// Returns the market that records make of one of this version.
fn market_of(alloc: Global, version: Version, bytes: &[u8], told: &mut Told) -> Market {
    let mut session = Session::over(Market::new_in(alloc, version));
    let mut pairs = Vec::new(alloc);
    match records(alloc, bytes) {
        Some(records) => {
            for record in &records {
                told.keep(serve_one(&mut session, record, &mut pairs));
            }
        }
        None => told.give_up(),
    }
    session.into_market()
}

// Prints what an account has that is there.
fn put_held(alloc: Global, market: &Market, account: u32, told: &mut Told) {
    if market.accounts().money(account).is_none() {
        return told.put("  none\n");
    }
    let mut bytes = Vec::new(alloc);
    let mut text = Text::following(&mut bytes);
    let put = put_account(
        market.tickers(),
        market.accounts(),
        market.book(),
        account,
        &mut text,
    );
    put_members(text, put, told);
}

// Prints what an account has in a market that these bytes made.
fn put_in(alloc: Global, version: Version, account: &str, bytes: &[u8], told: &mut Told) {
    match account.parse() {
        Ok(account) => {
            let market = market_of(alloc, version, bytes, told);
            put_held(alloc, &market, account, told);
        }
        Err(_) => told.give_up(),
    }
}

pub(crate) fn put_account_of(alloc: Global, words: &str, bytes: &[u8], told: &mut Told) {
    told.put("\n");
    match number_first(words) {
        Some((number, account)) => match version_of(number) {
            Some(version) => put_in(alloc, version, account, bytes, told),
            None => told.give_up(),
        },
        None => told.give_up(),
    }
}
