//! Why the first invalid entry isn't valid.
ghost use Rattle.std.proofs.Props.{props};
ghost use Rattle.std.specs.Prelude.{◌≡◌, ◌≤◌, ◌++◌, ◌+◌, vec_len, vec_capacity};
ghost use Rattle.market_rules.specs.Market.{Market};
ghost use Rattle.journal_words.specs.Findings.{reply_text, part_text, finding_text, finding_line};
ghost use Rattle.journal_words.specs.Words.{explaining};

use crate::counting::Counting;
use crate::on_pair::OnPair;
use batch_audit::{Audit, Change, Finding};
use batch_certificate::Verdict;
use journal_records::{PairView, ReplyView};
use wire_records::Reply;
use word_driver::{Halt, Memory, put_number, put_text};

// Appends a plain reply to a buffer that has room for it.
fn put_reply(text: &mut Vec<u8>, reply: Reply)
    requires room { vec_len text.old + 28 ≤ vec_capacity text.old }
    ensures put { text.new.items ≡ text.old.items ++ reply_text reply }
    ensures most { vec_len text.new ≤ vec_len text.old + 28 }
    ensures room { vec_capacity text.old ≤ vec_capacity text.new }
{
    match reply {
        Reply::Done => put_text(text, b"done"),
        Reply::Asset(asset) => put_number(text, b"asset ", asset, b""),
        Reply::Account(account) => put_number(text, b"account ", account, b""),
        Reply::Order(order) => put_number(text, b"order ", order, b""),
        Reply::Refused(refusal) => put_number(text, b"refused ", refusal.code(), b""),
    }
}

// Appends the part that makes an outcome inadmissible to a buffer that has room for it.
fn put_part(text: &mut Vec<u8>, verdict: Verdict)
    requires room { vec_len text.old + 28 ≤ vec_capacity text.old }
    ensures put { text.new.items ≡ text.old.items ++ part_text verdict }
    ensures most { vec_len text.new ≤ vec_len text.old + 28 }
    ensures room { vec_capacity text.old ≤ vec_capacity text.new }
{
    match verdict {
        Verdict::Right => {}
        Verdict::Count => put_text(text, b"count"),
        Verdict::Price(asset) => put_number(text, b"price ", asset, b""),
        Verdict::Rate(place) => put_number(text, b"rate ", place, b""),
        Verdict::Residual(asset) => put_number(text, b"residual ", asset, b""),
        Verdict::Gap => put_text(text, b"gap"),
    }
}

// Appends a plain reply that is expected to a buffer that has room for it.
fn put_expected(text: &mut Vec<u8>, reply: Reply)
    requires room { vec_len text.old + 43 ≤ vec_capacity text.old }
    ensures put { text.new.items ≡ text.old.items ++ finding_text (Finding.OtherReply reply) }
    ensures most { vec_len text.new ≤ vec_len text.old + 43 }
    ensures room { vec_capacity text.old ≤ vec_capacity text.new }
{
    put_text(text, b"reply ");
    put_reply(text, reply);
    put_text(text, b" expected");
}

// Appends a finding to a buffer that has room for it.
fn put_finding(text: &mut Vec<u8>, finding: Finding)
    requires room { vec_len text.old + 51 ≤ vec_capacity text.old }
    ensures put { text.new.items ≡ text.old.items ++ finding_text finding }
    ensures most { vec_len text.new ≤ vec_len text.old + 51 }
    ensures room { vec_capacity text.old ≤ vec_capacity text.new }
{
    match finding {
        Finding::NoReply => put_text(text, b"no reply"),
        Finding::OtherReply(reply) => put_expected(text, reply),
        Finding::Batch(number) => put_number(text, b"batch ", number, b" expected"),
        Finding::Part(verdict) => put_part(text, verdict),
        Finding::SingleBook => put_text(text, b"one-asset book"),
        Finding::TraceLength => put_text(text, b"trace length"),
        Finding::TraceStep(place) => put_number(text, b"trace step ", place, b""),
        Finding::AllSettled => put_text(text, b"all settled"),
        Finding::StartDual(right) => put_number(text, b"start dual ", right, b""),
        Finding::EndDual(right) => put_number(text, b"end dual ", right, b""),
        Finding::Legal => {}
    }
}

// Appends the line of the finding on an entry, under its number, to a buffer that has room for it.
fn put_line(text: &mut Vec<u8>, number: u64, finding: Finding)
    requires room { vec_len text.old + 79 ≤ vec_capacity text.old }
    ensures put { text.new.items ≡ text.old.items ++ finding_line number finding }
    ensures room { vec_capacity text.old ≤ vec_capacity text.new }
{
    put_number(text, b"pair ", number, b": ");
    put_finding(text, finding);
    put_text(text, b"\n");
}

/// The counts of an audit, and of the first invalid entry the line of what is found of it.
#[derive(Drop)]
pub struct Explaining {
    counting: Counting,
}

impl Explaining {
    ghost use Rattle.journal_words.specs.Words.{Counts};

    /// Creates it with nothing counted yet.
    pub fn new() -> Explaining
        ensures within { (market : Market) → ⟦<Explaining as OnPair>⟧.is_within result market 0 }
        ensures none { ⟦<Explaining as OnPair>⟧.seen result ≡ (λ market. record { cleared = 0; skipped = 0 }) }
    {
        Explaining {
            counting: Counting::new(),
        }
    }
}

impl OnPair for Explaining {
    ghost use Rattle.journal_words.specs.Words.{Counts};

    type Stop = u64;

    const ROOM: usize = Counting::ROOM;

    ghost ROOM = { 94 };

    ghost Seen = { Counts };

    ghost watch = { explaining };

    ghost seen = { λ e market. ⟦<Counting as OnPair>⟧.seen e.counting market };

    ghost is_within = { λ e market pairs. ⟦<Counting as OnPair>⟧.is_within e.counting market pairs };

    ghost within_is_prop = { λ state market pairs. Prim.hlevel props };

    fn legal(
        &mut self,
        audit: &mut Audit,
        pair: &PairView<'_>,
        reply: &ReplyView<'_>,
        change: Change<'_>,
        pairs: u64,
        text: &mut Vec<u8>,
    ) -> Result<(), Memory> {
        self.counting.legal(audit, pair, reply, change, pairs, text)
    }

    fn illegal(
        &self,
        audit: &mut Audit,
        pair: &PairView<'_>,
        pairs: u64,
        text: &mut Vec<u8>,
    ) -> Result<u64, Memory> {
        let finding = audit.explain(pair)?;
        put_line(text, pairs + 1, finding);
        Ok(pairs + 1)
    }

    fn end(&self, audit: &mut Audit, pairs: u64, text: &mut Vec<u8>) -> Result<(), Halt<u64>> {
        self.counting.end(audit, pairs, text)
    }
}
