//! What an audit counts.
ghost use Rattle.std.proofs.Props.{props};
ghost use Rattle.std.specs.Prelude.{◌≡◌, ◌≢◌, ◌≤◌, ◌++◌, ◌+◌, vec_len, vec_capacity};
ghost use Rattle.market_rules.specs.Market.{Market};
ghost use Rattle.journal_words.specs.Line.{counted_line};
ghost use Rattle.journal_words.specs.Words.{counting};

use crate::on_pair::OnPair;
use batch_audit::{Audit, Change};
use journal_records::{PairView, ReplyView};
use word_driver::{Halt, Memory, put_number};

// The bytes of the longest line: three numbers of 20 digits, and 34 bytes between them.
const LONGEST_SUMMARY: usize = 94;

// The tags of the replies to a batch.
const CLEARED: u8 = 133;

const SKIPPED: u8 = 134;

// Returns 1 for a tag that is counted, and 0 for any other.
fn count_of(tag: u8, counted: u8) -> u64
    ensures one { tag ≡ counted → result ≡ 1 }
    ensures none { tag ≢ counted → result ≡ 0 }
{
    if tag == counted { 1 } else { 0 }
}

// Appends the line on a valid journal to a buffer that has room for it.
fn put_line(text: &mut Vec<u8>, pairs: u64, cleared: u64, skipped: u64)
    requires room { vec_len text.old + 94 ≤ vec_capacity text.old }
    ensures put { text.new.items ≡ text.old.items ++ counted_line pairs cleared skipped }
    ensures room { vec_capacity text.old ≤ vec_capacity text.new }
{
    put_number(text, b"legal: ", pairs, b" pairs, ");
    put_number(text, b"", cleared, b" cleared, ");
    put_number(text, b"", skipped, b" skipped\n");
}

/// The counts of an audit.
#[derive(Drop)]
pub struct Counting {
    cleared: u64,
    skipped: u64,
}

impl Counting {
    /// Creates it with nothing counted yet.
    pub fn new() -> Counting
        ensures within { (market : Market) → ⟦<Counting as OnPair>⟧.is_within result market 0 }
        ensures none { ⟦<Counting as OnPair>⟧.seen result ≡ (λ market. record { cleared = 0; skipped = 0 }) }
    {
        Counting {
            cleared: 0,
            skipped: 0,
        }
    }
}

impl OnPair for Counting {
    ghost use Rattle.journal_words.specs.Words.{Counts};

    type Stop = u64;

    const ROOM: usize = LONGEST_SUMMARY;

    ghost ROOM = { 94 };

    ghost Seen = { Counts };

    ghost watch = { counting };

    ghost seen = { λ c market. record { cleared = c.cleared; skipped = c.skipped } };

    ghost is_within = { λ c market pairs. (c.cleared ≤ pairs) × (c.skipped ≤ pairs) };

    ghost within_is_prop = { λ state market pairs. Prim.hlevel props };

    fn legal(
        &mut self,
        audit: &mut Audit,
        pair: &PairView<'_>,
        _reply: &ReplyView<'_>,
        change: Change<'_>,
        _pairs: u64,
        _text: &mut Vec<u8>,
    ) -> Result<(), Memory> {
        audit.make(pair, change)?;
        let tag = pair.answered().tag();
        self.cleared += count_of(tag, CLEARED);
        self.skipped += count_of(tag, SKIPPED);
        Ok(())
    }

    fn illegal(
        &self,
        _audit: &mut Audit,
        _pair: &PairView<'_>,
        pairs: u64,
        _text: &mut Vec<u8>,
    ) -> Result<u64, Memory> {
        Ok(pairs + 1)
    }

    fn end(&self, _audit: &mut Audit, pairs: u64, text: &mut Vec<u8>) -> Result<(), Halt<u64>> {
        put_line(text, pairs, self.cleared, self.skipped);
        Ok(())
    }
}
