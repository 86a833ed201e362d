//! The counts of a journal.
ghost use Rattle.std.specs.Prelude.{◌≡◌, ◌≤◌, ◌<◌, ◌*◌, ◌^◌, length, slice_index_or};
ghost use Rattle.wire_records.specs.Commands.{Answer};
ghost use Rattle.flow_orders.specs.Outcomes.{Outcome};
ghost use Rattle.batch_outcome.specs.Parts.{rates_in};
ghost use Rattle.journal_records.specs.Replies.{EncodesAnswer};
ghost use Rattle.sample_summary.specs.Private.{units_traded, CountsAnswer, AddsAnswer, CountsFit};

use batch_outcome::ClearedParts;
use journal_records::{ClearedView, PairView, ReplyView, reply};

/// How many batches cleared, how many were skipped, and how many units all orders traded together.
#[derive(Clone, Copy)]
pub(crate) struct Counts {
    pub(crate) cleared: u64,
    pub(crate) skipped: u64,
    pub(crate) units: u64,
}

// Returns the rate at a place that has one.
fn rate_at(cleared: &ClearedView<'_>, place: u32) -> u32
    requires { place < length cleared.now.clearing.fills }
    ensures { result ≡ slice_index_or (rates_in cleared.now.clearing) place 0 }
{
    cleared.rate(place).unwrap()
}

// Returns the sum of the rates.
fn units_of(cleared: &ClearedView<'_>) -> u64
    ensures { result ≡ units_traded cleared.now.clearing }
{
    let mut units = 0;
    for place in 0..cleared.rate_count() {
        units += u64::from(rate_at(cleared, place));
    }
    units
}

/// Returns what the answer of an entry counts.
pub(crate) fn counts_of(pair: &PairView<'_>) -> Counts
    ensures { (answer : Answer Outcome) → EncodesAnswer pair.now.1 answer → CountsAnswer answer result }
{
    let none = Counts {
        cleared: 0,
        skipped: 0,
        units: 0,
    };
    match reply(&pair.answered()) {
        None => none,
        Some(ReplyView::Plain(_)) => none,
        Some(ReplyView::Cleared(cleared)) => Counts {
            cleared: 1,
            skipped: 0,
            units: units_of(&cleared),
        },
        Some(ReplyView::Skipped(_)) => Counts {
            cleared: 0,
            skipped: 1,
            units: 0,
        },
    }
}
