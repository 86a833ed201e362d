//! The entry that bytes begin with.
ghost use Rattle.std.specs.Prelude.{◌≡◌, ◌↔◌, IsTrue};
ghost use Rattle.wire_records.specs.Formats.{StatesOver};
ghost use Rattle.journal_records.specs.Formats.{journals};
ghost use Rattle.journal_records.specs.Views.{IsPairPrefix};

use crate::MOST_REPLY_BODY;
use std::marker::Model;
use wire_records::{Framed, MOST_BODY, RecordView, next_record};

/// A complete entry in borrowed bytes: the record of a command, and that of its reply, whatever they hold. Contracts see
/// the two records. Each call is of constant cost and doesn't allocate.
#[derive(Drop)]
pub struct PairView<'a> {
    asked: RecordView<'a>,
    answered: RecordView<'a>,
}

impl<'a> Model for PairView<'a> {
    ghost use Rattle.wire_records.specs.Records.{Record};

    ghost Value = { Record × Record };

    ghost view = { λ p. (p.asked, p.answered) };
}

impl<'a> PairView<'a> {
    /// Returns the record of the command.
    pub fn asked(&self) -> RecordView<'a>
        ensures { result ≡ self.now.0 }
    {
        // The clone of a view doesn't allocate.
        self.asked.clone().unwrap()
    }

    /// Returns the record of the reply.
    pub fn answered(&self) -> RecordView<'a>
        ensures { result ≡ self.now.1 }
    {
        self.answered.clone().unwrap()
    }
}

/// What the bytes after a journal's magic begin with.
#[derive(Drop)]
pub enum PairFramed<'a> {
    /// A complete entry, and the number of its bytes.
    Whole(PairView<'a>, usize),
    /// No bytes.
    End,
    /// Some bytes, but no complete entry: one of the two records is truncated, or states a body above its limit, which is
    /// 1,024 bytes for a command and 262,144 for a reply.
    Broken,
}

/// Returns what `bytes` begin with. What follows the entry isn't looked at, and neither is what the two bodies hold.
/// Constant cost; doesn't allocate.
pub fn next_pair<'a>(bytes: &'a [u8]) -> PairFramed<'a>
    ensures { IsPairPrefix result bytes.now }
{
    match next_record(bytes, MOST_BODY) {
        Framed::Whole(asked, taken) => match next_record(&bytes[taken..], MOST_REPLY_BODY) {
            Framed::Whole(answered, more) => {
                PairFramed::Whole(PairView { asked, answered }, taken + more)
            }
            Framed::End => PairFramed::Broken,
            Framed::TooLarge(_) => PairFramed::Broken,
            Framed::Short => PairFramed::Broken,
        },
        Framed::End => PairFramed::End,
        Framed::TooLarge(_) => PairFramed::Broken,
        Framed::Short => PairFramed::Broken,
    }
}

// Returns whether the record that `bytes` begin with states a body above the limit.
fn states_over(bytes: &[u8], limit: u32) -> bool
    ensures { IsTrue result ↔ StatesOver limit bytes.now }
{
    match next_record(bytes, limit) {
        Framed::TooLarge(_) => true,
        Framed::Whole(_, _) => false,
        Framed::End => false,
        Framed::Short => false,
    }
}

/// Returns whether the first record in `bytes` that isn't complete, a command's or that of the reply after it, states a
/// body above its limit: then no bytes that may follow make an entry of it. Constant cost; doesn't allocate.
pub fn is_overlong(bytes: &[u8]) -> bool
    ensures { IsTrue result ↔ journals.IsOverlong bytes.now }
{
    match next_record(bytes, MOST_BODY) {
        Framed::TooLarge(_) => true,
        Framed::Whole(_, taken) => states_over(&bytes[taken..], MOST_REPLY_BODY),
        Framed::End => false,
        Framed::Short => false,
    }
}
