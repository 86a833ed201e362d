//! A batch that was skipped, in the bytes of its reply.
ghost use Rattle.std.specs.Prelude.{◌≡◌, IfSome, IfNone};
ghost use Rattle.wire_records.specs.Records.{AreBytes};
ghost use Rattle.journal_records.specs.Private.{EncodesSkipped, EncodesNoSkipped};

use crate::numbers_view::as_bytes;
use std::marker::Model;
use wire_fields::Cursor;

/// What a reply says of a batch that was skipped, with its trace in the borrowed bytes: the batch's number, the dual
/// values at the start and at the end of its search, in grains, and the asset of each move. Contracts see it as these
/// numbers. Each call is of constant cost and doesn't allocate.
#[derive(Drop)]
pub struct SkippedView<'a> {
    batch: u32,
    start_dual: i128,
    end_dual: i128,
    trace: &'a [u8],
}

impl<'a> Model for SkippedView<'a> {
    ghost use Rattle.journal_records.specs.Numbered.{SkippedBatch};

    ghost Value = { SkippedBatch };

    ghost view = { λ v. record {
      batch = v.batch;
      skipping = record { trace = v.trace.now; start_dual = v.start_dual; end_dual = v.end_dual };
    } };
}

impl<'a> SkippedView<'a> {
    /// Returns the number of the batch.
    pub fn batch(&self) -> u32
        ensures { result ≡ self.now.batch }
    {
        self.batch
    }

    /// Returns the dual value at the start prices, in grains.
    pub fn start_dual(&self) -> i128
        ensures { result ≡ self.now.skipping.start_dual }
    {
        self.start_dual
    }

    /// Returns the dual value at the prices where the search ended, in grains.
    pub fn end_dual(&self) -> i128
        ensures { result ≡ self.now.skipping.end_dual }
    {
        self.end_dual
    }

    /// Returns the number of the asset of each move, in order.
    pub fn trace(&self) -> &'a [u8]
        ensures value { result.now ≡ self.now.skipping.trace }
        ensures bytes { AreBytes self.now.skipping.trace }
    {
        as_bytes(self.trace)
    }
}

// Returns the batch that a body encodes, or `None` if it encodes none. The moves aren't looked at.
pub(crate) fn skipped_in(body: &[u8]) -> Option<SkippedView<'_>>
    ensures found { IfSome result (λ skipped. EncodesSkipped body.now skipped) }
    ensures none { IfNone result (EncodesNoSkipped body.now) }
{
    let mut cursor = Cursor::new(body);
    let batch = cursor.take_u32()?;
    let start_dual = cursor.take_i128()?;
    let end_dual = cursor.take_i128()?;
    let steps = cursor.take_u32()?;
    let trace = as_bytes(cursor.take(steps as usize)?);
    if !cursor.is_empty() {
        return None;
    }
    Some(SkippedView {
        batch,
        start_dual,
        end_dual,
        trace,
    })
}
