//! Entries whose reply is a batch that was skipped.
ghost use Rattle.std.specs.Prelude.{◌≡◌, ◌+◌, ◌<◌, ◌≤◌, ◌++◌, length, OnOk, OnErr, vec_len, vec_capacity};
ghost use Rattle.wire_records.specs.Records.{encoding};
ghost use Rattle.wire_records.specs.Commands.{Batch};
ghost use Rattle.flow_orders.specs.Outcomes.{most_budget, Skipped as skipped_outcome};
ghost use Rattle.batch_outcome.specs.Published.{skipping_of};
ghost use Rattle.journal_records.specs.Replies.{answer_record, IsAnswer};
ghost use Rattle.journal_records.specs.Pairs.{pair_encoding, skipped_room};

use batch_outcome::Skipped;
use wire_fields::{put_bytes, put_i128, put_u32};
use wire_records::{Memory, RecordView, put_head};

// The number of bytes of a tag and the length of a body.
const HEAD: usize = 5;

// The number of bytes of a body besides its trace.
const NUMBERS: usize = 40;

// Appends the record of the reply.
fn put_skipped(batch: u32, skipped: &Skipped, out: &mut Vec<u8>)
    requires few { length skipped.now.trace ≤ most_budget }
    requires room { vec_len out.old + (45 + length skipped.now.trace) ≤ vec_capacity out.old }
    ensures written { out.new.items
        ≡ out.old.items ++ encoding (answer_record (Batch batch (skipped_outcome (skipping_of skipped.now)))) }
    ensures capacity { vec_capacity out.new ≡ vec_capacity out.old }
    ensures fits { IsAnswer (Batch batch (skipped_outcome (skipping_of skipped.now))) }
{
    let trace = skipped.trace.as_slice();
    put_head(out, 134, (NUMBERS + trace.len()) as u32);
    put_u32(out, batch);
    put_i128(out, skipped.start_dual);
    put_i128(out, skipped.end_dual);
    put_u32(out, trace.len() as u32);
    put_bytes(out, trace);
}

/// Appends the entry of a batch that was skipped: the command record, byte for byte as it was given, and the record of
/// its reply, with the batch's number, the dual values at the start and at the end of its search, in grains, and the
/// asset of each move.
///
/// The body of the reply has 40 bytes and one for each of at most 65,536 moves. The space for the complete entry is
/// reserved first, and nothing fails after that. Fails with `Memory` only if `out` lacked the capacity, and then `out` is
/// as before. The cost is that of the bytes, each of which is written once, and of a move of `out` if it has to grow.
pub fn write_skipped(
    asked: &RecordView<'_>,
    batch: u32,
    skipped: &Skipped,
    out: &mut Vec<u8>,
) -> Result<(), Memory>
    requires few { length skipped.now.trace ≤ most_budget }
    ensures written { OnOk result (out.new.items ≡ out.old.items ++ pair_encoding (record {
      asked = asked.now;
      answer = Batch batch (skipped_outcome (skipping_of skipped.now));
    })) }
    ensures stays { OnErr result (out.new.items ≡ out.old.items) }
    ensures room { vec_capacity out.old ≤ vec_capacity out.new }

    // Memory can run out only if the capacity isn't there already.
    ensures wanted { OnErr result (vec_capacity out.old
        < vec_len out.old + skipped_room asked.now (length skipped.now.trace)) }

    // So the record is this answer's, and by the laws it is read back as this answer, whatever follows it.
    ensures fits { OnOk result (IsAnswer (Batch batch (skipped_outcome (skipping_of skipped.now)))) }
{
    out.reserve(asked.bytes().len() + HEAD + NUMBERS + skipped.trace.as_slice().len())?;
    put_bytes(out, asked.bytes());
    put_skipped(batch, skipped, out);
    Ok(())
}

/// Appends the record of the reply of a batch that was skipped, as [`write_skipped`] does after its command's record: where
/// the bytes end with that, this completes the entry. The space is reserved first, and nothing fails after that. Fails with
/// `Memory` only if `out` lacked the capacity, and then `out` is as before. The cost is that of the bytes, and of a move of
/// `out` if it has to grow.
pub fn write_skipped_reply(batch: u32, skipped: &Skipped, out: &mut Vec<u8>) -> Result<(), Memory>
    requires few { length skipped.now.trace ≤ most_budget }
    ensures written { OnOk result (out.new.items ≡ out.old.items
        ++ encoding (answer_record (Batch batch (skipped_outcome (skipping_of skipped.now))))) }
    ensures stays { OnErr result (out.new.items ≡ out.old.items) }
    ensures room { vec_capacity out.old ≤ vec_capacity out.new }
    ensures fits { OnOk result (IsAnswer (Batch batch (skipped_outcome (skipping_of skipped.now)))) }
{
    out.reserve(HEAD + NUMBERS + skipped.trace.as_slice().len())?;
    put_skipped(batch, skipped, out);
    Ok(())
}
