//! Entries with a plain reply, one without lists.
ghost use Rattle.std.specs.Prelude.{◌≡◌, ◌+◌, ◌<◌, ◌≤◌, ◌++◌, OnOk, OnErr, vec_len, vec_capacity};
ghost use Rattle.wire_records.specs.Records.{encoding};
ghost use Rattle.wire_records.specs.Commands.{Plain};
ghost use Rattle.journal_records.specs.Replies.{answer_record, IsAnswer};
ghost use Rattle.journal_records.specs.Pairs.{pair_encoding, plain_room, plain_reply_room};

use core::mem::replace_with;
use wire_fields::{put_bytes, put_u8, put_u16, put_u32, put_u64};
use wire_records::{MOST_RECORD, Memory, RecordView, Reply, put_head};

// The number of bytes of the longest record of a plain reply.
const LONGEST_REPLY: usize = 13;

/// The longest entry with a plain reply, in bytes: the longest command record, and the longest record of such a reply.
pub const MOST_PLAIN_PAIR: usize = MOST_RECORD + LONGEST_REPLY;

/// Reserves the space of an entry with any plain reply: as many bytes as the command record has, and 13 more, so
/// that [`write_plain`] can follow. The bytes in `out` stay. Fails with `Memory` only if `out` lacked the capacity, which
/// is then as before. The cost is that of a move of `out` if it has to grow.
pub fn reserve_plain(asked: &RecordView<'_>, out: &mut Vec<u8>) -> Result<(), Memory>
    ensures room { OnOk result (vec_len out.new + plain_room asked.now ≤ vec_capacity out.new) }
    ensures stays { out.new.items ≡ out.old.items }
    ensures unchanged { OnErr result (vec_capacity out.new ≡ vec_capacity out.old) }
    ensures grown { vec_capacity out.old ≤ vec_capacity out.new }

    // Memory can run out only if the capacity isn't there already.
    ensures wanted { OnErr result (vec_capacity out.old < vec_len out.old + plain_room asked.now) }
{
    out.reserve(asked.bytes().len() + LONGEST_REPLY)?;
    Ok(())
}

/// Reserves the space of the record of any plain reply, 13 bytes, so that [`put_reply`] can follow. The bytes in `out` stay.
/// Fails with `Memory` only if `out` lacked the capacity, which is then as before. The cost is that of a move of `out` if it
/// has to grow.
pub fn reserve_reply(out: &mut Vec<u8>) -> Result<(), Memory>
    ensures room { OnOk result (vec_len out.new + plain_reply_room ≤ vec_capacity out.new) }
    ensures stays { out.new.items ≡ out.old.items }
    ensures unchanged { OnErr result (vec_capacity out.new ≡ vec_capacity out.old) }
    ensures grown { vec_capacity out.old ≤ vec_capacity out.new }

    // Memory can run out only if the capacity isn't there already.
    ensures wanted { OnErr result (vec_capacity out.old < vec_len out.old + plain_reply_room) }
{
    out.reserve(LONGEST_REPLY)?;
    Ok(())
}

/// Appends the record of a plain reply: where the bytes end with its command's record, that completes the entry. `out` must
/// have the capacity, as after [`reserve_reply`], so nothing is allocated.
#[inline(always)]
#[tactic(auto, using(crate::proofs::FieldForms::reply_fits))]
pub fn put_reply(reply: &Reply, out: &mut Vec<u8>)
    requires { vec_len out.old + plain_reply_room ≤ vec_capacity out.old }
    ensures written { out.new.items ≡ out.old.items ++ encoding (answer_record (Plain reply.now)) }
    ensures fits { IsAnswer (Plain reply.now) }
    ensures capacity { vec_capacity out.new ≡ vec_capacity out.old }
{
    match *reply {
        Reply::Done => put_head(out, 128, 0),
        Reply::Asset(asset) => {
            put_head(out, 129, 2);
            put_u16(out, asset);
        }
        Reply::Account(account) => {
            put_head(out, 130, 4);
            put_u32(out, account);
        }
        Reply::Order(order) => {
            put_head(out, 131, 8);
            put_u64(out, order);
        }
        Reply::Refused(refusal) => {
            put_head(out, 132, 1);
            put_u8(out, refusal.code());
        }
    }
}

// Appends an entry to a vector that is handed in and handed back, so that its length needn't be stored after each field.
#[inline(always)]
fn with_plain(mut out: Vec<u8>, pair: (&RecordView<'_>, &Reply)) -> (Vec<u8>, ())
    requires { vec_len out + plain_room pair.0.now ≤ vec_capacity out }
    ensures written { result.0.items
        ≡ out.items ++ pair_encoding (record { asked = pair.entry.0.now; answer = Plain pair.entry.1.now }) }
    ensures fits { IsAnswer (Plain pair.entry.1.now) }
    ensures capacity { vec_capacity result.0 ≡ vec_capacity out }
{
    let (asked, reply) = pair;
    put_bytes(&mut out, asked.bytes());
    put_reply(reply, &mut out);
    (out, ())
}

/// Appends an entry: the command record, byte for byte as it was given, and the record of its reply. `out` must have
/// the capacity, as after [`reserve_plain`], so nothing is allocated; the command record is copied once.
pub fn write_plain(asked: &RecordView<'_>, reply: &Reply, out: &mut Vec<u8>)
    requires { vec_len out.old + plain_room asked.now ≤ vec_capacity out.old }
    ensures written { out.new.items
        ≡ out.old.items ++ pair_encoding (record { asked = asked.now; answer = Plain reply.now }) }
    ensures fits { IsAnswer (Plain reply.now) }
    ensures capacity { vec_capacity out.new ≡ vec_capacity out.old }
{
    replace_with(out, (asked, reply), with_plain);
}
