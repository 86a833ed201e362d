//! Which answer a record encodes.
ghost use Rattle.std.specs.Prelude.{◌≡◌, ◌≢◌, ◌<◌, ◌^◌, length, IfSome, IfNone};
ghost use Rattle.wire_fields.specs.Numbers.{unsigned};
ghost use Rattle.journal_records.specs.Private.{EncodesReply, EncodesNoReply};
ghost use Rattle.journal_records.specs.Views.{IsReplyRead};

use crate::cleared_view::{ClearedView, cleared_in};
use crate::skipped_view::{SkippedView, skipped_in};
use wire_fields::Cursor;
use wire_records::{RecordView, Refusal, Reply};

/// The answer that a record encodes, with the numbers of a batch in the borrowed bytes.
#[derive(Drop)]
pub enum ReplyView<'a> {
    /// The reply to a command other than a batch, or a refusal.
    Plain(Reply),
    /// A batch that cleared.
    Cleared(ClearedView<'a>),
    /// A batch that was skipped.
    Skipped(SkippedView<'a>),
}

impl<'a> ReplyView<'a> {
    ghost use Rattle.wire_records.specs.Commands.{Answer};
    ghost use Rattle.flow_orders.specs.Outcomes.{Outcome};
    ghost use Rattle.journal_records.specs.Replies.{AreAnswer};
    ghost use Rattle.journal_records.specs.Views.{answer_of};

    /// Returns the answer whose record these bytes are, as it was written. Constant cost; doesn't allocate.
    pub fn of(bytes: &'a [u8]) -> ReplyView<'a>
        requires { (answer : Answer Outcome) × AreAnswer answer bytes.now }
        ensures { (answer : Answer Outcome) → AreAnswer answer bytes.now → answer_of result ≡ answer }
    {
        // A record that is an answer's is read as one.
        reply(&RecordView::of(bytes)).unwrap()
    }
}

// Returns the number that a body of 1 byte is.
fn u8_in(body: &[u8]) -> Option<u8>
    ensures encoded { IfSome result (λ n. body.now ≡ unsigned 1 n) }
    ensures fits { IfSome result (λ n. n < 2 ^ 8) }
    ensures other { IfNone result (length body.now ≢ 1) }
{
    let mut cursor = Cursor::new(body);
    let number = cursor.take_u8()?;
    if cursor.left() != 0 {
        return None;
    }
    Some(number)
}

// Returns the number that a body of 2 bytes is.
fn u16_in(body: &[u8]) -> Option<u16>
    ensures encoded { IfSome result (λ n. body.now ≡ unsigned 2 n) }
    ensures fits { IfSome result (λ n. n < 2 ^ 16) }
    ensures other { IfNone result (length body.now ≢ 2) }
{
    let mut cursor = Cursor::new(body);
    let number = cursor.take_u16()?;
    if cursor.left() != 0 {
        return None;
    }
    Some(number)
}

// Returns the number that a body of 4 bytes is.
fn u32_in(body: &[u8]) -> Option<u32>
    ensures encoded { IfSome result (λ n. body.now ≡ unsigned 4 n) }
    ensures fits { IfSome result (λ n. n < 2 ^ 32) }
    ensures other { IfNone result (length body.now ≢ 4) }
{
    let mut cursor = Cursor::new(body);
    let number = cursor.take_u32()?;
    if cursor.left() != 0 {
        return None;
    }
    Some(number)
}

// Returns the number that a body of 8 bytes is.
fn u64_in(body: &[u8]) -> Option<u64>
    ensures encoded { IfSome result (λ n. body.now ≡ unsigned 8 n) }
    ensures fits { IfSome result (λ n. n < 2 ^ 64) }
    ensures other { IfNone result (length body.now ≢ 8) }
{
    let mut cursor = Cursor::new(body);
    let number = cursor.take_u64()?;
    if cursor.left() != 0 {
        return None;
    }
    Some(number)
}

// Returns the plain reply that a tag and a body encode, or `None` if they encode none.
fn plain_in(tag: u8, body: &[u8]) -> Option<Reply>
    ensures found { IfSome result (λ reply. EncodesReply tag body.now reply) }
    ensures none { IfNone result (EncodesNoReply tag body.now) }
{
    match tag {
        128 if body.is_empty() => Some(Reply::Done),
        128 => None,
        129 => Some(Reply::Asset(u16_in(body)?)),
        130 => Some(Reply::Account(u32_in(body)?)),
        131 => Some(Reply::Order(u64_in(body)?)),
        132 => Some(Reply::Refused(Refusal::of_code(u8_in(body)?)?)),
        _ => None,
    }
}

/// Returns the answer that a record encodes, in the borrowed bytes, or `None` if it encodes none: its tag is outside 128
/// to 134, or its body hasn't the length that the tag and its counts require, or no refusal has the code. Constant cost;
/// doesn't allocate.
pub fn reply<'a>(answered: &RecordView<'a>) -> Option<ReplyView<'a>>
    ensures { IsReplyRead answered.now result }
{
    let body = answered.body();
    match answered.tag() {
        133 => Some(ReplyView::Cleared(cleared_in(body)?)),
        134 => Some(ReplyView::Skipped(skipped_in(body)?)),
        tag => Some(ReplyView::Plain(plain_in(tag, body)?)),
    }
}
