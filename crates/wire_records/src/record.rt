//! Records at the beginning of bytes.
ghost use Rattle.std.specs.Prelude.{◌≡◌, ◌<◌, ◌^◌, ◌++◌, length, IfSome, IfNone};
ghost use Rattle.wire_records.specs.Records.{AreBytes, head, encoding};
ghost use Rattle.wire_records.specs.Framing.{IsPrefix};

use std::marker::Model;
use wire_fields::Cursor;

// The bytes of a head.
const HEAD: usize = 5;

// Returns the same slice, with what its type says of its items as a clause.
pub(crate) fn as_bytes(bytes: &[u8]) -> &[u8]
    ensures value { result.now ≡ bytes.now }
    ensures bytes { AreBytes bytes.now }
{
    bytes
}

/// A complete record in borrowed bytes. Contracts see it as its tag and its body. Each of its calls is of
/// constant cost and allocates nothing; what it returns lives as long as the borrowed bytes.
#[derive(Clone, Drop)]
pub struct RecordView<'a> {
    tag: u8,
    body: &'a [u8],
    bytes: &'a [u8],
}

impl<'a> Model for RecordView<'a> {
    ghost use Rattle.std.specs.Prelude.{◌≡◌};
    ghost use Rattle.wire_records.specs.Records.{Record, encoding};

    ghost Value = { Record };

    ghost view = { λ r. record { tag = r.tag; body = r.body.now } };

    ghost invariant = { λ r. r.bytes.now ≡ encoding (record { tag = r.tag; body = r.body.now }) };
}

impl<'a> RecordView<'a> {
    ghost use Rattle.wire_records.specs.Records.{Record, AreEncoding};

    /// Returns the record whose encoding these bytes are, as they were written. Constant cost.
    pub fn of(bytes: &'a [u8]) -> RecordView<'a>
        requires { (asked : Record) × AreEncoding asked bytes.now }
        ensures { (asked : Record) → AreEncoding asked bytes.now → result ≡ asked }
    {
        RecordView {
            tag: bytes[0],
            body: &bytes[HEAD..],
            bytes,
        }
    }

    /// Returns the tag, a byte of any value.
    pub fn tag(&self) -> u8
        ensures { result ≡ self.now.tag }
    {
        self.tag
    }

    /// Returns the body.
    pub fn body(&self) -> &'a [u8]
        ensures value { result.now ≡ self.now.body }
        ensures bytes { AreBytes self.now.body }
    {
        as_bytes(self.body)
    }

    /// Returns the bytes of the record, as they are in the borrowed bytes: tag, length and body.
    pub fn bytes(&self) -> &'a [u8]
        ensures { result.now ≡ encoding self.now }
    {
        self.bytes
    }
}

/// What bytes begin with.
#[derive(Drop)]
pub enum Framed<'a> {
    /// A complete record, and the number of bytes that it takes.
    Whole(RecordView<'a>, usize),
    /// No bytes.
    End,
    /// Five bytes are there, and the length of a body that they state is above the limit; this is that
    /// length, in bytes. It makes no difference whether so many bytes follow.
    TooLarge(u32),
    /// Some bytes, but less than a complete record: fewer than five, or a body within the limit that isn't
    /// all there.
    Short,
}

// Takes a tag and the length of a body.
fn take_head(cursor: &mut Cursor<'_>) -> Option<(u8, u32)>
    ensures stated { IfSome result (λ found. cursor.old ≡ head found.0 found.1 ++ cursor.new) }
    ensures fits { IfSome result (λ found. (found.0 < 256) × (found.1 < 2 ^ 32)) }
    ensures few { IfNone result (length cursor.old < 5) }
{
    let tag = cursor.take_u8()?;
    let length = cursor.take_u32()?;
    Some((tag, length))
}

/// Returns what `bytes` begin with, if a body may have at most `limit` bytes. The bytes after that
/// aren't looked at. Constant cost, and nothing is allocated.
pub fn next_record<'a>(bytes: &'a [u8], limit: u32) -> Framed<'a>
    ensures { IsPrefix result limit bytes.now }
{
    if bytes.is_empty() {
        return Framed::End;
    }
    let mut cursor = Cursor::new(bytes);
    let (tag, length) = match take_head(&mut cursor) {
        None => return Framed::Short,
        Some(head) => head,
    };
    if length > limit {
        return Framed::TooLarge(length);
    }
    match cursor.take(length as usize) {
        None => Framed::Short,
        Some(body) => {
            let taken = 5 + body.len();
            let bytes = &bytes[..taken];
            Framed::Whole(RecordView { tag, body, bytes }, taken)
        }
    }
}
