//! One envelope.
ghost use Rattle.std.specs.Prelude.{ℕ, List, IfSome, IfNone};
ghost use Rattle.json.specs.Value.{value_view};
ghost use Rattle.envelope_text.specs.Envelopes.{Sent, IsWhole, HasWhole, HasText, HasCount, HasMembers};
ghost use Rattle.envelope_text.specs.Answers.{IsReadAs, envelope_in};

use json::{Error, Scratch, Value};
use std::alloc::Global;

/// Who sent a text, perhaps under which number, and the text.
#[derive(Clone, Copy)]
pub struct Envelope<'a> {
    /// The sender's number.
    pub from: u32,
    /// The number of the text among those of its sender, below 2^63, if it is stated.
    pub id: Option<u64>,
    /// The text, unescaped.
    pub text: &'a str,
}

/// Why a line wasn't read as an envelope.
#[derive(Clone, Copy, PartialEq, Eq)]
pub enum EnvelopeFault {
    /// It is no envelope.
    NoEnvelope,
    /// Memory ran out.
    Memory,
}

// One more than the greatest number of a text.
const IDS: u64 = 1 << 63;

// Returns the whole number that a value is.
fn whole_of(value: &Value<'_>) -> Option<u64>
    ensures some { IfSome result (IsWhole (value_view value.now)) }
    ensures none { IfNone result ((number : ℕ) → ¬ IsWhole (value_view value.now) number) }
{
    value.as_u64()
}

fn whole_at(value: &Value<'_>, key: &str) -> Option<u64>
    ensures some { IfSome result (λ number. HasWhole (value_view value.now) key.now number) }
    ensures none { IfNone result ((number : ℕ) → ¬ HasWhole (value_view value.now) key.now number) }
{
    whole_of(value.get(key)?)
}

fn text_at<'a>(value: &Value<'a>, key: &str) -> Option<&'a str>
    ensures some { IfSome result (λ text. HasText (value_view value.now) key.now text.now) }
    ensures none { IfNone result ((text : List ℕ) → ¬ HasText (value_view value.now) key.now text) }
{
    value.get(key)?.as_str()
}

fn count_of(value: &Value<'_>) -> Option<usize>
    ensures some { IfSome result (λ count. HasCount (value_view value.now) count) }
    ensures none { IfNone result ((count : ℕ) → ¬ HasCount (value_view value.now) count) }
{
    match value {
        Value::Object(members) => Some(members.len()),
        _ => None,
    }
}

// Returns the envelope that a value is.
fn envelope_of<'a>(value: &Value<'a>) -> Option<Envelope<'a>>
    ensures some { IfSome result (λ envelope. HasMembers (value_view value.now) (envelope_in envelope)) }
    ensures none { IfNone result ((sent : Sent) → ¬ HasMembers (value_view value.now) sent) }
{
    let from = whole_at(value, "from")?;
    let text = text_at(value, "line")?;
    let count = count_of(value)?;
    if from > u32::MAX as u64 {
        return None;
    }
    if count == 2 {
        return Some(Envelope {
            from: from as u32,
            id: None,
            text,
        });
    }
    let id = whole_at(value, "id")?;
    if count != 3 || id >= IDS {
        return None;
    }
    Some(Envelope {
        from: from as u32,
        id: Some(id),
        text,
    })
}

/// Reads a line as an envelope: one JSON object with the members `from`, a whole number of 32 bits, `line`, a text, and perhaps
/// `id`, a whole number below 2^63, in any order, each once however its name is escaped, and with no others.
///
/// Fails with `NoEnvelope` only for a line that is none, and with `Memory` possibly for any line. The text of the envelope is
/// borrowed from the line, or from `scratch` if it has escapes; `scratch` keeps its memory from line to line, and grows to the
/// longest one. The cost is that of the line's bytes.
pub fn read_envelope<'a>(
    alloc: Global,
    line: &'a [u8],
    scratch: &'a mut Scratch<Global>,
) -> Result<Envelope<'a>, EnvelopeFault>
    ensures { IsReadAs line.now result }
{
    let Ok(text) = std::str::from_utf8(line) else {
        return Err(EnvelopeFault::NoEnvelope);
    };
    let value = match Value::parse_strict(alloc, text, scratch) {
        Ok(value) => value,
        Err(Error::OutOfMemory) => return Err(EnvelopeFault::Memory),
        Err(_) => return Err(EnvelopeFault::NoEnvelope),
    };
    match envelope_of(&value) {
        Some(envelope) => Ok(envelope),
        None => Err(EnvelopeFault::NoEnvelope),
    }
}
