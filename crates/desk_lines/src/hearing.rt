//! Who sent a line, and whether it counts.
ghost use Rattle.std.specs.Prelude.{◌<◌, ◌≤◌, ◌+◌, ◌^◌, length, IfOk, OnErr};
ghost use Rattle.order_text.specs.Lines.{IsBlank};
ghost use Rattle.desk_lines.specs.Hearing.{most_envelope, IsHeard};
ghost use Rattle.desk_lines.specs.Answers.{heard_in};

use answer_text::Recipient;
use desk_messages::{Desks, recipient_of};
use envelope_text::{EnvelopeFault, read_envelope};
use json::Scratch;
use order_text::is_blank;
use std::alloc::Global;
use wire_records::Memory;

/// The most bytes of a line before its line feed.
pub const MOST_ENVELOPE: usize = 262_144;

/// What a line is.
#[derive(Clone, Copy)]
pub enum Heard<'a> {
    /// It is blank.
    Nothing,
    /// It is too long or no envelope, or its sender is neither the operator nor an account that is there.
    Noise,
    /// It is of this sender, and has another number than the sender's next line.
    Other(Recipient),
    /// It is the next line of this sender, with this text.
    From(Recipient, &'a str),
}

/// Hears a line: who sent it, and whether it is the next one of its sender, given how many were counted. A line of more than 262,144 bytes
/// is noise. Fails only if memory ran out; a blank line and one that is too long take none.
///
/// The text is borrowed from the line, or from `scratch` if it has escapes. The cost is that of the line's bytes.
pub fn hear<'a>(
    alloc: Global,
    line: &'a [u8],
    scratch: &'a mut Scratch<Global>,
    desks: &Desks,
) -> Result<Heard<'a>, Memory>
    requires few { desks.now.total.lines + 1 < 2 ^ 64 }
    ensures heard { IfOk result (λ heard. IsHeard desks.now line.now (heard_in heard)) }
    ensures memory { OnErr result ((length line.now ≤ most_envelope) × (¬ IsBlank line.now)) }
{
    if line.len() > MOST_ENVELOPE {
        return Ok(Heard::Noise);
    }
    if is_blank(line) {
        return Ok(Heard::Nothing);
    }
    let envelope = match read_envelope(alloc, line, scratch) {
        Ok(envelope) => envelope,
        Err(EnvelopeFault::NoEnvelope) => return Ok(Heard::Noise),
        Err(EnvelopeFault::Memory) => return Err(Memory),
    };
    let sender = recipient_of(envelope.from);
    if !desks.is_there(sender) {
        return Ok(Heard::Noise);
    }
    match envelope.id {
        Some(id) if id != desks.lines_of(sender) + 1 => Ok(Heard::Other(sender)),
        _ => Ok(Heard::From(sender, envelope.text)),
    }
}
