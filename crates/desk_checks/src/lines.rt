//! Lines with a sender.
use check_lines::Told;
use envelope_text::{Envelope, EnvelopeFault, read_envelope};
use json::Scratch;
use order_text::{LineFault, Question, read_question};
use std::alloc::Global;

// Prints what is read.
fn put_read(read: Result<Envelope<'_>, EnvelopeFault>, told: &mut Told) {
    match read {
        Ok(envelope) => {
            told.put_number(" from ", envelope.from.into());
            if let Some(id) = envelope.id {
                told.put_number(" id ", id.into());
            }
            told.put("\n");
            told.put_text(envelope.text.as_bytes());
        }
        Err(EnvelopeFault::NoEnvelope) => told.put(" none\n"),
        Err(EnvelopeFault::Memory) => told.give_up(),
    }
}

pub(crate) fn put_envelope(alloc: Global, line: &[u8], told: &mut Told) {
    let mut scratch = Scratch::new(alloc);
    put_read(read_envelope(alloc, line, &mut scratch), told);
}

pub(crate) fn put_question(alloc: Global, text: &[u8], told: &mut Told) {
    match read_question(alloc, text) {
        Ok(Question::Market) => told.put(" market\n"),
        Ok(Question::Own) => told.put(" own\n"),
        Ok(Question::Account(number)) => {
            told.put_number(" account ", number.into());
            told.put("\n");
        }
        Ok(Question::Exchange) => told.put(" exchange\n"),
        Err(LineFault::NoCommand) => told.put(" none\n"),
        Err(LineFault::Memory) => told.give_up(),
    }
}
