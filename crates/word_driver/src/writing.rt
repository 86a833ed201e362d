//! A subcommand at work together with the buffer of its text, as a taker of the units of a file.
ghost use Rattle.std.specs.Prelude.{◌≡◌, ◌≢◌, [], OnOk, OnErr, IsErr, Err, Some, ◌≤◌, vec_capacity};
ghost use Rattle.flow_io.specs.Faults.{Blames};
ghost use Rattle.flow_io.specs.Streams.{Grows, GrowsByPrefix, HandsOver};
ghost use Rattle.flow_io.specs.Changes.{change};
ghost use Rattle.word_driver.specs.Private.{WritesStep, BreaksStep, Halted, PutsStep, PutsLast, halted_text};
ghost use Rattle.word_driver.specs.Pieces.{piece};

use crate::fault::{Fault, Halt};
use crate::serves::ServesWord;
use file_units::{Prefix, TakesUnits};
use flow_io::{Sink, WriteFailed};

// Writes the bytes by one call, or makes no call if there are none.
pub(crate) fn put<K: Sink>(out: &mut K, bytes: &[u8]) -> Result<(), WriteFailed>
    ensures written { OnOk result (Grows (K.held out.old) (K.held out.new) bytes.now) }
    ensures cut { OnErr result (GrowsByPrefix (K.held out.old) (K.held out.new) bytes.now) }
    ensures none { bytes.now ≡ [] → out.new ≡ out.old }
    ensures some { OnErr result (bytes.now ≢ []) }
    ensures cause { Blames (IsErr result) (K.faults out.old) (K.faults out.new) }
    ensures pieces { HandsOver K.calls K.held out.old out.new (IsErr result) (piece bytes.now) }
{
    if bytes.is_empty() {
        return Ok(());
    }
    out.write(bytes)
}

// Writes the text of a subcommand that stops early, and returns the fault. Writes nothing if an allocation failed.
pub(crate) fn halt_with<K: Sink, B: Copy>(halt: Halt<B>, out: &mut K, text: &[u8]) -> Fault<B>
    ensures halted { Halted halt text.now result (K.held out.old) (K.held out.new) }
    ensures cause { Blames (result ≡ Fault.Write) (K.faults out.old) (K.faults out.new) }
    ensures pieces { HandsOver K.calls K.held out.old out.new (result ≡ Fault.Write) (piece (halted_text halt text.now)) }
{
    match halt {
        Halt::Memory => Fault::Memory,
        Halt::Stopped(why) => match put(out, text) {
            Ok(()) => Fault::Stopped(why),
            Err(_) => Fault::Write,
        },
    }
}

// A subcommand and the buffer of its text.
#[derive(Drop)]
pub(crate) struct Writing<W: ServesWord> {
    pub(crate) word: W,
    pub(crate) text: Vec<u8>,
    ghost room: { W.ROOM ≤ vec_capacity text },
}

impl<K: Sink, W: ServesWord + Drop> TakesUnits<K> for Writing<W> {
    ghost use Rattle.word_driver.specs.declared.fault.Fault.{Fault};

    type Fault = Fault<W::Stop>;

    ghost Unit = { W.Unit };

    ghost State = { W.State };

    ghost format = { W.word.format };

    ghost state = { λ w. W.state w.word };

    ghost steps = { λ old unit new before after.
        WritesStep W.word old unit new (change K.held K.faults before after)
        × PutsStep W.word K.calls K.held old unit new before after };

    ghost breaks = { λ old unit fault before after.
        BreaksStep W.word old unit fault (change K.held K.faults before after)
        × PutsLast W.word K.calls K.held old (Some unit) (fault ≡ Fault.Write) before after };

    ghost is_ready = { λ w left. W.is_ready w.word left };

    fn take(&mut self, bytes: &[u8], out: &mut K) -> Result<Prefix, Fault<W::Stop>> {
        self.text.clear();
        match self.word.take(bytes, &mut self.text) {
            Ok(prefix) => match put(out, &self.text) {
                Ok(()) => Ok(prefix),
                Err(_) => Err(Fault::Write),
            },
            Err(halt) => Err(halt_with(halt, out, &self.text)),
        }
    }
}
