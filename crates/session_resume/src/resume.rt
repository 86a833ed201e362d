//! `flow resume`: a journal or a checkpoint in, followed by new commands, and the entries of these out.
ghost use Rattle.std.specs.Prelude.{◌≡◌, ◌≢◌, ◌≤◌, ◌<◌, ◌+◌, ◌^◌, ◌⊎◌, ◌↔◌, ◌++◌, ℕ, List, [], Err, IsTrue, drop, length};
ghost use Rattle.flow_io.specs.Faults.{Blames};
ghost use Rattle.flow_io.specs.Changes.{change};
ghost use Rattle.wire_records.specs.Formats.{command_magic_of};
ghost use Rattle.word_driver.specs.Does.{Does};
ghost use Rattle.session_resume.specs.Firsts.{Whole};
ghost use Rattle.session_resume.specs.Rests.{ServesAll, IsNoFile};
ghost use Rattle.session_resume.specs.Resuming.{FirstComesTo, Resumes, ResumesInto, ResumesShort};
ghost use Rattle.session_resume.specs.Tasks.{resuming};
ghost use Rattle.session_resume.specs.Private.{EndsResuming, WritesInto, WritesShort, IntoAfter, ShortAfter};

use crate::first::{FirstFault, FirstPart, Origin, Unfit, first_part};
use exchange_session::{Run, Session};
use flow_io::{ReadAllFault, Sink, Source, read_all};
use journal_records::is_overlong;
use std::alloc::Global;
use wire_records::{COMMAND_MAGIC, Version, command_magic};
use word_driver::{Fault, ServesWord, go_over_bytes};

// Serves the records in the bytes of an input from a place on, and writes their entries.
fn serve_all<K: Sink>(
    alloc: Global,
    session: Session,
    bytes: &[u8],
    place: usize,
    more: bool,
    out: &mut K,
) -> Result<(), Fault<Unfit>>
    requires inside { place ≤ length bytes.now }
    requires numbers { session.next_order < 2 ^ 63 }
    ensures ends { EndsResuming (ServesAll session (IsTrue more) place (drop place bytes.now)) (WritesInto session (drop place bytes.now))
        (WritesShort session (drop place bytes.now)) result (K.held out.old) (K.held out.new) }
    ensures cause { Blames (result ≡ Err Fault.Write) (K.faults out.old) (K.faults out.new) }
{
    let text = match Vec::with_capacity(alloc, Run::ROOM) {
        Ok(text) => text,
        Err(_) => return Err(Fault::Memory),
    };
    match go_over_bytes(Run::over(alloc, session), text, bytes, place, more, out) {
        Ok(()) => Ok(()),
        Err(Fault::Torn(place)) => Err(Fault::Torn(place)),
        Err(Fault::TooLong) => Err(Fault::TooLong),
        Err(Fault::Write) => Err(Fault::Write),
        Err(Fault::Memory) => Err(Fault::Memory),
        Err(Fault::Read) => unreachable!(),
        Err(Fault::NotFlow) => unreachable!(),
        Err(Fault::Stopped(_)) => unreachable!(),
    }
}

// Returns how a rest that begins with no complete entry ends, read as the rest of a journal.
fn no_pair(rest: &[u8], place: usize, more: bool) -> Result<(), Fault<Unfit>>
    requires some { rest.now ≢ [] }
    ensures ends { IsNoFile Origin.Journal (IsTrue more) place rest.now result }
    ensures how { (result ≡ Err Fault.TooLong) ⊎ (result ≡ Err (Fault.Torn place)) }
{
    if is_overlong(rest) {
        return Err(Fault::Torn(place as u64));
    }
    if more {
        return Err(Fault::TooLong);
    }
    Err(Fault::Torn(place as u64))
}

// Returns how a rest that is no command file ends.
fn no_file(origin: Origin, rest: &[u8], place: usize, more: bool) -> Result<(), Fault<Unfit>>
    requires some { rest.now ≢ [] }
    ensures ends { IsNoFile origin (IsTrue more) place rest.now result }
    ensures how { (result ≡ Err Fault.TooLong) ⊎ (result ≡ Err (Fault.Torn place)) }
{
    match origin {
        Origin::Checkpoint => Err(Fault::Torn(place as u64)),
        Origin::Journal => no_pair(rest, place, more),
    }
}

// Returns whether the bytes begin as a command file of this version.
fn is_command_file_of(bytes: &[u8], version: Version) -> bool
    ensures { IsTrue result ↔ ((body : List ℕ) × (bytes.now ≡ command_magic_of version ++ body)) }
{
    bytes.starts_with(&command_magic(version))
}

// Returns whether a rest has fewer bytes than a magic, and the input has more.
fn is_cut(rest: &[u8], more: bool) -> bool
    ensures { IsTrue result ↔ ((length rest.now < 8) × IsTrue more) }
{
    if more {
        return rest.len() < COMMAND_MAGIC.len();
    }
    false
}

// Returns whether there is no rest.
fn is_none(rest: &[u8]) -> bool
    ensures { IsTrue result ↔ (rest.now ≡ []) }
{
    rest.is_empty()
}

// Returns the bytes from a place on.
fn following(bytes: &[u8], place: usize) -> &[u8]
    requires inside { place ≤ length bytes.now }
    ensures { result.now ≡ drop place bytes.now }
{
    &bytes[place..]
}

// Serves what follows the first part.
fn go_on<K: Sink>(
    alloc: Global,
    part: FirstPart,
    bytes: &[u8],
    more: bool,
    out: &mut K,
) -> Result<(), Fault<Unfit>>
    requires inside { part.place ≤ length bytes.now }
    requires numbers { part.market.next_order < 2 ^ 63 }
    ensures ends { EndsResuming (FirstComesTo (IsTrue more) (Whole part.origin part.market part.place (drop part.place bytes.now)))
        (IntoAfter part.market (drop part.place bytes.now)) (ShortAfter part.market (drop part.place bytes.now)) result
        (K.held out.old) (K.held out.new) }
    ensures cause { Blames (result ≡ Err Fault.Write) (K.faults out.old) (K.faults out.new) }
{
    let rest = following(bytes, part.place);
    if is_cut(rest, more) {
        return Err(Fault::TooLong);
    }
    if is_none(rest) {
        return Ok(());
    }
    if is_command_file_of(rest, part.market.version()) {
        let place = part.place + COMMAND_MAGIC.len();
        return serve_all(alloc, Session::over(part.market), bytes, place, more, out);
    }
    no_file(part.origin, rest, part.place, more)
}

// Resumes from the considered bytes; `more` says whether the input has more after them.
fn resume_bytes<K: Sink>(
    alloc: Global,
    bytes: &[u8],
    more: bool,
    out: &mut K,
) -> Result<(), Fault<Unfit>>
    ensures ends { EndsResuming (Resumes (IsTrue more) bytes.now) (ResumesInto bytes.now)
        (ResumesShort bytes.now) result (K.held out.old) (K.held out.new) }
    ensures cause { Blames (result ≡ Err Fault.Write) (K.faults out.old) (K.faults out.new) }
{
    match first_part(alloc, bytes) {
        Ok(part) => go_on(alloc, part, bytes, more, out),
        Err(FirstFault::Neither) => Err(Fault::NotFlow),
        Err(FirstFault::NoCheckpoint) => {
            if more {
                return Err(Fault::TooLong);
            }
            Err(Fault::Stopped(Unfit::NoCheckpoint))
        }
        Err(FirstFault::Illegal(number)) => Err(Fault::Stopped(Unfit::Illegal(number))),
        Err(FirstFault::Memory) => Err(Fault::Memory),
    }
}

/// Reads the source to its end or the limit, and resumes from its first part: a valid journal, up to the end of its
/// last complete entry, or a checkpoint of a consistent market. After it comes a command file of the same version,
/// whose records are served, or nothing. Their entries are written, without a magic, each by one call.
///
/// The first of these that holds decides the result: `NotFlow` if the source doesn't begin with the magic of a journal
/// or of a checkpoint; if the magic of a checkpoint begins no checkpoint, `TooLong` if the source has more than the
/// limit, and else `NoCheckpoint`; `Illegal` with its number, counted from 1, at the first entry of the journal that
/// isn't valid; `TooLong` if the rest has fewer than eight bytes and the source has more; how the reading of a command
/// file ends, with places counted from the first byte of the input; `Torn` at the first byte of any other rest, but
/// `TooLong` if the source has more and the rest is that of a journal and states no body above its limit.
///
/// The complete input is held in memory, and the market. A journal costs its audit, a checkpoint its reading, and each
/// record its service.
pub fn resume_source<S: Source, K: Sink>(
    alloc: Global,
    limit: u64,
    source: &mut S,
    out: &mut K,
) -> Result<(), Fault<Unfit>>
    ensures does { Does resuming limit result (change S.rest S.faults source.old source.new)
        (change K.held K.faults out.old out.new) }
    // Everything is read before anything is written.
    ensures unread { result ≡ Err Fault.Read → out.new ≡ out.old }
{
    let input = match read_all(alloc, source, limit) {
        Ok(input) => input,
        Err(ReadAllFault::Read) => return Err(Fault::Read),
        Err(ReadAllFault::Memory) => return Err(Fault::Memory),
    };
    resume_bytes(alloc, &input.bytes, input.more, out)
}
