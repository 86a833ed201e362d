//! `flow encode`: reads lines of JSON, perhaps after a checkpoint, and writes a command file.
ghost use Rattle.std.specs.Prelude.{◌≡◌, ◌≤◌, Err, IsTrue, drop, length};
ghost use Rattle.flow_io.specs.Faults.{Blames};
ghost use Rattle.flow_io.specs.Changes.{change};
ghost use Rattle.word_driver.specs.Does.{Does};
ghost use Rattle.encode_word.specs.Encoding.{LinesTo, LinesInto, LinesShort, EncodesInput, EncodesInto, EncodesShort};
ghost use Rattle.encode_word.specs.Tasks.{encode_task};
ghost use Rattle.encode_word.specs.Private.{EncodesAll, EndsEncoding};

use crate::start::{Start, StartFault, start_of};
use crate::stop::EncodeStop;
use flow_io::{ReadAllFault, Sink, Source, read_all};
use line_records::{EncodeFault, encode_lines};
use std::alloc::Global;
use ticker_table::TickerTable;
use wire_records::{Version, command_magic};
use word_driver::Fault;

// Writes the records of lines, from known tickers on.
fn encode_all<K: Sink>(
    alloc: Global,
    version: Version,
    tickers: TickerTable,
    lines: &[u8],
    more: bool,
    out: &mut K,
) -> Result<(), Fault<EncodeStop>>
    ensures encoded { EncodesAll version tickers (IsTrue more) lines.now result (K.held out.old) (K.held out.new) }
    ensures cause { Blames (result ≡ Err Fault.Write) (K.faults out.old) (K.faults out.new) }
{
    match encode_lines(alloc, version, tickers, lines, more, out) {
        Ok(()) if more => Err(Fault::TooLong),
        Ok(()) => Ok(()),
        Err(EncodeFault::NoCommand(number)) => Err(Fault::Stopped(EncodeStop::NoCommand(number))),
        Err(EncodeFault::Write) => Err(Fault::Write),
        Err(EncodeFault::Memory) => Err(Fault::Memory),
    }
}

// Writes the command file of lines, from known tickers on.
fn write_file<K: Sink>(
    alloc: Global,
    version: Version,
    tickers: TickerTable,
    lines: &[u8],
    more: bool,
    out: &mut K,
) -> Result<(), Fault<EncodeStop>>
    ensures ends { EndsEncoding (LinesTo version tickers (IsTrue more) lines.now) (LinesInto version tickers (IsTrue more) lines.now)
        (LinesShort version tickers (IsTrue more) lines.now) result (K.held out.old) (K.held out.new) }
    ensures cause { Blames (result ≡ Err Fault.Write) (K.faults out.old) (K.faults out.new) }
{
    match out.write(&command_magic(version)) {
        Ok(()) => encode_all(alloc, version, tickers, lines, more, out),
        Err(_) => Err(Fault::Write),
    }
}

// EncodesInput the lines of considered bytes, after which the input has more or not.
fn encode_bytes<K: Sink>(
    alloc: Global,
    version: Version,
    bytes: &[u8],
    more: bool,
    out: &mut K,
) -> Result<(), Fault<EncodeStop>>
    ensures ends { EndsEncoding (EncodesInput version (IsTrue more) bytes.now) (EncodesInto version (IsTrue more) bytes.now)
        (EncodesShort version (IsTrue more) bytes.now) result (K.held out.old) (K.held out.new) }
    ensures cause { Blames (result ≡ Err Fault.Write) (K.faults out.old) (K.faults out.new) }
{
    match start_of(alloc, version, bytes, more) {
        Ok(Start { tickers, place }) => {
            write_file(alloc, version, tickers, &bytes[place..], more, out)
        }
        Err(StartFault::Cut) => Err(Fault::TooLong),
        Err(StartFault::NoCheckpoint) => Err(Fault::Stopped(EncodeStop::NoCheckpoint)),
        Err(StartFault::Memory) => Err(Fault::Memory),
    }
}

/// Reads the source to its end or the limit, and writes the command file of its lines, of a version: one write for the magic,
/// and one for the records of each line. A checkpoint of a consistent market of the version may be before the lines; these know
/// the tickers of the market then.
///
/// It stops at the first line that is neither blank nor a command, with its number, counted from 1 after the checkpoint; all
/// before it are written. `NoCheckpoint`, if the input begins as a checkpoint and with no such one within the limit; then nothing
/// is written, nor if the limit is within the magic of a checkpoint, which is `TooLong`.
///
/// The input is held whole; one buffer holds the records of a line at a time. The market of a checkpoint is made, and is given up
/// before the first line is read; it costs what [`read_market`](market_snapshot::read_market) costs.
pub fn encode_source<S: Source, K: Sink>(
    alloc: Global,
    version: Version,
    limit: u64,
    source: &mut S,
    out: &mut K,
) -> Result<(), Fault<EncodeStop>>
    ensures does { Does (encode_task version) limit result (change S.rest S.faults source.old source.new)
        (change K.held K.faults out.old out.new) }
    // All is read before anything is written.
    ensures unread { result ≡ Err Fault.Read → out.new ≡ out.old }
{
    let input = match read_all(alloc, source, limit) {
        Ok(input) => input,
        Err(ReadAllFault::Read) => return Err(Fault::Read),
        Err(ReadAllFault::Memory) => return Err(Fault::Memory),
    };
    encode_bytes(alloc, version, &input.bytes, input.more, out)
}
