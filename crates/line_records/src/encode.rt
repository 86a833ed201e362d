//! The lines of a text, encoded one after the other.
ghost use Rattle.std.specs.Prelude.{◌≡◌, ◌++◌, map, Err, IsTrue, OnOk, All};
ghost use Rattle.flow_io.specs.Faults.{Blames};
ghost use Rattle.wire_records.specs.CommandRecords.{HasShortRow};
ghost use Rattle.wire_records.specs.Views.{command_in};
ghost use Rattle.line_records.specs.Encoded.{IsEncoded};
ghost use Rattle.line_records.specs.Lines.{encode_commands};
ghost use Rattle.line_records.specs.Private.{IsRecordWritten, AreWritten};

use flow_io::Sink;
use memchr::memchr;
use order_text::{LineFault, LineRead, read_line};
use std::alloc::Global;
use ticker_table::TickerTable;
use wire_records::{Command, Memory, Version, write_command};

/// Why the lines of a text weren't encoded to their end.
#[derive(Clone, Copy, PartialEq, Eq)]
pub enum EncodeFault {
    /// The line of this number, counted from 1, is neither blank nor a command.
    NoCommand(u64),
    /// A write failed.
    Write,
    /// Memory ran out at a line.
    Memory,
}

// Writes the record of a command by one call of the sink. Before that it is built in `records`.
fn write_record<K: Sink>(
    records: &mut Vec<u8>,
    command: &Command,
    out: &mut K,
) -> Result<(), EncodeFault>
    requires short { HasShortRow (command_in command.now) }
    ensures written { IsRecordWritten (command_in command.now) result (K.held out.old) (K.held out.new) }
    ensures cause { Blames (result ≡ Err EncodeFault.Write) (K.faults out.old) (K.faults out.new) }
{
    records.clear();
    write_command(command, records).map_err(|_| EncodeFault::Memory)?;
    out.write(records).map_err(|_| EncodeFault::Write)
}

// Appends the records of commands to `records`.
fn put_records(records: &mut Vec<u8>, commands: &[Command]) -> Result<(), Memory>
    requires short { All (λ command. HasShortRow (command_in command)) commands.now }
    ensures { OnOk result (records.new.items ≡ records.old.items ++ encode_commands (map command_in commands.now)) }
{
    for command in commands {
        write_command(command, records)?;
    }
    Ok(())
}

// Writes the records of commands by one call of the sink, so all are built before the first of them is written.
fn write_records<K: Sink>(
    records: &mut Vec<u8>,
    commands: &[Command],
    out: &mut K,
) -> Result<(), EncodeFault>
    requires short { All (λ command. HasShortRow (command_in command)) commands.now }
    ensures written { AreWritten (map command_in commands.now) result (K.held out.old) (K.held out.new) }
    ensures cause { Blames (result ≡ Err EncodeFault.Write) (K.faults out.old) (K.faults out.new) }
{
    records.clear();
    put_records(records, commands).map_err(|_| EncodeFault::Memory)?;
    out.write(records).map_err(|_| EncodeFault::Write)
}

// What is kept from line to line: the tickers of the lines before, and the buffer for a line's records.
#[derive(Drop)]
struct Encoding {
    alloc: Global,
    tickers: TickerTable,
    records: Vec<u8>,
}

impl Encoding {
    ghost use Rattle.line_records.specs.Private.{IsLineEncoded};

    // Writes the records of the commands that a line asks for, by one call of the sink.
    fn encode_line<K: Sink>(
        &mut self,
        version: Version,
        line: &[u8],
        number: u64,
        out: &mut K,
    ) -> Result<(), EncodeFault>
        ensures encoded { IsLineEncoded version self.old.tickers line.now number self.new.tickers result
            (K.held out.old) (K.held out.new) }
        ensures cause { Blames (result ≡ Err EncodeFault.Write) (K.faults out.old) (K.faults out.new) }
    {
        match read_line(self.alloc, line, version, &mut self.tickers) {
            Ok(LineRead::Blank) => Ok(()),
            Ok(LineRead::Asks(command)) => write_record(&mut self.records, &command, out),
            Ok(LineRead::Many(commands)) => write_records(
                &mut self.records,
                commands.as_slice(),
                out,
            ),
            Err(LineFault::NoCommand) => Err(EncodeFault::NoCommand(number)),
            Err(LineFault::Memory) => Err(EncodeFault::Memory),
        }
    }
}

/// Writes the records of the commands of a version that the lines of a text ask for, those of a line by one call of the
/// sink. The lines are the pieces before line feeds, and the piece after the last line feed, if it isn't empty and there is
/// no `more` of the text.
///
/// Fails with `NoCommand` and the line's number at the first line that is neither blank nor a command; the records of the
/// lines before it are written. Fails with `Write` only if the sink's count of faults rose, and with `Memory` only at a line
/// that isn't blank; the records of the lines before are then written, and after `Write` perhaps a part of that line's. The
/// cost is that of reading the lines. Memory: what one line takes, and its records: one, or up to 32 of a ladder.
pub fn encode_lines<K: Sink>(
    alloc: Global,
    version: Version,
    tickers: TickerTable,
    text: &[u8],
    more: bool,
    out: &mut K,
) -> Result<(), EncodeFault>
    ensures encoded { IsEncoded version tickers (IsTrue more) text.now result (K.held out.old) (K.held out.new) }
    ensures cause { Blames (result ≡ Err EncodeFault.Write) (K.faults out.old) (K.faults out.new) }
{
    let mut encoding = Encoding {
        alloc,
        tickers,
        records: Vec::new(alloc),
    };
    let mut place = 0;
    let mut number = 1;
    while let Some(length) = memchr(b'\n', &text[place..]) {
        encoding.encode_line(version, &text[place..place + length], number, out)?;
        place += length + 1;
        number += 1;
    }
    let last = &text[place..];
    if more || last.is_empty() {
        return Ok(());
    }
    encoding.encode_line(version, last, number, out)
}
