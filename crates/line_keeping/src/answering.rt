//! One line: the commands that it asks for are served, kept and answered.
ghost use Rattle.std.specs.Prelude.{◌≡◌, ◌≢◌, ◌<◌, ◌≤◌, ◌+◌, ◌*◌, ◌^◌, ◌∷◌, ℕ, List, length, map, All, Err, IsErr, IfOk, IfErr, OnOk, OnErr, IfSome, vec_capacity};
ghost use Rattle.flow_io.specs.Faults.{Blames};
ghost use Rattle.wire_records.specs.Records.{Record};
ghost use Rattle.wire_records.specs.Commands.{Command as command_value, Pair};
ghost use Rattle.wire_records.specs.CommandRecords.{HasShortRow};
ghost use Rattle.wire_records.specs.Views.{command_in};
ghost use Rattle.flow_orders.specs.Outcomes.{Outcome};
ghost use Rattle.journal_records.specs.Pairs.{pair_encoding};
ghost use Rattle.journal_records.specs.Formats.{records_of};
ghost use Rattle.batch_report.specs.Reports.{IsReport};
ghost use Rattle.journal_keeping.specs.Outputs.{output};

use batch_report::report_served;
use disk_edge::Disk;
use flow_io::{Sink, WriteFailed};
use journal_keeping::{ServeFault, Writer, keep_entry};
use order_text::{LineFault, LineRead, ask_line};
use std::alloc::Global;
use wire_records::{Command, Memory};
use word_driver::put_number;

// Answers lines: keeps the entries of their commands, and numbers lines and entries. One buffer each is used for all entries and all texts.
pub(crate) struct Desk {
    pub(crate) alloc: Global,
    pub(crate) writer: Writer,
    // How many lines were answered.
    pub(crate) lines: u64,
    // How many entries the disk keeps.
    pub(crate) entries: u64,
    pub(crate) text: Vec<u8>,
}

impl Drop for Desk {
    // By hand, so that the end of a value is one call in the proofs of those who own it (docs/PROVING_TRAPS.md).
    fn drop(self) {
        let Desk {
            alloc: _,
            writer: _,
            lines: _,
            entries: _,
            text: _,
        } = self;
    }
}

impl Desk {
    ghost use Rattle.journal_disk.specs.Pairs.{RecordPair};
    ghost use Rattle.journal_disk.specs.Entries.{Head, Keeps};
    ghost use Rattle.journal_disk.specs.Lengths.{ReachesAtMost};
    ghost use Rattle.journal_keeping.specs.Lengths.{longest_stored_entry};
    ghost use Rattle.input_lines.specs.Long.{most_line};
    ghost use Rattle.line_keeping.specs.Private.{IsReadyFor, IsServed, AnswersCommand, BreaksCommand, AnswersCommands, BreaksCommands, AnswersLine, BreaksLine, Refuses, refusal_room};

    // Serves a command, and gets its entry and the entry's text ready. If memory runs out, the market may be past what is kept.
    fn serve(&mut self, command: &Command) -> Result<(), Memory>
        requires short { HasShortRow (command_in command.now) }
        requires next { self.old.writer.session.next_order + 1 < 2 ^ 64 }
        requires few { self.old.entries + 1 < 2 ^ 64 }
        ensures served { OnOk result ((pair : Pair Record Outcome) × IsServed (command_in command.now) self.old.writer.session pair self.new.writer.session
            × (self.new.writer.pair.items ≡ pair_encoding pair) × IsReport self.new.writer.session (self.old.entries + 1) (records_of pair) self.new.text.items) }
        ensures appender { self.new.writer.appender ≡ self.old.writer.appender }
        ensures entries { self.new.entries ≡ self.old.entries }
        ensures lines { self.new.lines ≡ self.old.lines }
        ensures room { vec_capacity self.old.text ≤ vec_capacity self.new.text }
    {
        // Called for its contract: the market is consistent.
        let _market = self.writer.session.market();
        self.writer.pair.clear();
        self.text.clear();
        let served = match self
            .writer
            .session
            .serve_command(command, &mut self.writer.pair)
        {
            Ok(served) => served,
            Err(memory) => return Err(memory),
        };
        report_served(
            self.writer.session.market(),
            &command.view(&self.writer.pair),
            &served.reply(&self.writer.pair),
            self.entries + 1,
            &mut self.text,
        )
    }

    // Serves a command, keeps its entry, and then writes the entry's text.
    fn answer_command<D: Disk, K: Sink>(
        &mut self,
        command: &Command,
        disk: &mut D,
        out: &mut K,
    ) -> Result<(), ServeFault>
        requires short { HasShortRow (command_in command.now) }
        requires ready { IsReadyFor self.old.writer.session self.old.entries self.old.writer.appender 0 }
        requires kept { IfSome (D.state disk.old).content
            (λ _. (head : Head) × (pairs : List RecordPair) × Keeps head pairs self.old.writer.appender (D.state disk.old)) }
        ensures answers { OnOk result (AnswersCommand (command_in command.now) self.old.writer.session self.new.writer.session self.old.entries
            self.old.writer.appender self.new.writer.appender (D.state disk.old) (D.state disk.new)
            (output K.held K.calls K.faults out.old) (output K.held K.calls K.faults out.new)) }
        ensures counted { OnOk result (self.new.entries ≡ self.old.entries + 1) }
        ensures orders { OnOk result (self.new.writer.session.next_order ≤ self.old.writer.session.next_order + 1) }
        ensures lines { self.new.lines ≡ self.old.lines }
        ensures room { vec_capacity self.old.text ≤ vec_capacity self.new.text }
        ensures lengths { ReachesAtMost (self.old.writer.appender + (longest_stored_entry + 1)) (D.state disk.old) (D.state disk.new) }
        ensures broken { IfErr result (BreaksCommand (command_in command.now) self.old.writer.session self.old.entries self.old.writer.appender self.new.writer.appender
            (D.state disk.old) (D.state disk.new) (output K.held K.calls K.faults out.old) (output K.held K.calls K.faults out.new) (disk.new ≡ disk.old)) }
        ensures disk_cause { Blames (result ≡ Err ServeFault.Disk) (D.state disk.old).faults (D.state disk.new).faults }
        ensures out_cause { Blames (result ≡ Err ServeFault.Write) (K.faults out.old) (K.faults out.new) }
    {
        match self.serve(command) {
            Ok(()) => {}
            Err(_) => return Err(ServeFault::Memory),
        }
        match keep_entry(
            &mut self.writer.appender,
            &self.writer.pair,
            &self.text,
            disk,
            out,
        ) {
            Ok(()) => {
                self.entries += 1;
                Ok(())
            }
            Err(fault) => Err(fault),
        }
    }

    // Answers the commands of a line, one after the other.
    fn answer_commands<D: Disk, K: Sink>(
        &mut self,
        commands: &[Command],
        disk: &mut D,
        out: &mut K,
    ) -> Result<(), ServeFault>
        requires short { All (λ command. HasShortRow (command_in command)) commands.now }
        requires ready { IsReadyFor self.old.writer.session self.old.entries self.old.writer.appender (length commands.now) }
        requires kept { IfSome (D.state disk.old).content
            (λ _. (head : Head) × (pairs : List RecordPair) × Keeps head pairs self.old.writer.appender (D.state disk.old)) }
        ensures answers { OnOk result (AnswersCommands (map command_in commands.now) self.old.writer.session self.new.writer.session self.old.entries self.new.entries
            self.old.writer.appender self.new.writer.appender (D.state disk.old) (D.state disk.new)
            (output K.held K.calls K.faults out.old) (output K.held K.calls K.faults out.new)) }
        ensures lines { self.new.lines ≡ self.old.lines }
        ensures room { vec_capacity self.old.text ≤ vec_capacity self.new.text }
        ensures lengths { ReachesAtMost (self.old.writer.appender + (longest_stored_entry * length commands.now + 1)) (D.state disk.old) (D.state disk.new) }
        ensures broken { IfErr result (BreaksCommands (map command_in commands.now) self.old.writer.session self.old.entries self.old.writer.appender
            (D.state disk.old) (D.state disk.new) (output K.held K.calls K.faults out.old) (output K.held K.calls K.faults out.new)) }
        ensures disk_cause { Blames (result ≡ Err ServeFault.Disk) (D.state disk.old).faults (D.state disk.new).faults }
        ensures out_cause { Blames (result ≡ Err ServeFault.Write) (K.faults out.old) (K.faults out.new) }
    {
        for command in commands {
            match self.answer_command(command, disk, out) {
                Ok(()) => {}
                Err(fault) => return Err(fault),
            }
        }
        Ok(())
    }

    // Answers that the line that was counted last is no command.
    fn refuse<K: Sink>(&mut self, out: &mut K) -> Result<(), WriteFailed>
        requires room { refusal_room ≤ vec_capacity self.old.text }
        ensures refuses { Refuses self.old.lines result (output K.held K.calls K.faults out.old) (output K.held K.calls K.faults out.new) }
        ensures same { (self.new.writer ≡ self.old.writer) × (self.new.lines ≡ self.old.lines) × (self.new.entries ≡ self.old.entries) }
        ensures room { refusal_room ≤ vec_capacity self.new.text }
        ensures out_cause { Blames (IsErr result) (K.faults out.old) (K.faults out.new) }
    {
        self.text.clear();
        put_number(&mut self.text, b"line ", self.lines, b" is no command\n");
        out.write(&self.text)
    }

    // Answers a line that is too long.
    pub(crate) fn answer_long<K: Sink>(&mut self, out: &mut K) -> Result<(), WriteFailed>
        requires few { self.old.lines + 1 < 2 ^ 64 }
        requires room { refusal_room ≤ vec_capacity self.old.text }
        ensures refuses { Refuses (self.old.lines + 1) result (output K.held K.calls K.faults out.old) (output K.held K.calls K.faults out.new) }
        ensures same { (self.new.writer ≡ self.old.writer) × (self.new.lines ≡ self.old.lines + 1) × (self.new.entries ≡ self.old.entries) }
        ensures room { refusal_room ≤ vec_capacity self.new.text }
        ensures out_cause { Blames (IsErr result) (K.faults out.old) (K.faults out.new) }
    {
        self.lines += 1;
        self.refuse(out)
    }

    // Answers a line that isn't too long.
    pub(crate) fn answer_line<D: Disk, K: Sink>(
        &mut self,
        line: &[u8],
        disk: &mut D,
        out: &mut K,
    ) -> Result<(), ServeFault>
        requires short { length line.now ≤ most_line }
        requires few { self.old.lines + 1 < 2 ^ 64 }
        requires room { refusal_room ≤ vec_capacity self.old.text }
        requires ready { IsReadyFor self.old.writer.session self.old.entries self.old.writer.appender (length line.now) }
        requires kept { IfSome (D.state disk.old).content
            (λ _. (head : Head) × (pairs : List RecordPair) × Keeps head pairs self.old.writer.appender (D.state disk.old)) }
        ensures answers { OnOk result (AnswersLine (self.old.lines + 1) line.now self.old.writer.session self.new.writer.session self.old.entries self.new.entries
            self.old.writer.appender self.new.writer.appender (D.state disk.old) (D.state disk.new)
            (output K.held K.calls K.faults out.old) (output K.held K.calls K.faults out.new)) }
        ensures counted { OnOk result (self.new.lines ≡ self.old.lines + 1) }
        ensures room { refusal_room ≤ vec_capacity self.new.text }
        ensures lengths { ReachesAtMost (self.old.writer.appender + (longest_stored_entry * length line.now + 1)) (D.state disk.old) (D.state disk.new) }
        ensures broken { IfErr result (BreaksLine (self.old.lines + 1) line.now self.old.writer.session self.old.entries self.old.writer.appender
            (D.state disk.old) (D.state disk.new) (output K.held K.calls K.faults out.old) (output K.held K.calls K.faults out.new)) }
        ensures disk_cause { Blames (result ≡ Err ServeFault.Disk) (D.state disk.old).faults (D.state disk.new).faults }
        ensures out_cause { Blames (result ≡ Err ServeFault.Write) (K.faults out.old) (K.faults out.new) }
    {
        self.lines += 1;
        let market = self.writer.session.market();
        match ask_line(self.alloc, line, market.version(), market.tickers()) {
            Ok(LineRead::Blank) => Ok(()),
            Ok(LineRead::Asks(command)) => self.answer_command(&command, disk, out),
            Ok(LineRead::Many(commands)) => self.answer_commands(commands.as_slice(), disk, out),
            Err(LineFault::NoCommand) => match self.refuse(out) {
                Ok(()) => Ok(()),
                Err(_) => Err(ServeFault::Write),
            },
            Err(LineFault::Memory) => Err(ServeFault::Memory),
        }
    }
}
