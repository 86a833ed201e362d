//! Lines that are served and answered, while a journal is kept on a disk.
ghost use Rattle.std.specs.Prelude.{◌≡◌, ◌≤◌, ◌+◌, ◌*◌, ◌^◌, ℕ, List, length, map, Err, IfSome, vec_capacity};
ghost use Rattle.flow_io.specs.Faults.{Blames};
ghost use Rattle.flow_io.specs.Streams.{TakesAtMost};
ghost use Rattle.wire_records.specs.Records.{Record};
ghost use Rattle.wire_records.specs.Commands.{Pair};
ghost use Rattle.flow_orders.specs.Outcomes.{Outcome};
ghost use Rattle.journal_records.specs.Formats.{records_of};
ghost use Rattle.market_rules.specs.Market.{Market};
ghost use Rattle.market_history.specs.Histories.{Start};
ghost use Rattle.journal_disk.specs.Entries.{Keeps};
ghost use Rattle.journal_disk.specs.Looking.{OnlyLooks};
ghost use Rattle.journal_disk.specs.Lengths.{ReachesAtMost};
ghost use Rattle.journal_keeping.specs.Starts.{head_of};
ghost use Rattle.journal_keeping.specs.Keeping.{IsKeptJournal, HoldsLegal};
ghost use Rattle.journal_keeping.specs.Openings.{KeepNone};
ghost use Rattle.journal_keeping.specs.Lengths.{longest_stored_entry, most_input, GrowsAtMost, HasYetAtMost};
ghost use Rattle.journal_keeping.specs.Making.{IsMadeAfterStart};
ghost use Rattle.journal_keeping.specs.Ended.{IsRefusal, MayBeginAgain};
ghost use Rattle.journal_keeping.specs.Outputs.{output};
ghost use Rattle.journal_keeping.specs.Dialogs.{ServesIn};
ghost use Rattle.line_keeping.specs.Keeping.{line_dialog};
ghost use Rattle.line_keeping.specs.Ended.{ComesTo, LeavesNone};
ghost use Rattle.line_keeping.specs.Inputs.{line_starts};
ghost use Rattle.input_lines.specs.Finding.{IsOpen};
ghost use Rattle.line_keeping.specs.Private.{IsReadyToServe, AnswersOn};

use crate::answering::Desk;
use crate::opening::Lines;
use disk_edge::Disk;
use file_units::{Ending, TakeFault};
use flow_io::{Sink, Source, Window};
use input_lines::{Next, next_line};
use journal_keeping::{KeepFault, Ready, ServeFault, begin, kept};
use std::alloc::Global;

// Answers the lines of an input, from those that a window holds on.
fn serve_on<S: Source, D: Disk, K: Sink>(
    window: &mut Window,
    source: &mut S,
    desk: &mut Desk,
    disk: &mut D,
    out: &mut K,
) -> Result<Ending, TakeFault<ServeFault>>
    requires open { IsOpen window.old (S.rest source.old) }
    requires few { window.old.limit ≤ most_input }
    requires ready { IsReadyToServe desk.old.writer.session desk.old.entries desk.old.writer.appender (vec_capacity desk.old.text) }
    requires first { desk.old.lines ≡ 0 }
    requires kept { IfSome (D.state disk.old).content (λ _. (begin : Start) × (old : List (Pair Record Outcome))
        × IsKeptJournal begin old desk.old.writer.session × Keeps (head_of begin) (map records_of old) desk.old.writer.appender (D.state disk.old)) }
    ensures goes { AnswersOn window.old (S.rest source.old) (S.rest source.new) result desk.old.writer.session desk.old.entries desk.old.writer.appender
        (D.state disk.old) (D.state disk.new) (output K.held K.calls K.faults out.old) (output K.held K.calls K.faults out.new) }
    ensures lengths { (count : ℕ) → HasYetAtMost count window.old (S.rest source.old) →
        ReachesAtMost (desk.old.writer.appender + (longest_stored_entry * count + 1)) (D.state disk.old) (D.state disk.new) }
    ensures disk_cause { Blames (result ≡ Err (TakeFault.Broken ServeFault.Disk)) (D.state disk.old).faults (D.state disk.new).faults }
    ensures source_cause { Blames (result ≡ Err TakeFault.Read) (S.faults source.old) (S.faults source.new) }
    ensures out_cause { Blames (result ≡ Err (TakeFault.Broken ServeFault.Write)) (K.faults out.old) (K.faults out.new) }
{
    'lines: loop {
        let next = match next_line(window, source) {
            Ok(next) => next,
            Err(_) => return Err(TakeFault::Read),
        };
        match next {
            Next::Line(size) => {
                match desk.answer_line(&window.held()[..size], disk, out) {
                    Ok(()) => {}
                    Err(fault) => return Err(TakeFault::Broken(fault)),
                }
                window.advance(size + 1);
            }
            Next::Long => {
                // Called for its contract: the window holds no more than it has room for.
                let _held = window.held();
                match desk.answer_long(out) {
                    Ok(()) => {}
                    Err(_) => return Err(TakeFault::Broken(ServeFault::Write)),
                }
            }
            Next::Last => {
                return match desk.answer_line(window.held(), disk, out) {
                    Ok(()) => Ok(Ending::End),
                    Err(fault) => Err(TakeFault::Broken(fault)),
                };
            }
            Next::LongLast => {
                return match desk.answer_long(out) {
                    Ok(()) => Ok(Ending::End),
                    Err(_) => Err(TakeFault::Broken(ServeFault::Write)),
                };
            }
            Next::End => return Ok(Ending::End),
            Next::Limit => return Ok(Ending::TooLong),
        }
    }
}

/// Serves the lines of an input after the entries that a disk keeps. A line is what is before a line feed, or what is after the last one. Each command that a
/// line asks for, in the version and with the tickers of the market after the entries before it, is served; its entry is kept on the disk, and then the text
/// of the entry is written to `out`, as [`report_entry`](batch_report::report_entry) has it, under its number in the journal. A line that is neither blank nor
/// asks for a command, or has more than 65,536 bytes, is answered by `line N is no command` and a line feed, with its number in this input from 1; a blank one
/// isn't answered. Each answer is one write, before the source is asked for more.
///
/// A crash at any moment leaves on the disk the entries that were kept before, each new one whose text was written to `out`, and at most one more; a later
/// call continues with what it leaves. It leaves at most 263,183 bytes for each byte of the source more than it might have left before, or than the 9 of a
/// new disk.
///
/// First the disk is opened and its entries are audited; then it is seen whether the input begins with the eight bytes of a checkpoint's magic, which is
/// `NotFlow` for a disk that isn't new. A new disk begins with the checkpoint that is before the lines, or as one of the highest version; `BadCheckpoint` says
/// that its input begins with the magic and with no checkpoint of a consistent market. `NotDisk`, `Damaged` and `Rejected` are as for
/// [`keep`](journal_keeping::keep), and come before the source is asked. A disk that isn't new and keeps no valid journal is never changed; a new one isn't
/// changed before what was taken of the input shows what is before its lines.
///
/// At `Ok` and `TooLong` all lines of the first `limit` bytes are answered; what follows the last line feed within the limit is no line if there is more. At
/// `Read` all lines are answered that were complete in what was taken. `Disk`, `Read` and `Write` come only if the count of faults of the disk, the source or `out`
/// rose, which stays as it was in every other case; then the source was read no further than 65,538 bytes past the line at which it stopped. `Memory` comes before
/// anything is read, for the checkpoint, or at a line that is neither blank nor too long; all entries that are kept are then answered. Never returns `Torn`. The limit is at most
/// 2^40 bytes, of which at most one more is taken.
///
/// Costs the audit of the kept entries, the reading of each line, and for each command what serving its record costs, its text, two writes of the disk with a
/// sync each, and one write of `out`. Holds a window of 65,537 bytes, the longest entry of a disk, an entry and a text.
pub fn serve_lines<S: Source, D: Disk, K: Sink>(
    alloc: Global,
    limit: u64,
    source: &mut S,
    disk: &mut D,
    out: &mut K,
) -> Result<(), KeepFault>
    requires few { limit ≤ most_input }
    ensures keeps { (begin : Start) (old : List (Pair Record Outcome)) (market : Market) → HoldsLegal (D.state disk.old) begin old market →
        ServesIn line_dialog limit (S.rest source.old) (result ≡ Err KeepFault.Write) begin (D.state disk.old) (D.state disk.new) old market
        (output K.held K.calls K.faults out.old) (output K.held K.calls K.faults out.new) }
    ensures again { (begin : Start) (old : List (Pair Record Outcome)) (market : Market) → HoldsLegal (D.state disk.old) begin old market →
        MayBeginAgain (D.state disk.old) (D.state disk.new) }
    ensures lengths { IfSome (D.state disk.old).content (λ _. GrowsAtMost longest_stored_entry limit (S.rest source.old) (D.state disk.old) (D.state disk.new)) }
    ensures comes { IfSome (D.state disk.old).content (λ held. ComesTo limit held (S.rest source.old) (S.rest source.new) (D.state disk.new)
        (output K.held K.calls K.faults out.old) (output K.held K.calls K.faults out.new) result) }
    ensures legal { (begin : Start) (old : List (Pair Record Outcome)) (market : Market) → HoldsLegal (D.state disk.old) begin old market →
        IfSome (D.state disk.old).content (λ held. length held ≤ 2 ^ 60) → ¬ IsRefusal result }
    ensures untouched { IfSome (D.state disk.old).content
        (λ held. KeepNone held → OnlyLooks (D.state disk.old) (D.state disk.new) × (source.new ≡ source.old) × (out.new ≡ out.old)) }
    ensures made { IfSome (D.state disk.old).content
        (λ held. IsMadeAfterStart line_starts limit held (D.state disk.old) (D.state disk.new) (S.rest source.old) (S.rest source.new)) }
    ensures taken { TakesAtMost (S.rest source.old) (S.rest source.new) (limit + 1) }
    ensures left { LeavesNone result (S.rest source.new) }
    ensures unasked { IsRefusal result → (source.new ≡ source.old) × (out.new ≡ out.old) }
    ensures disk_cause { Blames (result ≡ Err KeepFault.Disk) (D.state disk.old).faults (D.state disk.new).faults }
    ensures source_cause { Blames (result ≡ Err KeepFault.Read) (S.faults source.old) (S.faults source.new) }
    ensures out_cause { Blames (result ≡ Err KeepFault.Write) (K.faults out.old) (K.faults out.new) }
{
    match begin::<Lines, S, D>(alloc, limit, source, disk) {
        Ok(Ready { input, writer }) => {
            let Lines { mut window, text } = input;
            let entries = writer.entries;
            let mut desk = Desk {
                alloc,
                writer,
                lines: 0,
                entries,
                text,
            };
            kept(serve_on(&mut window, source, &mut desk, disk, out))
        }
        Err(fault) => Err(KeepFault::from(fault)),
    }
}
