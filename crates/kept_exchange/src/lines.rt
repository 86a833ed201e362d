//! The call that the program makes when asked to `serve FILE`.
ghost use Rattle.std.specs.Prelude.{◌≡◌, ◌≤◌, IfSome};
ghost use Rattle.flow_io.specs.Changes.{change};
ghost use Rattle.journal_disk.specs.Looking.{OnlyLooks};
ghost use Rattle.journal_keeping.specs.Openings.{KeepNone};
ghost use Rattle.journal_keeping.specs.Making.{IsMadeAfterStart};
ghost use Rattle.journal_keeping.specs.Lengths.{longest_stored_entry, GrowsAtMost};
ghost use Rattle.journal_keeping.specs.Outputs.{output};
ghost use Rattle.line_keeping.specs.Inputs.{line_starts};
ghost use Rattle.exit_status.specs.Limits.{input_limit};
ghost use Rattle.kept_exchange.specs.Keeping.{IsRefusal};
ghost use Rattle.kept_exchange.specs.Lines.{ServesLines};

use crate::ending::status_of;
use disk_edge::Disk;
use exit_status::{INPUT_LIMIT, Status};
use flow_io::{Sink, Source};
use line_keeping::serve_lines;
use std::alloc::Global;

/// Does what [`flow_lines`] does, with another limit of the input, which is at most 2^40 bytes.
pub fn flow_lines_limited<S: Source, D: Disk, K: Sink, N: Sink>(
    alloc: Global,
    limit: u64,
    source: &mut S,
    disk: &mut D,
    out: &mut K,
    notes: &mut N,
) -> Status
    requires few { limit ≤ input_limit }
    ensures serves { ServesLines limit result (D.state disk.old) (D.state disk.new) (change S.rest S.faults source.old source.new)
        (output K.held K.calls K.faults out.old) (output K.held K.calls K.faults out.new) (change N.held N.faults notes.old notes.new) }
    ensures untouched { IfSome (D.state disk.old).content
        (λ held. KeepNone held → OnlyLooks (D.state disk.old) (D.state disk.new) × (source.new ≡ source.old) × (out.new ≡ out.old)) }
    ensures made { IfSome (D.state disk.old).content
        (λ held. IsMadeAfterStart line_starts limit held (D.state disk.old) (D.state disk.new) (S.rest source.old) (S.rest source.new)) }
    ensures lengths { IfSome (D.state disk.old).content (λ _. GrowsAtMost longest_stored_entry limit (S.rest source.old) (D.state disk.old) (D.state disk.new)) }
    // If the disk is refused, nothing is read from the source, and nothing is written to `out`.
    ensures idle { IsRefusal result → (source.new ≡ source.old) × (out.new ≡ out.old) }
{
    let ended = serve_lines(alloc, limit, source, disk, out);
    let status = status_of(ended, limit);
    let _ = status.write_line(notes);
    status
}

/// Serves lines of JSON and keeps their journal on a disk, after the entries that the disk keeps already. Each command of a line, as `encode` reads it with
/// the market's tickers, is served and kept as by `keep`, and answered with the text that `report` has of its entry.
///
/// The disk is opened first, as by [`flow_disk`](crate::flow_disk). Then it is read from the source, at most 2^40 bytes, whether a checkpoint is before the
/// lines, which a new disk gets as its first entry, and which is `NotFlow` for any other; a new disk without one is of the highest version. The commands
/// of each line are served by the market after all entries before them. The entry of each is put onto the disk by two writes, each with a sync, and only then
/// its text is written to `out`, by one write. A line that is neither blank nor a command, or too long, is answered by `line N is no command`, and the next one
/// is read. All this comes before the source is asked for more. So a crash at any moment takes nothing away of what was answered, and leaves at most one
/// entry more.
///
/// The statuses are those of [`flow_disk`](crate::flow_disk), without `Torn`. With every status but `Done` one line is written to `notes`; a fault of `notes`
/// changes nothing. `ReadFault` comes after all lines are answered that were complete. `NoMemory` comes before the source is read, for a checkpoint, or at a line
/// that is neither blank nor too long.
///
/// Costs the audit of the kept entries, the reading of each line, and for each command what `keep` costs and its text. Memory is that of the market, a window
/// of 65,537 bytes, the longest entry, 263,183 bytes, and the longest text.
pub fn flow_lines<S: Source, D: Disk, K: Sink, N: Sink>(
    alloc: Global,
    source: &mut S,
    disk: &mut D,
    out: &mut K,
    notes: &mut N,
) -> Status
    ensures serves { ServesLines input_limit result (D.state disk.old) (D.state disk.new) (change S.rest S.faults source.old source.new)
        (output K.held K.calls K.faults out.old) (output K.held K.calls K.faults out.new) (change N.held N.faults notes.old notes.new) }
    // A disk that keeps no valid journal is never changed, whatever the status, and nothing is read or written then.
    ensures untouched { IfSome (D.state disk.old).content
        (λ held. KeepNone held → OnlyLooks (D.state disk.old) (D.state disk.new) × (source.new ≡ source.old) × (out.new ≡ out.old)) }
    // A new disk is never changed, whatever the status, unless what was taken of the input shows what is before its lines.
    ensures made { IfSome (D.state disk.old).content
        (λ held. IsMadeAfterStart line_starts input_limit held (D.state disk.old) (D.state disk.new) (S.rest source.old) (S.rest source.new)) }
    // At each moment a crash leaves at most 263,183 bytes for each byte of the source more than it might have left at the start, or than the
    // 9 of a new disk. So if that was at most 2^59, and the source has at most 2^40 bytes, what it leaves has at most 2^60.
    ensures lengths { IfSome (D.state disk.old).content (λ _. GrowsAtMost longest_stored_entry input_limit (S.rest source.old) (D.state disk.old) (D.state disk.new)) }
    ensures idle { IsRefusal result → (source.new ≡ source.old) × (out.new ≡ out.old) }
{
    flow_lines_limited(alloc, INPUT_LIMIT, source, disk, out, notes)
}
