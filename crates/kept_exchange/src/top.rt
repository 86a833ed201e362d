//! The call that the program makes when asked to `keep FILE`.
ghost use Rattle.std.specs.Prelude.{◌≡◌, ◌≤◌, IfSome};
ghost use Rattle.flow_io.specs.Changes.{change};
ghost use Rattle.journal_disk.specs.Looking.{OnlyLooks};
ghost use Rattle.journal_keeping.specs.Starts.{source_starts};
ghost use Rattle.journal_keeping.specs.Outputs.{output};
ghost use Rattle.journal_keeping.specs.Openings.{KeepNone};
ghost use Rattle.journal_keeping.specs.Making.{IsMadeAfterStart};
ghost use Rattle.journal_keeping.specs.Lengths.{longest_stored_entry, GrowsAtMost};
ghost use Rattle.journal_keeping.specs.Pacing.{RunsOut};
ghost use Rattle.exit_status.specs.Limits.{input_limit};
ghost use Rattle.kept_exchange.specs.Keeping.{IsRefusal, ServesKeep, IsPaced};

use crate::ending::status_of;
use disk_edge::Disk;
use exit_status::{INPUT_LIMIT, Status};
use flow_io::{Sink, Source};
use journal_keeping::keep;
use std::alloc::Global;

/// Does what [`flow_disk`] does, with another limit of the input, which is at most 2^40 bytes.
pub fn flow_disk_limited<S: Source, D: Disk, K: Sink, N: Sink>(
    alloc: Global,
    limit: u64,
    source: &mut S,
    disk: &mut D,
    out: &mut K,
    notes: &mut N,
) -> Status
    requires few { limit ≤ input_limit }
    ensures serves { ServesKeep limit result (D.state disk.old) (D.state disk.new) (change S.rest S.faults source.old source.new)
        (output K.held K.calls K.faults out.old) (output K.held K.calls K.faults out.new) (change N.held N.faults notes.old notes.new) }
    ensures untouched { IfSome (D.state disk.old).content
        (λ held. KeepNone held → OnlyLooks (D.state disk.old) (D.state disk.new) × (source.new ≡ source.old) × (out.new ≡ out.old)) }
    ensures made { IfSome (D.state disk.old).content
        (λ held. IsMadeAfterStart source_starts limit held (D.state disk.old) (D.state disk.new) (S.rest source.old) (S.rest source.new)) }
    ensures lengths { IfSome (D.state disk.old).content (λ _. GrowsAtMost longest_stored_entry limit (S.rest source.old) (D.state disk.old) (D.state disk.new)) }
    ensures paced { IsPaced limit result (change S.rest S.faults source.old source.new)
        (output K.held K.calls K.faults out.old) (output K.held K.calls K.faults out.new) }
    ensures allocates { result ≡ Status.NoMemory → IfSome (D.state disk.old).content
        (λ held. RunsOut limit held (S.rest source.old) (S.rest source.new) (D.state disk.new)
        (output K.held K.calls K.faults out.old) (output K.held K.calls K.faults out.new)) }
    // If the disk is refused, nothing is read from the source, and nothing is written to `out`.
    ensures idle { IsRefusal result → (source.new ≡ source.old) × (out.new ≡ out.old) }
{
    let ended = keep(alloc, limit, source, disk, out);
    let status = status_of(ended, limit);
    let _ = status.write_line(notes);
    status
}

/// Serves a command file and keeps its journal on a disk, after the entries that the disk keeps already.
///
/// The disk is opened first, its entries are read and audited, and what a crash left after them is cut off. Then the command file is read
/// from the source, at most 2^40 bytes; it has to be of the version of the disk. A new disk begins as its source does, which is read up to
/// the first record before anything is written to the disk: with a checkpoint as its first entry, if one is before the command file.
/// Each record is served by the market after all entries before it. Its entry is put onto the disk by two writes, each with a sync, and
/// only then written to `out`, by one write, before the source is asked for more; no magic is written to `out`. So a crash at any moment
/// takes nothing away of what was written to `out`, and leaves at most one entry more.
///
/// A disk is new if it has at most 9 bytes, or begins with one of the magics and its first commit byte isn't set. `BadCheckpoint` says that
/// it is new, and the source begins with the magic of a checkpoint but with no checkpoint of a consistent market; nothing is written then.
///
/// `NotDisk` says that the disk holds something else: more than 9 bytes that begin with none of its magics, or more than 2^60. `Damaged`
/// has the place, in bytes from 0, of the first commit byte that is missing, is set without a complete entry after it, or isn't set and has
/// more than 2^21 bytes after it; `Rejected` has the number of the first kept entry that isn't valid, counted from 1. None of these comes
/// of a crash. A disk that isn't new and keeps no valid journal is never changed, whatever the status. `DiskFault` comes only if a call of
/// the disk failed; the disk has to be opened again then. The other statuses are those of `run`, but a source of another version than the
/// disk is `NotFlow` too, and so is one that begins with a checkpoint, if the disk isn't new. With every status but `Done` one line is
/// written to `notes`; a fault of `notes` changes nothing.
///
/// The source is read no further than 1,030 bytes past the last record whose entry was written, or past its beginning, and at most one byte
/// past the limit; if a read of it fails, all complete records that were taken are answered. `NoMemory` comes before it is read, while its
/// checkpoint is read, or at a record that may allocate.
///
/// Costs the audit of the kept entries, and for each record what `run` costs and the two syncs. Memory is that of the market, a window of
/// 1,029 bytes and the longest entry, 263,183 bytes; while a checkpoint is read also that of its bytes.
pub fn flow_disk<S: Source, D: Disk, K: Sink, N: Sink>(
    alloc: Global,
    source: &mut S,
    disk: &mut D,
    out: &mut K,
    notes: &mut N,
) -> Status
    ensures serves { ServesKeep input_limit result (D.state disk.old) (D.state disk.new) (change S.rest S.faults source.old source.new)
        (output K.held K.calls K.faults out.old) (output K.held K.calls K.faults out.new) (change N.held N.faults notes.old notes.new) }
    // A disk that keeps no valid journal, since it is no kept file, is damaged, or has an entry that isn't valid, is never changed, whatever
    // the status, and nothing is read or written then.
    ensures untouched { IfSome (D.state disk.old).content
        (λ held. KeepNone held → OnlyLooks (D.state disk.old) (D.state disk.new) × (source.new ≡ source.old) × (out.new ≡ out.old)) }
    // A new disk is never changed, whatever the status, unless the whole beginning of a source was taken: the magic of a command file, or a
    // checkpoint and the magic after it.
    ensures made { IfSome (D.state disk.old).content
        (λ held. IsMadeAfterStart source_starts input_limit held (D.state disk.old) (D.state disk.new) (S.rest source.old) (S.rest source.new)) }
    // At each moment a crash leaves at most 263,183 bytes for each byte of the source more than it might have left at the start, or than the
    // 9 of a new disk. So if that was at most 2^59, and the source has at most 2^40 bytes, what it leaves has at most 2^60.
    ensures lengths { IfSome (D.state disk.old).content (λ _. GrowsAtMost longest_stored_entry input_limit (S.rest source.old) (D.state disk.old) (D.state disk.new)) }
    // How far was read, if something failed or memory ran out.
    ensures paced { IsPaced input_limit result (change S.rest S.faults source.old source.new)
        (output K.held K.calls K.faults out.old) (output K.held K.calls K.faults out.new) }
    // Memory runs out before anything is read or written, for a checkpoint of the source, or at a record that may allocate.
    ensures allocates { result ≡ Status.NoMemory → IfSome (D.state disk.old).content
        (λ held. RunsOut input_limit held (S.rest source.old) (S.rest source.new) (D.state disk.new)
        (output K.held K.calls K.faults out.old) (output K.held K.calls K.faults out.new)) }
    ensures idle { IsRefusal result → (source.new ≡ source.old) × (out.new ≡ out.old) }
{
    flow_disk_limited(alloc, INPUT_LIMIT, source, disk, out, notes)
}
