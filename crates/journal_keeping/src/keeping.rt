//! A journal that is kept on a disk while the records of a source are served.
ghost use Rattle.std.specs.Prelude.{◌≡◌, ◌≤◌, ◌+◌, ◌^◌, ℕ, List, length, Err, IfSome};
ghost use Rattle.flow_io.specs.Faults.{Blames};
ghost use Rattle.flow_io.specs.Streams.{TakesAtMost};
ghost use Rattle.wire_records.specs.Records.{Record};
ghost use Rattle.wire_records.specs.Commands.{Pair};
ghost use Rattle.flow_orders.specs.Outcomes.{Outcome};
ghost use Rattle.market_rules.specs.Market.{Market};
ghost use Rattle.market_history.specs.Histories.{Start};
ghost use Rattle.journal_disk.specs.Looking.{OnlyLooks};
ghost use Rattle.journal_keeping.specs.Starts.{source_starts};
ghost use Rattle.journal_keeping.specs.Keeping.{HoldsLegal};
ghost use Rattle.journal_keeping.specs.Outputs.{output};
ghost use Rattle.journal_keeping.specs.Dialogs.{ServesIn, record_dialog};
ghost use Rattle.journal_keeping.specs.Openings.{KeepNone};
ghost use Rattle.journal_keeping.specs.Making.{IsMadeAfterStart};
ghost use Rattle.journal_keeping.specs.Lengths.{most_input, longest_stored_entry, GrowsAtMost};
ghost use Rattle.journal_keeping.specs.Pacing.{KeepsPace, RunsOut};
ghost use Rattle.journal_keeping.specs.Ended.{ComesTo, IsRefusal, MayBeginAgain};

use crate::fault::{KeepFault, kept};
use crate::opening::begin;
use crate::records::Records;
use crate::taking::serve_on;
use disk_edge::Disk;
use flow_io::{Sink, Source};
use std::alloc::Global;

/// Serves the records of a command file after the entries that a disk keeps. The entry of each record is kept on the disk, and then
/// written to `out`, before the source is asked for more. A crash at any moment leaves on the disk the entries that were kept before, each
/// new one that was written to `out`, and at most one more; a later call continues with what it leaves. It leaves at most 263,183 bytes
/// for each byte of the source more than it might have left before, or than the 9 of a new disk.
///
/// First the disk is opened and its entries are audited, from the checkpoint in its first entry if there is one; then the source is
/// looked at, which has to be a command file of the disk's version. A new disk begins as its source does, which is a command file, or a
/// checkpoint and a command file of its version: the checkpoint becomes the first entry. So `NotDisk`, `Damaged` and `Rejected` come before
/// the source is asked and before anything is written, and leave what the disk holds. `Damaged` has the place of the first commit byte
/// that is missing, is set without a complete entry after it, or isn't set and has more than 2^21 bytes after it; `Rejected` has the number
/// of the first kept entry that isn't valid, counted from 1. A disk that isn't new and keeps no valid journal is never changed, whatever
/// the result; a new one isn't changed before the whole beginning of a source was taken. `NotFlow` leaves the entries that are kept.
/// `BadCheckpoint` comes on a new disk alone. At `Ok`, `Torn` and `TooLong` all complete records of the first `limit` bytes of the source
/// are served, kept and written. `Disk`, `Read` and `Write` come only if the count of faults of the disk, the source or `out` rose, which
/// stays as it was in every other case. `Memory` comes before anything is read from the source, for its checkpoint, or at a record that
/// may allocate.
///
/// The source is read no further than 1,030 bytes past the last record whose entry was written, or past its beginning; if a read of it
/// fails, all complete records that were taken are answered. In all at most one byte past the limit is taken.
///
/// Costs the audit of the kept entries, and for each record what serving it costs, two writes of the disk with a sync each, and one
/// write of `out`. Holds a window of the longest command record, and a buffer of the longest entry of a disk. A checkpoint is held once,
/// beside its market: that of a source until it is kept, and that of a disk until the audit begins. The limit is at most 2^40 bytes.
pub fn keep<S: Source, D: Disk, K: Sink>(
    alloc: Global,
    limit: u64,
    source: &mut S,
    disk: &mut D,
    out: &mut K,
) -> Result<(), KeepFault>
    requires few { limit ≤ most_input }
    ensures keeps { (begin : Start) (old : List (Pair Record Outcome)) (market : Market) → HoldsLegal (D.state disk.old) begin old market →
        ServesIn record_dialog limit (S.rest source.old) (result ≡ Err KeepFault.Write) begin (D.state disk.old) (D.state disk.new) old market
        (output K.held K.calls K.faults out.old) (output K.held K.calls K.faults out.new) }
    ensures again { (begin : Start) (old : List (Pair Record Outcome)) (market : Market) → HoldsLegal (D.state disk.old) begin old market →
        MayBeginAgain (D.state disk.old) (D.state disk.new) }
    ensures lengths { IfSome (D.state disk.old).content (λ _. GrowsAtMost longest_stored_entry limit (S.rest source.old) (D.state disk.old) (D.state disk.new)) }
    ensures comes { IfSome (D.state disk.old).content
        (λ held. ComesTo limit held (S.rest source.old) (D.state disk.new) (output K.held K.calls K.faults out.old) (output K.held K.calls K.faults out.new) result) }
    ensures legal { (begin : Start) (old : List (Pair Record Outcome)) (market : Market) → HoldsLegal (D.state disk.old) begin old market →
        IfSome (D.state disk.old).content (λ held. length held ≤ 2 ^ 60) → ¬ IsRefusal result }
    ensures untouched { IfSome (D.state disk.old).content
        (λ held. KeepNone held → OnlyLooks (D.state disk.old) (D.state disk.new) × (source.new ≡ source.old) × (out.new ≡ out.old)) }
    ensures made { IfSome (D.state disk.old).content
        (λ held. IsMadeAfterStart source_starts limit held (D.state disk.old) (D.state disk.new) (S.rest source.old) (S.rest source.new)) }
    ensures taken { TakesAtMost (S.rest source.old) (S.rest source.new) (limit + 1) }
    ensures paced { KeepsPace limit (S.rest source.old) (S.rest source.new) (output K.held K.calls K.faults out.old) (output K.held K.calls K.faults out.new) result }
    ensures allocates { result ≡ Err KeepFault.Memory → IfSome (D.state disk.old).content
        (λ held. RunsOut limit held (S.rest source.old) (S.rest source.new) (D.state disk.new)
        (output K.held K.calls K.faults out.old) (output K.held K.calls K.faults out.new)) }
    ensures unasked { IsRefusal result → (source.new ≡ source.old) × (out.new ≡ out.old) }
    ensures disk_cause { Blames (result ≡ Err KeepFault.Disk) (D.state disk.old).faults (D.state disk.new).faults }
    ensures source_cause { Blames (result ≡ Err KeepFault.Read) (S.faults source.old) (S.faults source.new) }
    ensures out_cause { Blames (result ≡ Err KeepFault.Write) (K.faults out.old) (K.faults out.new) }
{
    match begin::<Records, S, D>(alloc, limit, source, disk) {
        Ok(mut begun) => kept(serve_on(
            &mut begun.input.window,
            source,
            &mut begun.writer,
            disk,
            out,
        )),
        Err(fault) => Err(KeepFault::from(fault)),
    }
}
