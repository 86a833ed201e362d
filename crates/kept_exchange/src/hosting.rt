//! The call that the program makes when asked to `host FILE`.
ghost use Rattle.std.specs.Prelude.{◌≤◌, List, IfSome};
ghost use Rattle.flow_io.specs.Changes.{change};
ghost use Rattle.wire_records.specs.Records.{Record};
ghost use Rattle.wire_records.specs.Commands.{Pair};
ghost use Rattle.flow_orders.specs.Outcomes.{Outcome};
ghost use Rattle.market_rules.specs.Market.{Market};
ghost use Rattle.market_history.specs.Histories.{Start};
ghost use Rattle.journal_disk.specs.Looking.{OnlyLooks};
ghost use Rattle.journal_keeping.specs.Keeping.{HoldsLegal};
ghost use Rattle.journal_keeping.specs.Openings.{KeepNone};
ghost use Rattle.journal_keeping.specs.Ended.{MayBeginAgain};
ghost use Rattle.journal_keeping.specs.Outputs.{output};
ghost use Rattle.exit_status.specs.Limits.{input_limit};
ghost use Rattle.kept_exchange.specs.Hosts.{HostsLines};

use crate::ending::hosted_status;
use desk_keeping::host_lines;
use disk_edge::Disk;
use exit_status::{INPUT_LIMIT, Status};
use flow_io::{Sink, Source};
use std::alloc::Global;

/// Does what [`flow_host`] does, with another limit of the input, which is at most 2^40 bytes.
pub fn flow_host_limited<S: Source, D: Disk, K: Sink, N: Sink>(
    alloc: Global,
    limit: u64,
    source: &mut S,
    disk: &mut D,
    out: &mut K,
    notes: &mut N,
) -> Status
    requires few { limit ≤ input_limit }
    ensures hosts { HostsLines limit result (D.state disk.old) (D.state disk.new) (change S.rest S.faults source.old source.new)
        (output K.held K.calls K.faults out.old) (output K.held K.calls K.faults out.new) (change N.held N.faults notes.old notes.new) }
    ensures untouched { IfSome (D.state disk.old).content (λ held. KeepNone held → OnlyLooks (D.state disk.old) (D.state disk.new)) }
    // What a crash leaves of a disk on which a call may begin is such a disk again, at any moment of the call and after it.
    ensures again { (was : Start) (old : List (Pair Record Outcome)) (market : Market) → HoldsLegal (D.state disk.old) was old market →
        MayBeginAgain (D.state disk.old) (D.state disk.new) }
{
    let ended = host_lines(alloc, limit, source, disk, out);
    let status = hosted_status(ended, limit);
    let _ = status.write_line(notes);
    status
}

/// Hosts the lines of many senders over a file, each an envelope in JSON with its sender: each line is answered to whom it concerns, and the commands of
/// lines are kept in the file before they are answered.
///
/// The disk is opened first. Then it is read from the source, at most 2^40 bytes, with what the lines begin: a checkpoint, or the line of a version. A new
/// disk gets the same beginning, and any other has to have it. Each command of the lines that follow is compared with the next entry of the disk, if it has
/// one more, and then only answered, as it was the first time; after the last of them each is served by the market after all entries before it, and kept.
/// The entries of all lines that are complete in one read are kept together, by two writes with a sync each, and then their texts are written to `out`, those
/// of a command by one write. So a crash at any moment takes nothing away of what was answered, and of those that are kept together it leaves all or none.
///
/// `NotFlow` says that the source begins with neither a checkpoint nor the line of a version, and `BadCheckpoint` that it begins with the magic of a checkpoint
/// but with no checkpoint of a consistent market; nothing is written then. `Differs` has the number, counted from 1, of the first entry of the disk that is valid
/// and isn't the one that the lines ask for, or 0 if the disk begins otherwise than the source. `Damaged` and `Rejected` may come once entries before
/// are answered, since the disk is read along with the lines. With none of these is the disk changed, and one that isn't new and keeps no valid journal is never
/// changed, whatever the status. The other statuses are those of [`flow_lines`](crate::flow_lines). With every status but `Done` one line is written to `notes`;
/// a fault of `notes` changes nothing.
///
/// Costs for each line what its reading and its answers cost, for each entry that the disk has an audit, and for each further command what `keep` costs, but for the
/// two syncs, which come once for all lines of a read. Memory is that of the market and 24 bytes for each account, a window of 262,145 bytes, at most 2^20 bytes of
/// entries and those of one line, and the texts of these.
pub fn flow_host<S: Source, D: Disk, K: Sink, N: Sink>(
    alloc: Global,
    source: &mut S,
    disk: &mut D,
    out: &mut K,
    notes: &mut N,
) -> Status
    ensures hosts { HostsLines input_limit result (D.state disk.old) (D.state disk.new) (change S.rest S.faults source.old source.new)
        (output K.held K.calls K.faults out.old) (output K.held K.calls K.faults out.new) (change N.held N.faults notes.old notes.new) }
    // A disk that isn't new and keeps no valid journal is never changed, whatever the status. Its entries before the first invalid one may be read along
    // with the lines, and answered.
    ensures untouched { IfSome (D.state disk.old).content (λ held. KeepNone held → OnlyLooks (D.state disk.old) (D.state disk.new)) }
    ensures again { (was : Start) (old : List (Pair Record Outcome)) (market : Market) → HoldsLegal (D.state disk.old) was old market →
        MayBeginAgain (D.state disk.old) (D.state disk.new) }
{
    flow_host_limited(alloc, INPUT_LIMIT, source, disk, out, notes)
}
