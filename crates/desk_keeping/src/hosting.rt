//! Hosts the lines of an input.
ghost use Rattle.std.specs.Prelude.{◌≡◌, ◌≤◌, ◌+◌, ℕ, List, Option, Err, IfSome};
ghost use Rattle.flow_io.specs.Faults.{Blames};
ghost use Rattle.flow_io.specs.Streams.{TakesAtMost};
ghost use Rattle.wire_records.specs.Records.{Record};
ghost use Rattle.wire_records.specs.Commands.{Pair};
ghost use Rattle.flow_orders.specs.Outcomes.{Outcome};
ghost use Rattle.market_rules.specs.Market.{Market};
ghost use Rattle.market_history.specs.Histories.{Start};
ghost use Rattle.journal_disk.specs.Looking.{OnlyLooks};
ghost use Rattle.journal_keeping.specs.Keeping.{HoldsLegal};
ghost use Rattle.journal_keeping.specs.Lengths.{most_input};
ghost use Rattle.journal_keeping.specs.Openings.{KeepNone};
ghost use Rattle.journal_keeping.specs.Outputs.{output};
ghost use Rattle.desk_opening.specs.Openings.{IsNoBook};
ghost use Rattle.desk_keeping.specs.Hosting.{ComesTo, HostsIn, HasTakenBeginning, IsMadeAfterBeginning, IsOfFile};
ghost use Rattle.desk_keeping.specs.Private.{IsLeftAlone, IsHosting};

use crate::fault::HostFault;
use crate::host::Host;
use desk_lines::MOST_ENVELOPE;
use desk_opening::{Opened, open_desk};
use desk_session::DeskSession;
use disk_edge::Disk;
use flow_io::{Sink, Source, Window};
use input_lines::{Next, next_line_within};
use memchr::memchr;
use std::alloc::Global;

// Hosts the lines of an input, from those that a window holds on. What holds since the opening goes on: whatever the disk, the input and the output were then.
fn host_on<S: Source, D: Disk, K: Sink>(
    limit: u64,
    window: &mut Window,
    source: &mut S,
    host: &mut Host,
    disk: &mut D,
    out: &mut K,
) -> Result<(), HostFault>
    requires few { limit ≤ most_input }
    requires hosting { (was : D) × (content : Option (List ℕ)) × (first : K) × IsHosting limit content (S.rest source.old) (D.state was) (D.state disk.old)
        (output K.held K.calls K.faults first) (output K.held K.calls K.faults out.old) window.old host.old }
    ensures keeps { (was : D) (content : Option (List ℕ)) (first : K) → IsHosting limit content (S.rest source.old) (D.state was) (D.state disk.old)
        (output K.held K.calls K.faults first) (output K.held K.calls K.faults out.old) window.old host.old →
        (begin : Start) (old : List (Pair Record Outcome)) (market : Market) → HoldsLegal (D.state was) begin old market →
        HostsIn limit content (result ≡ Err HostFault.Write) begin (D.state was) (D.state disk.new) old market
        (output K.held K.calls K.faults first) (output K.held K.calls K.faults out.new) }
    ensures comes { (was : D) (content : Option (List ℕ)) (first : K) → IsHosting limit content (S.rest source.old) (D.state was) (D.state disk.old)
        (output K.held K.calls K.faults first) (output K.held K.calls K.faults out.old) window.old host.old →
        IfSome (D.state was).content (λ held. ComesTo limit held content (S.rest source.new) (D.state was) (D.state disk.new)
        (output K.held K.calls K.faults first) (output K.held K.calls K.faults out.new) result) }
    ensures taken { (was : D) (content : Option (List ℕ)) (first : K) → IsHosting limit content (S.rest source.old) (D.state was) (D.state disk.old)
        (output K.held K.calls K.faults first) (output K.held K.calls K.faults out.old) window.old host.old →
        TakesAtMost content (S.rest source.new) (limit + 1) × HasTakenBeginning limit content (S.rest source.new) }
    ensures untouched { (was : D) (content : Option (List ℕ)) (first : K) → IsHosting limit content (S.rest source.old) (D.state was) (D.state disk.old)
        (output K.held K.calls K.faults first) (output K.held K.calls K.faults out.old) window.old host.old → IsLeftAlone (D.state was) (D.state disk.new) }
    ensures disk_cause { Blames (result ≡ Err HostFault.Disk) (D.state disk.old).faults (D.state disk.new).faults }
    ensures source_cause { Blames (result ≡ Err HostFault.Read) (S.faults source.old) (S.faults source.new) }
    ensures out_cause { Blames (result ≡ Err HostFault.Write) (K.faults out.old) (K.faults out.new) }
{
    'lines: loop {
        let is_last = memchr(b'\n', window.held()).is_none();
        match host.settle(is_last, disk, out) {
            Ok(()) => {}
            Err(fault) => return Err(fault),
        }
        let next = match next_line_within(window, source, MOST_ENVELOPE) {
            Ok(next) => next,
            Err(_) => return Err(HostFault::Read),
        };
        match next {
            Next::Line(size) => {
                match host.hear(&window.held()[..size], disk) {
                    Ok(()) => {}
                    Err(fault) => return Err(host.stop(fault, out)),
                }
                match host.end_line(disk, out) {
                    Ok(()) => {}
                    Err(fault) => return Err(fault),
                }
                window.advance(size + 1);
            }
            Next::Long => match host.answer_long() {
                Ok(()) => {}
                Err(_) => return Err(HostFault::Memory),
            },
            Next::Limit => return Err(HostFault::TooLong),
            Next::Last => return Ok(()),
            Next::LongLast => return Ok(()),
            Next::End => return Ok(()),
        }
    }
}

/// Hosts the lines of many senders, over a disk that is read along with them first and then gets more.
///
/// An input begins with a checkpoint, or with the line of a version, and so has the disk, if it isn't new; a new one is made one that begins so. Then each line
/// that a line feed ends is heard: who sent it, whether it counts, and what its sender may ask for. Each of its commands gets an entry: the next one that the
/// disk kept before, which has to be valid and of just this command, or, once there are no more, one that is served by the canonical rule and kept. The answers
/// of a line are written to `out` once its entries are kept, each text by one call.
///
/// The entries of all lines that are complete in one read are kept together, by two writes with a sync each, but a group ends at a batch, and before a line with
/// which it would have more than 2^20 bytes. So a crash at any moment leaves the old entries, and of the others those that were answered, and all of the last
/// group or none of it: whole lines.
///
/// The disk is opened first, up to its first entry: `NotDisk`, and `Damaged` at byte 8, say that it is none of a journal, or that this entry is neither complete
/// nor the checkpoint of a consistent market, and of such a disk nothing is read of the input. `NotFlow` and `BadCheckpoint` say how the input begins, and
/// `Differs` with 0 that the disk begins otherwise. None of them changes the disk or writes anything. `Damaged`, `Rejected` and `Differs` with an entry's number
/// come where a command asks for that entry; all that was taken from the entries before it is answered then, and the disk isn't changed. A disk that isn't new
/// and keeps no valid journal is never changed, whatever the result, and a new one only once the beginning of the input was taken. At `Ok` and `TooLong` all
/// lines of the first `limit` bytes are answered, and at `Read` all that were complete in what was taken. At most one byte past the limit is taken, which says
/// that there are more. `Disk`, `Read` and `Write` come only if the count of faults of the disk, the input or `out` rose. `Memory` may come at any time. The
/// limit is at most 2^40 bytes.
///
/// Costs the reading of each line, for each command what serving it or auditing its entry costs, its texts, and for each group two syncs. Holds a window of
/// 262,145 bytes, the entries of a group and of a line, and their texts.
pub fn host_lines<S: Source, D: Disk, K: Sink>(
    alloc: Global,
    limit: u64,
    source: &mut S,
    disk: &mut D,
    out: &mut K,
) -> Result<(), HostFault>
    requires few { limit ≤ most_input }
    ensures keeps { (was : Start) (old : List (Pair Record Outcome)) (market : Market) → HoldsLegal (D.state disk.old) was old market →
        HostsIn limit (S.rest source.old) (result ≡ Err HostFault.Write) was (D.state disk.old) (D.state disk.new) old market
        (output K.held K.calls K.faults out.old) (output K.held K.calls K.faults out.new) }
    ensures comes { IfSome (D.state disk.old).content (λ held. ComesTo limit held (S.rest source.old) (S.rest source.new) (D.state disk.old) (D.state disk.new)
        (output K.held K.calls K.faults out.old) (output K.held K.calls K.faults out.new) result) }
    ensures refuses { IfSome (D.state disk.old).content (λ held. IsNoBook held → IsOfFile result × (source.new ≡ source.old) × (out.new ≡ out.old)) }
    ensures untouched { IfSome (D.state disk.old).content (λ held. KeepNone held → OnlyLooks (D.state disk.old) (D.state disk.new)) }
    ensures made { IfSome (D.state disk.old).content (λ held. IsMadeAfterBeginning limit held (D.state disk.old) (D.state disk.new) (S.rest source.old) (S.rest source.new)) }
    ensures taken { TakesAtMost (S.rest source.old) (S.rest source.new) (limit + 1) }
    ensures disk_cause { Blames (result ≡ Err HostFault.Disk) (D.state disk.old).faults (D.state disk.new).faults }
    ensures source_cause { Blames (result ≡ Err HostFault.Read) (S.faults source.old) (S.faults source.new) }
    ensures out_cause { Blames (result ≡ Err HostFault.Write) (K.faults out.old) (K.faults out.new) }
{
    let Opened {
        market,
        book,
        mut window,
    } = match open_desk(alloc, limit, MOST_ENVELOPE, source, disk) {
        Ok(opened) => opened,
        Err(fault) => return Err(HostFault::from(fault)),
    };
    let session = match DeskSession::over(alloc, market) {
        Ok(session) => session,
        Err(_) => return Err(HostFault::Memory),
    };
    let mut host = Host::new(alloc, session, book);
    host_on(limit, &mut window, source, &mut host, disk, out)
}
