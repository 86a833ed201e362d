//! Serves records one after the other, and keeps their entries on a disk.
//!
//! The loop is this module's own. That of `file_units` takes what is done with a unit as a trait whose ghost states are in `Type 0`,
//! but the state of a disk, with the sets of images that a crash may leave, is in `Type 1`.
ghost use Rattle.std.specs.Prelude.{◌≡◌, ◌≢◌, ◌≤◌, ◌<◌, ◌+◌, ◌-◌, ◌*◌, ◌^◌, ◌⊎◌, ◌++◌, ℕ, List, [], ◌∷◌, length, map, Some, None, Err, IsErr, IfSome, IsSome, IfOk, IfErr, OnOk, OnErr, vec_capacity, ⊤};
ghost use Rattle.flow_io.specs.Faults.{Blames};
ghost use Rattle.flow_io.specs.Windows.{Fills, IsWithin};
ghost use Rattle.flow_io.specs.declared.window.InputEnd.TheVariants.{Source as source_end, Limit as limit_end};
ghost use Rattle.wire_records.specs.Records.{Record, AreBytes};
ghost use Rattle.wire_records.specs.Commands.{Pair};
ghost use Rattle.wire_records.specs.Formats.{commands};
ghost use Rattle.flow_orders.specs.Outcomes.{Outcome};
ghost use Rattle.journal_records.specs.Pairs.{longest_plain_pair};
ghost use Rattle.journal_records.specs.Formats.{records_of};
ghost use Rattle.file_units.specs.Units.{StaysReady};
ghost use Rattle.file_units.specs.Inputs.{HasLongest};
ghost use Rattle.market_history.specs.Histories.{Start};
ghost use Rattle.disk_edge.specs.Disks.{AtEachMoment};
ghost use Rattle.journal_disk.specs.Pairs.{RecordPair, IsRecordPair, pair_bytes, IsWholePair};
ghost use Rattle.journal_disk.specs.Entries.{Head, WithOrWithout, Keeps};
ghost use Rattle.journal_disk.specs.Lengths.{ReachesAtMost};
ghost use Rattle.journal_keeping.specs.Starts.{head_of};
ghost use Rattle.journal_keeping.specs.Keeping.{IsKeptJournal};
ghost use Rattle.journal_keeping.specs.Lengths.{longest_stored_entry, HasYetAtMost};
ghost use Rattle.journal_keeping.specs.Outputs.{output, Gains};
ghost use Rattle.journal_keeping.specs.Private.{IsReady, IsTakenNext, IsStill, BreaksNext, ServesOn};

use crate::fault::ServeFault;
use disk_edge::Disk;
use exchange_session::Session;
use file_units::{Ending, Prefix, TakeFault};
use flow_io::{Filled, ReadFailed, Sink, Source, Window};
use journal_disk::Appender;

/// Serves records with its session, and keeps their entries with its appender.
pub struct Writer {
    /// The market after the entries that are kept.
    pub session: Session,
    /// Keeps more entries on the disk.
    pub appender: Appender,
    /// How many entries the disk kept when it was opened. It isn't counted on: who numbers later entries counts them.
    pub entries: u64,
    /// One buffer for all entries.
    pub pair: Vec<u8>,
}

impl Drop for Writer {
    // By hand, so that the end of a value is one call in the proofs of those who own it (docs/PROVING_TRAPS.md).
    fn drop(self) {
        let Writer {
            session: _,
            appender: _,
            entries: _,
            pair: _,
        } = self;
    }
}

/// Keeps an entry on the disk, and then writes its text to `out`, by one write. `Disk` and `Write` come only if the count of faults of the disk or of `out`
/// rose; at `Disk` nothing was written, and at `Write` the entry is kept. Costs two writes of the disk with a sync each, and one write of `out`.
pub fn keep_entry<D: Disk, K: Sink>(
    appender: &mut Appender,
    pair: &[u8],
    text: &[u8],
    disk: &mut D,
    out: &mut K,
) -> Result<(), ServeFault>
    requires pair { IsWholePair pair.now }
    requires room { appender.old ≤ 2 ^ 61 }
    requires kept { IfSome (D.state disk.old).content
        (λ _. (head : Head) × (pairs : List RecordPair) × Keeps head pairs appender.old (D.state disk.old)) }
    ensures kept { result ≢ Err ServeFault.Disk → (head : Head) (pairs : List RecordPair) (last : RecordPair) →
        Keeps head pairs appender.old (D.state disk.old) → IsRecordPair last → pair.now ≡ pair_bytes last →
        Keeps head (pairs ++ last ∷ []) appender.new (D.state disk.new) }
    ensures moments { (head : Head) (pairs : List RecordPair) (last : RecordPair) →
        Keeps head pairs appender.old (D.state disk.old) → IsRecordPair last → pair.now ≡ pair_bytes last →
        AtEachMoment (D.state disk.old) (D.state disk.new) (WithOrWithout head pairs (last ∷ [])) }
    ensures lengths { ReachesAtMost (appender.old + (6 + length pair.now)) (D.state disk.old) (D.state disk.new) }
    ensures told { result ≢ Err ServeFault.Disk → IsSome (D.state disk.new).content → IsSome (D.state disk.old).content }
    ensures place { OnOk result (appender.new ≡ appender.old + (5 + length pair.now)) }
    ensures gained { OnOk result (Gains ⊥ (output K.held K.calls K.faults out.old) (output K.held K.calls K.faults out.new) (text.now ∷ [])) }
    ensures cut { result ≡ Err ServeFault.Write → Gains ⊤ (output K.held K.calls K.faults out.old) (output K.held K.calls K.faults out.new) (text.now ∷ []) }
    ensures unasked { result ≡ Err ServeFault.Disk → out.new ≡ out.old }
    ensures refused { IfErr result (λ fault. (fault ≡ ServeFault.Disk) ⊎ (fault ≡ ServeFault.Write)) }
    ensures disk_cause { Blames (result ≡ Err ServeFault.Disk) (D.state disk.old).faults (D.state disk.new).faults }
    ensures out_cause { Blames (result ≡ Err ServeFault.Write) (K.faults out.old) (K.faults out.new) }
{
    match appender.append(disk, pair) {
        Ok(()) => match out.write(text) {
            Ok(()) => Ok(()),
            Err(_) => Err(ServeFault::Write),
        },
        Err(_) => Err(ServeFault::Disk),
    }
}

// Serves the first record of the bytes, if it is complete, keeps its entry, and then writes it.
fn keep_next<D: Disk, K: Sink>(
    writer: &mut Writer,
    bytes: &[u8],
    disk: &mut D,
    out: &mut K,
) -> Result<Prefix, ServeFault>
    requires ready { (left : ℕ) × (length bytes.now ≤ left) × IsReady writer.old.session writer.old.appender left }
    requires room { longest_plain_pair ≤ vec_capacity writer.old.pair }
    requires kept { IfSome (D.state disk.old).content
        (λ _. (head : Head) × (pairs : List RecordPair) × Keeps head pairs writer.old.appender (D.state disk.old)) }
    ensures taken { IfOk result (λ prefix. IsTakenNext prefix bytes.now writer.old.session writer.new.session
        writer.old.appender writer.new.appender (D.state disk.old) (D.state disk.new)
        (output K.held K.calls K.faults out.old) (output K.held K.calls K.faults out.new)) }
    ensures room { vec_capacity writer.old.pair ≤ vec_capacity writer.new.pair }
    ensures still { IfOk result (λ prefix. IsStill prefix ((writer.new.session ≡ writer.old.session)
        × (writer.new.appender ≡ writer.old.appender) × (disk.new ≡ disk.old) × (out.new ≡ out.old))) }
    ensures stays { IfOk result (λ prefix. (left : ℕ) → length bytes.now ≤ left → IsReady writer.old.session writer.old.appender left →
        StaysReady (IsReady writer.new.session writer.new.appender) prefix left) }
    ensures places { IfOk result (λ prefix. (left most : ℕ) → length bytes.now ≤ left → writer.old.appender + longest_stored_entry * left ≤ most →
        StaysReady (λ yet. writer.new.appender + longest_stored_entry * yet ≤ most) prefix left) }
    ensures lengths { (left : ℕ) → length bytes.now ≤ left →
        ReachesAtMost (writer.old.appender + longest_stored_entry * left + 1) (D.state disk.old) (D.state disk.new) }
    ensures broken { IfErr result (BreaksNext bytes.now writer.old.session writer.old.appender writer.new.appender
        (D.state disk.old) (D.state disk.new) (output K.held K.calls K.faults out.old) (output K.held K.calls K.faults out.new) (disk.new ≡ disk.old)) }
    ensures disk_cause { Blames (result ≡ Err ServeFault.Disk) (D.state disk.old).faults (D.state disk.new).faults }
    ensures out_cause { Blames (result ≡ Err ServeFault.Write) (K.faults out.old) (K.faults out.new) }
{
    writer.pair.clear();
    match writer.session.serve_next(bytes, &mut writer.pair) {
        Ok(Prefix::Taken(taken)) => match keep_entry(
            &mut writer.appender,
            &writer.pair,
            &writer.pair,
            disk,
            out,
        ) {
            Ok(()) => Ok(Prefix::Taken(taken)),
            Err(fault) => Err(fault),
        },
        Ok(Prefix::NoBytes) => Ok(Prefix::NoBytes),
        Ok(Prefix::Overlong) => Ok(Prefix::Overlong),
        Ok(Prefix::Short) => Ok(Prefix::Short),
        Err(_) => Err(ServeFault::Memory),
    }
}

// Returns the bytes that a window holds, and states as a clause what their type says of them.
fn bytes_of(held: &[u8]) -> &[u8]
    ensures value { result.now ≡ held.now }
    ensures bytes { AreBytes held.now }
{
    held
}

// Reads more bytes after the held ones, of which there are fewer than the window's room.
fn read_on<S: Source>(window: &mut Window, source: &mut S) -> Result<Filled, ReadFailed>
    requires room { length window.old.held < window.old.room }
    requires same { window.old.over ≡ Some source_end → IfSome (S.rest source.old) (λ left. left ≡ []) }
    ensures fills { Fills window.old window.new (S.rest source.old) (S.rest source.new) }
    ensures more { IfOk result (λ filled. filled ≡ Filled.Enough → (length window.old.held < length window.new.held) × (window.new.over ≡ window.old.over)) }
    ensures limited { IfOk result (λ filled. filled ≡ Filled.Limited → (window.new.held ≡ window.old.held) × (window.new.over ≡ Some limit_end)) }
    ensures ended { IfOk result (λ filled. filled ≡ Filled.Ended → (window.new.held ≡ window.old.held) × (window.new.over ≡ Some source_end)) }
    ensures all { window.new.over ≡ Some source_end → IfSome (S.rest source.new) (λ left. left ≡ []) }
    ensures within { IsWithin window.new.place (length window.new.held) window.new.limit window.new.over }
    ensures failed { OnErr result ((window.new.held ≡ window.old.held) × (window.new.over ≡ None)) }
    ensures cause { Blames (IsErr result) (S.faults source.old) (S.faults source.new) }
{
    let want = window.held().len() + 1;
    window.fill(source, want)
}

// Serves the records of a source, from those that a window holds on. Each one's entry is kept, and then written, before the source
// is asked for more.
pub(crate) fn serve_on<S: Source, D: Disk, K: Sink>(
    window: &mut Window,
    source: &mut S,
    writer: &mut Writer,
    disk: &mut D,
    out: &mut K,
) -> Result<Ending, TakeFault<ServeFault>>
    requires longest { HasLongest commands window.old.room }
    requires open { window.old.over ≡ None }
    requires ready { IsReady writer.old.session writer.old.appender (window.old.limit - window.old.place) }
    requires room { longest_plain_pair ≤ vec_capacity writer.old.pair }
    requires kept { IfSome (D.state disk.old).content (λ _. (begin : Start) × (old : List (Pair Record Outcome))
        × IsKeptJournal begin old writer.old.session × Keeps (head_of begin) (map records_of old) writer.old.appender (D.state disk.old)) }
    ensures goes { ServesOn window.old (S.rest source.old) (S.rest source.new) result writer.old.session writer.old.appender
        (D.state disk.old) (D.state disk.new) (output K.held K.calls K.faults out.old) (output K.held K.calls K.faults out.new) }
    ensures lengths { (count : ℕ) → HasYetAtMost count window.old (S.rest source.old) →
        ReachesAtMost (writer.old.appender + longest_stored_entry * count + 1) (D.state disk.old) (D.state disk.new) }
    ensures disk_cause { Blames (result ≡ Err (TakeFault.Broken ServeFault.Disk)) (D.state disk.old).faults (D.state disk.new).faults }
    ensures source_cause { Blames (result ≡ Err TakeFault.Read) (S.faults source.old) (S.faults source.new) }
    ensures out_cause { Blames (result ≡ Err (TakeFault.Broken ServeFault.Write)) (K.faults out.old) (K.faults out.new) }
{
    'units: loop {
        let prefix = match keep_next(writer, bytes_of(window.held()), disk, out) {
            Ok(prefix) => prefix,
            Err(fault) => return Err(TakeFault::Broken(fault)),
        };
        match prefix {
            Prefix::Taken(taken) => window.advance(taken),
            Prefix::Overlong => return Ok(Ending::Torn(window.place())),
            Prefix::Short => match read_on(window, source) {
                Ok(Filled::Enough) => {}
                Ok(Filled::Limited) => return Ok(Ending::TooLong),
                Ok(Filled::Ended) => return Ok(Ending::Torn(window.place())),
                Err(_) => return Err(TakeFault::Read),
            },
            Prefix::NoBytes => match read_on(window, source) {
                Ok(Filled::Enough) => {}
                Ok(Filled::Limited) => return Ok(Ending::TooLong),
                Ok(Filled::Ended) => return Ok(Ending::End),
                Err(_) => return Err(TakeFault::Read),
            },
        }
    }
}
