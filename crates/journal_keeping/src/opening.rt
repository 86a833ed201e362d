//! Opens a disk and an input: audits the kept entries, looks at the beginning of the input, and makes a new disk.
ghost use Rattle.std.specs.Prelude.{◌≡◌, ◌≤◌, ◌+◌, ◌^◌, ◌⊎◌, ℕ, List, [], Err, Some, None, IfSome, IsSome, IfOk, IfErr, OnOk, OnErr, length, vec_capacity};
ghost use Rattle.flow_io.specs.Faults.{Blames};
ghost use Rattle.wire_records.specs.Records.{Record};
ghost use Rattle.wire_records.specs.Commands.{Pair};
ghost use Rattle.flow_orders.specs.Outcomes.{Outcome};
ghost use Rattle.journal_records.specs.Pairs.{longest_plain_pair};
ghost use Rattle.market_rules.specs.Market.{Market as market_value};
ghost use Rattle.market_history.specs.Histories.{Start};
ghost use Rattle.disk_edge.specs.Disks.{AtEachMoment};
ghost use Rattle.disk_edge.specs.Images.{LeavesOnly};
ghost use Rattle.journal_disk.specs.Entries.{IsHead, IsNewDisk, StandsFor, Keeps};
ghost use Rattle.journal_disk.specs.Looking.{OnlyLooks};
ghost use Rattle.journal_disk.specs.Lengths.{ReachesAtMost};
ghost use Rattle.journal_disk.specs.Recovering.{IsFound};
ghost use Rattle.journal_keeping.specs.Starts.{version_of, head_of};
ghost use Rattle.journal_keeping.specs.Keeping.{HoldsLegal};
ghost use Rattle.journal_keeping.specs.Openings.{KeepNone};
ghost use Rattle.journal_keeping.specs.Lengths.{most_input};
ghost use Rattle.journal_keeping.specs.Beginning.{IsOpened, IsKeptOn, IsStored, OpensNot, WhileOpening, HasNotBegun, HasBegun};

use crate::disk_start::first_market;
use crate::fault::{BeginFault, InputFault, OpenFault};
use crate::input::{Input, NewInput};
use crate::reading::audit_kept;
use crate::taking::Writer;
use batch_audit::Audit;
use disk_edge::Disk;
use exchange_session::Session;
use flow_io::Source;
use journal_disk::{Ahead, Appender, DiskJournal, recover};
use journal_records::MOST_PLAIN_PAIR;
use std::alloc::Global;
use wire_records::Version;

// The entries that a disk keeps, read up: the market after them, and how many there are.
#[derive(Drop)]
struct ReadUp {
    audit: Audit,
    entries: u64,
}

/// A disk and an input that are opened.
#[derive(Drop)]
pub struct Ready<I> {
    /// The input, after its beginning.
    pub input: I,
    /// The market after the entries that are kept, and what keeps more.
    pub writer: Writer,
}

// Reads a disk of a version: how it begins, and its entries, which are audited. Returns the market after them, and how many there are.
fn read_up<D: Disk>(
    alloc: Global,
    disk: &mut D,
    journal: &mut DiskJournal,
    version: Version,
) -> Result<ReadUp, OpenFault>
    requires found { IfSome (D.state disk.old).content (λ held. IsFound (Some version) held (D.state disk.old)) }
    requires first { journal.old ≡ 8 }
    ensures read { IfOk result (λ read. IfSome (D.state disk.old).content (λ held. IsOpened version held read.audit read.entries journal.new (D.state disk.new))) }
    ensures refused { IfErr result (λ fault. IfSome (D.state disk.old).content (λ held. OpensNot held (D.state disk.new) fault)) }
    ensures near { IfOk result (λ read. read.audit.next_order ≤ journal.new + 2 ^ 63) }
    ensures few { IfOk result (λ read. read.entries ≤ journal.new) }
    ensures looks { OnlyLooks (D.state disk.old) (D.state disk.new) }
    ensures cause { Blames (result ≡ Err OpenFault.Disk) (D.state disk.old).faults (D.state disk.new).faults }
{
    let mut ahead = match Ahead::new(alloc, disk) {
        Ok(ahead) => ahead,
        Err(fault) => return Err(OpenFault::from(fault)),
    };
    let market = match first_market(alloc, journal, disk, &mut ahead, version) {
        Ok(market) => market,
        Err(fault) => return Err(fault),
    };
    let mut audit = Audit::over(market);
    match audit_kept(journal, disk, &mut ahead, &mut audit) {
        Ok(entries) => Ok(ReadUp { audit, entries }),
        Err(fault) => Err(fault),
    }
}

// Opens a disk of a version, as [`recover`](journal_disk::recover) finds it: audits the entries that it keeps, and gets it ready to keep more.
// `pair` is the buffer for entries, with room for one with a plain reply. The errors are those of [`audit_kept`]. Costs the audit of the
// entries, and memory for the longest of them.
fn open_kept<D: Disk>(
    alloc: Global,
    disk: &mut D,
    version: Version,
    pair: Vec<u8>,
) -> Result<Writer, OpenFault>
    requires found { IfSome (D.state disk.old).content (λ held. IsFound (Some version) held (D.state disk.old)) }
    requires room { longest_plain_pair ≤ vec_capacity pair }
    ensures begun { IfOk result (λ writer. IfSome (D.state disk.old).content
        (λ held. IsKeptOn version held writer.session writer.entries writer.appender (D.state disk.new))) }
    ensures refused { IfErr result (λ fault. IfSome (D.state disk.old).content (λ held. OpensNot held (D.state disk.new) fault)) }
    ensures untouched { IfSome (D.state disk.old).content (λ held. KeepNone held → OnlyLooks (D.state disk.old) (D.state disk.new)) }
    ensures moments { (was : Start) (old : List (Pair Record Outcome)) (market : market_value) → HoldsLegal (D.state disk.old) was old market →
        AtEachMoment (D.state disk.old) (D.state disk.new) (WhileOpening was (D.state disk.old) old) }
    ensures lengths { ReachesAtMost 9 (D.state disk.old) (D.state disk.new) }
    ensures told { OnOk result (IsSome (D.state disk.new).content → IsSome (D.state disk.old).content) }
    ensures room { IfOk result (λ writer. longest_plain_pair ≤ vec_capacity writer.pair) }
    ensures near { IfOk result (λ writer. (writer.session.next_order ≤ writer.appender + 2 ^ 63) × (writer.appender ≤ 2 ^ 60)) }
    ensures few { IfOk result (λ writer. writer.entries ≤ writer.appender) }
    ensures cause { Blames (result ≡ Err OpenFault.Disk) (D.state disk.old).faults (D.state disk.new).faults }
{
    let mut journal = DiskJournal::after_magic();
    match read_up(alloc, disk, &mut journal, version) {
        Ok(read) => match journal.begin(alloc, disk) {
            Ok(appender) => Ok(Writer {
                session: Session::over(read.audit.into_market()),
                appender,
                entries: read.entries,
                pair,
            }),
            Err(fault) => Err(OpenFault::from(fault)),
        },
        Err(fault) => Err(fault),
    }
}

/// Makes a new disk one that begins so: with the magic of a version, and with this first entry as it is stored, if it has bytes. The only error
/// is `Disk`, and only if the disk's count rose.
pub fn make_disk<D: Disk>(
    appender: &mut Appender,
    disk: &mut D,
    version: Version,
    stored: &[u8],
) -> Result<(), OpenFault>
    requires new { IfSome (D.state disk.old).content IsNewDisk }
    requires first { appender.old ≡ 8 }
    requires short { length stored.now ≤ 2 ^ 33 }
    ensures keeps { OnOk result (IfSome (D.state disk.old).content (λ _. (begin : Start) → version_of begin ≡ version → IsHead (head_of begin) →
        IsStored begin stored.now → Keeps (head_of begin) [] appender.new (D.state disk.new))) }
    ensures moments { (bytes : List ℕ) (begin : Start) → (D.state disk.old).content ≡ Some bytes → LeavesOnly (D.state disk.old).images bytes →
        version_of begin ≡ version → IsHead (head_of begin) → IsStored begin stored.now →
        AtEachMoment (D.state disk.old) (D.state disk.new) (λ image. IsNewDisk image ⊎ StandsFor (head_of begin) [] image) }
    ensures lengths { ReachesAtMost (9 + length stored.now) (D.state disk.old) (D.state disk.new) }
    ensures told { OnOk result (IsSome (D.state disk.new).content → IsSome (D.state disk.old).content) }
    ensures place { OnOk result ((8 ≤ appender.new) × (appender.new ≤ 8 + length stored.now)) }
    ensures refused { OnErr result (result ≡ Err OpenFault.Disk) }
    ensures cause { Blames (result ≡ Err OpenFault.Disk) (D.state disk.old).faults (D.state disk.new).faults }
{
    match appender.make(disk, version) {
        Ok(()) => {}
        Err(_) => return Err(OpenFault::Disk),
    }
    if stored.is_empty() {
        return Ok(());
    }
    match appender.append_first(disk, stored) {
        Ok(()) => Ok(()),
        Err(_) => Err(OpenFault::Disk),
    }
}

// Opens a disk of a version, and then the input.
fn begin_kept<I: Input, S: Source, D: Disk>(
    alloc: Global,
    limit: u64,
    source: &mut S,
    disk: &mut D,
    version: Version,
    pair: Vec<u8>,
) -> Result<Ready<I>, BeginFault>
    requires few { limit ≤ most_input }
    requires found { IfSome (D.state disk.old).content (λ held. IsFound (Some version) held (D.state disk.old)) }
    requires room { longest_plain_pair ≤ vec_capacity pair }
    ensures begun { IfOk result (λ b. HasBegun I.format limit (D.state disk.old) (D.state disk.new) (I.window b.input) (S.rest source.old) (S.rest source.new)
        b.writer.session b.writer.entries b.writer.appender) }
    ensures opened { IfOk result (λ b. I.is_open b.input (S.rest source.new)) }
    ensures room { IfOk result (λ b. longest_plain_pair ≤ vec_capacity b.writer.pair) }
    ensures fails { IfErr result (HasNotBegun I.format limit (D.state disk.old) (D.state disk.new) (S.rest source.old) (S.rest source.new)) }
    ensures unasked { (fault : OpenFault) → result ≡ Err (BeginFault.Open fault) → source.new ≡ source.old }
    ensures disk_cause { Blames ((result ≡ Err (BeginFault.Open OpenFault.Disk)) ⊎ (result ≡ Err BeginFault.Make)) (D.state disk.old).faults (D.state disk.new).faults }
    ensures source_cause { Blames (result ≡ Err (BeginFault.Input InputFault.Read)) (S.faults source.old) (S.faults source.new) }
{
    let writer = match open_kept(alloc, disk, version, pair) {
        Ok(writer) => writer,
        Err(fault) => return Err(BeginFault::Open(fault)),
    };
    match I::open_as(alloc, limit, source, version) {
        Ok(input) => Ok(Ready { input, writer }),
        Err(fault) => Err(BeginFault::Input(fault)),
    }
}

// Opens the input, and then makes a new disk one that begins as the input does.
fn begin_new<I: Input + Drop, S: Source, D: Disk>(
    alloc: Global,
    limit: u64,
    source: &mut S,
    disk: &mut D,
    pair: Vec<u8>,
) -> Result<Ready<I>, BeginFault>
    requires few { limit ≤ most_input }
    requires found { IfSome (D.state disk.old).content (λ held. IsFound None held (D.state disk.old)) }
    requires room { longest_plain_pair ≤ vec_capacity pair }
    ensures begun { IfOk result (λ b. HasBegun I.format limit (D.state disk.old) (D.state disk.new) (I.window b.input) (S.rest source.old) (S.rest source.new)
        b.writer.session b.writer.entries b.writer.appender) }
    ensures opened { IfOk result (λ b. I.is_open b.input (S.rest source.new)) }
    ensures room { IfOk result (λ b. longest_plain_pair ≤ vec_capacity b.writer.pair) }
    ensures fails { IfErr result (HasNotBegun I.format limit (D.state disk.old) (D.state disk.new) (S.rest source.old) (S.rest source.new)) }
    ensures unasked { (fault : OpenFault) → result ≡ Err (BeginFault.Open fault) → source.new ≡ source.old }
    ensures disk_cause { Blames ((result ≡ Err (BeginFault.Open OpenFault.Disk)) ⊎ (result ≡ Err BeginFault.Make)) (D.state disk.old).faults (D.state disk.new).faults }
    ensures source_cause { Blames (result ≡ Err (BeginFault.Input InputFault.Read)) (S.faults source.old) (S.faults source.new) }
{
    let mut appender = match Appender::for_new(alloc) {
        Ok(appender) => appender,
        Err(_) => return Err(BeginFault::Open(OpenFault::Memory)),
    };
    let NewInput {
        input,
        market,
        stored,
    } = match I::open_first(alloc, limit, source) {
        Ok(opened) => opened,
        Err(fault) => return Err(BeginFault::Input(fault)),
    };
    match make_disk(&mut appender, disk, market.version(), &stored) {
        Ok(()) => Ok(Ready {
            input,
            writer: Writer {
                session: Session::over(market),
                appender,
                entries: 0,
                pair,
            },
        }),
        Err(_) => Err(BeginFault::Make),
    }
}

/// Opens the disk and the input. A disk that has a version is opened first, with its entries; for a new one the input is looked at first,
/// since it says how the disk begins. Costs the audit of the kept entries, and holds the longest entry. A checkpoint is held once, beside its
/// market, and no longer than until it is kept or the audit begins.
pub fn begin<I: Input + Drop, S: Source, D: Disk>(
    alloc: Global,
    limit: u64,
    source: &mut S,
    disk: &mut D,
) -> Result<Ready<I>, BeginFault>
    requires few { limit ≤ most_input }
    ensures begun { IfOk result (λ b. HasBegun I.format limit (D.state disk.old) (D.state disk.new) (I.window b.input) (S.rest source.old) (S.rest source.new)
        b.writer.session b.writer.entries b.writer.appender) }
    ensures opened { IfOk result (λ b. I.is_open b.input (S.rest source.new)) }
    ensures room { IfOk result (λ b. longest_plain_pair ≤ vec_capacity b.writer.pair) }
    ensures fails { IfErr result (HasNotBegun I.format limit (D.state disk.old) (D.state disk.new) (S.rest source.old) (S.rest source.new)) }
    ensures unasked { (fault : OpenFault) → result ≡ Err (BeginFault.Open fault) → source.new ≡ source.old }
    ensures disk_cause { Blames ((result ≡ Err (BeginFault.Open OpenFault.Disk)) ⊎ (result ≡ Err BeginFault.Make)) (D.state disk.old).faults (D.state disk.new).faults }
    ensures source_cause { Blames (result ≡ Err (BeginFault.Input InputFault.Read)) (S.faults source.old) (S.faults source.new) }
{
    let pair = match Vec::with_capacity(alloc, MOST_PLAIN_PAIR) {
        Ok(pair) => pair,
        Err(_) => return Err(BeginFault::Open(OpenFault::Memory)),
    };
    match recover(disk) {
        Ok(Some(version)) => begin_kept(alloc, limit, source, disk, version, pair),
        Ok(None) => begin_new(alloc, limit, source, disk, pair),
        Err(fault) => Err(BeginFault::Open(OpenFault::from(fault))),
    }
}
