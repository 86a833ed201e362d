//! How a source begins that is opened: with the magic of a command file, or with a checkpoint and the magic after it.
ghost use Rattle.std.specs.Prelude.{◌≡◌, ◌≢◌, ◌≤◌, ◌<◌, ◌+◌, ◌^◌, ◌++◌, ◌∷◌, ℕ, List, [], Option, None, Err, IfSome, IfOk, IfErr, IsErr, length, drop, take};
ghost use Rattle.flow_io.specs.Faults.{Blames};
ghost use Rattle.flow_io.specs.Streams.{Takes, TakesAtMost};
ghost use Rattle.flow_io.specs.Windows.{empty_window};
ghost use Rattle.wire_records.specs.Records.{longest_record};
ghost use Rattle.wire_records.specs.Grammars.{BeginsWith};
ghost use Rattle.wire_records.specs.Formats.{commands};
ghost use Rattle.market_rules.specs.Market.{Market as market_value};
ghost use Rattle.market_snapshot.specs.Checkpoints.{IsCheckpoint, checkpoint_bytes};
ghost use Rattle.market_history.specs.Histories.{Empty};
ghost use Rattle.journal_keeping.specs.Taking.{NotTaken, source_format};
ghost use Rattle.journal_keeping.specs.Lengths.{most_input};
ghost use Rattle.journal_keeping.specs.Beginning.{IsAfterSource, OpensStart};

use crate::fault::InputFault;
use crate::version::is_same;
use flow_io::{Filled, Source, Window};
use journal_disk::stored_first;
use market_core::Market;
use market_history::{KeptCheckpoint, StartFault, kept_checkpoint};
use market_snapshot::CHECKPOINT_MAGIC;
use std::alloc::Global;
use wire_records::{MOST_RECORD, Version, command_version};

// The bytes of each magic.
const MAGIC: usize = 8;

// A source of a new disk that is opened: its window after its beginning, the market in which the journal begins, and the first entry of
// the disk as it is stored, which has no bytes if there is no checkpoint.
#[derive(Drop)]
pub(crate) struct OpenStart {
    pub(crate) window: Window,
    pub(crate) market: Market,
    pub(crate) stored: Vec<u8>,
}

// Moves a window past the magic that it holds, if that is the magic of this version.
fn after_magic(window: Window, version: Version) -> Result<Window, InputFault>
    requires some { 8 ≤ length window.held }
    ensures following { IfOk result (λ following. ((body : List ℕ) × BeginsWith commands.magics window.held version body)
        × (following ≡ record window { held = drop 8 window.held; place = window.place + 8 }) × (length window.held ≤ window.room)) }
    ensures other { IfErr result (λ fault. (fault ≡ InputFault.NotFlow) × ((body : List ℕ) → ¬ BeginsWith commands.magics window.held version body)) }
{
    let mut window = window;
    let found = match command_version(window.held()) {
        Some(found) => found,
        None => return Err(InputFault::NotFlow),
    };
    if !is_same(found, version) {
        return Err(InputFault::NotFlow);
    }
    window.advance(MAGIC);
    Ok(window)
}

// Opens a source, and moves past its magic, which has to be that of this version.
pub(crate) fn open_source<S: Source>(
    alloc: Global,
    limit: u64,
    source: &mut S,
    version: Version,
) -> Result<Window, InputFault>
    ensures following { IfOk result (λ window. IsAfterSource limit (Empty version) window (S.rest source.old) (S.rest source.new)) }
    ensures of_source { IfErr result (NotTaken source_format limit (Some version) (S.rest source.old) (S.rest source.new)) }
    ensures taken { IsErr result → TakesAtMost (S.rest source.old) (S.rest source.new) (limit + 1) }
    ensures cause { Blames (result ≡ Err InputFault.Read) (S.faults source.old) (S.faults source.new) }
{
    let mut window = match Window::new(alloc, MOST_RECORD, limit) {
        Ok(window) => window,
        Err(_) => return Err(InputFault::Memory),
    };
    match window.fill(source, MAGIC) {
        Ok(Filled::Enough) => after_magic(window, version),
        Ok(Filled::Ended) => Err(InputFault::NotFlow),
        Ok(Filled::Limited) => Err(InputFault::NotFlow),
        Err(_) => Err(InputFault::Read),
    }
}

// Moves a window, which is after the checkpoint of this market, past the magic of a command file of its version, and makes the first entry
// of the disk of the checkpoint's bytes. The market is lent, since each exit of a function that owns one drops it.
fn after_checkpoint<S: Source>(
    window: Window,
    source: &mut S,
    market: &Market,
    checkpoint: Vec<u8>,
) -> Result<(Window, Vec<u8>), InputFault>
    requires room { window.room ≡ longest_record }
    requires open { window.over ≡ None }
    requires within { window.place + length window.held ≤ window.limit }
    requires few { window.limit ≤ most_input }
    requires placed { window.place ≡ length (checkpoint_bytes market.now) }
    requires checkpoint { checkpoint.items ≡ checkpoint_bytes market.now }
    ensures opens { IfOk result (λ o. (before : Option (List ℕ)) → IsCheckpoint market.now (checkpoint_bytes market.now) →
        Takes before (S.rest source.old) (checkpoint_bytes market.now ++ window.held) →
        OpensStart window.limit market.now o.1.items o.0 before (S.rest source.new)) }
    ensures of_source { IfErr result (λ fault. (before : Option (List ℕ)) → IsCheckpoint market.now (checkpoint_bytes market.now) →
        Takes before (S.rest source.old) (checkpoint_bytes market.now ++ window.held) →
        NotTaken source_format window.limit None before (S.rest source.new) fault × TakesAtMost before (S.rest source.new) (window.limit + 1)) }
    ensures cause { Blames (result ≡ Err InputFault.Read) (S.faults source.old) (S.faults source.new) }
{
    let mut window = window;
    match window.fill(source, MAGIC) {
        Ok(Filled::Enough) => {}
        Ok(Filled::Ended) => return Err(InputFault::NotFlow),
        Ok(Filled::Limited) => return Err(InputFault::NotFlow),
        Err(_) => return Err(InputFault::Read),
    }
    match after_magic(window, market.version()) {
        Ok(window) => match stored_first(checkpoint) {
            Ok(stored) => Ok((window, stored)),
            Err(_) => Err(InputFault::Memory),
        },
        Err(fault) => Err(fault),
    }
}

// Moves a window, which holds the first bytes of a source, past its beginning.
fn start_at<S: Source>(
    alloc: Global,
    window: Window,
    source: &mut S,
) -> Result<OpenStart, InputFault>
    requires some { 8 ≤ length window.held }
    requires room { window.room ≡ longest_record }
    requires open { window.over ≡ None }
    requires within { window.place + length window.held ≤ window.limit }
    requires few { window.limit ≤ most_input }
    requires first { window.place ≡ 0 }
    ensures opens { IfOk result (λ o. (before : Option (List ℕ)) → Takes before (S.rest source.old) window.held →
        OpensStart window.limit o.market o.stored.items o.window before (S.rest source.new)) }
    ensures numbers { IfOk result (λ o. o.market.next_order ≤ 2 ^ 63) }
    ensures of_source { IfErr result (λ fault. (before : Option (List ℕ)) → Takes before (S.rest source.old) window.held →
        NotTaken source_format window.limit None before (S.rest source.new) fault × TakesAtMost before (S.rest source.new) (window.limit + 1)) }
    ensures cause { Blames (result ≡ Err InputFault.Read) (S.faults source.old) (S.faults source.new) }
{
    let mut window = window;
    match command_version(window.held()) {
        Some(version) => {
            window.advance(MAGIC);
            return Ok(OpenStart {
                window,
                market: Market::new_in(alloc, version),
                stored: Vec::new(alloc),
            });
        }
        None => {}
    }
    if !window.held().starts_with(&CHECKPOINT_MAGIC) {
        return Err(InputFault::NotFlow);
    }
    match kept_checkpoint(alloc, &mut window, source) {
        Ok(kept) => {
            let KeptCheckpoint { market, bytes } = kept;
            match after_checkpoint(window, source, &market, bytes) {
                Ok((window, stored)) => Ok(OpenStart {
                    window,
                    market,
                    stored,
                }),
                Err(fault) => Err(fault),
            }
        }
        Err(StartFault::Read) => Err(InputFault::Read),
        Err(StartFault::Memory) => Err(InputFault::Memory),
        Err(StartFault::NotFlow) => Err(InputFault::NotFlow),
        Err(StartFault::NoCheckpoint) => Err(InputFault::BadCheckpoint),
    }
}

// Opens a source of a new disk, and moves past its beginning.
pub(crate) fn open_start<S: Source>(
    alloc: Global,
    limit: u64,
    source: &mut S,
) -> Result<OpenStart, InputFault>
    requires few { limit ≤ most_input }
    ensures opens { IfOk result (λ o. OpensStart limit o.market o.stored.items o.window (S.rest source.old) (S.rest source.new)) }
    ensures numbers { IfOk result (λ o. o.market.next_order ≤ 2 ^ 63) }
    ensures of_source { IfErr result (NotTaken source_format limit None (S.rest source.old) (S.rest source.new)) }
    ensures taken { IsErr result → TakesAtMost (S.rest source.old) (S.rest source.new) (limit + 1) }
    ensures cause { Blames (result ≡ Err InputFault.Read) (S.faults source.old) (S.faults source.new) }
{
    let mut window = match Window::new(alloc, MOST_RECORD, limit) {
        Ok(window) => window,
        Err(_) => return Err(InputFault::Memory),
    };
    match window.fill(source, MAGIC) {
        Ok(Filled::Enough) => start_at(alloc, window, source),
        Ok(Filled::Ended) => Err(InputFault::NotFlow),
        Ok(Filled::Limited) => Err(InputFault::NotFlow),
        Err(_) => Err(InputFault::Read),
    }
}
