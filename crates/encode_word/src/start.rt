//! What is before the lines of an input: nothing, or a checkpoint.
ghost use Rattle.std.specs.Prelude.{◌≡◌, ◌≤◌, ◌↔◌, IfOk, IfErr, IsTrue, drop, length};
ghost use Rattle.market_snapshot.specs.Checkpoints.{HasCheckpointMagic};
ghost use Rattle.market_snapshot.specs.Answers.{WhereNotSound};
ghost use Rattle.encode_word.specs.Starts.{IsCut, BeginsUnkept};
ghost use Rattle.encode_word.specs.Private.{FindsCheckpoint, FindsAfter, FindsLines, IsStartFault};

use market_core::Market;
use market_snapshot::{CHECKPOINT_MAGIC, SnapshotFault, read_market};
use std::alloc::Global;
use ticker_table::TickerTable;
use wire_records::{Memory, Version};

// Why no lines begin.
#[derive(Clone, Copy)]
pub(crate) enum StartFault {
    // It isn't seen yet whether a checkpoint begins: the input goes on past the limit.
    Cut,
    // A checkpoint begins, and none of a consistent market of the version.
    NoCheckpoint,
    Memory,
}

// Where the lines begin, and the tickers that are known before the first of them.
#[derive(Drop)]
pub(crate) struct Start {
    pub(crate) tickers: TickerTable,
    pub(crate) place: usize,
}

// Whether a market is one of the version.
fn is_of(market: &Market, version: Version) -> bool
    ensures { IsTrue result ↔ (market.now.version ≡ version) }
{
    market.version().number() == version.number()
}

// The market of the version whose checkpoint the bytes begin with, and how many bytes that takes.
fn kept_market(
    alloc: Global,
    version: Version,
    bytes: &[u8],
) -> Result<(Market, usize), SnapshotFault>
    requires begins { HasCheckpointMagic bytes.now }
    ensures kept { IfOk result (λ found. FindsCheckpoint version bytes.now found.0 found.1) }
    ensures inside { IfOk result (λ found. found.1 ≤ length bytes.now) }
    ensures fault { IfErr result (λ fault. WhereNotSound fault (BeginsUnkept version bytes.now)) }
{
    let (market, place) = match read_market(alloc, bytes) {
        Ok(found) => found,
        Err(fault) => return Err(fault),
    };
    if is_of(&market, version) {
        return Ok((market, place));
    }
    Err(SnapshotFault::NotSound)
}

// A table with the tickers of another.
fn copy_of(alloc: Global, known: &TickerTable) -> Result<TickerTable, Memory>
    ensures { IfOk result (λ tickers. tickers ≡ known.now) }
{
    let mut tickers = TickerTable::new(alloc);
    while let Some(ticker) = known.ticker(tickers.len()) {
        match tickers.add(ticker) {
            Ok(_) => {}
            Err(_) => return Err(Memory),
        }
    }
    Ok(tickers)
}

// Where the lines begin after a checkpoint.
fn start_after(alloc: Global, version: Version, bytes: &[u8]) -> Result<Start, SnapshotFault>
    requires begins { HasCheckpointMagic bytes.now }
    ensures found { IfOk result (λ start. FindsAfter version bytes.now start.tickers start.place) }
    ensures inside { IfOk result (λ start. start.place ≤ length bytes.now) }
    ensures fault { IfErr result (λ fault. WhereNotSound fault (BeginsUnkept version bytes.now)) }
{
    let (market, place) = match kept_market(alloc, version, bytes) {
        Ok(found) => found,
        Err(fault) => return Err(fault),
    };
    match copy_of(alloc, market.tickers()) {
        Ok(tickers) => Ok(Start { tickers, place }),
        Err(Memory) => Err(SnapshotFault::Memory),
    }
}

// Whether the bytes are a part of the magic of a checkpoint, and the input has more.
fn is_cut(bytes: &[u8], more: bool) -> bool
    ensures { IsTrue result ↔ IsCut (IsTrue more) bytes.now }
{
    if !more {
        return false;
    }
    if bytes.len() >= CHECKPOINT_MAGIC.len() {
        return false;
    }
    CHECKPOINT_MAGIC.starts_with(bytes)
}

// Where the lines of an input begin.
pub(crate) fn start_of(
    alloc: Global,
    version: Version,
    bytes: &[u8],
    more: bool,
) -> Result<Start, StartFault>
    ensures found { IfOk result (λ start. FindsLines version (IsTrue more) bytes.now start.tickers start.place) }
    ensures inside { IfOk result (λ start. start.place ≤ length bytes.now) }
    ensures fault { IfErr result (IsStartFault version (IsTrue more) bytes.now) }
{
    if is_cut(bytes, more) {
        return Err(StartFault::Cut);
    }
    if bytes.starts_with(&CHECKPOINT_MAGIC) {
        return match start_after(alloc, version, bytes) {
            Ok(start) => Ok(start),
            Err(SnapshotFault::NotSound) => Err(StartFault::NoCheckpoint),
            Err(SnapshotFault::Memory) => Err(StartFault::Memory),
        };
    }
    Ok(Start {
        tickers: TickerTable::new(alloc),
        place: 0,
    })
}
