//! What is before the lines of an input.
ghost use Rattle.std.specs.Prelude.{◌≡◌, ◌≤◌, ◌+◌, ◌++◌, ℕ, List, Option, None, Err, IfOk, IfErr, IfSome, IfNone, length};
ghost use Rattle.flow_io.specs.Faults.{Blames};
ghost use Rattle.flow_io.specs.Streams.{Takes};
ghost use Rattle.flow_io.specs.Windows.{empty_window};
ghost use Rattle.wire_records.specs.declared.version.Version.{Version as version_value};
ghost use Rattle.desk_opening.specs.Beginnings.{HasBegun, NotBegun, version_line};
ghost use Rattle.desk_opening.specs.Private.{IsLacking};

use flow_io::{Filled, Source, Window};
use journal_disk::stored_first;
use journal_keeping::InputFault;
use market_core::Market;
use market_history::{KeptCheckpoint, StartFault, kept_checkpoint};
use market_snapshot::CHECKPOINT_MAGIC;
use std::alloc::Global;
use wire_records::Version;

/// How a market of many senders begins.
#[derive(Drop)]
pub struct Beginning {
    /// The market before the first line.
    pub market: Market,
    /// The first entry of the market's file as it is stored: the checkpoint with its length before it, in four bytes, and an unset commit byte
    /// after it. It has no bytes if the market begins without a checkpoint.
    pub stored: Vec<u8>,
}

// The bytes of the line that says a version, with its line feed.
const VERSION_LINE: usize = 14;

// Returns the version that the line says with which the bytes begin, if they begin with such a line.
fn version_in(bytes: &[u8]) -> Option<Version>
    ensures some { IfSome result (λ version. (rest : List ℕ) × (bytes.now ≡ version_line version ++ rest)) }
    ensures none { IfNone result ((version : version_value) (rest : List ℕ) → ¬ (bytes.now ≡ version_line version ++ rest)) }
{
    let rest = bytes.strip_prefix(b"{\"version\":")?;
    let (digit, rest) = rest.split_first()?;
    if !rest.starts_with(b"}\n") {
        return None;
    }
    Version::of_number(digit.checked_sub(b'0')?)
}

// Returns what an input lacks that has no more bytes than these, which are fewer than those of a version's line.
fn lacking(bytes: &[u8]) -> InputFault
    ensures { IsLacking bytes.now result }
{
    if bytes.starts_with(&CHECKPOINT_MAGIC) {
        return InputFault::BadCheckpoint;
    }
    InputFault::NotFlow
}

// Moves a window, which holds the first bytes of an input, past what is before the lines.
fn start_at<S: Source>(
    alloc: Global,
    window: &mut Window,
    source: &mut S,
) -> Result<Beginning, InputFault>
    requires some { 14 ≤ length window.old.held }
    requires open { window.old.over ≡ None }
    requires within { window.old.place + length window.old.held ≤ window.old.limit }
    requires first { window.old.place ≡ 0 }
    ensures begun { IfOk result (λ b. (before : Option (List ℕ)) (most : ℕ) → Takes before (S.rest source.old) window.old.held →
        window.old.room ≡ most + 1 → HasBegun most window.old.limit b.market b.stored.items window.new before (S.rest source.new)) }
    ensures fails { IfErr result (λ fault. (before : Option (List ℕ)) → Takes before (S.rest source.old) window.old.held →
        NotBegun window.old.limit before (S.rest source.new) fault) }
    ensures cause { Blames (result ≡ Err InputFault.Read) (S.faults source.old) (S.faults source.new) }
{
    match version_in(window.held()) {
        Some(version) => {
            window.advance(VERSION_LINE);
            return Ok(Beginning {
                market: Market::new_in(alloc, version),
                stored: Vec::new(alloc),
            });
        }
        None => {}
    }
    if !window.held().starts_with(&CHECKPOINT_MAGIC) {
        return Err(InputFault::NotFlow);
    }
    let KeptCheckpoint { market, bytes } = match kept_checkpoint(alloc, window, source) {
        Ok(kept) => kept,
        Err(StartFault::Read) => return Err(InputFault::Read),
        Err(StartFault::Memory) => return Err(InputFault::Memory),
        Err(StartFault::NotFlow) => return Err(InputFault::NotFlow),
        Err(StartFault::NoCheckpoint) => return Err(InputFault::BadCheckpoint),
    };
    match stored_first(bytes) {
        Ok(stored) => Ok(Beginning { market, stored }),
        Err(_) => Err(InputFault::Memory),
    }
}

/// Reads what is before the lines of an input, through a new window: a checkpoint of a consistent market, or the line `{"version":N}` with its
/// line feed. The window then begins at the lines, and has the room and the limit that it had.
///
/// `BadCheckpoint`: the input begins with the magic of a checkpoint, but within the window's limit with no checkpoint of a consistent market.
/// `NotFlow`: it begins with neither that magic nor such a line. `Read` comes only if the source's count of faults rose, and `Memory` only at a
/// checkpoint. After an error at most one byte past the limit was taken. Reads 14 bytes at least before it answers, if there are as many. Costs
/// what reading a checkpoint costs, which is held once, beside its market.
pub fn read_beginning<S: Source>(
    alloc: Global,
    window: &mut Window,
    source: &mut S,
) -> Result<Beginning, InputFault>
    requires new { window.old ≡ empty_window window.old.room window.old.limit }
    requires room { 14 ≤ window.old.room }
    ensures begun { IfOk result (λ b. (most : ℕ) → window.old.room ≡ most + 1 →
        HasBegun most window.old.limit b.market b.stored.items window.new (S.rest source.old) (S.rest source.new)) }
    ensures fails { IfErr result (NotBegun window.old.limit (S.rest source.old) (S.rest source.new)) }
    ensures cause { Blames (result ≡ Err InputFault.Read) (S.faults source.old) (S.faults source.new) }
{
    match window.fill(source, VERSION_LINE) {
        Ok(Filled::Enough) => start_at(alloc, window, source),
        Ok(Filled::Ended) => Err(lacking(window.held())),
        Ok(Filled::Limited) => Err(lacking(window.held())),
        Err(_) => Err(InputFault::Read),
    }
}
