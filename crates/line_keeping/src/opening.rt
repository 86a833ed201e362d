//! An input of lines: finds what is before them, and moves past it.
ghost use Rattle.std.specs.Prelude.{◌≡◌, ◌≤◌, ◌+◌, ◌^◌, ℕ, List, Option, None, Err, IfOk, IfErr, IsErr, length, vec_capacity};
ghost use Rattle.flow_io.specs.Faults.{Blames};
ghost use Rattle.flow_io.specs.Streams.{TakesAtMost};
ghost use Rattle.flow_io.specs.Windows.{empty_window};
ghost use Rattle.journal_keeping.specs.Taking.{NotTaken};
ghost use Rattle.journal_keeping.specs.Beginning.{TakesStart};
ghost use Rattle.journal_keeping.specs.Lengths.{most_input};
ghost use Rattle.input_lines.specs.Long.{most_line};
ghost use Rattle.input_lines.specs.Finding.{IsOpen};
ghost use Rattle.line_keeping.specs.Private.{lines_format, refusal_room};

use crate::input::has_checkpoint;
use flow_io::{Source, Window};
use input_lines::MOST_LINE;
use journal_disk::stored_first;
use journal_keeping::{Input, InputFault, NewInput};
use market_core::Market;
use market_history::{KeptCheckpoint, StartFault, kept_checkpoint};
use std::alloc::Global;
use wire_records::{Memory, Version};

// The highest version, which a journal has that begins without a checkpoint.
const NEWEST: Version = Version::Four;

// Memory for the text that a line is no command: "line ", at most 20 digits, and the rest.
const REFUSAL_ROOM: usize = 40;

// An input of lines, and the buffer in which texts are written.
#[derive(Drop)]
pub(crate) struct Lines {
    pub(crate) window: Window,
    pub(crate) text: Vec<u8>,
}

// Allocates the window and the buffer.
fn make_lines(alloc: Global, limit: u64) -> Result<Lines, Memory>
    ensures window { IfOk result (λ b. b.window ≡ empty_window (most_line + 1) limit) }
    ensures text { IfOk result (λ b. refusal_room ≤ vec_capacity b.text) }
{
    let window = match Window::new(alloc, MOST_LINE + 1, limit) {
        Ok(window) => window,
        Err(_) => return Err(Memory),
    };
    let text = match Vec::with_capacity(alloc, REFUSAL_ROOM) {
        Ok(text) => text,
        Err(_) => return Err(Memory),
    };
    Ok(Lines { window, text })
}

// An input of a new disk that is opened: the market in which the journal begins, and the first entry of the disk as it is stored, which has no bytes if
// there is no checkpoint.
#[derive(Drop)]
struct OpenInput {
    market: Market,
    stored: Vec<u8>,
}

// Opens an input of a new disk, and moves past what is before its lines.
fn open_input<S: Source>(
    alloc: Global,
    limit: u64,
    window: &mut Window,
    source: &mut S,
) -> Result<OpenInput, InputFault>
    requires few { limit ≤ most_input }
    requires window { window.old ≡ empty_window (most_line + 1) limit }
    ensures opens { IfOk result (λ o. length window.new.held ≤ 65538 →
        TakesStart lines_format limit o.market o.stored.items window.new (S.rest source.old) (S.rest source.new)) }
    ensures opened { IfOk result (λ _. IsOpen window.new (S.rest source.new)) }
    ensures numbers { IfOk result (λ o. o.market.next_order ≤ 2 ^ 63) }
    ensures fails { IfErr result (NotTaken lines_format limit None (S.rest source.old) (S.rest source.new)) }
    ensures taken { IsErr result → TakesAtMost (S.rest source.old) (S.rest source.new) (limit + 1) }
    ensures cause { Blames (result ≡ Err InputFault.Read) (S.faults source.old) (S.faults source.new) }
{
    match has_checkpoint(window, source, limit) {
        Ok(true) => {}
        Ok(false) => {
            return Ok(OpenInput {
                market: Market::new_in(alloc, NEWEST),
                stored: Vec::new(alloc),
            });
        }
        Err(_) => return Err(InputFault::Read),
    }
    let KeptCheckpoint { market, bytes } = match kept_checkpoint(alloc, window, source) {
        Ok(kept) => kept,
        Err(StartFault::Read) => return Err(InputFault::Read),
        Err(StartFault::Memory) => return Err(InputFault::Memory),
        Err(StartFault::NotFlow) => return Err(InputFault::NotFlow),
        Err(StartFault::NoCheckpoint) => return Err(InputFault::BadCheckpoint),
    };
    match stored_first(bytes) {
        Ok(stored) => Ok(OpenInput { market, stored }),
        Err(_) => Err(InputFault::Memory),
    }
}

impl Input for Lines {
    ghost use Rattle.input_lines.specs.Finding.{IsOpen};
    ghost use Rattle.line_keeping.specs.Private.{lines_format, refusal_room};

    ghost format = { lines_format };

    ghost window = { λ lines. lines.window };

    ghost is_open = { λ lines left. IsOpen lines.window left × (refusal_room ≤ vec_capacity lines.text) };

    fn open_as<S: Source>(
        alloc: Global,
        limit: u64,
        source: &mut S,
        version: Version,
    ) -> Result<Lines, InputFault> {
        let mut lines = match make_lines(alloc, limit) {
            Ok(lines) => lines,
            Err(_) => return Err(InputFault::Memory),
        };
        match has_checkpoint(&mut lines.window, source, limit) {
            Ok(false) => {
                // Called for its contract: the window holds no more than it has room for.
                let _held = lines.window.held();
                Ok(lines)
            }
            Ok(true) => Err(InputFault::NotFlow),
            Err(_) => Err(InputFault::Read),
        }
    }

    fn open_first<S: Source>(
        alloc: Global,
        limit: u64,
        source: &mut S,
    ) -> Result<NewInput<Lines>, InputFault> {
        let mut lines = match make_lines(alloc, limit) {
            Ok(lines) => lines,
            Err(_) => return Err(InputFault::Memory),
        };
        match open_input(alloc, limit, &mut lines.window, source) {
            Ok(OpenInput { market, stored }) => {
                // Called for its contract: the window holds no more than it has room for.
                let _held = lines.window.held();
                Ok(NewInput {
                    input: lines,
                    market,
                    stored,
                })
            }
            Err(fault) => Err(fault),
        }
    }
}
