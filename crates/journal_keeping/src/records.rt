//! A source of command records, which is the input of `keep`.
ghost use Rattle.std.specs.Prelude.{◌≡◌, ℕ, List, Option, None};

use crate::fault::InputFault;
use crate::input::{Input, NewInput};
use crate::source_start::{OpenStart, open_source, open_start};
use flow_io::{Source, Window};
use std::alloc::Global;
use wire_records::Version;

// A source of command records.
#[derive(Drop)]
pub(crate) struct Records {
    pub(crate) window: Window,
}

impl Input for Records {
    ghost use Rattle.wire_records.specs.Records.{longest_record};
    ghost use Rattle.journal_keeping.specs.Taking.{source_format};

    ghost format = { source_format };

    ghost window = { λ records. records.window };

    ghost is_open = { λ records left. (records.window.room ≡ longest_record) × (records.window.over ≡ None) };

    fn open_as<S: Source>(
        alloc: Global,
        limit: u64,
        source: &mut S,
        version: Version,
    ) -> Result<Records, InputFault> {
        match open_source(alloc, limit, source, version) {
            Ok(window) => Ok(Records { window }),
            Err(fault) => Err(fault),
        }
    }

    fn open_first<S: Source>(
        alloc: Global,
        limit: u64,
        source: &mut S,
    ) -> Result<NewInput<Records>, InputFault> {
        match open_start(alloc, limit, source) {
            Ok(
                OpenStart {
                    window,
                    market,
                    stored,
                },
            ) => Ok(NewInput {
                input: Records { window },
                market,
                stored,
            }),
            Err(fault) => Err(fault),
        }
    }
}
