//! `flow report`: reads a history, and writes the text of its entries.
ghost use Rattle.std.specs.Prelude.{◌≢◌};
ghost use Rattle.flow_io.specs.Changes.{change};
ghost use Rattle.flow_exchange.specs.Private.{FormServes};
ghost use Rattle.flow_exchange.specs.declared.form.Form.TheVariants.{Report};

use crate::ending::pairs_status;
use exit_status::Status;
use flow_io::{Sink, Source};
use history_words::go_history;
use journal_words::Telling;
use std::alloc::Global;

/// Reads the source to its end or the limit, audits its history, one entry after the other, and writes the lines of each valid
/// entry by one call. Holds a window of 263,178 bytes, and one buffer for the lines of an entry.
pub(crate) fn report<S: Source, K: Sink>(
    alloc: Global,
    limit: u64,
    source: &mut S,
    out: &mut K,
) -> Status
    ensures asked { result ≢ Status.Usage }
    ensures does { FormServes Report limit result (change S.rest S.faults source.old source.new)
        (change K.held K.faults out.old out.new) }
{
    let ended = go_history(alloc, limit, source, out, Telling);
    pairs_status(ended, limit)
}
