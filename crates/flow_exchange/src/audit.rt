//! `flow audit`: reads a history, and writes a line if its entries are valid.
ghost use Rattle.std.specs.Prelude.{◌≢◌};
ghost use Rattle.flow_io.specs.Changes.{change};
ghost use Rattle.flow_exchange.specs.Private.{FormServes};
ghost use Rattle.flow_exchange.specs.declared.form.Form.TheVariants.{Audit};

use crate::ending::pairs_status;
use exit_status::Status;
use flow_io::{Sink, Source};
use history_words::go_history;
use journal_words::Counting;
use std::alloc::Global;

/// Reads the source to its end or the limit, and audits its history, one entry after the other: from the empty market of a journal,
/// or from that of a checkpoint. If all entries are valid and nothing follows them, writes a line with their counts by one call. Holds
/// a window of 263,178 bytes.
pub(crate) fn audit<S: Source, K: Sink>(
    alloc: Global,
    limit: u64,
    source: &mut S,
    out: &mut K,
) -> Status
    ensures asked { result ≢ Status.Usage }
    ensures does { FormServes Audit limit result (change S.rest S.faults source.old source.new)
        (change K.held K.faults out.old out.new) }
{
    let ended = go_history(alloc, limit, source, out, Counting::new());
    pairs_status(ended, limit)
}
