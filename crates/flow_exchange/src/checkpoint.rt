//! `flow checkpoint`: reads a history, and writes the checkpoint of the market at its end.
ghost use Rattle.std.specs.Prelude.{◌≢◌};
ghost use Rattle.flow_io.specs.Changes.{change};
ghost use Rattle.flow_exchange.specs.Private.{FormServes};
ghost use Rattle.flow_exchange.specs.declared.form.Form.TheVariants.{Checkpoint};

use crate::ending::pairs_status;
use exit_status::Status;
use flow_io::{Sink, Source};
use history_words::go_history;
use journal_checkpoint::Checkpointing;
use std::alloc::Global;

/// Reads and audits as [`audit`](crate::audit) does. If all entries are valid and nothing follows them, writes the checkpoint of their
/// market by one call, from a buffer that holds all of it.
pub(crate) fn checkpoint<S: Source, K: Sink>(
    alloc: Global,
    limit: u64,
    source: &mut S,
    out: &mut K,
) -> Status
    ensures asked { result ≢ Status.Usage }
    ensures does { FormServes Checkpoint limit result (change S.rest S.faults source.old source.new)
        (change K.held K.faults out.old out.new) }
{
    let ended = go_history(alloc, limit, source, out, Checkpointing::new(alloc));
    pairs_status(ended, limit)
}
