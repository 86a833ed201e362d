//! `flow explain`: reads a history, and writes a line if its entries are valid, or on the first that isn't.
ghost use Rattle.std.specs.Prelude.{◌≢◌};
ghost use Rattle.flow_io.specs.Changes.{change};
ghost use Rattle.flow_exchange.specs.Private.{FormServes};
ghost use Rattle.flow_exchange.specs.declared.form.Form.TheVariants.{Explain};

use crate::ending::pairs_status;
use exit_status::Status;
use flow_io::{Sink, Source};
use history_words::go_history;
use journal_words::Explaining;
use std::alloc::Global;

/// Does as [`audit`](crate::audit) does, and if an entry is invalid, writes the line of what is found of it by one call.
pub(crate) fn explain<S: Source, K: Sink>(
    alloc: Global,
    limit: u64,
    source: &mut S,
    out: &mut K,
) -> Status
    ensures asked { result ≢ Status.Usage }
    ensures does { FormServes Explain limit result (change S.rest S.faults source.old source.new)
        (change K.held K.faults out.old out.new) }
{
    let ended = go_history(alloc, limit, source, out, Explaining::new());
    pairs_status(ended, limit)
}
