//! `flow statement NUMBER`: reads a history, and writes the statement of an account.
ghost use Rattle.std.specs.Prelude.{◌≢◌};
ghost use Rattle.flow_io.specs.Changes.{change};
ghost use Rattle.flow_exchange.specs.Private.{FormServes};
ghost use Rattle.flow_exchange.specs.declared.form.Form.TheVariants.{Statement};

use crate::ending::statement_status;
use exit_status::Status;
use flow_io::{Sink, Source};
use history_words::go_history_from;
use statement_word::StatementOf;
use std::alloc::Global;

/// Reads the source to its end or the limit. Writes the lines that are carried forward from the market that its history begins in, by one
/// call if there are any. Then audits the history, one entry after the other, and writes the lines of what the account of this number sees
/// of each valid entry, by one call if there are any, and at the end the last lines. Holds a window of 263,178 bytes, and one buffer for
/// the lines of an entry.
pub(crate) fn statement<S: Source, K: Sink>(
    alloc: Global,
    number: u64,
    limit: u64,
    source: &mut S,
    out: &mut K,
) -> Status
    ensures asked { result ≢ Status.Usage }
    ensures does { FormServes (Statement number) limit result (change S.rest S.faults source.old source.new)
        (change K.held K.faults out.old out.new) }
{
    let ended = go_history_from(alloc, limit, source, out, StatementOf { number });
    statement_status(ended, limit)
}
