//! `flow run`: reads a command file, and writes its journal.
ghost use Rattle.std.specs.Prelude.{◌≢◌};
ghost use Rattle.flow_io.specs.Changes.{change};
ghost use Rattle.flow_exchange.specs.Private.{FormServes};
ghost use Rattle.flow_exchange.specs.Running.{KeepsPace, WritesInPieces};
ghost use Rattle.flow_exchange.specs.declared.form.Form.TheVariants.{Run as run_form};

use crate::ending::plain_status;
use exchange_session::Run;
use exit_status::Status;
use flow_io::{Sink, Source};
use std::alloc::Global;
use word_driver::go;

/// Reads the source to its end or the limit, and writes the journal of its records: one write for the magic, and one for each
/// entry. A record that is complete is served, and its entry written, before the source is asked for more. Holds a window of
/// 1,029 bytes, and one buffer for an entry; both are allocated before the first read.
pub(crate) fn run<S: Source, K: Sink>(
    alloc: Global,
    limit: u64,
    source: &mut S,
    out: &mut K,
) -> Status
    ensures asked { result ≢ Status.Usage }
    ensures does { FormServes run_form limit result (change S.rest S.faults source.old source.new)
        (change K.held K.faults out.old out.new) }
    ensures paced { KeepsPace limit result (change S.rest S.faults source.old source.new)
        (change K.held K.faults out.old out.new) }
    ensures pieces { WritesInPieces K.calls K.held out.old out.new result }
{
    let ended = go(alloc, limit, source, out, Run::new(alloc));
    plain_status(ended, limit)
}
