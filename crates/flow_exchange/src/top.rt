//! The call that the program makes.
ghost use Rattle.std.specs.Prelude.{◌≡◌, ◌≢◌, ℕ, List, map, string_bytes};
ghost use Rattle.flow_io.specs.Changes.{change};
ghost use Rattle.exit_status.specs.Limits.{input_limit};
ghost use Rattle.flow_exchange.specs.Forms.{Asks};
ghost use Rattle.flow_exchange.specs.Private.{FormServes};
ghost use Rattle.flow_exchange.specs.Program.{ServesCall};
ghost use Rattle.flow_exchange.specs.Promising.{Promises};
ghost use Rattle.flow_exchange.specs.Running.{KeepsPace, WritesInPieces};
ghost use Rattle.flow_exchange.specs.Allocating.{MayRunOut};

use crate::audit::audit;
use crate::checkpoint::checkpoint;
use crate::encode::encode;
use crate::explain::explain;
use crate::form::{Form, form_of};
use crate::report::report;
use crate::resume::resume;
use crate::run::run;
use crate::sample::sample;
use crate::statement::statement;
use exit_status::{INPUT_LIMIT, Status};
use flow_io::{Sink, Source};
use std::alloc::Global;

// Does the form.
fn do_form<S: Source, K: Sink>(
    alloc: Global,
    form: Form,
    limit: u64,
    source: &mut S,
    out: &mut K,
) -> Status
    requires form { (words : List (List ℕ)) × Asks words form }
    ensures asked { result ≢ Status.Usage }
    ensures does { FormServes form limit result (change S.rest S.faults source.old source.new)
        (change K.held K.faults out.old out.new) }
    ensures paced { form ≡ Form.Run → KeepsPace limit result (change S.rest S.faults source.old source.new)
        (change K.held K.faults out.old out.new) }
    ensures pieces { form ≡ Form.Run → WritesInPieces K.calls K.held out.old out.new result }
{
    match form {
        Form::Run => run(alloc, limit, source, out),
        Form::Audit => audit(alloc, limit, source, out),
        Form::Explain => explain(alloc, limit, source, out),
        Form::Report => report(alloc, limit, source, out),
        Form::Encode(version) => encode(alloc, version, limit, source, out),
        Form::Sample { number, orders } => sample(alloc, number, orders, out),
        Form::Statement { number } => statement(alloc, number, limit, source, out),
        Form::Checkpoint => checkpoint(alloc, limit, source, out),
        Form::Resume => resume(alloc, limit, source, out),
    }
}

/// Does what [`flow`] does, which calls it with [`INPUT_LIMIT`].
pub fn flow_limited<S: Source, K: Sink, N: Sink>(
    alloc: Global,
    words: &[String],
    limit: u64,
    source: &mut S,
    out: &mut K,
    notes: &mut N,
) -> Status
    ensures serves { ServesCall limit (map string_bytes words.now) result (change S.rest S.faults source.old source.new)
        (change K.held K.faults out.old out.new) (change N.held N.faults notes.old notes.new) }
    // Where memory may run out.
    ensures allocates { (form : Form) → Asks (map string_bytes words.now) form → MayRunOut form limit result
        (change S.rest S.faults source.old source.new) (change K.held K.faults out.old out.new) }
    // What is promised of the entries that are read or written.
    ensures promises { (form : Form) → Asks (map string_bytes words.now) form → Promises form limit (S.rest source.old) }
    // How far a run that was cut short has read.
    ensures paced { Asks (map string_bytes words.now) Form.Run → KeepsPace limit result
        (change S.rest S.faults source.old source.new) (change K.held K.faults out.old out.new) }
    // A run writes the magic by one call, and each entry by one.
    ensures pieces { Asks (map string_bytes words.now) Form.Run → WritesInPieces K.calls K.held out.old out.new result }
    // The arguments are no form: nothing is read, and nothing is written to the output.
    ensures idle { result ≡ Status.Usage → (source.new ≡ source.old) × (out.new ≡ out.old) }
{
    let status = match form_of(words) {
        Some(form) => do_form(alloc, form, limit, source, out),
        None => Status::Usage,
    };
    let _ = status.write_line(notes);
    status
}

/// The program: does what the arguments ask for with a source and two sinks, and returns the status.
///
/// - `run` reads a command file from the source, at most 2^40 bytes, and writes its journal to `out`: one write for the magic, and
///   one for each entry.
/// - `audit` reads a history, whoever wrote it: the magic of a journal or the checkpoint of a consistent market, and entries that
///   continue it. It writes a line to `out` if each entry is valid and nothing follows them.
/// - `explain` does the same, and if an entry is invalid, writes a line on what is found of it.
/// - `report` reads a history in the same way, and writes the text of each valid entry, by one write each.
/// - `encode` reads lines of JSON, and writes the command file of what they ask for, of version 1, or with `encode 2`, `encode 3` or
///   `encode 4` of that version: one write for the magic, and one for the records of each line.
/// - `sample NUMBER ORDERS` reads nothing: it makes the command file of a sample of this many orders, 1 to 16,384, that are drawn
///   from the number on, runs it, audits the journal, and writes a line with its counts, by one write.
/// - `statement NUMBER` reads a history, and writes the balances of the account of this number that are carried forward from a checkpoint,
///   what it sees of each valid entry, and its balances at the end, by one write each.
/// - `checkpoint` reads a history, and writes the market at its end, by one write.
/// - `resume` reads a journal or a checkpoint, and after it a command file of the same version or nothing, and writes the entries of
///   the new commands, by one write each.
///
/// On every status but `Done` one line is written to `notes`, standard error; a fault there changes nothing.
///
/// A command of `run`, but a batch, costs the same however many accounts and orders there are, a cancel and a credit on average. A
/// cancel leaves a gap, and gaps are closed together, in one pass over the book, once they are more than the live orders or a batch is
/// held. A credit stores the credits of the accounts before its own that aren't stored yet, each of them once. Memory
/// of `run`, `audit`, `explain`, `report`, `statement` and `checkpoint` is that of the market, whatever the length of the input; a
/// checkpoint is held completely until its market is made. It is a window of 1,029 bytes (`run`) or 263,178, one buffer for an entry
/// or its text, 1,048 bytes for each account, 72 bytes for each live order besides its legs, and the table of what orders need.
/// Balances, credits and orders each are in one block, which doubles as it grows: it has up to twice these bytes, and while it is moved the
/// smaller one is there too. At the end `checkpoint` also holds its whole text. `encode` and `resume` hold their whole input.
///
/// Each form but `encode`, `sample` and `resume` writes what is complete before it asks for more: after a read fault the output is
/// what the bytes so far make if more follow, as after `run` the entries of all complete records; `encode` and `resume` have written
/// nothing. After a write fault `run` has read at most 1,030 bytes past the last entry that was written.
pub fn flow<S: Source, K: Sink, N: Sink>(
    alloc: Global,
    words: &[String],
    source: &mut S,
    out: &mut K,
    notes: &mut N,
) -> Status
    ensures serves { ServesCall input_limit (map string_bytes words.now) result (change S.rest S.faults source.old source.new)
        (change K.held K.faults out.old out.new) (change N.held N.faults notes.old notes.new) }
    ensures allocates { (form : Form) → Asks (map string_bytes words.now) form → MayRunOut form input_limit result
        (change S.rest S.faults source.old source.new) (change K.held K.faults out.old out.new) }
    ensures promises { (form : Form) → Asks (map string_bytes words.now) form → Promises form input_limit (S.rest source.old) }
    ensures paced { Asks (map string_bytes words.now) Form.Run → KeepsPace input_limit result
        (change S.rest S.faults source.old source.new) (change K.held K.faults out.old out.new) }
    ensures pieces { Asks (map string_bytes words.now) Form.Run → WritesInPieces K.calls K.held out.old out.new result }
    ensures idle { result ≡ Status.Usage → (source.new ≡ source.old) × (out.new ≡ out.old) }
{
    flow_limited(alloc, words, INPUT_LIMIT, source, out, notes)
}
