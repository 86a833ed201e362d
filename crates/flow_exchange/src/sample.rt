//! `flow sample NUMBER ORDERS`: makes a sample of a large market, and writes a line on it.
ghost use Rattle.std.specs.Prelude.{◌≡◌, ◌≢◌, ◌≤◌, ℕ, List, Option};
ghost use Rattle.flow_io.specs.Changes.{change};
ghost use Rattle.sample_summary.specs.Summary.{most_sampled};
ghost use Rattle.flow_exchange.specs.Private.{FormServes};
ghost use Rattle.flow_exchange.specs.declared.form.Form.TheVariants.{Sample};

use exit_status::Status;
use flow_io::Sink;
use sample_summary::sample_line;
use std::alloc::Global;

/// Makes the command file of a sample, runs it, audits the journal, and writes a line with its counts by one call. Reads
/// nothing. Holds the file, the markets of session and audit, and one entry.
pub(crate) fn sample<K: Sink>(alloc: Global, number: u64, orders: u32, out: &mut K) -> Status
    requires some { 1 ≤ orders }
    requires few { orders ≤ most_sampled }
    ensures asked { result ≢ Status.Usage }
    // Whatever a source has left, and whatever its count of faults is, both are unchanged.
    ensures does { (limit : ℕ) (rest : Option (List ℕ)) (faults : ℕ) → FormServes (Sample number orders) limit result
        (record { before = rest; after = rest; faults = faults; faults_after = faults })
        (change K.held K.faults out.old out.new) }
{
    match sample_line(alloc, number, orders) {
        Ok(line) => match out.write(&line) {
            Ok(()) => Status::Done,
            Err(_) => Status::WriteFault,
        },
        Err(_) => Status::NoMemory,
    }
}
