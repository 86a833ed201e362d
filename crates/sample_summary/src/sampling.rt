//! The run of a sample, with its audit.
ghost use Rattle.std.specs.Prelude.{◌≡◌, ◌≤◌, ◌<◌, ◌+◌, ◌^◌, OnOk, IfOk};
ghost use Rattle.wire_records.specs.Records.{Record};
ghost use Rattle.wire_records.specs.Formats.{commands};
ghost use Rattle.market_rules.specs.Market.{Market};
ghost use Rattle.batch_audit.specs.Legal.{IsLegalPair};
ghost use Rattle.sample_summary.specs.Summary.{Summarizes, most_sampled};
ghost use Rattle.sample_summary.specs.Private.{State, IsWritten, AddsAnswer, CountsFit, SamplesOne, IsReadyToSample};

use crate::counting::{Counts, counts_of};
use crate::line::line_of;
use batch_audit::{Audit, Legality};
use exchange_session::Session;
use file_units::{Prefix, TakesUnits, take_units};
use journal_records::{PairFramed, PairView, next_pair};
use sample_market::sample_commands;
use std::alloc::Global;
use wire_records::{COMMAND_MAGIC, Memory};

// The session that serves the records, the audit of the entries that it writes, the last of these, and the counts.
#[derive(Drop)]
struct Sampling {
    session: Session,
    audit: Audit,
    pair: Vec<u8>,
    counts: Counts,
}

// Audits an entry that is valid.
fn audit_legal(audit: &mut Audit, pair: &PairView<'_>) -> Result<(), Memory>
    requires legal { (new : Market) × IsLegalPair audit.old pair.now new }
    requires next { audit.old.next_order + 1 < 2 ^ 64 }
    ensures made { OnOk result (IsLegalPair audit.old pair.now audit.new) }
{
    match audit.pair(pair)? {
        Legality::Legal => Ok(()),
        Legality::Illegal => unreachable!(),
    }
}

// Adds the counts of one entry to those of the others.
fn add(counts: &mut Counts, more: Counts)
    requires cleared { counts.old.cleared + more.cleared < 2 ^ 64 }
    requires skipped { counts.old.skipped + more.skipped < 2 ^ 64 }
    requires units { counts.old.units + more.units < 2 ^ 64 }
    ensures cleared { counts.new.cleared ≡ counts.old.cleared + more.cleared }
    ensures skipped { counts.new.skipped ≡ counts.old.skipped + more.skipped }
    ensures units { counts.new.units ≡ counts.old.units + more.units }
{
    counts.cleared += more.cleared;
    counts.skipped += more.skipped;
    counts.units += more.units;
}

// Audits the entry in these bytes, and counts it.
fn take_pair(audit: &mut Audit, bytes: &[u8], counts: &mut Counts) -> Result<(), Memory>
    requires written { IsWritten audit.old bytes.now }
    requires next { audit.old.next_order + 1 < 2 ^ 64 }
    requires room { CountsFit counts.old 5 }
    ensures taken { OnOk result ((written : IsWritten audit.old bytes.now)
        → (audit.new ≡ written.new) × AddsAnswer written.pair.answer counts.old counts.new) }
{
    match next_pair(bytes) {
        PairFramed::Whole(pair, _) => {
            audit_legal(audit, &pair)?;
            add(counts, counts_of(&pair));
            Ok(())
        }
        PairFramed::End => unreachable!(),
        PairFramed::Broken => unreachable!(),
    }
}

impl Sampling {
    ghost use Rattle.wire_records.specs.declared.version.Version.TheVariants.{One};
    ghost use Rattle.market_rules.specs.Market.{empty_market};
    ghost use Rattle.sample_summary.specs.Private.{state_of};

    // Makes the state before the first record. The longest file has 928,788 bytes.
    fn new(alloc: Global) -> Sampling
        ensures ready { IsReadyToSample result 928788 }
        ensures none { state_of result
            ≡ record { market = empty_market One; counts = record { cleared = 0; skipped = 0; units = 0 } } }
    {
        Sampling {
            session: Session::new(alloc),
            audit: Audit::new(alloc),
            pair: Vec::new(alloc),
            counts: Counts {
                cleared: 0,
                skipped: 0,
                units: 0,
            },
        }
    }
}

impl TakesUnits<()> for Sampling {
    ghost use Rattle.sample_summary.specs.Private.{state_of};

    type Fault = Memory;

    ghost Unit = { Record };

    ghost State = { State };

    ghost format = { commands };

    ghost state = { state_of };

    ghost steps = { λ old asked new before after. SamplesOne old asked new };

    ghost breaks = { λ old asked fault before after. Unit {0} };

    ghost is_ready = { λ s left. IsReadyToSample s left };

    fn take(&mut self, bytes: &[u8], _out: &mut ()) -> Result<Prefix, Memory> {
        // Called for its contract: the audit's market is consistent.
        let _consistent = self.audit.market();
        self.pair.clear();
        match self.session.serve_next(bytes, &mut self.pair)? {
            Prefix::Taken(taken) => {
                take_pair(&mut self.audit, &self.pair, &mut self.counts)?;
                Ok(Prefix::Taken(taken))
            }
            Prefix::NoBytes => Ok(Prefix::NoBytes),
            Prefix::Overlong => Ok(Prefix::Overlong),
            Prefix::Short => Ok(Prefix::Short),
        }
    }
}

/// Returns the line on a sample of so many orders, 1 to 16,384, drawn from the start value `number`: how many of its
/// four batches cleared, how many were skipped, and the sum of all rates that were published.
///
/// The command file is made, and its records are served one after the other; each entry is audited, counted and
/// dropped. Returns `Memory` if there is none for the file, the two markets, a batch or its audit. It costs what a run
/// of the file and an audit of its journal cost, and holds the file, the market of either, and one entry.
pub fn sample_line(alloc: Global, number: u64, orders: u32) -> Result<Vec<u8>, Memory>
    requires some { 1 ≤ orders }
    requires few { orders ≤ most_sampled }
    ensures { IfOk result (λ line. Summarizes number orders line.items) }
{
    let file = sample_commands(alloc, number, orders)?;
    let mut sampling = Sampling::new(alloc);
    take_units(&file, COMMAND_MAGIC.len(), false, &mut sampling, &mut ())?;
    line_of(alloc, orders, sampling.counts)
}
