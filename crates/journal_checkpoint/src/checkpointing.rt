//! What is written at the end of a journal.
ghost use Rattle.std.proofs.Props.{props};
ghost use Rattle.market_rules.specs.Market.{Market as market_value};
ghost use Rattle.journal_checkpoint.specs.Checkpointing.{checkpointing};

use batch_audit::{Audit, Change};
use journal_records::{PairView, ReplyView};
use journal_words::OnPair;
use market_core::Market;
use market_snapshot::write_market;
use std::alloc::Global;
use std::mem::replace;
use word_driver::{Halt, Memory};

/// Writes the market of the journal at its end.
#[derive(Drop)]
pub struct Checkpointing {
    alloc: Global,
}

impl Checkpointing {
    /// Creates it. Allocates nothing before the end.
    pub fn new(alloc: Global) -> Checkpointing
        ensures { (market : market_value) → ⟦<Checkpointing as OnPair>⟧.is_within result market 0 }
    {
        Checkpointing { alloc }
    }
}

impl OnPair for Checkpointing {
    type Stop = u64;

    const ROOM: usize = 0;

    ghost ROOM = { 0 };

    ghost Seen = { Unit {0} };

    ghost watch = { checkpointing };

    ghost seen = { λ c market. tt };

    ghost is_within = { λ c market pairs. Unit {0} };

    ghost within_is_prop = { λ state market pairs. Prim.hlevel props };

    fn legal(
        &mut self,
        audit: &mut Audit,
        pair: &PairView<'_>,
        _reply: &ReplyView<'_>,
        change: Change<'_>,
        _pairs: u64,
        _text: &mut Vec<u8>,
    ) -> Result<(), Memory> {
        audit.make(pair, change)
    }

    fn illegal(
        &self,
        _audit: &mut Audit,
        _pair: &PairView<'_>,
        pairs: u64,
        _text: &mut Vec<u8>,
    ) -> Result<u64, Memory> {
        Ok(pairs + 1)
    }

    fn end(&self, audit: &mut Audit, _pairs: u64, text: &mut Vec<u8>) -> Result<(), Halt<u64>> {
        let mut market = replace(audit, Audit::new(self.alloc)).into_market();
        let written = write_market(&mut market, text);
        *audit = Audit::over(market);
        match written {
            Ok(()) => Ok(()),
            Err(_) => Err(Halt::Memory),
        }
    }
}
