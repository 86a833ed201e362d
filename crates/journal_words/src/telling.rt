//! The lines of a report.
ghost use Rattle.std.proofs.Props.{props};
ghost use Rattle.journal_words.specs.Words.{telling};

use crate::on_pair::OnPair;
use batch_audit::{Audit, Change};
use batch_report::report_pair;
use journal_records::{PairView, ReplyView};
use word_driver::{Halt, Memory};

/// Writes the lines of each valid entry.
#[derive(Drop)]
pub struct Telling;

impl OnPair for Telling {
    type Stop = u64;

    const ROOM: usize = 0;

    ghost ROOM = { 0 };

    ghost Seen = { Unit {0} };

    ghost watch = { telling };

    ghost seen = { λ t market. tt };

    ghost is_within = { λ t market pairs. Unit {0} };

    ghost within_is_prop = { λ state market pairs. Prim.hlevel props };

    fn legal(
        &mut self,
        audit: &mut Audit,
        pair: &PairView<'_>,
        _reply: &ReplyView<'_>,
        change: Change<'_>,
        pairs: u64,
        text: &mut Vec<u8>,
    ) -> Result<(), Memory> {
        match audit.make(pair, change) {
            Ok(()) => report_pair(audit, pair, pairs + 1, text),
            Err(_) => Err(Memory),
        }
    }

    fn illegal(
        &self,
        _audit: &mut Audit,
        _pair: &PairView<'_>,
        pairs: u64,
        _text: &mut Vec<u8>,
    ) -> Result<u64, Memory> {
        Ok(pairs + 1)
    }

    fn end(&self, _audit: &mut Audit, _pairs: u64, _text: &mut Vec<u8>) -> Result<(), Halt<u64>> {
        Ok(())
    }
}
