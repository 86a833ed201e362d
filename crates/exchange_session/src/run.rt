//! `run` as a subcommand: records in, entries out.
ghost use Rattle.std.specs.Prelude.{◌≡◌, ℕ};
ghost use Rattle.wire_records.specs.declared.version.Version.TheVariants.{One};
ghost use Rattle.market_rules.specs.Market.{empty_market};
ghost use Rattle.exchange_session.specs.Serving.{HasNumbers};
ghost use Rattle.exchange_session.specs.Running.{run};

use crate::Session;
use file_units::Prefix;
use journal_records::{MOST_PLAIN_PAIR, journal_magic};
use market_core::Market;
use std::alloc::Global;
use wire_records::{MOST_RECORD, command_version};
use word_driver::{Halt, Never, ServesWord};

/// A run: it serves the records of a command file, one after the other, over a session of its own, whose market is of
/// the file's version. Only the entry of a batch makes the buffer grow.
#[derive(Drop)]
pub struct Run {
    alloc: Global,
    session: Session,
}

impl Run {
    /// Makes a run that hasn't begun. Takes no memory.
    pub fn new(alloc: Global) -> Run
        ensures { ⟦<Run as ServesWord>⟧.is_new result }
    {
        Run {
            alloc,
            session: Session::new(alloc),
        }
    }

    /// Makes a run that has begun, and continues with this session. Takes no memory.
    pub fn over(alloc: Global, session: Session) -> Run
        ensures state { ⟦<Run as ServesWord>⟧.state result ≡ session }
        ensures ready { (left : ℕ) → HasNumbers session left → ⟦<Run as ServesWord>⟧.is_ready result left }
    {
        Run { alloc, session }
    }
}

impl ServesWord for Run {
    ghost use Rattle.wire_records.specs.Records.{Record, longest_record};
    ghost use Rattle.journal_records.specs.Pairs.{longest_plain_pair};
    ghost use Rattle.market_rules.specs.Market.{Market};

    type Stop = Never;

    const ROOM: usize = MOST_PLAIN_PAIR;

    ghost ROOM = { longest_plain_pair };

    const LONGEST: usize = MOST_RECORD;

    ghost LONGEST = { longest_record };

    ghost Unit = { Record };

    ghost State = { Market };

    ghost word = { run };

    ghost is_new = { λ r. r.session ≡ empty_market One };

    ghost start = { λ r version. empty_market version };

    ghost state = { λ r. r.session };

    ghost is_ready = { λ r left. HasNumbers r.session left };

    fn open(&mut self, bytes: &[u8], text: &mut Vec<u8>) -> bool {
        match command_version(bytes) {
            None => false,
            Some(version) => {
                self.session = Session::over(Market::new_in(self.alloc, version));
                text.extend_from_slice(&journal_magic(version)).unwrap();
                true
            }
        }
    }

    fn take(&mut self, bytes: &[u8], text: &mut Vec<u8>) -> Result<Prefix, Halt<Never>> {
        match self.session.serve_next(bytes, text) {
            Ok(prefix) => Ok(prefix),
            Err(_) => Err(Halt::Memory),
        }
    }

    fn close(&mut self, _text: &mut Vec<u8>) -> Result<(), Halt<Never>> {
        Ok(())
    }
}
