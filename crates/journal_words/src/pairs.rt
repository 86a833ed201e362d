//! The audit of a journal as a subcommand, with what is done with its entries.
ghost use Rattle.std.specs.Prelude.{◌≡◌, ◌≤◌, ◌<◌, ◌+◌, ◌^◌, ◌↔◌, ℕ, List, [], length, IsTrue, IsErr, OnOk, IfErr, Some, vec_len, vec_capacity};
ghost use Rattle.wire_records.specs.declared.version.Version.{Version};
ghost use Rattle.journal_records.specs.Views.{answer_of};
ghost use Rattle.journal_records.specs.Replies.{EncodesAnswer};
ghost use Rattle.market_rules.specs.Market.{empty_market};
ghost use Rattle.batch_audit.specs.Legal.{IsIllegalPair};
ghost use Rattle.word_driver.specs.Private.{HaltsWith};
ghost use Rattle.journal_words.specs.Watching.{SeesOne, over_pairs};
ghost use Rattle.journal_words.specs.Private.{NumbersFit};

use crate::on_pair::OnPair;
use batch_audit::Audit;
use file_units::Prefix;
use journal_records::{
    MOST_PAIR, PairFramed, PairView, ReplyView, is_overlong, journal_version, next_pair, reply,
};
use market_core::Market;
use std::alloc::Global;
use word_driver::{Halt, ServesWord};

/// A subcommand over entries: it audits them one after the other, from the empty market of a journal's version or from another
/// market.
#[derive(Drop)]
pub struct Pairs<P: OnPair> {
    alloc: Global,
    audit: Audit,
    pairs: u64,
    on: P,
    ghost next: { audit.next_order + 1 < 2 ^ 64 },
    ghost within: { P.is_within on audit pairs } by { P.within_is_prop on audit pairs },
}

impl<P: OnPair + Drop> Pairs<P> {
    /// Creates an audit from the first entry of a journal on, with what is done with the entries. Allocates nothing.
    pub fn new(alloc: Global, on: P) -> Pairs<P>
        requires { (version : Version) → P.is_within on (empty_market version) 0 }
        ensures new { ⟦<Pairs<P> as ServesWord>⟧.is_new result }
        ensures starts { ⟦<Pairs<P> as ServesWord>⟧.start result
            ≡ (λ version. record { market = empty_market version; pairs = 0; seen = P.seen on (empty_market version) }) }
    {
        Pairs {
            alloc,
            audit: Audit::new(alloc),
            pairs: 0,
            on,
        }
    }

    /// Creates an audit that continues a market whose next order gets a number below 2^63, with what is done with the entries
    /// that follow. They are counted from 0. Allocates nothing.
    pub fn over(alloc: Global, market: Market, on: P) -> Pairs<P>
        requires within { P.is_within on market 0 }
        requires next { market.next_order < 2 ^ 63 }
        ensures state { ⟦<Pairs<P> as ServesWord>⟧.state result
            ≡ record { market = market; pairs = 0; seen = P.seen on market } }
        ensures ready { (left : ℕ) → left < 2 ^ 64 → ⟦<Pairs<P> as ServesWord>⟧.is_ready result left }
    {
        Pairs {
            alloc,
            audit: Audit::over(market),
            pairs: 0,
            on,
        }
    }

    // Audits an entry, and hands it to `on`.
    fn take_pair(&mut self, pair: &PairView<'_>, text: &mut Vec<u8>) -> Result<(), Halt<P::Stop>>
        requires next { self.old.audit.next_order + 2 < 2 ^ 64 }
        requires few { self.old.pairs + 1 < 2 ^ 64 }
        requires empty { text.old.items ≡ [] }
        requires none { vec_len text.old ≡ 0 }
        requires room { P.ROOM ≤ vec_capacity text.old }
        ensures room { vec_capacity text.old ≤ vec_capacity text.new }
        ensures seen { OnOk result (SeesOne P.watch
            (record { market = self.old.audit; pairs = self.old.pairs; seen = P.seen self.old.on self.old.audit }) pair.now
            (record { market = self.new.audit; pairs = self.new.pairs; seen = P.seen self.new.on self.new.audit }) text.new.items) }
        ensures halted { IfErr result (λ halt. HaltsWith (over_pairs P.watch)
            (record { market = self.old.audit; pairs = self.old.pairs; seen = P.seen self.old.on self.old.audit })
            (Some pair.now) halt text.new.items) }
    {
        match reply(&pair.answered()) {
            Some(reply) => self.take_replied(pair, &reply, text),
            None => self.reject(pair, text),
        }
    }

    // Audits an entry whose second record encodes this answer, and hands it to `on`.
    fn take_replied(
        &mut self,
        pair: &PairView<'_>,
        reply: &ReplyView<'_>,
        text: &mut Vec<u8>,
    ) -> Result<(), Halt<P::Stop>>
        requires replied { EncodesAnswer pair.now.1 (answer_of reply.now) }
        requires next { self.old.audit.next_order + 2 < 2 ^ 64 }
        requires few { self.old.pairs + 1 < 2 ^ 64 }
        requires empty { text.old.items ≡ [] }
        requires none { vec_len text.old ≡ 0 }
        requires room { P.ROOM ≤ vec_capacity text.old }
        ensures room { vec_capacity text.old ≤ vec_capacity text.new }
        ensures seen { OnOk result (SeesOne P.watch
            (record { market = self.old.audit; pairs = self.old.pairs; seen = P.seen self.old.on self.old.audit }) pair.now
            (record { market = self.new.audit; pairs = self.new.pairs; seen = P.seen self.new.on self.new.audit }) text.new.items) }
        ensures halted { IfErr result (λ halt. HaltsWith (over_pairs P.watch)
            (record { market = self.old.audit; pairs = self.old.pairs; seen = P.seen self.old.on self.old.audit })
            (Some pair.now) halt text.new.items) }
    {
        let change = match self.audit.judge(pair, reply) {
            Ok(Some(change)) => change,
            Ok(None) => return self.reject(pair, text),
            Err(_) => return Err(Halt::Memory),
        };
        match self
            .on
            .legal(&mut self.audit, pair, reply, change, self.pairs, text)
        {
            Ok(()) => {}
            Err(_) => return Err(Halt::Memory),
        }
        self.pairs += 1;
        Ok(())
    }

    // Hands the first invalid entry to `on`, and stops there.
    fn reject(&mut self, pair: &PairView<'_>, text: &mut Vec<u8>) -> Result<(), Halt<P::Stop>>
        requires illegal { IsIllegalPair self.old.audit pair.now }
        requires next { self.old.audit.next_order + 1 < 2 ^ 64 }
        requires few { self.old.pairs + 1 < 2 ^ 64 }
        requires empty { text.old.items ≡ [] }
        requires none { vec_len text.old ≡ 0 }
        requires room { P.ROOM ≤ vec_capacity text.old }
        ensures room { vec_capacity text.old ≤ vec_capacity text.new }
        ensures stops { IsErr result }
        ensures halted { IfErr result (λ halt. HaltsWith (over_pairs P.watch)
            (record { market = self.old.audit; pairs = self.old.pairs; seen = P.seen self.old.on self.old.audit })
            (Some pair.now) halt text.new.items) }
    {
        match self.on.illegal(&mut self.audit, pair, self.pairs, text) {
            Ok(why) => Err(Halt::Stopped(why)),
            Err(_) => Err(Halt::Memory),
        }
    }
}

impl<P: OnPair + Drop> ServesWord for Pairs<P> {
    ghost use Rattle.wire_records.specs.Records.{Record};
    ghost use Rattle.journal_records.specs.Pairs.{longest_pair};
    ghost use Rattle.journal_words.specs.Watching.{Watched};

    type Stop = P::Stop;

    const ROOM: usize = P::ROOM;

    ghost ROOM = { P.ROOM };

    const LONGEST: usize = MOST_PAIR;

    ghost LONGEST = { longest_pair };

    ghost Unit = { Record × Record };

    ghost State = { Watched P.Seen };

    ghost word = { over_pairs P.watch };

    ghost is_new = { λ p. (p.pairs ≡ 0) × ((version : Version) → P.is_within p.on (empty_market version) 0) };

    ghost start = { λ p version. record { market = empty_market version; pairs = 0; seen = P.seen p.on (empty_market version) } };

    ghost state = { λ p. record { market = p.audit; pairs = p.pairs; seen = P.seen p.on p.audit } };

    ghost is_ready = { λ p left. NumbersFit p.audit p.pairs left };

    fn open(&mut self, bytes: &[u8], _text: &mut Vec<u8>) -> bool {
        match journal_version(bytes) {
            None => false,
            Some(version) => {
                self.audit = Audit::over(Market::new_in(self.alloc, version));
                true
            }
        }
    }

    fn take(&mut self, bytes: &[u8], text: &mut Vec<u8>) -> Result<Prefix, Halt<P::Stop>> {
        match next_pair(bytes) {
            PairFramed::Whole(pair, taken) => match self.take_pair(&pair, text) {
                Ok(()) => Ok(Prefix::Taken(taken)),
                Err(halt) => Err(halt),
            },
            PairFramed::End => Ok(Prefix::NoBytes),
            PairFramed::Broken if is_overlong(bytes) => Ok(Prefix::Overlong),
            PairFramed::Broken => Ok(Prefix::Short),
        }
    }

    fn close(&mut self, text: &mut Vec<u8>) -> Result<(), Halt<P::Stop>> {
        self.on.end(&mut self.audit, self.pairs, text)
    }
}
