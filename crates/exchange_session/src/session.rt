//! One command record, and the entry that it gets.
ghost use Rattle.std.specs.Prelude.{◌≡◌, ◌++◌, ◌+◌, ◌-◌, ◌^◌, ◌<◌, ◌≤◌, ◌⊎◌, ℕ, List, [], length, Ok, IfOk, OnErr, OnOk, vec_len, vec_capacity};
ghost use Rattle.std.specs.Borrow.{sem};
ghost use Rattle.wire_records.specs.Commands.{Plain};
ghost use Rattle.wire_records.specs.CommandRecords.{record_of, IsCommand, HasShortRow};
ghost use Rattle.wire_records.specs.Records.{encoding};
ghost use Rattle.wire_records.specs.Views.{command_in, command_of};
ghost use Rattle.wire_records.specs.Versions.{IsReadAs};
ghost use Rattle.journal_records.specs.Pairs.{plain_room};
ghost use Rattle.canonical_rule.specs.Canonical.{IsCanonicalOutcome};
ghost use Rattle.market_rules.specs.Journal.{Step};
ghost use Rattle.market_rules.specs.Allocating.{MayAllocate, RecordMayAllocate};
ghost use Rattle.exchange_session.specs.Halves.{IsAnswered};
ghost use Rattle.exchange_session.specs.Private.{IsAsked};

use crate::answered::{Answered, HeldBatch};
use crate::batch::{answer_batch, hold_batch};
use file_units::Prefix;
use flow_orders::Order;
use journal_records::{ReplyView, put_reply, reserve_plain, reserve_reply, write_plain};
use market_core::Market;
use std::alloc::Global;
use std::marker::Model;
use wire_records::{
    Command, CommandView, Framed, MOST_BODY, Memory, RecordView, Refusal, Reply, next_record,
    write_command,
};

/// The market of a run, from record to record. Contracts see it as that market.
pub struct Session {
    alloc: Global,
    market: Market,
}

impl Drop for Session {
    // By hand, so that the end of a value is one call in the proofs of those who own it (docs/PROVING_TRAPS.md).
    fn drop(self) {
        let Session {
            alloc: _,
            market: _,
        } = self;
    }
}

impl Model for Session {
    ghost use Rattle.market_rules.specs.Market.{Market as market_value};

    ghost Value = { market_value };

    ghost view = { λ session. session.market };
}

// What a record asks for: a plain reply, which was given, or a batch with this budget, which is allowed.
enum Asked {
    Plain(Reply),
    Batch(u32),
}

/// What is told of a command that was served: its reply, or where that of a batch is.
#[derive(Drop)]
pub enum Served {
    /// The reply to a command that held no batch. A refusal is one.
    Plain(Reply),
    /// A batch was held, and the record of its reply begins at this place of the entry, in bytes from 0.
    Batch(usize),
}

impl Served {
    ghost use Rattle.wire_records.specs.Records.{Record};
    ghost use Rattle.wire_records.specs.Commands.{Pair};
    ghost use Rattle.flow_orders.specs.Outcomes.{Outcome};
    ghost use Rattle.journal_records.specs.Pairs.{IsPair, pair_encoding};
    ghost use Rattle.journal_records.specs.Views.{answer_of};
    ghost use Rattle.exchange_session.specs.Serving.{IsToldOf};

    /// Returns the reply, that of a batch out of the bytes of the entry of which this is told. Constant cost; doesn't allocate.
    pub fn reply<'a>(&self, entry: &'a [u8]) -> ReplyView<'a>
        requires { (pair : Pair Record Outcome) × IsPair pair × (entry.now ≡ pair_encoding pair) × IsToldOf pair self.now }
        ensures { (pair : Pair Record Outcome) → IsPair pair → entry.now ≡ pair_encoding pair → IsToldOf pair self.now →
            answer_of result ≡ pair.answer }
    {
        match *self {
            Served::Plain(reply) => ReplyView::Plain(reply),
            Served::Batch(place) => ReplyView::of(&entry[place..]),
        }
    }
}

// Returns the reply to a command of the market's version, or the batch that it asks for.
#[inline(always)]
fn reply_to_command(market: &mut Market, command: &CommandView<'_>) -> Result<Asked, Memory>
    requires read { IsReadAs market.old.version (record_of (command_of command.now)) (Ok (command_of command.now)) }
    requires next { market.old.next_order + 1 < 2 ^ 64 }
    ensures step { IfOk result (IsAsked market.old (record_of (command_of command.now)) market.new) }
    ensures stays { OnErr result (market.new ≡ market.old) }
    ensures wanted { OnErr result (MayAllocate market.old (command_of command.now)) }
{
    match *command {
        CommandView::RunBatch { budget } => match market.batch_allowed(budget) {
            Ok(()) => Ok(Asked::Batch(budget)),
            Err(refusal) => Ok(Asked::Plain(Reply::Refused(refusal))),
        },
        _ => Ok(Asked::Plain(market.apply(command)?)),
    }
}

// Returns the reply to a record, or the batch that it asks for.
fn reply_to(market: &mut Market, asked: &RecordView<'_>) -> Result<Asked, Memory>
    requires next { market.old.next_order + 1 < 2 ^ 64 }
    ensures step { IfOk result (IsAsked market.old asked.now market.new) }
    ensures stays { OnErr result (market.new ≡ market.old) }
    ensures wanted { OnErr result (RecordMayAllocate market.old asked.now) }
{
    match market.read(asked) {
        Ok(command) => reply_to_command(market, &command),
        Err(unread) => Ok(Asked::Plain(Reply::Refused(unread))),
    }
}

// Returns the reply to a command of any version, whose record begins these bytes, or the batch that it asks for.
fn reply_to_written(market: &mut Market, command: &Command, bytes: &[u8]) -> Result<Asked, Memory>
    requires fits { IsCommand (command_in command.now) }
    requires written { bytes.now ≡ encoding (record_of (command_in command.now)) }
    requires next { market.old.next_order + 1 < 2 ^ 64 }
    ensures step { IfOk result (IsAsked market.old (record_of (command_in command.now)) market.new) }
    ensures stays { OnErr result (market.new ≡ market.old) }
{
    if command.tag() > market.version().most_tag() {
        return Ok(Asked::Plain(Reply::Refused(Refusal::UnknownTag)));
    }
    reply_to_command(market, &command.view(bytes))
}

/// Answers a command of a market, and puts its entry into an empty buffer, as [`Session::serve_command`] does. A command that holds no
/// batch is served then. For a batch that is allowed this finds the outcome and writes it: the market stays as it is, with the
/// orders that are live in the batch, until it settles the outcome, as [`Session::settle`] does. The command has few enough legs for its
/// record, if it has any, and the number that the next order gets is below 2^64 - 1.
///
/// The cost is that of [`Session::serve`] without what settling a batch costs. After `Memory` the market is as before, and the
/// buffer may hold the command's record.
pub fn answer_command(
    market: &mut Market,
    command: &Command,
    out: &mut Vec<u8>,
) -> Result<Answered, Memory>
    requires short { HasShortRow (command_in command.now) }
    requires next { market.old.next_order + 1 < 2 ^ 64 }
    requires empty { out.old.items ≡ [] }
    ensures answered { IfOk result (IsAnswered market.old (command_in command.now) market.new out.new.items) }
    ensures stays { OnErr result (market.new ≡ market.old) }
{
    write_command(command, out)?;
    reserve_reply(out)?;
    match reply_to_written(market, command, out)? {
        Asked::Plain(reply) => {
            put_reply(&reply, out);
            Ok(Answered::Plain(reply))
        }
        Asked::Batch(budget) => {
            let place = out.len();
            let alloc = market.alloc();
            let outcome = answer_batch(alloc, market, budget, out)?;
            Ok(Answered::Batch(HeldBatch { outcome, place }))
        }
    }
}

impl Session {
    ghost use Rattle.wire_records.specs.Records.{IsRecord, most_body};
    ghost use Rattle.wire_records.specs.declared.version.Version.TheVariants.{One};
    ghost use Rattle.wire_records.specs.Limits.{limits_of};
    ghost use Rattle.market_rules.specs.Market.{empty_market, IsConsistent};
    ghost use Rattle.market_rules.specs.Settling.{MaySettle};
    ghost use Rattle.wire_records.specs.Formats.{commands};
    ghost use Rattle.file_units.specs.Units.{IsTaken, StaysReady};
    ghost use Rattle.exchange_session.specs.Serving.{AnswersOne, ServesCommand, Puts, HasNumbers, AllocatesNext};
    ghost use Rattle.exchange_session.specs.Halves.{after_held};
    ghost use Rattle.exchange_session.specs.Listing.{StaysAsListed};

    /// Makes a session over the empty market of version One. Takes no memory.
    pub fn new(alloc: Global) -> Session
        ensures { result ≡ empty_market One }
    {
        Session::over(Market::new(alloc))
    }

    /// Makes a session over this market: it serves the records that come next, of the market's version. Takes no
    /// memory.
    pub fn over(market: Market) -> Session
        ensures { result ≡ market }
    {
        let alloc = market.alloc();
        Session { alloc, market }
    }

    /// Returns the market after the records that were served.
    pub fn market(&self) -> &Market
        ensures value { result.now ≡ self.now }
        ensures consistent { IsConsistent self.now }
    {
        // Called for its contract: the market is consistent.
        let _consistent = self.market.accounts();
        &self.market
    }

    /// Returns the live orders of the market, by ascending numbers: at most 16,384. If orders were cancelled since the last call,
    /// this takes one pass over the orders, which closes the gaps that they left. The market is as before.
    pub fn orders(&mut self) -> &[Order]
        ensures value { result.now ≡ self.old.orders }
        ensures consistent { IsConsistent self.old }
        ensures* after { sem 𝓛 (StaysAsListed self.entry) }
    {
        self.market.orders()
    }

    /// Returns the market after the records that were served, and ends the session.
    pub fn into_market(self) -> Market
        ensures { result ≡ self }
    {
        let Session { alloc: _, market } = self;
        market
    }

    /// Serves one record, and appends its entry: the record as it was given, and the record of its one answer. The
    /// record's body has at most 1,024 bytes, and the number that the next order gets is below 2^64 - 1; so the entry
    /// is one that a journal may have.
    ///
    /// The cost is that of the record, however many accounts and orders there are, for a cancel or a credit on average. A batch
    /// also closes the gaps that cancelled orders left, goes over all live orders, and for each move of a price over
    /// those with a leg of its asset.
    ///
    /// The capacity for an entry with a plain reply is reserved first, and that for a batch's entry before the market
    /// changes. After `Memory` market and bytes are as before, and `out` has at least the capacity that it had.
    /// `Memory` comes only if that capacity was less than an entry with a plain reply needs, or if the command adds an
    /// asset, an account or an order or holds a batch and no refusal holds.
    #[inline(never)]
    pub fn serve(&mut self, asked: &RecordView<'_>, out: &mut Vec<u8>) -> Result<(), Memory>
        requires short { IsRecord most_body asked.now }
        requires next { self.old.next_order + 1 < 2 ^ 64 }
        ensures served { OnOk result ((text : List ℕ) × AnswersOne self.old asked.now self.new text
            × (out.new.items ≡ out.old.items ++ text)) }
        ensures stays { OnErr result ((self.new ≡ self.old) × (out.new.items ≡ out.old.items)) }
        ensures wanted { OnErr result ((vec_capacity out.old < vec_len out.old + plain_room asked.now)
            ⊎ RecordMayAllocate self.old asked.now) }
        ensures room { vec_capacity out.old ≤ vec_capacity out.new }
    {
        reserve_plain(asked, out)?;
        match reply_to(&mut self.market, asked)? {
            Asked::Plain(reply) => write_plain(asked, &reply, out),
            Asked::Batch(budget) => hold_batch(self.alloc, &mut self.market, asked, budget, out)?,
        }
        Ok(())
    }

    /// Serves a command, and puts its entry into an empty buffer: the command's record, and the record of its one answer. It
    /// is as if the record had been served, but nothing is read again; a command that the market's version doesn't have is
    /// refused as its record is. The command has few enough legs for its record, if it has any, and the number that the next
    /// order gets is below 2^64 - 1. Returns what is told of the answer.
    ///
    /// The cost is that of [`Session::serve`]. After `Memory` the market is as before, and the buffer may hold the command's
    /// record.
    pub fn serve_command(&mut self, command: &Command, out: &mut Vec<u8>) -> Result<Served, Memory>
        requires short { HasShortRow (command_in command.now) }
        requires next { self.old.next_order + 1 < 2 ^ 64 }
        requires empty { out.old.items ≡ [] }
        ensures served { IfOk result (ServesCommand self.old (command_in command.now) self.new out.new.items) }
        ensures stays { OnErr result (self.new ≡ self.old) }
    {
        match self.answer_command(command, out)? {
            Answered::Plain(reply) => Ok(Served::Plain(reply)),
            Answered::Batch(held) => {
                self.settle(&held);
                Ok(Served::Batch(held.place))
            }
        }
    }

    /// Answers a command of this session's market, as [`answer_command`] does.
    pub fn answer_command(
        &mut self,
        command: &Command,
        out: &mut Vec<u8>,
    ) -> Result<Answered, Memory>
        requires short { HasShortRow (command_in command.now) }
        requires next { self.old.next_order + 1 < 2 ^ 64 }
        requires empty { out.old.items ≡ [] }
        ensures answered { IfOk result (IsAnswered self.old (command_in command.now) self.new out.new.items) }
        ensures stays { OnErr result (self.new ≡ self.old) }
    {
        answer_command(&mut self.market, command, out)
    }

    /// Settles a batch that [`Session::answer_command`] answered in this market, so that its command is served. Its outcome is
    /// admissible for the live orders and the start prices, and fewer than 2^24 batches were held.
    ///
    /// The call takes no memory and can't fail. It costs two passes over the legs of the live orders, however many accounts there
    /// are, and one over the orders and the legs of those that leave.
    pub fn settle(&mut self, held: &HeldBatch)
        requires right { MaySettle self.old held.now.outcome }
        requires more { self.old.batches < (limits_of self.old.version).batches }
        ensures { self.new ≡ after_held self.old held.now }
    {
        self.market.settle(&held.outcome);
    }

    /// Serves the record that begins the bytes of a command file, if it is complete, puts its entry into an empty
    /// buffer, and returns what the bytes begin with, as a loop over the records asks for it. If there is no complete
    /// record, nothing is done; else the cost is that of [`Session::serve`].
    ///
    /// After `Memory` market and buffer are as before, except that the buffer may have more capacity. `Memory` comes
    /// only at a complete record, and only if the buffer had less capacity than 1,042 bytes, the length of the longest
    /// entry with a plain reply, or if the record may allocate.
    pub fn serve_next(&mut self, bytes: &[u8], out: &mut Vec<u8>) -> Result<Prefix, Memory>
        requires ready { (left : ℕ) × (length bytes.now ≤ left) × HasNumbers self.old left }
        requires empty { out.old.items ≡ [] }
        ensures taken { IfOk result (λ prefix. IsTaken commands Puts prefix bytes.now self.old self.new [] out.new.items) }
        ensures stays { IfOk result (λ prefix. (left : ℕ) → length bytes.now ≤ left → HasNumbers self.old left →
            StaysReady (HasNumbers self.new) prefix left) }
        ensures same { OnErr result ((self.new ≡ self.old) × (out.new.items ≡ [])) }
        ensures wanted { OnErr result (AllocatesNext self.old bytes.now (vec_capacity out.old - vec_len out.old)) }
        ensures room { vec_capacity out.old ≤ vec_capacity out.new }
    {
        match next_record(bytes, MOST_BODY) {
            Framed::Whole(asked, taken) => match self.serve(&asked, out) {
                Ok(()) => Ok(Prefix::Taken(taken)),
                Err(_) => Err(Memory),
            },
            Framed::End => Ok(Prefix::NoBytes),
            Framed::TooLarge(_) => Ok(Prefix::Overlong),
            Framed::Short => Ok(Prefix::Short),
        }
    }
}
