//! The driver of subcommands over a history.
ghost use Rattle.std.specs.Prelude.{◌≡◌, ◌^◌, ◌<◌, ℕ, Err, OnOk, OnErr, IsErr};
ghost use Rattle.flow_io.specs.Faults.{Blames};
ghost use Rattle.flow_io.specs.Streams.{Grows, GrowsByPrefix};
ghost use Rattle.flow_io.specs.Changes.{change};
ghost use Rattle.market_rules.specs.Market.{Market};
ghost use Rattle.word_driver.specs.Laws.{IsExact};
ghost use Rattle.word_driver.specs.Does.{Does};
ghost use Rattle.journal_words.specs.Watching.{over_pairs};
ghost use Rattle.history_words.specs.Histories.{following, at_first, over_history, over_history_from};

use crate::on_history::{OnHistory, Plainly};
use crate::stop::HistoryStop;
use flow_io::{Sink, Source, Window, WriteFailed};
use journal_words::{OnPair, Pairs};
use market_history::{StartFault, read_start};
use std::alloc::Global;
use word_driver::{Fault, ServesWord, go_on};

// Returns how a subcommand over a history ended, by how it ended over the entries.
fn ended_after<B: Copy>(ended: Result<(), Fault<B>>) -> Result<(), Fault<HistoryStop<B>>>
    ensures { result ≡ following ended }
{
    match ended {
        Ok(()) => Ok(()),
        Err(Fault::Read) => Err(Fault::Read),
        Err(Fault::Write) => Err(Fault::Write),
        Err(Fault::Memory) => Err(Fault::Memory),
        Err(Fault::NotFlow) => Err(Fault::NotFlow),
        Err(Fault::Torn(place)) => Err(Fault::Torn(place)),
        Err(Fault::TooLong) => Err(Fault::TooLong),
        Err(Fault::Stopped(why)) => Err(Fault::Stopped(HistoryStop::AtPairs(why))),
    }
}

// Writes the bytes by one call, or by none if there are no bytes.
fn put<K: Sink>(out: &mut K, bytes: &[u8]) -> Result<(), WriteFailed>
    ensures written { OnOk result (Grows (K.held out.old) (K.held out.new) bytes.now) }
    ensures cut { OnErr result (GrowsByPrefix (K.held out.old) (K.held out.new) bytes.now) }
    ensures cause { Blames (IsErr result) (K.faults out.old) (K.faults out.new) }
{
    if bytes.is_empty() {
        return Ok(());
    }
    out.write(bytes)
}

/// Reads a history as the subcommand over its entries takes it, to its end or the limit. First begins in the market of the history, the
/// empty one of a journal's version or that of a checkpoint, and writes what the subcommand has to write there, by one call if there is
/// anything. Then hands the entries to the subcommand, one after the other, starting from this market. Places are counted from the first
/// byte of the input, and entries from 1.
///
/// `NotFlow`: the input begins with the magic of neither a journal nor a checkpoint. `NoCheckpoint`: it begins with a checkpoint's magic,
/// but with no checkpoint of a consistent market within the limit. After both, nothing has been written.
///
/// Holds a window of the bytes of the longest entry, and one buffer; both are allocated before the first read. A checkpoint is held
/// completely until its market is made of it.
pub fn go_history_from<S: Source, K: Sink, P: OnPair + Drop, H: OnHistory<P> + Drop>(
    alloc: Global,
    limit: u64,
    source: &mut S,
    out: &mut K,
    history: H,
) -> Result<(), Fault<HistoryStop<P::Stop>>>
    requires exact { IsExact (over_pairs P.watch) }
    // For each `starts` that says what is seen first by all that `history` makes of a market.
    ensures does { (starts : Market → P.Seen) → ((market : Market) (on : P) → H.makes history market on → P.seen on market ≡ starts market)
        → Does (over_history_from (over_pairs P.watch) (at_first (record { starts = starts; opens = H.opens history; Allocates = H.allocates history }))) limit result
        (change S.rest S.faults source.old source.new) (change K.held K.faults out.old out.new) }
{
    let mut window = match Window::new(alloc, <Pairs<P> as ServesWord>::LONGEST, limit) {
        Ok(window) => window,
        Err(_) => return Err(Fault::Memory),
    };
    let mut text = match Vec::with_capacity(alloc, P::ROOM) {
        Ok(text) => text,
        Err(_) => return Err(Fault::Memory),
    };
    let mut market = match read_start(alloc, &mut window, source) {
        Ok(market) => market,
        Err(StartFault::Read) => return Err(Fault::Read),
        Err(StartFault::Memory) => return Err(Fault::Memory),
        Err(StartFault::NotFlow) => return Err(Fault::NotFlow),
        Err(StartFault::NoCheckpoint) => return Err(Fault::Stopped(HistoryStop::NoCheckpoint)),
    };
    let on = match history.begin(alloc, &mut market, &mut text) {
        Ok(on) => on,
        Err(_) => return Err(Fault::Memory),
    };
    match put(out, &text) {
        Ok(()) => {}
        Err(_) => return Err(Fault::Write),
    }
    let pairs = Pairs::over(alloc, market, on);
    ended_after(go_on(window, source, pairs, text, out))
}

/// Reads a history and hands its entries to the subcommand as [`go_history_from`] does, and with the same errors and costs, but writes
/// nothing before the first entry, and begins with `on` in any market.
pub fn go_history<S: Source, K: Sink, P: OnPair + Drop>(
    alloc: Global,
    limit: u64,
    source: &mut S,
    out: &mut K,
    on: P,
) -> Result<(), Fault<HistoryStop<P::Stop>>>
    requires exact { IsExact (over_pairs P.watch) }
    requires within { (market : Market) → P.is_within on market 0 }
    ensures does { Does (over_history (over_pairs P.watch) (λ market. record { market = market; pairs = 0; seen = P.seen on market })) limit result
        (change S.rest S.faults source.old source.new) (change K.held K.faults out.old out.new) }
{
    go_history_from::<S, K, P, Plainly<P>>(alloc, limit, source, out, Plainly { on })
}
