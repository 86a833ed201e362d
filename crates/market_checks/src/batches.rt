//! Which batches are allowed.
ghost use Rattle.market_rules.specs.Market.{Market as market_value};
ghost use Rattle.market_rules.specs.Settling.{MaySettle};

use batch_outcome::{Outcome, Skipped, Trace};
use check_lines::Told;
use market_core::Market;
use std::alloc::Global;

// Returns a batch that was skipped: a market counts it, and the orders that end with it leave.
fn skipped(alloc: Global) -> Outcome
    ensures { (m : market_value) → MaySettle m result }
{
    Outcome::Skipped(Skipped {
        trace: Trace::new(Vec::new(alloc)),
        start_dual: 0,
        end_dual: 0,
    })
}

// Skips batches until this many were held, or no more is allowed.
fn hold(market: &mut Market, outcome: &Outcome, count: u32)
    requires skipped { (m : market_value) → MaySettle m outcome.now }
{
    while market.batches() < count && market.batch_allowed(1).is_ok() {
        market.settle(outcome);
    }
}

// Appends whether a batch with this budget is allowed.
fn put_budget(market: &Market, budget: u32, told: &mut Told) {
    match market.batch_allowed(budget) {
        Ok(()) => told.put(" allowed"),
        Err(refusal) => told.put_number(" ", i128::from(refusal.code())),
    }
}

// Appends how many batches were held, and which budgets are allowed then.
fn put_row(market: &Market, told: &mut Told) {
    told.put_number("  ", i128::from(market.batches()));
    told.put(":");
    for budget in [0, 1, 65_536, 65_537] {
        put_budget(market, budget, told);
    }
    told.put("\n");
}

// Holds batches until there were this many, and appends the row.
fn put_held(alloc: Global, market: &mut Market, count: u32, told: &mut Told) {
    hold(market, &skipped(alloc), count);
    if market.batches() < count {
        return told.give_up();
    }
    put_row(market, told);
}

// Holds batches up to each of the counts, and appends its row.
fn put_counts(alloc: Global, market: &mut Market, counts: &str, told: &mut Told) {
    for count in counts.split_whitespace() {
        match count.parse() {
            Ok(count) => put_held(alloc, market, count, told),
            Err(_) => told.give_up(),
        }
    }
}

// Holds batches up to each of the counts, in a market that held none, and appends its row.
pub(crate) fn put_allowed(alloc: Global, counts: &str, told: &mut Told) {
    put_counts(alloc, &mut Market::new(alloc), counts, told);
}
