//! The outcome of a batch.
ghost use Rattle.std.specs.Prelude.{◌≡◌, ℕ, ◌^◌, ◌≤◌, ◌↔◌, true, false, length, All, IsTrue, IfOk};
ghost use Rattle.weight_rows.specs.Rows.{IsPricedBy};
ghost use Rattle.demand_curve.specs.Demand.{IsWithin};
ghost use Rattle.flow_orders.specs.Orders.{IsFrom1To, most_orders};
ghost use Rattle.flow_orders.specs.Outcomes.{most_budget, IsAdmissibleOutcome, are_single, ClearsNear};
ghost use Rattle.flow_orders.specs.Residuals.{most_prices};
ghost use Rattle.canonical_rule.specs.Canonical.{IsCanonicalOutcome};
ghost use Rattle.excess_bounds.specs.Workspace.{AreQuoted};
ghost use Rattle.batch_outcome.specs.Published.{outcome_of, HasOneRateEach};
ghost use Rattle.batch_engine.specs.Certified.{IsCertified};
ghost use Rattle.batch_engine.specs.Private.{IsClearedAt, IsClearedFrom, IsOutcomeFrom};

use crate::joint::{Tested, find_prices};
use batch_certificate::certify_quoted;
use batch_outcome::{Cleared, Outcome, PriceList, RateList, ResidualList, Skipped, Trace};
use coordinate_search::{Found, settle_single};
use dual_value::dual_floor;
use excess_bounds::{Quoted, Workspace};
use flow_orders::{Order, Search};
use out_of_memory::Memory;
use rate_rounding::choose_rates;
use std::alloc::Global;

/// Returns the outcome of a batch of these orders, from these start prices, in grains by the assets' numbers, with this
/// budget of moves: the canonical outcome.
///
/// There are at most 16,384 orders and at most 64 start prices, within 2^60 grains of 0, one for each asset that an order
/// names. If each order names one asset, the batch always clears: each asset that isn't settled is moved once, and the
/// budget, from 1 to 65,536 moves, isn't used. Other books are searched as `search` says, by 1 to 256 parts of a unit: if
/// it has joint prices, first with at most 16 moves for each asset, and then from the joint prices; and then with the whole
/// budget. The batch is skipped if all of these are used up before all assets are settled. Orders and clearing are those
/// of Flow Trading (Budish, Cramton, Kyle, Lee and Malec, 2023); where prices start and end, and how demands are rounded,
/// are this project's own.
///
/// It fails only with `Memory`.
pub fn clear(
    alloc: Global,
    search: Search,
    orders: &[Order],
    start: &[i64],
    budget: u32,
) -> Result<Outcome, Memory>
    requires some_parts { 1 ≤ search.parts }
    requires few_parts { search.parts ≤ 256 }
    requires few { length orders.now ≤ most_orders }
    requires assets { length start.now ≤ most_prices }
    requires range { All (IsWithin (2 ^ 60)) start.now }
    requires priced { All (λ o. IsPricedBy o.row start.now) orders.now }
    requires budget { IsFrom1To most_budget budget }
    ensures own { IfOk result (λ outcome. IsCanonicalOutcome search orders.now start.now budget (outcome_of orders.now outcome)) }
    ensures right { IfOk result (λ outcome. IsAdmissibleOutcome search orders.now start.now budget (outcome_of orders.now outcome)) }

    // A book of one-asset orders clears.
    ensures near { are_single orders.now ≡ true
        → IfOk result (λ outcome. ClearsNear orders.now start.now (outcome_of orders.now outcome)) }

    // No balanced rates beat those of a clearing by more than its gap, which is bounded; and the walk of a skip lowers the exact
    // dual value by at least its movement.
    ensures certified { IfOk result (IsCertified search.parts orders.now start.now) }
    ensures one_rate_each { IfOk result (HasOneRateEach orders.now) }
{
    if are_single(orders) {
        return Ok(Outcome::Cleared(clear_single(alloc, search, orders, start)?));
    }
    clear_wide(alloc, search, orders, start, budget)
}

// Returns whether each order names one asset alone.
fn are_single(orders: &[Order]) -> bool
    ensures { IsTrue result ↔ All (λ o. length o.row ≡ 1) orders.now }
{
    orders.iter().all(|order| order.row().is_single())
}

// Returns the clearing of a book in which each order names one asset.
fn clear_single(
    alloc: Global,
    search: Search,
    orders: &[Order],
    start: &[i64],
) -> Result<Cleared, Memory>
    requires some_parts { 1 ≤ search.parts }
    requires few_parts { search.parts ≤ 256 }
    requires few { length orders.now ≤ most_orders }
    requires assets { length start.now ≤ most_prices }
    requires range { All (IsWithin (2 ^ 60)) start.now }
    requires priced { All (λ o. IsPricedBy o.row start.now) orders.now }
    requires single { are_single orders.now ≡ true }
    ensures cleared { IfOk result (λ c. (budget : ℕ) → budget ≤ most_budget → IsClearedFrom search orders.now start.now budget c) }
{
    let mut work = Workspace::new(alloc, orders, start)?;
    settle_single(&mut work, search.parts);
    clear_at(alloc, orders, work.into_quoted())
}

// Returns the outcome of a book in which some order names two assets or more.
fn clear_wide(
    alloc: Global,
    search: Search,
    orders: &[Order],
    start: &[i64],
    budget: u32,
) -> Result<Outcome, Memory>
    requires some_parts { 1 ≤ search.parts }
    requires few_parts { search.parts ≤ 256 }
    requires few { length orders.now ≤ most_orders }
    requires assets { length start.now ≤ most_prices }
    requires range { All (IsWithin (2 ^ 60)) start.now }
    requires priced { All (λ o. IsPricedBy o.row start.now) orders.now }
    requires wide { are_single orders.now ≡ false }
    requires budget { IsFrom1To most_budget budget }
    ensures own { IfOk result (IsOutcomeFrom search orders.now start.now budget) }
{
    let mut trace = Vec::with_capacity(alloc, budget as usize)?;
    let work = Workspace::new(alloc, orders, start)?;
    let mut book = Tested { work };
    match find_prices(alloc, search, orders, start, budget, &mut book, &mut trace)? {
        Found::Settled => {
            let cleared = clear_at(alloc, orders, book.work.into_quoted())?;
            Ok(Outcome::Cleared(cleared))
        }
        Found::Spent => Ok(Outcome::Skipped(Skipped {
            trace: Trace::new(trace),
            start_dual: dual_floor(orders, start),
            end_dual: dual_floor(orders, book.work.prices()),
        })),
    }
}

// Returns the clearing at the prices that the orders are quoted at.
fn clear_at(alloc: Global, orders: &[Order], quoted: Quoted) -> Result<Cleared, Memory>
    requires { AreQuoted orders.now quoted.prices.items quoted.quotes.items }
    ensures { IfOk result (IsClearedAt orders.now quoted.prices.items) }
{
    let chosen = choose_rates(alloc, orders, &quoted)?;
    let Quoted { prices, quotes } = quoted;
    Ok(certify_quoted(
        orders,
        quotes.as_slice(),
        PriceList::new(prices),
        RateList::new(chosen.rates),
        ResidualList::new(chosen.residuals),
    ))
}
