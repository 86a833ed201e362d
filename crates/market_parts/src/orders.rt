//! One live order.
ghost use Rattle.std.specs.Prelude.{◌≡◌, ◌<◌, ◌↔◌, length, IsTrue, IfOk, OnOk, IsErrOf};
ghost use Rattle.flow_accounts.specs.Balances.{IsAccount};
ghost use Rattle.market_parts.specs.Parts.{order_of, numbers_of};
ghost use Rattle.market_parts.specs.Tests.{order_at, IsStillToCome, HasConsistentTerms, HasConsistentNumbers, IsConsistentOrder};

use crate::rows::row_at;
use crate::{MarketParts, OrderParts, RestoreFault};
use flow_accounts::AccountParts;
use flow_orders::{Order, order_fault};
use std::alloc::Global;
use wire_records::Version;

// Returns the live order at a place, or `Unsound` if it isn't one.
pub(crate) fn live_order<P: MarketParts>(
    alloc: Global,
    parts: &P,
    version: Version,
    place: u32,
) -> Result<Order, RestoreFault>
    requires { place < length (P.parts parts.now).orders }
    ensures order { IfOk result (λ order. order ≡ order_of (order_at (P.parts parts.now) place)) }
    ensures consistent { OnOk result (IsConsistentOrder version (P.balances parts.now) (P.parts parts.now) (order_at (P.parts parts.now) place)) }
    ensures unsound { IsErrOf result RestoreFault.Unsound →
        ¬ IsConsistentOrder version (P.balances parts.now) (P.parts parts.now) (order_at (P.parts parts.now) place) }
{
    let order = numbers_at(parts, place);
    if !has_consistent_numbers(parts, version, order) {
        return Err(RestoreFault::Unsound);
    }
    let legs = version.limits().legs;
    let row = row_at(alloc, parts, place, order.entries, legs)?;
    Ok(Order::restore(
        order.number,
        order.account,
        order.low,
        order.high,
        order.rate,
        order.cap,
        order.filled,
        order.last,
        row,
    ))
}

// Returns the numbers of the order at a place.
fn numbers_at<P: MarketParts>(parts: &P, place: u32) -> OrderParts
    requires { place < length (P.parts parts.now).orders }
    ensures { result ≡ numbers_of (order_at (P.parts parts.now) place) }
{
    parts.order(place).unwrap()
}

// Returns whether the numbers of an order are those of a live one.
fn has_consistent_numbers<P: MarketParts>(parts: &P, version: Version, order: OrderParts) -> bool
    ensures { IsTrue result ↔ HasConsistentNumbers version (P.balances parts.now) (P.parts parts.now) order }
{
    if !has_consistent_terms(order) {
        return false;
    }
    if order.number < 1 || order.number >= parts.next_number() {
        return false;
    }
    if !is_account(parts, order.account) {
        return false;
    }
    is_still_to_come(version, parts.batches(), order.last)
}

// Returns whether limits, rate, cap and what is filled are those of an order that can still trade.
fn has_consistent_terms(order: OrderParts) -> bool
    ensures { IsTrue result ↔ HasConsistentTerms order }
{
    if order_fault(order.low, order.high, order.rate, order.cap).is_some() {
        return false;
    }
    order.filled < order.cap
}

fn is_account<P: AccountParts>(parts: &P, account: u32) -> bool
    ensures { IsTrue result ↔ IsAccount (P.balances parts.now) account }
{
    1 <= account && account <= parts.account_count()
}

// Returns whether there is no last batch, or one that is still to come after this number of batches.
fn is_still_to_come(version: Version, batches: u32, last: u32) -> bool
    ensures { IsTrue result ↔ IsStillToCome version batches last }
{
    last == 0 || version.has_last_batches() && batches < last
}
