//! The rates of own orders among all that were published.
ghost use Rattle.std.specs.Prelude.{◌≡◌, ◌<◌, length, All, IfOk};
ghost use Rattle.flow_orders.specs.Orders.{Order as order_value};
ghost use Rattle.account_statement.specs.Private.{rate_in, rates_for, fill_at, AreAscending, IsListed};

use batch_outcome::ClearedParts;
use flow_orders::Order;
use journal_records::ClearedView;
use std::alloc::Global;
use wire_records::Memory;

// Returns the number of the order at a place that has a rate.
fn number_at(view: &ClearedView<'_>, place: u32) -> u64
    requires { place < length view.now.clearing.fills }
    ensures { result ≡ (fill_at view.now.clearing.fills place).order }
{
    view.order(place).unwrap()
}

// Returns the rate at a place that has one.
fn rate_at(view: &ClearedView<'_>, place: u32) -> u32
    requires { place < length view.now.clearing.fills }
    ensures { result ≡ (fill_at view.now.clearing.fills place).rate }
{
    view.rate(place).unwrap()
}

// Returns the place of a number that is listed, found by halving.
fn place_of(view: &ClearedView<'_>, number: u64) -> u32
    requires ascending { AreAscending view.now.clearing.fills }
    requires listed { IsListed view.now.clearing.fills number }
    ensures within { result < length view.now.clearing.fills }
    ensures found { (fill_at view.now.clearing.fills result).order ≡ number }
{
    let mut low = 0;
    let mut high = view.rate_count();
    while low < high {
        let middle = low + (high - low) / 2;
        if number_at(view, middle) < number {
            low = middle + 1;
        } else {
            high = middle;
        }
    }
    low
}

// Returns the rate that is listed under a number.
fn rate_of(view: &ClearedView<'_>, number: u64) -> u32
    requires ascending { AreAscending view.now.clearing.fills }
    requires listed { IsListed view.now.clearing.fills number }
    ensures { result ≡ rate_in view.now.clearing.fills number }
{
    rate_at(view, place_of(view, number))
}

// Returns the rates of these orders, by their places.
pub(crate) fn rates_of(
    alloc: Global,
    view: &ClearedView<'_>,
    orders: &[Order],
) -> Result<Vec<u32>, Memory>
    requires ascending { AreAscending view.now.clearing.fills }
    requires listed { All (λ (o : order_value). IsListed view.now.clearing.fills o.number) orders.now }
    ensures { IfOk result (λ rates. rates.items ≡ rates_for view.now.clearing.fills orders.now) }
{
    let mut rates = Vec::with_capacity(alloc, orders.len())?;
    for order in orders {
        rates.push_reserved(rate_of(view, order.number()));
    }
    Ok(rates)
}
