//! The book of the live orders.
ghost use Rattle.std.specs.Prelude.{◌≡◌, ◌<◌, ◌≤◌, ◌∷◌, [], ◌++◌, map, length, All, IfOk, OnOk, IsErrOf};
ghost use Rattle.flow_orders.specs.Orders.{most_orders};
ghost use Rattle.market_parts.specs.Parts.{order_of};
ghost use Rattle.market_parts.specs.Tests.{AreConsistentOrders};

use crate::orders::live_order;
use crate::{MarketParts, RestoreFault};
use flow_orders::Order;
use order_book::Book;
use std::alloc::Global;
use wire_records::Version;

// Returns the book of the live orders, or `Unsound` if some order isn't a live one or the numbers don't ascend.
pub(crate) fn book_of<P: MarketParts>(
    alloc: Global,
    parts: &P,
    version: Version,
) -> Result<Book, RestoreFault>
    requires few { length (P.parts parts.now).orders ≤ most_orders }
    ensures orders { IfOk result (λ book. book.orders ≡ map order_of (P.parts parts.now).orders) }
    ensures consistent { OnOk result (AreConsistentOrders version (P.balances parts.now) (P.parts parts.now)) }
    ensures unsound { IsErrOf result RestoreFault.Unsound →
        ¬ AreConsistentOrders version (P.balances parts.now) (P.parts parts.now) }
{
    let mut book = Book::new(alloc);
    let mut before = 0;
    for place in 0..parts.order_count() {
        let order = live_order(alloc, parts, version, place)?;
        let number = order.number();
        if number <= before {
            return Err(RestoreFault::Unsound);
        }
        before = number;
        add_order(&mut book, order)?;
    }
    Ok(book)
}

// Adds an order, whose number is above those of all others.
fn add_order(book: &mut Book, order: Order) -> Result<(), RestoreFault>
    requires few { length book.old.orders < most_orders }
    requires above { All (λ o. o.number < order.number) book.old.orders }
    ensures added { OnOk result (book.new.orders ≡ book.old.orders ++ order ∷ []) }
    ensures memory { ¬ IsErrOf result RestoreFault.Unsound }
{
    book.reserve_one()?;
    book.add(order);
    Ok(())
}
