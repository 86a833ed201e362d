//! The live orders of a book, read where they are.
ghost use Rattle.std.specs.Iterator.{YieldsFirstRef, item_count};

use flow_orders::Order;
use indexmap::IndexSet;
use std::marker::Model;

/// The live orders of a book, by ascending numbers. They are read in place: the gaps of cancelled orders are passed over, and stay.
///
/// Contracts see the list of the orders that are left.
#[derive(Drop)]
pub struct LiveIter<'a> {
    pub(crate) slots: &'a [Order],
    pub(crate) gaps: &'a IndexSet<u64>,
}

impl<'a> Model for LiveIter<'a> {
    ghost use Rattle.std.specs.Prelude.{List};
    ghost use Rattle.flow_orders.specs.Orders.{Order as order_value};
    ghost use Rattle.order_book.specs.Gaps.{live_in};

    ghost Value = { List order_value };

    ghost view = { λ orders. live_in orders.gaps.now orders.slots.now };
}

impl<'a> Iterator for LiveIter<'a> {
    type Item = &'a Order;

    ghost next_gives = { YieldsFirstRef (λ left. left) };

    ghost remaining = { item_count (λ left. left) };

    fn next(&mut self) -> Option<&'a Order> {
        while let Some((first, others)) = self.slots.split_first() {
            self.slots = others;
            if !self.gaps.contains(&first.number()) {
                return Some(first);
            }
        }
        None
    }
}
