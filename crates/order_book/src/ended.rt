//! Orders that leave after their last batch, in one pass over the book.
ghost use Rattle.std.specs.Prelude.{◌≡◌, ◌≤◌, vec_len, vec_capacity};
ghost use Rattle.indexmap.specs.IndexMap.{spare};
ghost use Rattle.flow_orders.specs.Trades.{going_on};
ghost use Rattle.order_book.specs.declared.sums.Need.{Need};
ghost use Rattle.order_book.specs.Sums.{sum_in};
ghost use Rattle.order_book.specs.Needs.{needed};

use crate::sums::NeedSums;
use flow_orders::Order;

/// Lowers the sums by all that the orders whose last batch is `batch` reserved.
pub(crate) fn lower_ended(sums: &mut NeedSums, orders: &[Order], batch: u32)
    requires { (need : Need) → sum_in sums.old.table need ≡ needed need orders.now }
    ensures sums { (need : Need) → sum_in sums.new.table need ≡ needed need (going_on batch orders.now) }
    ensures room { spare sums.old.table ≤ spare sums.new.table }
{
    for order in orders {
        if order.last() == batch {
            sums.lower_for(order, order.cap() - order.filled());
        }
    }
}

/// Takes out the orders whose last batch is `batch`.
pub(crate) fn end_orders(orders: &mut Vec<Order>, batch: u32)
    ensures orders { orders.new.items ≡ going_on batch orders.old.items }
    ensures len { vec_len orders.new ≤ vec_len orders.old }
    ensures capacity { vec_capacity orders.new ≡ vec_capacity orders.old }
{
    orders.retain(|order| order.last() != batch);
}
