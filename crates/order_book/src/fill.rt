//! The orders after a batch, and the sums of their needs.
ghost use Rattle.std.specs.Prelude.{◌≡◌, ◌+◌, ◌≤◌, vec_len, vec_capacity, length, All};
ghost use Rattle.indexmap.specs.IndexMap.{spare};
ghost use Rattle.flow_orders.specs.Orders.{terms_of};
ghost use Rattle.flow_orders.specs.Trades.{trades, staying};
ghost use Rattle.order_book.specs.declared.sums.Need.{Need};
ghost use Rattle.order_book.specs.Sums.{sum_in};
ghost use Rattle.order_book.specs.Needs.{needed_for};

use crate::sums::NeedSums;
use flow_orders::Order;

/// Lowers the sums by what the orders reserved for what they trade.
pub(crate) fn lower_traded(sums: &mut NeedSums, orders: &[Order], rates: &[u32])
    requires count { length rates.now ≡ length orders.now }
    requires within { All (λ t. t.traded ≤ (terms_of t.order).room) (trades orders.now rates.now) }
    requires there { (need : Need) →
        needed_for need (trades orders.now rates.now) ≤ sum_in sums.old.table need }
    ensures lowered { (need : Need) → sum_in sums.new.table need
        + needed_for need (trades orders.now rates.now) ≡ sum_in sums.old.table need }
    ensures room { spare sums.old.table ≤ spare sums.new.table }
{
    for (order, rate) in orders.iter().zip(rates) {
        sums.lower_for(order, u64::from(*rate));
    }
}

/// Fills the orders at these rates, and takes out those that reach their cap.
pub(crate) fn fill_orders(orders: &mut Vec<Order>, rates: &[u32])
    requires count { length rates.now ≡ vec_len orders.old }
    requires within { All (λ t. t.traded ≤ (terms_of t.order).room) (trades orders.old.items rates.now) }
    ensures orders { orders.new.items ≡ staying (trades orders.old.items rates.now) }
    ensures len { vec_len orders.new ≤ vec_len orders.old }
    ensures capacity { vec_capacity orders.new ≡ vec_capacity orders.old }
{
    let mut kept = 0;
    for place in 0..orders.len() {
        if !orders[place].add_fill(rates[place]) {
            orders.swap(kept, place);
            kept += 1;
        }
    }
    orders.truncate(kept);
}
