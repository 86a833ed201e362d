//! Cancelled orders, which stay among the others as gaps until the gaps are closed.
ghost use Rattle.std.specs.Prelude.{◌≡◌, ℕ, ◌+◌, ◌<◌, ◌≤◌, [], false, vec_len, vec_capacity, length, All, IsTrue};
ghost use Rattle.indexmap.specs.IndexSet.{spare};
ghost use Rattle.order_book.specs.Book.{IsPlaceOf, without};
ghost use Rattle.order_book.specs.Gaps.{AreSlots, AreGaps, live_in, is_gap};

use flow_orders::Order;
use indexmap::IndexSet;

/// Closes all gaps, if there are any, in one pass over the orders.
pub(crate) fn close_gaps(slots: &mut Vec<Order>, gaps: &mut IndexSet<u64>)
    requires { AreGaps slots.old.items gaps.old }
    ensures orders { slots.new.items ≡ live_in gaps.old slots.old.items }
    ensures closed { gaps.new.keys ≡ [] }
    ensures len { vec_len slots.new ≤ vec_len slots.old }
    ensures capacity { vec_capacity slots.new ≡ vec_capacity slots.old }
    ensures room { spare gaps.old ≤ spare gaps.new }
{
    if !gaps.is_empty() {
        drop_gaps(slots, gaps);
        gaps.clear();
    }
}

// Takes out the cancelled orders.
fn drop_gaps(slots: &mut Vec<Order>, gaps: &IndexSet<u64>)
    ensures orders { slots.new.items ≡ live_in gaps.now slots.old.items }
    ensures len { vec_len slots.new ≤ vec_len slots.old }
    ensures capacity { vec_capacity slots.new ≡ vec_capacity slots.old }
{
    slots.retain(|order| !gaps.contains(&order.number()));
}

/// Closes all gaps if a cancelled order has this number or a higher one. No live order has such a number.
pub(crate) fn close_above(slots: &mut Vec<Order>, gaps: &mut IndexSet<u64>, number: u64)
    requires gaps { AreGaps slots.old.items gaps.old }
    requires above { All (λ o. o.number < number) (live_in gaps.old slots.old.items) }
    ensures gaps { AreGaps slots.new.items gaps.new }
    ensures below { All (λ o. o.number < number) slots.new.items }
    ensures orders { live_in gaps.new slots.new.items ≡ live_in gaps.old slots.old.items }
    ensures len { vec_len slots.new ≤ vec_len slots.old }
    ensures capacity { vec_capacity slots.new ≡ vec_capacity slots.old }
    ensures room { spare gaps.old ≤ spare gaps.new }
{
    if !are_below(slots, number) {
        close_gaps(slots, gaps);
    }
}

// Returns whether all orders have lower numbers.
fn are_below(slots: &[Order], number: u64) -> bool
    requires { AreSlots slots.now }
    ensures { IsTrue result → All (λ o. o.number < number) slots.now }
{
    match slots.last() {
        None => true,
        Some(last) => last.number() < number,
    }
}

/// Makes a gap of the live order of this number. If there are more gaps than live orders then, all are closed.
pub(crate) fn leave_gap(slots: &mut Vec<Order>, gaps: &mut IndexSet<u64>, number: u64)
    requires gaps { AreGaps slots.old.items gaps.old }
    requires there { (place : ℕ) × IsPlaceOf slots.old.items number place }
    requires live { is_gap gaps.old number ≡ false }
    requires room { 0 < spare gaps.old }
    ensures gaps { AreGaps slots.new.items gaps.new }
    ensures orders { live_in gaps.new slots.new.items ≡ without (live_in gaps.old slots.old.items) number }
    ensures len { vec_len slots.new ≤ vec_len slots.old }
    ensures capacity { vec_capacity slots.new ≡ vec_capacity slots.old }
    ensures room { spare gaps.old ≤ spare gaps.new + 1 }
{
    gaps.insert(number).unwrap();
    if gaps.len() > slots.len() - gaps.len() {
        close_gaps(slots, gaps);
    }
}
