//! The live orders, and the sums of what they reserve.
ghost use Rattle.std.specs.Prelude.{◌≡◌, ◌≢◌, ◌+◌, ◌^◌, ◌<◌, ◌≤◌, ◌≤ℤ◌, ◌↔◌, [], ◌∷◌, ◌++◌, pos, length, All, Contains, OnOk, IsOk, IsTrue, IsFalse, false, IfSome, MatchOption};
ghost use Rattle.std.specs.Borrow.{sem};
ghost use Rattle.flow_orders.specs.Orders.{most_orders, needed_money, needed_units};
ghost use Rattle.std.specs.List.{HoldsAt};
ghost use Rattle.order_book.specs.Book.{AreLive, IsPlaceOf, HasOrder};
ghost use Rattle.order_book.specs.Gaps.{AreSlots, live_in, is_gap};

use crate::ended::{end_orders, lower_ended};
use crate::fill::{fill_orders, lower_traded};
use crate::gaps::{close_above, close_gaps, leave_gap};
use crate::live::LiveIter;
use crate::sums::{Need, NeedSums};
use flow_orders::Order;
use indexmap::IndexSet;
use out_of_memory::Memory;
use std::alloc::Global;
use std::marker::Model;

// How many sums an order may raise: one of money, and one for each of 16 legs.
const PLACES_PER_ORDER: usize = 17;

/// The live orders, by ascending numbers, with the sums of what they reserve of each account.
///
/// A live order reserves what it may still pay and give away: its remaining quantity times its high limit if that isn't
/// negative, and of each asset that it gives away its remaining quantity times the absolute weight (a rule of
/// this project).
///
/// Contracts see the list of orders, and `room`: for how many more orders there surely is room.
pub struct Book {
    // The live orders, and between them the cancelled ones, which are gaps.
    slots: Vec<Order>,
    // The numbers of the cancelled orders.
    gaps: IndexSet<u64>,
    sums: NeedSums,
}

impl Drop for Book {
    // By hand, so that the end of a value is one call in the proofs of those who own it (docs/PROVING_TRAPS.md).
    fn drop(self) {
        let Book {
            slots: _,
            gaps: _,
            sums: _,
        } = self;
    }
}

impl Model for Book {
    ghost use Rattle.order_book.specs.Book.{Book as book_value};

    ghost Value = { book_value };

    ghost use Rattle.order_book.specs.Kept.{book_in, IsKept};

    ghost view = { book_in };

    ghost invariant = { IsKept };
}

impl Book {
    ghost use Rattle.flow_orders.specs.Orders.{terms_of};
    ghost use Rattle.flow_orders.specs.Trades.{trades, staying, going_on};
    ghost use Rattle.order_book.specs.Needs.{needed, most_needed};
    ghost use Rattle.order_book.specs.Book.{without};
    ghost use Rattle.order_book.specs.Listing.{StaysAsListed};

    /// Returns a book without orders. It allocates nothing.
    pub fn new(alloc: Global) -> Book
        ensures { result.orders ≡ [] }
    {
        Book {
            slots: Vec::new(alloc),
            gaps: IndexSet::new(alloc),
            sums: NeedSums::new(alloc),
        }
    }

    /// Returns the live orders, by ascending numbers: at most 16,384. First it closes the gaps of cancelled orders, in
    /// one pass over the book; if there are none, that costs nothing. The book is left as it was, and no room is
    /// lost.
    pub fn orders(&mut self) -> &[Order]
        ensures value { result.now ≡ self.old.orders }
        ensures live { AreLive self.old.orders }
        ensures* after { sem 𝓛 (StaysAsListed self.entry) }
    {
        close_gaps(&mut self.slots, &mut self.gaps);
        self.slots.as_slice()
    }

    /// Returns the live orders, by ascending numbers, where they are: the gaps of cancelled orders stay. Going over them costs one
    /// pass over the book, with a look-up for each order.
    pub fn live(&self) -> LiveIter<'_>
        ensures value { result ≡ self.now.orders }
        ensures live { AreLive self.now.orders }
    {
        LiveIter {
            slots: self.slots.as_slice(),
            gaps: &self.gaps,
        }
    }

    /// Returns how many orders are live: at most 16,384.
    pub fn len(&self) -> usize
        ensures len { result ≡ length self.now.orders }
        ensures live { AreLive self.now.orders }
    {
        self.slots.len() - self.gaps.len()
    }

    /// Returns the money that the live orders of an account reserve together, in grains: 0 to 2^114. One look-up.
    #[tactic(auto, using(crate::proofs::BookNeeds::needed_money_is))]
    pub fn money_needed(&self, account: u32) -> i128
        ensures value { result ≡ needed_money self.now.orders account }
        ensures least { pos 0 ≤ℤ result }
        ensures most { result ≤ℤ pos (2 ^ 114) }
    {
        self.needed(Need::Money { account })
    }

    /// Returns the units of an asset that the live orders of an account reserve together: 0 to 2^66. One look-up.
    #[tactic(auto, using(crate::proofs::BookNeeds::needed_units_is))]
    pub fn units_needed(&self, account: u32, asset: u16) -> i128
        ensures value { result ≡ needed_units self.now.orders account asset }
        ensures least { pos 0 ≤ℤ result }
        ensures most { result ≤ℤ pos (2 ^ 66) }
    {
        self.needed(Need::Units { account, asset })
    }

    // Returns the sum of a need.
    fn needed(&self, need: Need) -> i128
        ensures value { result ≡ pos (needed need self.now.orders) }
        ensures most { needed need self.now.orders ≤ most_needed need }
    {
        self.sums.get(need) as i128
    }

    /// Makes room for one more order. It fails with `Memory` only if the room isn't there yet. The orders stay, and no
    /// room is lost.
    pub fn reserve_one(&mut self) -> Result<(), Memory>
        ensures ok { OnOk result (1 ≤ self.new.room) }
        ensures succeeds { 1 ≤ self.old.room → IsOk result }
        ensures room { self.old.room ≤ self.new.room }
        ensures orders { self.new.orders ≡ self.old.orders }
    {
        let live = self.len();
        self.slots.reserve(1)?;
        self.gaps.reserve(live + 1)?;
        self.sums.reserve(PLACES_PER_ORDER)?;
        Ok(())
    }

    /// Adds an order, which reserves what it needs from now on. Its number is above those of all others. It takes the
    /// room of one order, and allocates nothing.
    pub fn add(&mut self, order: Order)
        requires room { 1 ≤ self.old.room }
        requires few { length self.old.orders < most_orders }
        requires above { All (λ o. o.number < order.number) self.old.orders }
        ensures orders { self.new.orders ≡ self.old.orders ++ order ∷ [] }
        ensures room { self.old.room ≤ self.new.room + 1 }
        ensures live { AreLive self.new.orders }
    {
        close_above(&mut self.slots, &mut self.gaps, order.number());
        self.sums.raise_for(&order, order.cap() - order.filled());
        self.slots.push_reserved(order);
    }

    /// Returns whether there is a live order of this account and number. It is found by its number, in as many steps as
    /// the count of orders has bits.
    pub fn has_order(&self, account: u32, number: u64) -> bool
        ensures { IsTrue result ↔ HasOrder self.now.orders account number }
    {
        place_in(&self.slots, &self.gaps, account, number).is_some()
    }

    /// Cancels the live order of this account and number, which reserves nothing from now on. Returns `false`, and
    /// changes nothing, exactly if there is none: no live order has the number, or the one that has it is another
    /// account's.
    pub fn cancel(&mut self, account: u32, number: u64) -> bool
        ensures there { IsTrue result ↔ HasOrder self.old.orders account number }
        ensures stays { IsFalse result → self.new ≡ self.old }
        ensures orders { IsTrue result → self.new.orders ≡ without self.old.orders number }
        ensures room { self.old.room ≤ self.new.room }
        ensures live { AreLive self.new.orders }
    {
        match place_in(&self.slots, &self.gaps, account, number) {
            None => false,
            Some(place) => {
                let order = &self.slots[place];
                self.sums.lower_for(order, order.cap() - order.filled());
                leave_gap(&mut self.slots, &mut self.gaps, number);
                true
            }
        }
    }

    /// Fills the orders at these rates, in units of their portfolios: one for each order, in the same order, and none
    /// above its batch maximum. An order that reaches its cap leaves. The others stay, and reserve that much less.
    pub fn fill(&mut self, rates: &[u32])
        requires count { length rates.now ≡ length self.old.orders }
        requires within { All (λ t. t.traded ≤ (terms_of t.order).room)
            (trades self.old.orders rates.now) }
        ensures orders { self.new.orders ≡ staying (trades self.old.orders rates.now) }
        ensures room { self.old.room ≤ self.new.room }
        ensures live { AreLive self.new.orders }
    {
        close_gaps(&mut self.slots, &mut self.gaps);
        lower_traded(&mut self.sums, &self.slots, rates);
        fill_orders(&mut self.slots, rates);
    }

    /// Takes out the orders whose last batch has this number, which reserve nothing from now on. The others stay.
    pub fn end(&mut self, batch: u32)
        ensures orders { self.new.orders ≡ going_on batch self.old.orders }
        ensures room { self.old.room ≤ self.new.room }
        ensures live { AreLive self.new.orders }
    {
        close_gaps(&mut self.slots, &mut self.gaps);
        lower_ended(&mut self.sums, &self.slots, batch);
        end_orders(&mut self.slots, batch);
    }
}

// Returns the place of the live order of this account and number, if there is one.
fn place_in(slots: &[Order], gaps: &IndexSet<u64>, account: u32, number: u64) -> Option<usize>
    requires { AreSlots slots.now }
    ensures there { MatchOption result (¬ HasOrder (live_in gaps.now slots.now) account number)
        (λ _. HasOrder (live_in gaps.now slots.now) account number) }
    ensures place { IfSome result (IsPlaceOf slots.now number) }
    ensures live { IfSome result (HoldsAt (Contains (live_in gaps.now slots.now)) slots.now) }
    ensures no_gap { IfSome result (λ _. is_gap gaps.now number ≡ false) }
{
    let place = place_of(slots, number)?;
    let order = &slots[place];
    if order.account() != account {
        return None;
    }
    if gaps.contains(&number) {
        return None;
    }
    Some(place)
}

// Returns the place of the order of this number, live or cancelled, if there is one.
fn place_of(slots: &[Order], number: u64) -> Option<usize>
    requires { AreSlots slots.now }
    ensures { MatchOption result (All (λ o. o.number ≢ number) slots.now)
        (IsPlaceOf slots.now number) }
{
    slots
        .binary_search_by_key(&number, |order| order.number())
        .ok()
}
