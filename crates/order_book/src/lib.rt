//! The live orders of a market, and what they reserve of each account.
//!
//! A [`Book`] is a list of orders by ascending numbers, at most 16,384, with the sums of what they reserve beside it:
//! of each account its money in grains, and its units of each asset. Only sums that aren't 0 are kept, at most 17 for
//! each live order: one of money, and one for each of up to 16 assets.
//!
//! # Costs
//!
//! Adding or cancelling an order takes the same time however many accounts, assets and orders there are: constant time
//! for the sum of its money and for each of its legs, each of which is looked up once. The place of an order is
//! found by its number, in as many steps as the count of orders has bits. A cancelled order stays there as a gap, which
//! no call sees. All gaps are closed together, in one pass over the book: when there are more gaps than live orders, so
//! that a cancel takes constant time on average, and when the orders are listed, filled or ended. What an account
//! reserves is one look-up. Filling goes once over the legs of all orders, and orders that end leave in one pass over
//! all orders, however many end.
//!
//! Only [`Book::reserve_one`] allocates. Most of its calls don't; the others move all orders, all sums, or the set of
//! gaps to a block of about twice the size. An order takes 72 bytes beside its legs, and a place in that set; a
//! cancelled one has these until its gap is closed. The room that an order had stays for later orders.
#![tactic(auto)]

mod book;
mod ended;
mod fill;
mod gaps;
pub mod laws;
mod live;
mod sums;

pub use book::Book;
pub use live::LiveIter;
pub use out_of_memory::Memory;
