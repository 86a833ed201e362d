//! Settlement of a batch: what each account pays and receives, and what the exchange takes.
//!
//! All orders of a batch trade at one price for each asset, at rates that are rounded to whole units. The account of
//! an order pays the price of the order's portfolio times its rate, and receives each weight times the rate in units;
//! a negative weight gives units away. The exchange takes the other side of each asset's imbalance: it takes the units
//! that are left over and pays for them, or gives those that are lacking and is paid. So accounts and exchange together
//! hold what they held before, of money and of every asset. The totals of deposits less withdrawals don't change.
//!
//! Money and prices are in grains, and 2^32 grains are a tick. Assets and rates are in whole units.
//!
//! If an account's balances and credits cover what its orders reserve, they afterwards cover what its remaining orders
//! reserve. No account owes more than its credit at any time: an order costs at most what was reserved for it.
//!
//! # Costs
//!
//! Settlement makes one pass over the legs of all orders. It doesn't allocate and can't fail.
#![tactic(auto)]

mod entries;
pub mod laws;
mod settlement;

pub use settlement::settle;
