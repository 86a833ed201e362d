//! The parts of a market, read from wherever they are, as from the bytes of a file, and what is made of them if the market is a consistent
//! one.
//!
//! [`MarketParts`] reads a market number by number: its version, tickers, balances, the exchange's account, the live
//! orders, the next number, how many batches were held, and the last cleared prices. What is read may break every rule;
//! `Parts` in `specs` says which market has these parts, and when it is a consistent one.
//!
//! [`read_consistent`] goes over the parts and tests what holds of a consistent market: numbers within their limits, balances
//! that add up to the totals, valid tickers that differ, live orders by ascending numbers, and accounts that cover what
//! their orders need. Each reader is called a few times at most, so the cost is the size of the parts, and one look-up of
//! what an account needs for each of its balances. Tickers, accounts and the book of orders are made once, and moved into
//! the result. The conditions that are tested are in `Tests` in `specs`, part by part.
#![tactic(auto)]

mod accounts;
mod assets;
mod book;
mod fault;
mod made;
mod needs;
mod numbers;
mod order;
mod orders;
mod parts;
mod rows;
mod sums;
mod tickers;

pub use fault::RestoreFault;
pub use made::{ConsistentParts, read_consistent};
pub use order::OrderParts;
pub use parts::MarketParts;
