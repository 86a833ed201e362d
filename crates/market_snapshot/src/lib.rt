//! Checkpoints of a market: all that it keeps, in bytes, and the market again from these bytes.
//!
//! [`write_market`] appends the bytes of a market, and [`read_market`] makes a market of the bytes that others begin
//! with. A market has one checkpoint, which itself says where it ends ([`checkpoint_size`]), so anything may follow it.
//! What is read is tested: bytes that encode no consistent market are refused. The laws of all checkpoints are in
//! [`laws`].
//!
//! # Costs
//!
//! Writing costs one pass over all that the market keeps, reading one pass over the bytes and the test of consistency, which
//! is a pass too. A checkpoint of `n` assets takes 63 bytes, 32 for each asset, 24 and 16 for each asset for each account, and
//! 53 and 6 for each leg for each live order: 62 MiB with 60,000 accounts, 64 assets and 16,384 orders.
#![tactic(auto)]

mod balances;
pub mod laws;
mod layout;
mod orders;
mod places;
mod readers;
mod reading;
mod size;
mod view;
mod writing;

pub use layout::CHECKPOINT_MAGIC;
pub use reading::{SnapshotFault, read_market};
pub use size::checkpoint_size;
pub use writing::write_market;
