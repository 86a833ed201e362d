//! The weight vectors of portfolio orders: which assets one unit of a portfolio has, with what weights, and its price.
//!
//! A weight vector is 1 to 16 legs with strictly ascending assets and absolute weights of 1 to 4,096. A negative
//! weight sells its asset. Legs that are stored elsewhere, as bytes, are tested one by one with [`place_fault`].
//!
//! Every call makes at most one pass over the legs, and none allocates.
#![tactic(auto)]

mod entries;
mod faults;
pub mod laws;
mod rows;

pub use entries::{Entry, EntryList};
pub use faults::{MOST_ENTRIES, RowFault, place_fault, row_fault};
pub use rows::WeightRow;
