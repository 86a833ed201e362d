//! Numbers and slices at a cursor: how each field of a record is read and written.
//!
//! This is the one place that knows how a number is encoded in bytes: big-endian, in 1, 2, 4, 8 or 16
//! bytes, and in two's complement if it is signed. Contracts name the encoding, `unsigned size n` and
//! `signed size z`, and never the bytes; the laws of all encodings are in [`laws`].
//!
//! A [`Cursor`] reads from borrowed bytes and copies none but those of the number that it returns. The
//! `put_` functions append to a vector that already has the capacity, so they can't fail.
#![tactic(auto)]

mod conversions;
pub mod laws;
mod reading;
mod writing;

pub use reading::Cursor;
pub use writing::{put_bytes, put_i32, put_i64, put_i128, put_u8, put_u16, put_u32, put_u64};
