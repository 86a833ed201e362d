//! Numbers in borrowed bytes, read by their places.
//!
//! A format whose parts are at known places needs no cursor: each number is read from its place, counted in bytes from 0, in
//! constant time, and nothing is copied. Numbers are encoded as `wire_fields` says.
#![tactic(auto)]

mod numbers;

pub use numbers::{i32_at, i64_at, i128_at, u8_at, u16_at, u32_at, u64_at};
