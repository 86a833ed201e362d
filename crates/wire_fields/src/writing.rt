//! How fields are appended to a vector that already has the capacity for them.
ghost use Rattle.std.specs.Prelude.{◌≡◌, ◌+◌, ◌≤◌, ◌++◌, length, vec_len, vec_capacity};
ghost use Rattle.wire_fields.specs.Numbers.{unsigned, signed};

use crate::conversions::{
    i32_bytes, i64_bytes, i128_bytes, u8_bytes, u16_bytes, u32_bytes, u64_bytes,
};
use core::mem::replace_with;

// How many bytes are copied at once.
const BLOCK: usize = 16;

// Appends the bytes one by one.
#[inline(always)]
fn put_each(out: &mut Vec<u8>, bytes: &[u8])
    requires { vec_len out.old + length bytes.now ≤ vec_capacity out.old }
    ensures written { out.new.items ≡ out.old.items ++ bytes.now }
    ensures len { vec_len out.new ≡ vec_len out.old + length bytes.now }
    ensures capacity { vec_capacity out.new ≡ vec_capacity out.old }
{
    for byte in bytes {
        out.push_reserved(*byte);
    }
}

// Appends the bytes to a vector that is handed in and handed back, so that its length needn't be stored after each byte. A block is
// read before any of it is written, so that both can be done at once.
#[inline(always)]
fn with_bytes(mut out: Vec<u8>, bytes: &[u8]) -> (Vec<u8>, ())
    requires { vec_len out + length bytes.now ≤ vec_capacity out }
    ensures written { result.0.items ≡ out.items ++ bytes.now }
    ensures len { vec_len result.0 ≡ vec_len out + length bytes.now }
    ensures capacity { vec_capacity result.0 ≡ vec_capacity out }
{
    let mut rest = bytes;
    while let Some((block, after)) = rest.split_first_chunk::<BLOCK>() {
        let block = *block;
        put_each(&mut out, &block);
        rest = after;
    }
    put_each(&mut out, rest);
    (out, ())
}

/// Appends the bytes. `out` has the capacity for them, so nothing is allocated.
#[inline(always)]
pub fn put_bytes(out: &mut Vec<u8>, bytes: &[u8])
    requires { vec_len out.old + length bytes.now ≤ vec_capacity out.old }
    ensures written { out.new.items ≡ out.old.items ++ bytes.now }
    ensures len { vec_len out.new ≡ vec_len out.old + length bytes.now }
    ensures capacity { vec_capacity out.new ≡ vec_capacity out.old }
{
    replace_with(out, bytes, with_bytes);
}

/// Appends the one byte of an unsigned number. `out` has the capacity for it, so nothing is allocated.
pub fn put_u8(out: &mut Vec<u8>, n: u8)
    requires { vec_len out.old + 1 ≤ vec_capacity out.old }
    ensures written { out.new.items ≡ out.old.items ++ unsigned 1 n }
    ensures len { vec_len out.new ≡ vec_len out.old + 1 }
    ensures capacity { vec_capacity out.new ≡ vec_capacity out.old }
{
    put_bytes(out, &u8_bytes(n));
}

/// Appends the 2 bytes of an unsigned number. `out` has the capacity for them, so nothing is allocated.
pub fn put_u16(out: &mut Vec<u8>, n: u16)
    requires { vec_len out.old + 2 ≤ vec_capacity out.old }
    ensures written { out.new.items ≡ out.old.items ++ unsigned 2 n }
    ensures len { vec_len out.new ≡ vec_len out.old + 2 }
    ensures capacity { vec_capacity out.new ≡ vec_capacity out.old }
{
    put_bytes(out, &u16_bytes(n));
}

/// Appends the 4 bytes of an unsigned number. `out` has the capacity for them, so nothing is allocated.
pub fn put_u32(out: &mut Vec<u8>, n: u32)
    requires { vec_len out.old + 4 ≤ vec_capacity out.old }
    ensures written { out.new.items ≡ out.old.items ++ unsigned 4 n }
    ensures len { vec_len out.new ≡ vec_len out.old + 4 }
    ensures capacity { vec_capacity out.new ≡ vec_capacity out.old }
{
    put_bytes(out, &u32_bytes(n));
}

/// Appends the 8 bytes of an unsigned number. `out` has the capacity for them, so nothing is allocated.
pub fn put_u64(out: &mut Vec<u8>, n: u64)
    requires { vec_len out.old + 8 ≤ vec_capacity out.old }
    ensures written { out.new.items ≡ out.old.items ++ unsigned 8 n }
    ensures len { vec_len out.new ≡ vec_len out.old + 8 }
    ensures capacity { vec_capacity out.new ≡ vec_capacity out.old }
{
    put_bytes(out, &u64_bytes(n));
}

/// Appends the 4 bytes of a signed number. `out` has the capacity for them, so nothing is allocated.
pub fn put_i32(out: &mut Vec<u8>, n: i32)
    requires { vec_len out.old + 4 ≤ vec_capacity out.old }
    ensures written { out.new.items ≡ out.old.items ++ signed 4 n }
    ensures len { vec_len out.new ≡ vec_len out.old + 4 }
    ensures capacity { vec_capacity out.new ≡ vec_capacity out.old }
{
    put_bytes(out, &i32_bytes(n));
}

/// Appends the 8 bytes of a signed number. `out` has the capacity for them, so nothing is allocated.
pub fn put_i64(out: &mut Vec<u8>, n: i64)
    requires { vec_len out.old + 8 ≤ vec_capacity out.old }
    ensures written { out.new.items ≡ out.old.items ++ signed 8 n }
    ensures len { vec_len out.new ≡ vec_len out.old + 8 }
    ensures capacity { vec_capacity out.new ≡ vec_capacity out.old }
{
    put_bytes(out, &i64_bytes(n));
}

/// Appends the 16 bytes of a signed number. `out` has the capacity for them, so nothing is allocated.
pub fn put_i128(out: &mut Vec<u8>, n: i128)
    requires { vec_len out.old + 16 ≤ vec_capacity out.old }
    ensures written { out.new.items ≡ out.old.items ++ signed 16 n }
    ensures len { vec_len out.new ≡ vec_len out.old + 16 }
    ensures capacity { vec_capacity out.new ≡ vec_capacity out.old }
{
    put_bytes(out, &i128_bytes(n));
}
