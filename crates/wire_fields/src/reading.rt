//! The cursor that fields are read at.
ghost use Rattle.std.specs.Prelude.{◌≡◌, ℕ, ◌+◌, ◌^◌, ◌<◌, ◌↔◌, List, [], ◌++◌, length, ℤ, IsTrue, IsNone, IfNone, IfSome, OnSome, IsSomeAnd, Some};
ghost use Rattle.wire_fields.specs.Numbers.{unsigned, signed, IsSigned};

use crate::conversions::{i32_of, i64_of, i128_of, u8_of, u16_of, u32_of, u64_of};
use std::marker::Model;

/// The bytes of a record that are not read yet. Contracts see a cursor as the list of these bytes.
///
/// Each call that takes something costs the bytes that it takes, or nothing for a slice, and allocates
/// nothing. If too few bytes are left it returns `None`, and the cursor stays as it was.
#[derive(Drop)]
pub struct Cursor<'a> {
    rest: &'a [u8],
}

impl<'a> Model for Cursor<'a> {
    ghost Value = { List ℕ };

    ghost view = { λ c. c.rest.now };
}

impl<'a> Cursor<'a> {
    /// Makes a cursor before the first of the bytes.
    pub fn new(bytes: &'a [u8]) -> Cursor<'a>
        ensures { result ≡ bytes.now }
    {
        Cursor { rest: bytes }
    }

    /// Returns how many bytes are left.
    pub fn left(&self) -> usize
        ensures { result ≡ length self.now }
    {
        self.rest.len()
    }

    /// Returns whether nothing is left.
    pub fn is_empty(&self) -> bool
        ensures { IsTrue result ↔ (self.now ≡ []) }
    {
        self.rest.is_empty()
    }

    /// Takes the next `n` bytes, borrowed from the bytes that the cursor was made of; `None` exactly if fewer
    /// are left.
    pub fn take(&mut self, n: usize) -> Option<&'a [u8]>
        ensures found { IfSome result (λ taken. self.old ≡ taken.now ++ self.new) }
        ensures size { IfSome result (λ taken. length taken.now ≡ n) }
        ensures rest { OnSome result (length self.new + n ≡ length self.old) }
        ensures none { IsNone result ↔ (length self.old < n) }
        ensures stays { IfNone result (self.new ≡ self.old) }

        // Bytes that were put here are taken again, whatever follows them.
        ensures again { (prefix rest : List ℕ) → length prefix ≡ n → self.old ≡ prefix ++ rest
            → IsSomeAnd result (λ taken. taken.now ≡ prefix) × (self.new ≡ rest) }
    {
        let (taken, rest) = self.rest.split_at_checked(n)?;
        self.rest = rest;
        Some(taken)
    }

    /// Takes the unsigned number that the next byte encodes; `None` exactly if none is left.
    pub fn take_u8(&mut self) -> Option<u8>
        ensures found { IfSome result (λ n. self.old ≡ unsigned 1 n ++ self.new) }
        ensures rest { OnSome result (length self.new + 1 ≡ length self.old) }
        ensures none { IsNone result ↔ (length self.old < 1) }
        ensures stays { IfNone result (self.new ≡ self.old) }

        // A number that was put here is taken again, whatever follows it.
        ensures again { (n : ℕ) (rest : List ℕ) → n < 2 ^ 8 → self.old ≡ unsigned 1 n ++ rest
            → (result ≡ Some n) × (self.new ≡ rest) }
    {
        Some(u8_of(self.take_array()?))
    }

    /// Takes the unsigned number that the next 2 bytes encode; `None` exactly if fewer are left.
    pub fn take_u16(&mut self) -> Option<u16>
        ensures found { IfSome result (λ n. self.old ≡ unsigned 2 n ++ self.new) }
        ensures rest { OnSome result (length self.new + 2 ≡ length self.old) }
        ensures none { IsNone result ↔ (length self.old < 2) }
        ensures stays { IfNone result (self.new ≡ self.old) }

        // A number that was put here is taken again, whatever follows it.
        ensures again { (n : ℕ) (rest : List ℕ) → n < 2 ^ 16 → self.old ≡ unsigned 2 n ++ rest
            → (result ≡ Some n) × (self.new ≡ rest) }
    {
        Some(u16_of(self.take_array()?))
    }

    /// Takes the unsigned number that the next 4 bytes encode; `None` exactly if fewer are left.
    pub fn take_u32(&mut self) -> Option<u32>
        ensures found { IfSome result (λ n. self.old ≡ unsigned 4 n ++ self.new) }
        ensures rest { OnSome result (length self.new + 4 ≡ length self.old) }
        ensures none { IsNone result ↔ (length self.old < 4) }
        ensures stays { IfNone result (self.new ≡ self.old) }

        // A number that was put here is taken again, whatever follows it.
        ensures again { (n : ℕ) (rest : List ℕ) → n < 2 ^ 32 → self.old ≡ unsigned 4 n ++ rest
            → (result ≡ Some n) × (self.new ≡ rest) }
    {
        Some(u32_of(self.take_array()?))
    }

    /// Takes the unsigned number that the next 8 bytes encode; `None` exactly if fewer are left.
    pub fn take_u64(&mut self) -> Option<u64>
        ensures found { IfSome result (λ n. self.old ≡ unsigned 8 n ++ self.new) }
        ensures rest { OnSome result (length self.new + 8 ≡ length self.old) }
        ensures none { IsNone result ↔ (length self.old < 8) }
        ensures stays { IfNone result (self.new ≡ self.old) }

        // A number that was put here is taken again, whatever follows it.
        ensures again { (n : ℕ) (rest : List ℕ) → n < 2 ^ 64 → self.old ≡ unsigned 8 n ++ rest
            → (result ≡ Some n) × (self.new ≡ rest) }
    {
        Some(u64_of(self.take_array()?))
    }

    /// Takes the signed number that the next 4 bytes encode; `None` exactly if fewer are left.
    pub fn take_i32(&mut self) -> Option<i32>
        ensures found { IfSome result (λ z. self.old ≡ signed 4 z ++ self.new) }
        ensures rest { OnSome result (length self.new + 4 ≡ length self.old) }
        ensures none { IsNone result ↔ (length self.old < 4) }
        ensures stays { IfNone result (self.new ≡ self.old) }

        // A number that was put here is taken again, whatever follows it.
        ensures again { (z : ℤ) (rest : List ℕ) → IsSigned 4 z → self.old ≡ signed 4 z ++ rest
            → (result ≡ Some z) × (self.new ≡ rest) }
    {
        Some(i32_of(self.take_array()?))
    }

    /// Takes the signed number that the next 8 bytes encode; `None` exactly if fewer are left.
    pub fn take_i64(&mut self) -> Option<i64>
        ensures found { IfSome result (λ z. self.old ≡ signed 8 z ++ self.new) }
        ensures rest { OnSome result (length self.new + 8 ≡ length self.old) }
        ensures none { IsNone result ↔ (length self.old < 8) }
        ensures stays { IfNone result (self.new ≡ self.old) }

        // A number that was put here is taken again, whatever follows it.
        ensures again { (z : ℤ) (rest : List ℕ) → IsSigned 8 z → self.old ≡ signed 8 z ++ rest
            → (result ≡ Some z) × (self.new ≡ rest) }
    {
        Some(i64_of(self.take_array()?))
    }

    /// Takes the signed number that the next 16 bytes encode; `None` exactly if fewer are left.
    pub fn take_i128(&mut self) -> Option<i128>
        ensures found { IfSome result (λ z. self.old ≡ signed 16 z ++ self.new) }
        ensures rest { OnSome result (length self.new + 16 ≡ length self.old) }
        ensures none { IsNone result ↔ (length self.old < 16) }
        ensures stays { IfNone result (self.new ≡ self.old) }

        // A number that was put here is taken again, whatever follows it.
        ensures again { (z : ℤ) (rest : List ℕ) → IsSigned 16 z → self.old ≡ signed 16 z ++ rest
            → (result ≡ Some z) × (self.new ≡ rest) }
    {
        Some(i128_of(self.take_array()?))
    }

    fn take_array<const N: usize>(&mut self) -> Option<&'a [u8; N]>
        ensures found { IfSome result (λ taken. self.old ≡ taken.now ++ self.new) }
        ensures rest { OnSome result (length self.new + N ≡ length self.old) }
        ensures none { IsNone result ↔ (length self.old < N) }
        ensures stays { IfNone result (self.new ≡ self.old) }
    {
        let (array, rest) = self.rest.split_first_chunk::<N>()?;
        self.rest = rest;
        Some(array)
    }
}
