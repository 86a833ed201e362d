//! Numbers with a sign, in borrowed bytes.
ghost use Rattle.std.specs.Prelude.{◌≡◌, ◌<◌, ◌^◌, ◌++◌, ℕ, ℤ, List, All, length, slice_get, Option, Some, IfOk, IfSome, IsSomeAnd};
ghost use Rattle.std.specs.List.{flat_map};
ghost use Rattle.wire_fields.specs.Numbers.{signed, IsSigned};
ghost use Rattle.wire_records.specs.Records.{AreBytes};

use std::alloc::Global;
use std::marker::Model;
use wire_fields::Cursor;
use wire_records::Memory;

// The number of bytes of a number.
const NUMBER: usize = 8;

// Returns the slice as it is. Called for its contract: its items are bytes.
pub(crate) fn as_bytes(bytes: &[u8]) -> &[u8]
    ensures value { result.now ≡ bytes.now }
    ensures bytes { AreBytes result.now }
{
    bytes
}

// Prices or imbalances in borrowed bytes, one for each asset. Contracts see them as the list of the numbers.
#[derive(Drop)]
pub(crate) struct NumbersView<'a> {
    bytes: &'a [u8],
}

impl<'a> Model for NumbersView<'a> {
    ghost use Rattle.std.specs.Prelude.{List, ℤ};
    ghost use Rattle.journal_records.specs.Private.{signs_in, EncodeSigns};

    ghost Value = { List ℤ };

    ghost view = { λ v. signs_in v.bytes.now };

    ghost invariant = { λ v. EncodeSigns v.bytes.now (signs_in v.bytes.now) };
}

// Returns the number that `bytes` begin with.
fn number_of(bytes: &[u8]) -> Option<i64>
    ensures { (z : ℤ) (rest : List ℕ) → IsSigned 8 z → bytes.now ≡ signed 8 z ++ rest → result ≡ Some z }
{
    Cursor::new(bytes).take_i64()
}

impl<'a> NumbersView<'a> {
    pub(crate) fn len(&self) -> usize
        ensures { result ≡ length self.now }
    {
        self.bytes.len() / NUMBER
    }

    // Returns the number at place `k`, counted from 0, or `None` if there are `k` or fewer.
    pub(crate) fn number(&self, k: usize) -> Option<i64>
        ensures { result ≡ slice_get self.now k }
    {
        if k >= self.len() {
            return None;
        }
        number_of(&self.bytes[NUMBER * k..])
    }

    // Copies the numbers into a new vector.
    pub(crate) fn to_vec(&self, alloc: Global) -> Result<Vec<i64>, Memory>
        ensures { IfOk result (λ numbers. numbers.items ≡ self.now) }
    {
        let mut numbers = Vec::with_capacity(alloc, self.len())?;
        while let Some(number) = self.number(numbers.len()) {
            numbers.push_reserved(number);
        }
        Ok(numbers)
    }
}

// Takes `count` numbers, or returns `None` if fewer are left.
pub(crate) fn take_numbers<'a>(cursor: &mut Cursor<'a>, count: usize) -> Option<NumbersView<'a>>
    requires few { count < 2 ^ 16 }
    ensures found { IfSome result (λ numbers. cursor.old ≡ flat_map (signed 8) numbers ++ cursor.new) }
    ensures size { IfSome result (λ numbers. length numbers ≡ count) }
    ensures fit { IfSome result (λ numbers. All (IsSigned 8) numbers) }
    ensures again { (numbers : List ℤ) (rest : List ℕ) → length numbers ≡ count → All (IsSigned 8) numbers
        → cursor.old ≡ flat_map (signed 8) numbers ++ rest
        → IsSomeAnd result (λ found. found ≡ numbers) × (cursor.new ≡ rest) }
{
    let bytes = as_bytes(cursor.take(NUMBER * count)?);
    Some(NumbersView { bytes })
}
