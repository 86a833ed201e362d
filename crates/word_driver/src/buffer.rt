//! Puts the parts of a line into a buffer that has room for them.
ghost use Rattle.std.specs.Prelude.{◌≡◌, ◌≤◌, ◌++◌, ◌+◌, length, vec_len, vec_capacity};

use itoa::{Buffer, Integer};

/// Appends a text to a buffer that has room for it. Allocates nothing.
pub fn put_text(buffer: &mut Vec<u8>, text: &[u8])
    requires room { vec_len buffer.old + length text.now ≤ vec_capacity buffer.old }
    ensures put { buffer.new.items ≡ buffer.old.items ++ text.now }
    ensures most { vec_len buffer.new ≤ vec_len buffer.old + length text.now }
    ensures room { vec_capacity buffer.old ≤ vec_capacity buffer.new }
{
    buffer.extend_from_slice(text).unwrap();
}

/// Appends a number in plain decimal between two texts to a buffer that has room for them and for the longest number of the
/// type. Allocates nothing.
pub fn put_number<I: Integer>(buffer: &mut Vec<u8>, before: &[u8], number: I, after: &[u8])
    requires room { vec_len buffer.old + length before.now + I.MAX_STR_LEN + length after.now ≤ vec_capacity buffer.old }
    ensures put { buffer.new.items ≡ buffer.old.items ++ (before.now ++ I.text number ++ after.now) }
    ensures most { vec_len buffer.new ≤ vec_len buffer.old + length before.now + I.MAX_STR_LEN + length after.now }
    ensures room { vec_capacity buffer.old ≤ vec_capacity buffer.new }
{
    let mut digits = Buffer::new();
    put_text(buffer, before);
    put_text(buffer, digits.format(number).as_bytes());
    put_text(buffer, after);
}
