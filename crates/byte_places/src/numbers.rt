//! Numbers of each width at a place of bytes. All bytes of the number have to be there.
ghost use Rattle.std.specs.Prelude.{◌≡◌, ◌+◌, ◌≤◌, length};
ghost use Rattle.std.specs.Int.{w32, w64, w128};
ghost use Rattle.byte_places.specs.Places.{unsigned_at, signed_at};

use wire_fields::Cursor;

/// Returns the unsigned number in the byte at a place.
pub fn u8_at(bytes: &[u8], place: usize) -> u8
    requires { place + 1 ≤ length bytes.now }
    ensures { result ≡ unsigned_at 1 place bytes.now }
{
    Cursor::new(&bytes[place..]).take_u8().unwrap()
}

/// Returns the unsigned number in the 2 bytes at a place.
pub fn u16_at(bytes: &[u8], place: usize) -> u16
    requires { place + 2 ≤ length bytes.now }
    ensures { result ≡ unsigned_at 2 place bytes.now }
{
    Cursor::new(&bytes[place..]).take_u16().unwrap()
}

/// Returns the unsigned number in the 4 bytes at a place.
pub fn u32_at(bytes: &[u8], place: usize) -> u32
    requires { place + 4 ≤ length bytes.now }
    ensures { result ≡ unsigned_at 4 place bytes.now }
{
    Cursor::new(&bytes[place..]).take_u32().unwrap()
}

/// Returns the unsigned number in the 8 bytes at a place.
pub fn u64_at(bytes: &[u8], place: usize) -> u64
    requires { place + 8 ≤ length bytes.now }
    ensures { result ≡ unsigned_at 8 place bytes.now }
{
    Cursor::new(&bytes[place..]).take_u64().unwrap()
}

/// Returns the signed number in the 4 bytes at a place.
pub fn i32_at(bytes: &[u8], place: usize) -> i32
    requires { place + 4 ≤ length bytes.now }
    ensures { result ≡ signed_at w32 place bytes.now }
{
    Cursor::new(&bytes[place..]).take_i32().unwrap()
}

/// Returns the signed number in the 8 bytes at a place.
pub fn i64_at(bytes: &[u8], place: usize) -> i64
    requires { place + 8 ≤ length bytes.now }
    ensures { result ≡ signed_at w64 place bytes.now }
{
    Cursor::new(&bytes[place..]).take_i64().unwrap()
}

/// Returns the signed number in the 16 bytes at a place.
pub fn i128_at(bytes: &[u8], place: usize) -> i128
    requires { place + 16 ≤ length bytes.now }
    ensures { result ≡ signed_at w128 place bytes.now }
{
    Cursor::new(&bytes[place..]).take_i128().unwrap()
}
