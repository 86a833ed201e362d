//! A number and the array of its bytes, for each width.
ghost use Rattle.std.specs.Prelude.{◌≡◌};
ghost use Rattle.wire_fields.specs.Numbers.{unsigned, signed};

pub(crate) fn u8_of(bytes: &[u8; 1]) -> u8
    ensures { unsigned 1 result ≡ bytes.now }
{
    u8::from_be_bytes(*bytes)
}

pub(crate) fn u16_of(bytes: &[u8; 2]) -> u16
    ensures { unsigned 2 result ≡ bytes.now }
{
    u16::from_be_bytes(*bytes)
}

pub(crate) fn u32_of(bytes: &[u8; 4]) -> u32
    ensures { unsigned 4 result ≡ bytes.now }
{
    u32::from_be_bytes(*bytes)
}

pub(crate) fn u64_of(bytes: &[u8; 8]) -> u64
    ensures { unsigned 8 result ≡ bytes.now }
{
    u64::from_be_bytes(*bytes)
}

fn u128_of(bytes: &[u8; 16]) -> u128
    ensures { unsigned 16 result ≡ bytes.now }
{
    u128::from_be_bytes(*bytes)
}

pub(crate) fn i32_of(bytes: &[u8; 4]) -> i32
    ensures { signed 4 result ≡ bytes.now }
{
    u32_of(bytes).cast_signed()
}

pub(crate) fn i64_of(bytes: &[u8; 8]) -> i64
    ensures { signed 8 result ≡ bytes.now }
{
    u64_of(bytes).cast_signed()
}

pub(crate) fn i128_of(bytes: &[u8; 16]) -> i128
    ensures { signed 16 result ≡ bytes.now }
{
    u128_of(bytes).cast_signed()
}

pub(crate) fn u8_bytes(n: u8) -> [u8; 1]
    ensures { result ≡ unsigned 1 n }
{
    n.to_be_bytes()
}

pub(crate) fn u16_bytes(n: u16) -> [u8; 2]
    ensures { result ≡ unsigned 2 n }
{
    n.to_be_bytes()
}

pub(crate) fn u32_bytes(n: u32) -> [u8; 4]
    ensures { result ≡ unsigned 4 n }
{
    n.to_be_bytes()
}

pub(crate) fn u64_bytes(n: u64) -> [u8; 8]
    ensures { result ≡ unsigned 8 n }
{
    n.to_be_bytes()
}

fn u128_bytes(n: u128) -> [u8; 16]
    ensures { result ≡ unsigned 16 n }
{
    n.to_be_bytes()
}

pub(crate) fn i32_bytes(z: i32) -> [u8; 4]
    ensures { result ≡ signed 4 z }
{
    u32_bytes(z.cast_unsigned())
}

pub(crate) fn i64_bytes(z: i64) -> [u8; 8]
    ensures { result ≡ signed 8 z }
{
    u64_bytes(z.cast_unsigned())
}

pub(crate) fn i128_bytes(z: i128) -> [u8; 16]
    ensures { result ≡ signed 16 z }
{
    u128_bytes(z.cast_unsigned())
}
