//! Whether eight bytes are a valid ticker.
ghost use Rattle.std.specs.Prelude.{◌≡◌, ◌<◌, ◌≤◌, ◌↔◌, take, All, IsTrue, slice_index};
ghost use Rattle.ticker_table.specs.Tickers.{IsNameCharacter, IsTicker};

/// Returns whether the bytes are a name of one or more of `A` to `Z`, digits, `.` and `-`, followed by spaces.
pub(crate) fn is_ticker(bytes: &[u8; 8]) -> bool
    ensures { IsTrue result ↔ IsTicker bytes.now }
{
    let name = name_length(bytes);
    name > 0 && are_spaces(&bytes[name..])
}

fn name_length(bytes: &[u8; 8]) -> usize
    ensures within { result ≤ 8 }
    ensures name { All IsNameCharacter (take result bytes.now) }
    ensures end { result < 8 → ¬ IsNameCharacter (slice_index bytes.now result) }
{
    for (place, byte) in bytes.iter().enumerate() {
        if !is_name_character(*byte) {
            return place;
        }
    }
    8
}

fn is_name_character(byte: u8) -> bool
    ensures { IsTrue result ↔ IsNameCharacter byte }
{
    matches!(byte, b'A'..=b'Z' | b'0'..=b'9' | b'.' | b'-')
}

fn are_spaces(bytes: &[u8]) -> bool
    ensures { IsTrue result ↔ All (λ byte. byte ≡ 32) bytes.now }
{
    bytes.iter().all(|byte| *byte == b' ')
}
