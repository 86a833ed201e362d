//! The names of tickers.
ghost use Rattle.std.specs.Prelude.{◌≡◌, ◌≤◌, length, take};
ghost use Rattle.pair_text.specs.Texts.{name_of};

// Returns how many bytes of a ticker are before its first space.
pub(crate) fn name_len(ticker: &[u8]) -> usize
    ensures within { result ≤ length ticker.now }
    ensures name { take result ticker.now ≡ name_of ticker.now }
{
    for place in 0..ticker.len() {
        if ticker[place] == b' ' {
            return place;
        }
    }
    ticker.len()
}
