//! Complete entries, as bytes.
ghost use Rattle.std.specs.Prelude.{◌≡◌, ◌↔◌, IsTrue, IfSome, IfNone};
ghost use Rattle.journal_disk.specs.Pairs.{IsRecordPair, pair_bytes, IsWholePair};

use journal_records::{MOST_PAIR, PairFramed, PairView, next_pair};

// The length of the longest entry, in bytes.
pub(crate) const LONGEST_PAIR: u64 = MOST_PAIR as u64;

// Returns the entry whose bytes these are, if they are those of one. Constant cost.
pub(crate) fn whole_pair<'a>(bytes: &'a [u8]) -> Option<PairView<'a>>
    ensures some { IfSome result (λ pair. IsRecordPair pair × (bytes.now ≡ pair_bytes pair)) }
    ensures none { IfNone result (¬ IsWholePair bytes.now) }
{
    match next_pair(bytes) {
        PairFramed::Whole(pair, taken) => {
            if taken < bytes.len() {
                return None;
            }
            Some(pair)
        }
        PairFramed::End => None,
        PairFramed::Broken => None,
    }
}

/// Returns whether the bytes are those of one complete entry, which [`Appender::append`](crate::Appender::append)
/// requires. Constant cost.
pub fn is_whole_pair(bytes: &[u8]) -> bool
    ensures { IsTrue result ↔ IsWholePair bytes.now }
{
    match whole_pair(bytes) {
        Some(_) => true,
        None => false,
    }
}
