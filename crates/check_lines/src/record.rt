//! Records, as far as their framing goes.
ghost use Rattle.std.specs.Prelude.{◌≤◌, ◌<◌, length};

use std::alloc::Global;

// The bytes of a tag and a length.
const HEAD: usize = 5;

// Returns how many bytes the first record takes, or all of them if it isn't complete.
fn record_len(bytes: &[u8]) -> usize
    ensures within { result ≤ length bytes.now }
    ensures some { 0 < length bytes.now → 0 < result }
{
    if bytes.len() < HEAD {
        return bytes.len();
    }
    let body = u32::from_be_bytes([bytes[1], bytes[2], bytes[3], bytes[4]]);
    bytes.len().min(HEAD + body as usize)
}

// Returns how many bytes the first two records take, or all of them if these aren't complete.
fn pair_len(bytes: &[u8]) -> usize
    ensures within { result ≤ length bytes.now }
    ensures some { 0 < length bytes.now → 0 < result }
{
    let first = record_len(bytes);
    first + record_len(&bytes[first..])
}

/// Returns the records that follow one another in the bytes, whatever they hold. The last one may be truncated. `None` if there is no
/// memory for the list.
pub fn records(alloc: Global, bytes: &[u8]) -> Option<Vec<&[u8]>> {
    let mut records = Vec::new(alloc);
    let mut rest = bytes;
    while !rest.is_empty() {
        let (record, following) = rest.split_at(record_len(rest));
        records.push(record).ok()?;
        rest = following;
    }
    Some(records)
}

/// Returns the entries, of two records each, that follow one another in the bytes, whatever they hold. The last one may be truncated.
/// `None` if there is no memory for the list.
pub fn pairs(alloc: Global, bytes: &[u8]) -> Option<Vec<&[u8]>> {
    let mut pairs = Vec::new(alloc);
    let mut rest = bytes;
    while !rest.is_empty() {
        let (pair, following) = rest.split_at(pair_len(rest));
        pairs.push(pair).ok()?;
        rest = following;
    }
    Some(pairs)
}
