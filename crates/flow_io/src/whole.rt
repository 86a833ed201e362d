ghost use Rattle.std.specs.Prelude.{◌≡◌, ◌≢◌, ◌+◌, ◌≤◌, ◌<◌, ℕ, List, [], Option, Some, length, drop, vec_len, IfOk, IfSome, OnOk, OnErr, Err, IsTrue, ◌↔◌, false};
ghost use Rattle.flow_io.specs.Faults.{Blames};
ghost use Rattle.flow_io.specs.Streams.{Takes, TakesAtMost};
ghost use Rattle.flow_io.specs.Whole.{IsWholeInput};

use crate::Source;
use std::alloc::{AllocError, Global};

/// All bytes that a source had, up to a limit.
#[derive(Drop)]
pub struct WholeInput {
    /// The bytes, at most as many as the limit.
    pub bytes: Vec<u8>,
    /// Whether the source had more than these.
    pub more: bool,
}

/// Why a source could not be read to its end.
#[derive(Clone, Copy, Debug, PartialEq, Eq)]
pub enum ReadAllFault {
    /// A read failed.
    Read,
    /// Out of memory for the bytes.
    Memory,
}

impl From<AllocError> for ReadAllFault {
    ghost use Rattle.flow_io.specs.declared.whole.ReadAllFault.TheVariants.{Memory};

    ghost from_gives = { λ _ fault. fault ≡ Memory };

    fn from(_error: AllocError) -> ReadAllFault {
        ReadAllFault::Memory
    }
}

// The most bytes that one read asks for.
const WINDOW: usize = 16384;

// Returns the bytes up to the limit, and whether the input was seen to end with them.
fn read_up_to<S: Source>(
    alloc: Global,
    source: &mut S,
    limit: u64,
) -> Result<(Vec<u8>, bool), ReadAllFault>
    ensures taken { IfOk result (λ found. Takes (S.rest source.old) (S.rest source.new) found.0.items) }
    ensures short { IfOk result (λ found. vec_len found.0 ≤ limit) }
    ensures ended { IfOk result
        (λ found. IsTrue found.1 → IfSome (S.rest source.new) (λ left. left ≡ [])) }
    ensures full { IfOk result (λ found. found.1 ≡ false → vec_len found.0 ≡ limit) }
    ensures cause { Blames (result ≡ Err ReadAllFault.Read)
        (S.faults source.old) (S.faults source.new) }
    ensures prefix { (bytes : List ℕ) × (length bytes ≤ limit) × Takes (S.rest source.old) (S.rest source.new) bytes }
{
    let mut bytes = Vec::new(alloc);
    let mut window = [0u8; WINDOW];
    while (bytes.len() as u64) < limit {
        let want = WINDOW.min((limit - bytes.len() as u64) as usize);
        bytes.reserve(want)?;
        let count = source
            .read(&mut window[..want])
            .map_err(|_| ReadAllFault::Read)?;
        if count == 0 {
            return Ok((bytes, true));
        }
        bytes.extend_from_slice(&window[..count]).unwrap();
    }
    Ok((bytes, false))
}

// Returns whether the source has one byte more. If it has, that byte is taken.
fn has_more<S: Source>(source: &mut S) -> Result<bool, ReadAllFault>
    ensures more { IfOk result
        (λ more. IfSome (S.rest source.old) (λ left. IsTrue more ↔ (0 < length left))) }
    ensures taken { IfOk result
        (λ more. IfSome (S.rest source.old) (λ left. S.rest source.new ≡ Some (drop 1 left))) }
    ensures stays { OnErr result (S.rest source.new ≡ S.rest source.old) }
    ensures cause { Blames (result ≡ Err ReadAllFault.Read)
        (S.faults source.old) (S.faults source.new) }
    ensures prefix { (bytes : List ℕ) × (length bytes ≤ 1) × Takes (S.rest source.old) (S.rest source.new) bytes }
{
    let mut window = [0u8; 1];
    let count = source.read(&mut window).map_err(|_| ReadAllFault::Read)?;
    Ok(count == 1)
}

/// Takes the bytes of a source to its end, at most `limit`, and looks for one more.
///
/// `Read` comes only if the source's count of faults rose. After it, and after `Memory`, some bytes of
/// the source are taken, at most `limit + 1`. Each read asks for at most 16,384 bytes, and each but the
/// last gives at least one. Each byte is copied once, and again whenever the vector grows.
pub fn read_all<S: Source>(
    alloc: Global,
    source: &mut S,
    limit: u64,
) -> Result<WholeInput, ReadAllFault>
    ensures whole { IfOk result
        (λ input. IfSome (S.rest source.old) (λ left. IsWholeInput limit left input)) }
    ensures short { IfOk result (λ input. vec_len input.bytes ≤ limit) }
    ensures full { IfOk result (λ input. IsTrue input.more → vec_len input.bytes ≡ limit) }
    ensures taken { OnOk result
        (IfSome (S.rest source.old) (λ left. S.rest source.new ≡ Some (drop (limit + 1) left))) }
    ensures cause { Blames (result ≡ Err ReadAllFault.Read)
        (S.faults source.old) (S.faults source.new) }
    ensures prefix { (bytes : List ℕ) × Takes (S.rest source.old) (S.rest source.new) bytes }
    ensures most { TakesAtMost (S.rest source.old) (S.rest source.new) (limit + 1) }
{
    let (bytes, ended) = read_up_to(alloc, source, limit)?;
    if ended {
        return Ok(WholeInput { bytes, more: false });
    }
    let more = has_more(source)?;
    Ok(WholeInput { bytes, more })
}
