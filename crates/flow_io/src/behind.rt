//! A read whose bytes are appended to those of a vector.
ghost use Rattle.std.specs.Prelude.{◌≡◌, ◌≤◌, ◌<◌, ◌++◌, ℕ, List, [], Err, length, IfOk, IfSome, OnErr};
ghost use Rattle.flow_io.specs.Faults.{Blames};
ghost use Rattle.flow_io.specs.Streams.{Takes};

use crate::{ReadAllFault, Source};

// Reads once, at most `most` bytes, appends them to the vector and returns their number; 0 is the end of the input.
pub(crate) fn read_behind<S: Source>(
    source: &mut S,
    into: &mut Vec<u8>,
    most: usize,
) -> Result<usize, ReadAllFault>
    requires some { 0 < most }
    ensures read { IfOk result (λ count. (more : List ℕ) × (length more ≡ count) × (count ≤ most)
        × (into.new.items ≡ into.old.items ++ more) × Takes (S.rest source.old) (S.rest source.new) more) }
    ensures end { IfOk result (λ count. count ≡ 0 → IfSome (S.rest source.new) (λ left. left ≡ [])) }
    ensures failed { OnErr result ((into.new.items ≡ into.old.items) × (S.rest source.new ≡ S.rest source.old)) }
    ensures cause { Blames (result ≡ Err ReadAllFault.Read) (S.faults source.old) (S.faults source.new) }
{
    let end = into.len();
    match into.reserve(most) {
        Ok(()) => into.resize(end + most, 0).unwrap(),
        Err(_) => return Err(ReadAllFault::Memory),
    }
    match source.read(&mut into[end..end + most]) {
        Ok(count) => {
            into.truncate(end + count);
            Ok(count)
        }
        Err(_) => {
            into.truncate(end);
            Err(ReadAllFault::Read)
        }
    }
}
