//! What follows a commit byte, read part by part.
ghost use Rattle.std.specs.Prelude.{◌≡◌, ◌≤◌, ◌<◌, ◌+◌, ◌^◌, ◌++◌, ℕ, List, [], ◌∷◌, IfSome, IfOk, IfErr, OnErr, OnOk, Err, Ok, ◌⊎◌, ◌≢◌, length, take, drop, slice_index, IsErr, IsErrOf, true, false};
ghost use Rattle.wire_fields.specs.Numbers.{unsigned};
ghost use Rattle.flow_io.specs.Faults.{Blames};
ghost use Rattle.journal_disk.specs.Looking.{OnlyLooks};
ghost use Rattle.journal_disk.specs.Ahead.{IsPiece, HoldsPart};
ghost use Rattle.journal_disk.specs.Frames.{IsStated};
ghost use Rattle.journal_records.specs.Pairs.{longest_pair};

use crate::ahead::Ahead;
use crate::fault::DiskFault;
use crate::pairs::LONGEST_PAIR;
use disk_edge::Disk;
use wire_fields::Cursor;

// Returns the byte at a place.
pub(crate) fn byte_at<D: Disk>(disk: &mut D, ahead: &mut Ahead, place: u64) -> Result<u8, DiskFault>
    requires inside { place + 1 ≤ ahead.old.size }
    requires piece { IfSome (D.state disk.old).content (IsPiece ahead.old) }
    ensures byte { IfOk result (λ byte. IfSome (D.state disk.old).content (λ bytes. byte ≡ slice_index bytes place)) }
    ensures piece { IfSome (D.state disk.new).content (IsPiece ahead.new) }
    ensures size { ahead.new.size ≡ ahead.old.size }
    ensures refused { IfErr result (λ fault. (fault ≡ DiskFault.Failed) ⊎ (fault ≡ DiskFault.Memory)) }
    ensures looks { OnlyLooks (D.state disk.old) (D.state disk.new) }
    ensures cause { Blames (IsErrOf result DiskFault.Failed) (D.state disk.old).faults (D.state disk.new).faults }
{
    ahead.see(disk, place, 1)?;
    Ok(ahead.part(place, 1)[0])
}

// Returns the number that four bytes encode.
fn number_of(bytes: &[u8]) -> u32
    requires { length bytes.now ≡ 4 }
    ensures { bytes.now ≡ unsigned 4 result }
{
    let mut cursor = Cursor::new(bytes);
    match cursor.take_u32() {
        Some(number) => number,
        None => 0,
    }
}

// Returns the number in the four bytes at a place.
pub(crate) fn number_at<D: Disk>(
    disk: &mut D,
    ahead: &mut Ahead,
    place: u64,
) -> Result<u32, DiskFault>
    requires inside { place + 4 ≤ ahead.old.size }
    requires piece { IfSome (D.state disk.old).content (IsPiece ahead.old) }
    ensures number { IfOk result (λ number. IfSome (D.state disk.old).content
        (λ bytes. take 4 (drop place bytes) ≡ unsigned 4 number)) }
    ensures piece { IfSome (D.state disk.new).content (IsPiece ahead.new) }
    ensures size { ahead.new.size ≡ ahead.old.size }
    ensures refused { IfErr result (λ fault. (fault ≡ DiskFault.Failed) ⊎ (fault ≡ DiskFault.Memory)) }
    ensures looks { OnlyLooks (D.state disk.old) (D.state disk.new) }
    ensures cause { Blames (IsErrOf result DiskFault.Failed) (D.state disk.old).faults (D.state disk.new).faults }
{
    ahead.see(disk, place, 4)?;
    Ok(number_of(ahead.part(place, 4)))
}

// Returns the length that is stated at a place, if the entry after it ends before `end` and isn't longer than the
// longest: then its bytes are read ahead.
pub(crate) fn stated_at<D: Disk>(
    disk: &mut D,
    ahead: &mut Ahead,
    place: u64,
    end: u64,
) -> Result<Option<usize>, DiskFault>
    requires there { end ≤ ahead.old.size }
    requires piece { IfSome (D.state disk.old).content (IsPiece ahead.old) }
    requires near { place ≤ 2 ^ 61 }
    ensures stated { IfOk result (λ found. IfSome (D.state disk.old).content (IsStated found place end)) }
    ensures within { IfOk result (λ found. IfSome found (λ count. (count ≤ longest_pair) × (place + (4 + count) ≤ end))) }
    ensures held { IfOk result (λ found. IfSome found (λ count. HoldsPart (place + 4) count ahead.new)) }
    ensures piece { IfSome (D.state disk.new).content (IsPiece ahead.new) }
    ensures size { ahead.new.size ≡ ahead.old.size }
    ensures refused { OnErr result ((result ≡ Err DiskFault.Failed) ⊎ (result ≡ Err DiskFault.Memory)) }
    ensures looks { OnlyLooks (D.state disk.old) (D.state disk.new) }
    ensures cause { Blames (IsErrOf result DiskFault.Failed) (D.state disk.old).faults (D.state disk.new).faults }
{
    if end < place + 4 {
        return Ok(None);
    }
    let count = number_at(disk, ahead, place)?;
    if count as u64 > LONGEST_PAIR {
        return Ok(None);
    }
    if end - (place + 4) < count as u64 {
        return Ok(None);
    }
    ahead.see(disk, place + 4, count as usize)?;
    Ok(Some(count as usize))
}
