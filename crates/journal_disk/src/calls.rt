//! Sequences of disk calls, and calls that change nothing.
ghost use Rattle.std.specs.Prelude.{◌≡◌, ◌≤◌, ◌<◌, ◌+◌, ◌^◌, ◌↔◌, ◌++◌, ℕ, List, [], ◌∷◌, Some, length, take, drop, slice_index, option_map, IfSome, IsSome, IfOk, OnOk, IsErr};
ghost use Rattle.disk_edge.specs.Disks.{AtEachMoment};
ghost use Rattle.flow_io.specs.Faults.{Blames};
ghost use Rattle.disk_edge.specs.Images.{written, TornWrite, TornCut, After, LeavesOnly};
ghost use Rattle.wire_fields.specs.Numbers.{unsigned};
ghost use Rattle.journal_disk.specs.Entries.{disk_magic_of, IsNewDisk};
ghost use Rattle.journal_disk.specs.Recovering.{IsMagicOf};
ghost use Rattle.journal_disk.specs.Looking.{OnlyLooks};
ghost use Rattle.journal_disk.specs.Lengths.{ReachesAtMost};

use crate::magic::{disk_version, new_disk};
use disk_edge::{Disk, DiskFailed};
use wire_records::Version;

// A commit byte that is set. Any other byte is an unset one.
pub(crate) const OPEN: u8 = 1;

// The most bytes of a disk that is new whatever it holds.
pub(crate) const MOST_NEW: u64 = 9;

// Writes the bytes at a place. At Ok they outlast a crash.
pub(crate) fn write_synced<D: Disk>(
    disk: &mut D,
    place: u64,
    bytes: &[u8],
) -> Result<(), DiskFailed>
    requires { IfSome (D.state disk.old).content
        (λ held. (place ≤ length held) × (place + length bytes.now ≤ 2 ^ 62)) }
    ensures written { OnOk result
        ((D.state disk.new).content ≡ option_map (written place bytes.now) (D.state disk.old).content) }
    ensures kept { OnOk result (IfSome (D.state disk.new).content (LeavesOnly (D.state disk.new).images)) }
    ensures moments { AtEachMoment (D.state disk.old) (D.state disk.new)
        (After (TornWrite place (length bytes.now)) (D.state disk.old).images) }
    ensures cause { Blames (IsErr result) (D.state disk.old).faults (D.state disk.new).faults }
{
    disk.write_at(place, bytes)?;
    disk.sync()
}

// Sets the commit byte at a place. At Ok that outlasts a crash.
pub(crate) fn set_commit<D: Disk>(disk: &mut D, place: u64) -> Result<(), DiskFailed>
    requires { IfSome (D.state disk.old).content
        (λ held. (place ≤ length held) × (place + 1 ≤ 2 ^ 62)) }
    ensures written { OnOk result
        ((D.state disk.new).content ≡ option_map (written place (1 ∷ [])) (D.state disk.old).content) }
    ensures kept { OnOk result (IfSome (D.state disk.new).content (LeavesOnly (D.state disk.new).images)) }
    ensures moments { AtEachMoment (D.state disk.old) (D.state disk.new)
        (After (TornWrite place 1) (D.state disk.old).images) }
    ensures cause { Blames (IsErr result) (D.state disk.old).faults (D.state disk.new).faults }
{
    write_synced(disk, place, &[OPEN])
}

// Cuts the disk to a length. At Ok that outlasts a crash.
pub(crate) fn cut_synced<D: Disk>(disk: &mut D, to: u64) -> Result<(), DiskFailed>
    requires { IfSome (D.state disk.old).content (λ held. to ≤ length held) }
    ensures cut { OnOk result
        ((D.state disk.new).content ≡ option_map (take to) (D.state disk.old).content) }
    ensures kept { OnOk result (IfSome (D.state disk.new).content (LeavesOnly (D.state disk.new).images)) }
    ensures moments { AtEachMoment (D.state disk.old) (D.state disk.new)
        (After (TornCut to) (D.state disk.old).images) }
    ensures lengths { ReachesAtMost 0 (D.state disk.old) (D.state disk.new) }
    ensures cause { Blames (IsErr result) (D.state disk.old).faults (D.state disk.new).faults }
{
    disk.cut(to)?;
    disk.sync()
}

// Syncs, and returns the length. At Ok what is there outlasts a crash.
pub(crate) fn synced_length<D: Disk>(disk: &mut D) -> Result<u64, DiskFailed>
    ensures length { IfOk result (λ count. IfSome (D.state disk.old).content (λ bytes. count ≡ length bytes)) }
    ensures kept { OnOk result (IfSome (D.state disk.old).content (LeavesOnly (D.state disk.new).images)) }
    ensures looks { OnlyLooks (D.state disk.old) (D.state disk.new) }
    ensures cause { Blames (IsErr result) (D.state disk.old).faults (D.state disk.new).faults }
{
    disk.sync()?;
    disk.length()
}

// Returns how many bytes the disk has.
pub(crate) fn length_of<D: Disk>(disk: &mut D) -> Result<u64, DiskFailed>
    ensures length { IfOk result (λ count. IfSome (D.state disk.old).content (λ bytes. count ≡ length bytes)) }
    ensures looks { OnlyLooks (D.state disk.old) (D.state disk.new) }
    ensures cause { Blames (IsErr result) (D.state disk.old).faults (D.state disk.new).faults }
{
    disk.length()
}

// Reads the bytes at a place.
pub(crate) fn read_from<D: Disk>(
    disk: &mut D,
    place: u64,
    into: &mut [u8],
) -> Result<(), DiskFailed>
    requires { IfSome (D.state disk.old).content (λ bytes. place + length into.old ≤ length bytes) }
    ensures read { OnOk result (IfSome (D.state disk.old).content
        (λ bytes. into.new ≡ take (length into.old) (drop place bytes))) }
    ensures looks { OnlyLooks (D.state disk.old) (D.state disk.new) }
    ensures cause { Blames (IsErr result) (D.state disk.old).faults (D.state disk.new).faults }
{
    disk.read_at(place, into)
}

// What a disk begins with: the version of its magic, if it has one, and its first commit byte.
#[derive(Clone, Copy)]
pub(crate) struct Opening {
    pub(crate) version: Option<Version>,
    pub(crate) commit: u8,
}

// Returns what the disk begins with, which has 9 bytes at least.
pub(crate) fn prefix_of<D: Disk>(disk: &mut D) -> Result<Opening, DiskFailed>
    requires { IfSome (D.state disk.old).content (λ bytes. 9 ≤ length bytes) }
    ensures magic { IfOk result (λ prefix. IfSome (D.state disk.old).content (IsMagicOf prefix.version)) }
    ensures commit { IfOk result (λ prefix. IfSome (D.state disk.old).content (λ bytes. prefix.commit ≡ slice_index bytes 8)) }
    ensures looks { OnlyLooks (D.state disk.old) (D.state disk.new) }
    ensures cause { Blames (IsErr result) (D.state disk.old).faults (D.state disk.new).faults }
{
    let mut prefix = [0; 9];
    read_from(disk, 0, &mut prefix)?;
    Ok(Opening {
        version: disk_version(&prefix),
        commit: prefix[8],
    })
}

// Cuts a disk to no bytes, if it has more than 9.
pub(crate) fn clear<D: Disk>(disk: &mut D) -> Result<(), DiskFailed>
    ensures short { OnOk result (IfSome (D.state disk.new).content (λ bytes. length bytes ≤ 9)) }
    ensures told { OnOk result (IsSome (D.state disk.new).content ↔ IsSome (D.state disk.old).content) }
    ensures images { OnOk result ((bytes : List ℕ) → (D.state disk.old).content ≡ Some bytes → LeavesOnly (D.state disk.old).images bytes →
        (image : List ℕ) → (D.state disk.new).images image → length image ≤ 9) }
    ensures moments { (bytes : List ℕ) → (D.state disk.old).content ≡ Some bytes → IsNewDisk bytes → LeavesOnly (D.state disk.old).images bytes →
        AtEachMoment (D.state disk.old) (D.state disk.new) IsNewDisk }
    ensures lengths { ReachesAtMost 0 (D.state disk.old) (D.state disk.new) }
    ensures cause { Blames (IsErr result) (D.state disk.old).faults (D.state disk.new).faults }
{
    let length = length_of(disk)?;
    if length > MOST_NEW {
        cut_synced(disk, 0)?;
    }
    Ok(())
}

// Makes the disk a new one of a version: the magic, and an unset commit byte.
pub(crate) fn make_new<D: Disk>(disk: &mut D, version: Version) -> Result<(), DiskFailed>
    requires { IfSome (D.state disk.old).content (λ bytes. length bytes ≤ 9) }
    ensures written { OnOk result
        ((D.state disk.new).content ≡ option_map (λ _. disk_magic_of version ++ 0 ∷ []) (D.state disk.old).content) }
    ensures kept { OnOk result (IfSome (D.state disk.new).content (LeavesOnly (D.state disk.new).images)) }
    ensures moments { AtEachMoment (D.state disk.old) (D.state disk.new)
        (After (TornWrite 0 9) (D.state disk.old).images) }
    ensures cause { Blames (IsErr result) (D.state disk.old).faults (D.state disk.new).faults }
{
    let bytes = new_disk(version);
    write_synced(disk, 0, &bytes)
}
