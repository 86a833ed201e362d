//! The magics of disks.
ghost use Rattle.std.specs.Prelude.{◌≡◌, ◌↔◌, ◌++◌, ℕ, List, Some, [], ◌∷◌, IfNone};
ghost use Rattle.wire_records.specs.Grammars.{BeginsWith, BeginsWithNone};
ghost use Rattle.wire_records.specs.declared.version.Version.{Version as version_value};
ghost use Rattle.journal_disk.specs.Entries.{disk_magic_of, disk_magics};

use wire_records::Version;

// Returns the magic of a disk of a version.
fn disk_magic(version: Version) -> [u8; 8]
    ensures { result ≡ disk_magic_of version }
{
    match version {
        Version::One => *b"FLOWDSK1",
        Version::Two => *b"FLOWDSK2",
        Version::Three => *b"FLOWDSK3",
        Version::Four => *b"FLOWDSK4",
    }
}

// Returns the version whose magic, as a disk's, the bytes begin with. Constant cost.
pub(crate) fn disk_version(bytes: &[u8]) -> Option<Version>
    ensures exact { (version : version_value) → (result ≡ Some version)
        ↔ ((body : List ℕ) × BeginsWith disk_magics bytes.now version body) }
    ensures none { IfNone result (BeginsWithNone disk_magics bytes.now) }
{
    let version = Version::of_magic(bytes)?;
    if bytes.starts_with(&disk_magic(version)) {
        Some(version)
    } else {
        None
    }
}

// Returns the magic of a version, and an unset commit byte.
pub(crate) fn new_disk(version: Version) -> [u8; 9]
    ensures { result ≡ disk_magic_of version ++ 0 ∷ [] }
{
    let mut disk = [0; 9];
    disk[..8].copy_from_slice(&disk_magic(version));
    disk
}
