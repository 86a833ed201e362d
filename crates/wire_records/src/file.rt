//! Command files: how they begin, and the limit of their records.
ghost use Rattle.std.specs.Prelude.{◌≡◌, ℕ, List, ◌↔◌, Some, IfNone, IsTrue};
ghost use Rattle.wire_records.specs.Grammars.{BeginsWith, BeginsWithNone};
ghost use Rattle.wire_records.specs.declared.version.Version.{Version};
ghost use Rattle.wire_records.specs.declared.version.Version.TheVariants.{One};
ghost use Rattle.wire_records.specs.Formats.{commands, command_magic_of};

use crate::Version;

/// The first 8 bytes of a command file of version One.
pub const COMMAND_MAGIC: [u8; 8] = *b"FLOWCMD1";

/// The longest body of a command record, in bytes.
pub const MOST_BODY: u32 = 1024;

/// The longest command record, in bytes: the 5 of its head, and the longest body.
pub const MOST_RECORD: usize = 5 + MOST_BODY as usize;

/// The most legs of an order whose record has no longer body.
pub const MOST_ROW: usize = 165;

/// The most legs of an order whose record has no longer body and also names its last batch.
pub const MOST_ROW_UNTIL: usize = 164;

/// Returns the first 8 bytes of a command file of a version.
pub fn command_magic(version: Version) -> [u8; 8]
    ensures { result ≡ command_magic_of version }
{
    match version {
        Version::One => COMMAND_MAGIC,
        Version::Two => *b"FLOWCMD2",
        Version::Three => *b"FLOWCMD3",
        Version::Four => *b"FLOWCMD4",
    }
}

/// Returns whether the bytes begin as a command file of version One, so that records follow the first 8. Constant cost.
pub fn is_command_file(bytes: &[u8]) -> bool
    ensures { IsTrue result ↔ ((body : List ℕ) × BeginsWith commands.magics bytes.now One body) }
{
    bytes.starts_with(&COMMAND_MAGIC)
}

/// Returns the version of which the bytes begin as a command file, so that its records follow the first 8; `None` exactly
/// if they begin with no version's magic. Constant cost.
pub fn command_version(bytes: &[u8]) -> Option<Version>
    ensures exact { (version : Version) → (result ≡ Some version)
        ↔ ((body : List ℕ) × BeginsWith commands.magics bytes.now version body) }
    ensures none { IfNone result (BeginsWithNone commands.magics bytes.now) }
{
    let version = Version::of_magic(bytes)?;
    if bytes.starts_with(&command_magic(version)) {
        Some(version)
    } else {
        None
    }
}
