//! Journals as files.
ghost use Rattle.std.specs.Prelude.{◌≡◌, ℕ, List, ◌↔◌, Some, IfNone, IsTrue};
ghost use Rattle.wire_records.specs.Grammars.{BeginsWith, BeginsWithNone};
ghost use Rattle.wire_records.specs.declared.version.Version.{Version};
ghost use Rattle.wire_records.specs.declared.version.Version.TheVariants.{One};
ghost use Rattle.journal_records.specs.Formats.{journals, journal_magic_of};

use wire_records::{MOST_RECORD, Version};

/// The first 8 bytes of a journal of version One.
pub const JOURNAL_MAGIC: [u8; 8] = *b"FLOWJNL1";

/// The longest body of a reply's record in a journal, in bytes.
pub const MOST_REPLY_BODY: u32 = 262_144;

/// The longest entry, in bytes: the longest command record, the 5 of the reply's head, and its longest body.
pub const MOST_PAIR: usize = MOST_RECORD + 5 + MOST_REPLY_BODY as usize;

/// Returns the first 8 bytes of a journal of a version.
pub fn journal_magic(version: Version) -> [u8; 8]
    ensures { result ≡ journal_magic_of version }
{
    match version {
        Version::One => JOURNAL_MAGIC,
        Version::Two => *b"FLOWJNL2",
        Version::Three => *b"FLOWJNL3",
        Version::Four => *b"FLOWJNL4",
    }
}

/// Returns whether the bytes begin with the magic of a journal of version One, so that entries follow it. Constant cost.
pub fn is_journal(bytes: &[u8]) -> bool
    ensures { IsTrue result ↔ ((body : List ℕ) × BeginsWith journals.magics bytes.now One body) }
{
    bytes.starts_with(&JOURNAL_MAGIC)
}

/// Returns the version with whose journal magic the bytes begin, so that entries follow the first 8, or `None` if they
/// begin with no version's magic. Constant cost.
pub fn journal_version(bytes: &[u8]) -> Option<Version>
    ensures exact { (version : Version) → (result ≡ Some version)
        ↔ ((body : List ℕ) × BeginsWith journals.magics bytes.now version body) }
    ensures none { IfNone result (BeginsWithNone journals.magics bytes.now) }
{
    let version = Version::of_magic(bytes)?;
    if bytes.starts_with(&journal_magic(version)) {
        Some(version)
    } else {
        None
    }
}
