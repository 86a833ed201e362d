//! Versions that are told apart.
ghost use Rattle.std.specs.Prelude.{◌≡◌, ◌↔◌, IsTrue};

use wire_records::Version;

// Returns whether two versions are the same.
pub(crate) fn is_same(one: Version, other: Version) -> bool
    ensures { IsTrue result ↔ (one ≡ other) }
{
    one.number() == other.number()
}
