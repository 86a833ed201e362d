//! How the prices of a batch are searched for, in each version.
ghost use Rattle.std.specs.Prelude.{◌≡◌, ◌≤◌};
ghost use Rattle.market_rules.specs.Market.{parts_of, search_of};

use flow_orders::Search;
use wire_records::Version;

/// Returns how the prices of a batch are searched for in a version. A move of a price ends by demands in whole units in versions One and
/// Two, and in parts of 1/256 of a unit from version Three on. Joint prices are tried from version Four on.
pub fn search_of(version: Version) -> Search
    ensures value { result ≡ search_of version }
    ensures some_parts { 1 ≤ result.parts }
    ensures few_parts { result.parts ≤ 256 }
{
    match version {
        Version::One => Search {
            parts: 1,
            joint: false,
        },
        Version::Two => Search {
            parts: 1,
            joint: false,
        },
        Version::Three => Search {
            parts: 256,
            joint: false,
        },
        Version::Four => Search {
            parts: 256,
            joint: true,
        },
    }
}

/// Returns the number of parts of a unit in which it is counted where a move of a price ends in a version, 1 to 256.
pub fn parts_of(version: Version) -> u16
    ensures value { result ≡ parts_of version }
    ensures few { (1 ≤ result) × (result ≤ 256) }
{
    search_of(version).parts
}
