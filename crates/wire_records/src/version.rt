//! The versions of command files and journals.
ghost use Rattle.std.specs.Prelude.{◌≢◌, ◌↔◌, ◌+◌, get_or, IsTrue, MatchOption};

/// A version of the formats. Each has all commands of those before it.
#[derive(Clone, Copy, PartialEq, Eq)]
pub enum Version {
    /// Orders stay until they are filled to their cap or cancelled, and accounts hold what their orders need.
    One,
    /// An order may name the last batch in which it trades, and an account may get credit for its orders.
    Two,
    /// The commands are those of version Two. A move of a price ends by demands in parts of 1/256 of a unit, and not by whole units.
    Three,
    /// The commands are those of version Two, and moves end as in version Three. A batch in which some order names several assets is
    /// also searched from joint prices, so that it is skipped more seldom.
    Four,
}

impl Version {
    ghost use Rattle.std.specs.Prelude.{◌≡◌};
    ghost use Rattle.wire_records.specs.Versions.{number_of, most_tag, HasLastBatches, HasCredit};

    /// Returns the number of the version, from 1.
    pub fn number(self) -> u8
        ensures { result ≡ number_of self }
    {
        match self {
            Version::One => 1,
            Version::Two => 2,
            Version::Three => 3,
            Version::Four => 4,
        }
    }

    /// Returns the version with this number; `None` exactly if no version has it.
    pub fn of_number(number: u8) -> Option<Version>
        ensures { MatchOption result ((version : Version) → number ≢ number_of version) (λ version. number ≡ number_of version) }
    {
        match number {
            1 => Some(Version::One),
            2 => Some(Version::Two),
            3 => Some(Version::Three),
            4 => Some(Version::Four),
            _ => None,
        }
    }

    /// Returns the version whose number is the digit that ends the eight bytes of a magic; `None` exactly if that byte is no
    /// version's digit. Constant cost.
    pub fn of_magic(bytes: &[u8]) -> Option<Version>
        ensures { MatchOption result ((version : Version) → get_or bytes.now 7 0 ≢ 48 + number_of version)
            (λ version. get_or bytes.now 7 0 ≡ 48 + number_of version) }
    {
        let digit = bytes.get(7)?;
        Version::of_number(digit.checked_sub(b'0')?)
    }

    /// Returns the highest tag of the version's commands.
    pub fn most_tag(self) -> u8
        ensures { result ≡ most_tag self }
    {
        match self {
            Version::One => 9,
            Version::Two | Version::Three | Version::Four => 12,
        }
    }

    /// Returns whether an order may name the last batch in which it trades.
    pub fn has_last_batches(self) -> bool
        ensures { IsTrue result ↔ HasLastBatches self }
    {
        self.most_tag() >= 10
    }

    /// Returns whether an account may get credit for its orders.
    pub fn has_credit(self) -> bool
        ensures { IsTrue result ↔ HasCredit self }
    {
        self.most_tag() >= 11
    }
}
