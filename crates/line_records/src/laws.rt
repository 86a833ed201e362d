//! What holds of the lines of a text, whatever tickers are known, and whether it has more or not. Each law is the contract of a function that does
//! nothing.
ghost use Rattle.std.specs.Prelude.{◌≡◌, ◌↔◌, ℕ, List, IsTrue};
ghost use Rattle.wire_records.specs.declared.version.Version.{Version};
ghost use Rattle.line_records.specs.Laws.{OneSplit, OneReading, NoneIsUnread, FirstIsAPrefix, LinesLeave, CommandsFit};

use crate::EncodeFault;

/// Bytes have at most one list of lines.
pub fn one_split<More>()
    ensures { OneSplit More }
{}

/// A text has at most one reading: one first line that is no command, or none, and one list of commands before it.
pub fn one_reading<More>()
    ensures { (version : Version) (known : List (List ℕ)) → OneReading version known More }
{}

/// No text is without a reading.
pub fn none_is_unread<More>()
    ensures { (version : Version) (known : List (List ℕ)) → NoneIsUnread version known More }
{}

/// What the first lines ask for is a prefix of what all of them ask for, or those before the first that is no command: so
/// the output after a fault is a prefix of what would have been written.
pub fn first_is_a_prefix<More>()
    ensures { (version : Version) (known : List (List ℕ)) → FirstIsAPrefix version known More }
{}

/// The tickers after lines are those after the commands that the lines ask for.
pub fn lines_leave()
    ensures { (version : Version) → LinesLeave version }
{}

/// The commands that lines ask for fit their records: the fields of each are within their widths, and its weight vector, if
/// it has one, isn't too long. Each command is one of the version.
pub fn commands_fit()
    ensures { (version : Version) → CommandsFit version }
{}

/// A test finds two faults equal exactly if they are the same.
pub fn equal_faults()
    ensures { (a b : EncodeFault) → IsTrue (⟦<EncodeFault as PartialEq>⟧.eq a b) ↔ (a ≡ b) }
{}
