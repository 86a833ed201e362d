//! What the driver asks of a subcommand.
ghost use Rattle.std.specs.Prelude.{◌≡◌, ◌≤◌, ◌-◌, ℕ, [], IfOk, IfErr, length, vec_len, vec_capacity};
ghost use Rattle.wire_records.specs.declared.version.Version.{Version};
ghost use Rattle.file_units.specs.Units.{StaysReady};
ghost use Rattle.word_driver.specs.Word.{Word};
ghost use Rattle.word_driver.specs.Private.{OpensOrNot, IsTakenBy, HaltsAt, IsClosed};

use crate::fault::Halt;
use file_units::Prefix;

/// A subcommand at work: it has its state, and puts what is to be written into a buffer that the driver empties.
pub trait ServesWord {
    /// Why it stops, if not at the end of its input.
    type Stop: Copy;

    /// How many bytes the buffer has room for without a further allocation.
    const ROOM: usize;

    ghost ROOM: { ℕ };

    /// How many bytes its longest unit has.
    const LONGEST: usize;

    ghost LONGEST: { ℕ };

    ghost Unit: { Type 0 };

    ghost State: { Type 0 };
    // The subcommand as a value.
    ghost word: { Word Unit State Self.Stop };
    // It hasn't been opened; `start` is where it starts in a file of each version.
    ghost is_new: { Self → Type 0 };

    ghost start: { Self → Version → State };

    ghost state: { Self → State };
    // It can take units while at most this many bytes are left.
    ghost is_ready: { Self → ℕ → Type 0 };

    /// Returns whether the bytes begin with a magic of the subcommand. If so, it is at its start, and the opening is in the buffer.
    fn open(&mut self, bytes: &[u8], text: &mut Vec<u8>) -> bool
        requires new { is_new self.old }
        requires empty { text.old.items ≡ [] }
        requires room { ROOM ≤ vec_capacity text.old }
        ensures room { vec_capacity text.old ≤ vec_capacity text.new }
        ensures opened { OpensOrNot word (start self.old) bytes.now (state self.new) (is_ready self.new) text.new.items result };

    /// Takes the unit at the beginning of the bytes, if it is complete, and puts its text into the buffer.
    fn take(&mut self, bytes: &[u8], text: &mut Vec<u8>) -> Result<Prefix, Halt<Self::Stop>>
        requires ready { (left : ℕ) × (length bytes.now ≤ left) × is_ready self.old left }
        requires empty { text.old.items ≡ [] }
        requires none { vec_len text.old ≡ 0 }
        requires room { ROOM ≤ vec_capacity text.old }
        ensures room { vec_capacity text.old ≤ vec_capacity text.new }
        ensures taken { IfOk result
            (λ prefix. IsTakenBy word prefix bytes.now (state self.old) (state self.new) text.new.items) }
        ensures stays { IfOk result
            (λ prefix. (left : ℕ) → length bytes.now ≤ left → is_ready self.old left → StaysReady (is_ready self.new) prefix left) }
        ensures halted { IfErr result (λ halt. HaltsAt word bytes.now (state self.old) halt text.new.items) };

    /// Closes it at the end of the input, and puts its last text into the buffer.
    fn close(&mut self, text: &mut Vec<u8>) -> Result<(), Halt<Self::Stop>>
        requires empty { text.old.items ≡ [] }
        requires room { ROOM ≤ vec_capacity text.old }
        ensures room { vec_capacity text.old ≤ vec_capacity text.new }
        ensures closed { IsClosed word (state self.old) result text.new.items };
}
