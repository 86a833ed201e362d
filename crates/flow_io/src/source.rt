ghost use Rattle.std.specs.Prelude.{◌≡◌, ◌≤◌, ◌<◌, ◌↔◌, ℕ, List, [], Option, length, take, IfOk, IfSome, OnErr, IsErr};
ghost use Rattle.flow_io.specs.Faults.{Blames};
ghost use Rattle.flow_io.specs.Streams.{Takes};

/// A read failed. The source's count of faults has risen.
#[derive(Clone, Copy, Debug, PartialEq, Eq)]
pub struct ReadFailed;

/// Something that bytes are read from.
pub trait Source {
    // The bytes that reads will give from here on, if they are known.
    ghost rest: { Self → Option (List ℕ) };

    // How many calls have failed. The count never falls, and stays at the largest u64 once it is there.
    ghost faults: { Self → ℕ };

    /// Reads some bytes into the beginning of `into`, and returns how many: at most its length.
    ///
    /// If `into` isn't empty, 0 means the end of the input. `ReadFailed` comes only if the count of
    /// faults rose; the bytes that are left are then as before.
    fn read(&mut self, into: &mut [u8]) -> Result<usize, ReadFailed>
        ensures bound { IfOk result (λ count. count ≤ length into.new) }
        ensures taken { IfOk result (λ count. Takes (rest self.old) (rest self.new) (take count into.new)) }
        ensures end { IfOk result
            (λ count. 0 < length into.new → IfSome (rest self.old) (λ left. (count ≡ 0) ↔ (left ≡ []))) }
        ensures stays { OnErr result (rest self.new ≡ rest self.old) }
        ensures cause { Blames (IsErr result) (faults self.old) (faults self.new) };
}
