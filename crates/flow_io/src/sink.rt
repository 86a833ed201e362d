ghost use Rattle.std.specs.Prelude.{◌≡◌, ◌∷◌, [], ℕ, List, Option, OnOk, OnErr, IsErr};
ghost use Rattle.flow_io.specs.Faults.{Blames};
ghost use Rattle.flow_io.specs.Streams.{Grows, GrowsByPrefix};

/// A write failed. The sink's count of faults has risen.
#[derive(Clone, Copy, Debug, PartialEq, Eq)]
pub struct WriteFailed;

/// Something that bytes are written to.
pub trait Sink {
    // The bytes that were written so far, if they are known.
    ghost held: { Self → Option (List ℕ) };

    // The bytes of each call so far, in the order of the calls, if they are known.
    ghost calls: { Self → Option (List (List ℕ)) };

    // How many calls have failed. The count never falls, and stays at the largest u64 once it is there.
    ghost faults: { Self → ℕ };

    /// Writes all of `bytes`.
    ///
    /// `WriteFailed` comes only if the count of faults rose; a prefix of `bytes` may then have
    /// been written.
    fn write(&mut self, bytes: &[u8]) -> Result<(), WriteFailed>
        ensures written { OnOk result (Grows (held self.old) (held self.new) bytes.now) }
        ensures cut { OnErr result (GrowsByPrefix (held self.old) (held self.new) bytes.now) }
        // This holds whether the write fails or not.
        ensures called { Grows (calls self.old) (calls self.new) (bytes.now ∷ []) }
        ensures cause { Blames (IsErr result) (faults self.old) (faults self.new) };
}
