//! The loop over the units, and what is handed in to it.
ghost use Rattle.std.specs.Prelude.{◌≡◌, ◌-◌, ◌≤◌, IfOk, IfErr, IsTrue, drop, length};
ghost use Rattle.wire_records.specs.Reading.{Format};
ghost use Rattle.wire_records.specs.declared.version.Version.{Version};
ghost use Rattle.file_units.specs.Units.{ending_of, IsTaken, StaysReady, BreaksOff, GoesToEnd, GoesToBreak};

/// What the rest of a file begins with, once a complete unit there has been taken.
#[derive(Clone, Copy, Debug, PartialEq, Eq)]
pub enum Prefix {
    /// A complete unit of so many bytes, at least one, which was taken.
    Taken(usize),
    /// No bytes.
    NoBytes,
    /// The first unit states a body above its limit.
    Overlong,
    /// The first unit isn't complete.
    Short,
}

/// How a reading ends.
#[derive(Clone, Copy, Debug, PartialEq, Eq)]
pub enum Ending {
    /// With the input.
    End,
    /// Before a unit that is truncated or states a body above its limit, and begins at this byte of the file, from 0.
    Torn(u64),
    /// At the limit: the input has more.
    TooLong,
}

/// What is done with the units of one kind of file. A state is carried from unit to unit, and each may change an output.
pub trait TakesUnits<O> {
    ghost use Rattle.std.specs.Prelude.{ℕ};

    /// Why it breaks off at a unit.
    type Fault;

    ghost Unit: { Type 0 };

    ghost State: { Type 0 };
    // The kind of file.
    ghost format: { Format Version Unit };

    ghost state: { Self → State };
    // Taking a unit leads from a state to another, and from an output to another.
    ghost steps: { State → Unit → State → O → O → Type 0 };
    // Taking a unit breaks off at a state, and leads from an output to another.
    ghost breaks: { State → Unit → Self.Fault → O → O → Type 0 };
    // It can take units while no more than so many bytes are left.
    ghost is_ready: { Self → ℕ → Type 0 };

    /// Takes the unit that the bytes begin with, if it is complete.
    fn take(&mut self, bytes: &[u8], out: &mut O) -> Result<Prefix, Self::Fault>
        requires ready { (left : ℕ) × (length bytes.now ≤ left) × is_ready self.old left }
        ensures taken { IfOk result (λ prefix. IsTaken format steps prefix bytes.now (state self.old) (state self.new) out.old out.new) }
        ensures stays { IfOk result (λ prefix. (left : ℕ) → length bytes.now ≤ left → is_ready self.old left → StaysReady (is_ready self.new) prefix left) }
        ensures broken { IfErr result (λ fault. BreaksOff format breaks bytes.now (state self.old) fault out.old out.new) };
}

/// Takes the units in the bytes of a file, from a place on, one after the other, and returns how the reading ends,
/// or why it broke off. `more` says whether the input has bytes after these.
pub fn take_units<O, T: TakesUnits<O>>(
    bytes: &[u8],
    start: usize,
    more: bool,
    taker: &mut T,
    out: &mut O,
) -> Result<Ending, T::Fault>
    requires inside { start ≤ length bytes.now }
    requires ready { T.is_ready taker.old (length bytes.now - start) }
    ensures ended { IfOk result (λ ending. GoesToEnd T.format T.steps start (IsTrue more) (drop start bytes.now) (ending_of ending)
        (T.state taker.old) (T.state taker.new) out.old out.new) }
    ensures broken { IfErr result (λ fault. GoesToBreak T.format T.steps T.breaks (drop start bytes.now) fault
        (T.state taker.old) out.old out.new) }
{
    let mut place = start;
    'units: loop {
        match taker.take(&bytes[place..], out)? {
            Prefix::Taken(taken) => place += taken,
            Prefix::Overlong => return Ok(Ending::Torn(place as u64)),
            Prefix::Short if !more => return Ok(Ending::Torn(place as u64)),
            Prefix::NoBytes if !more => return Ok(Ending::End),
            Prefix::Short | Prefix::NoBytes => return Ok(Ending::TooLong),
        }
    }
}
