//! The line of a status on standard error.
ghost use Rattle.std.specs.Prelude.{OnOk, OnErr, IsErr, ◌++◌, decimal};
ghost use Rattle.flow_io.specs.Faults.{Blames};
ghost use Rattle.flow_io.specs.Streams.{Grows, GrowsByPrefix};

use crate::Status;
use flow_io::{Sink, WriteFailed};
use itoa::Buffer;

// Writes a number between two texts.
fn write_number<N: Sink>(
    notes: &mut N,
    before: &[u8],
    number: u64,
    after: &[u8],
) -> Result<(), WriteFailed>
    ensures written { OnOk result (Grows (N.held notes.old) (N.held notes.new) (before.now ++ decimal number ++ after.now)) }
    ensures cut { OnErr result (GrowsByPrefix (N.held notes.old) (N.held notes.new) (before.now ++ decimal number ++ after.now)) }
    ensures cause { Blames (IsErr result) (N.faults notes.old) (N.faults notes.new) }
{
    let mut buffer = Buffer::new();
    notes.write(before)?;
    notes.write(buffer.format(number).as_bytes())?;
    notes.write(after)
}

impl Status {
    ghost use Rattle.exit_status.specs.Statuses.{line_of};

    /// Writes the line of the status, with its line feed, and nothing for `Done`. If a write fails, a prefix of the line is written
    /// and the rest is dropped. Allocates nothing.
    pub fn write_line<N: Sink>(&self, notes: &mut N) -> Result<(), WriteFailed>
        ensures written { OnOk result (Grows (N.held notes.old) (N.held notes.new) (line_of self.now)) }
        ensures cut { OnErr result (GrowsByPrefix (N.held notes.old) (N.held notes.new) (line_of self.now)) }
        ensures cause { Blames (IsErr result) (N.faults notes.old) (N.faults notes.new) }
    {
        let row = self.row();
        match row.number {
            None => notes.write(row.before),
            Some(number) => write_number(notes, row.before, number, row.after),
        }
    }
}
