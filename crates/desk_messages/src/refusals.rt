//! What is told of lines that aren't served.
ghost use Rattle.std.specs.Prelude.{◌≡◌, ◌<◌, ◌+◌, ◌++◌, ◌^◌, [], ◌∷◌, codes, Some, None, OnOk};
ghost use Rattle.desk_messages.specs.Desks.{IsThere, tally_of};
ghost use Rattle.desk_messages.specs.Messages.{Tells, no_envelope, expected, error_to};

use crate::counts::Desks;
use answer_text::{Recipient, put_end};
use pair_text::Text;
use wire_records::Memory;

impl Desks {
    /// Tells the operator that the last line of the input is no envelope.
    pub fn tell_no_envelope(&mut self, out: &mut Text) -> Result<(), Memory>
        requires few { self.old.total.messages + 1 < 2 ^ 64 }
        ensures before { out.new.before ≡ out.old.before }
        ensures told { OnOk result (Tells self.old self.new out.old.text out.new.text (no_envelope self.old.total.lines ∷ [])) }
    {
        let number = self.lines();
        self.address(Recipient::Operator, None, None, out)?;
        out.put_number(b"\"at\":", number)?;
        out.put(b",\"error\":\"no envelope\"")?;
        put_end(out)
    }

    /// Tells a sender which number its next line has: its line had another one. The sender is the operator or an account that is there.
    pub fn tell_expected(&mut self, sender: Recipient, out: &mut Text) -> Result<(), Memory>
        requires there { IsThere self.old sender }
        requires lines { self.old.total.lines + 1 < 2 ^ 64 }
        requires few { self.old.total.messages + 1 < 2 ^ 64 }
        ensures before { out.new.before ≡ out.old.before }
        ensures told { OnOk result (Tells self.old self.new out.old.text out.new.text (expected sender ((tally_of self.old sender).lines + 1) ∷ [])) }
    {
        let number = self.lines_of(sender) + 1;
        self.address(sender, None, None, out)?;
        out.put_number(b"\"expected\":", number)?;
        put_end(out)
    }

    /// Tells a sender what is wrong with its line of this number: `no command`, `not yours` or `no account`. The sender is the operator or an
    /// account that is there.
    pub fn tell_error(
        &mut self,
        sender: Recipient,
        line: u64,
        error: &[u8],
        out: &mut Text,
    ) -> Result<(), Memory>
        requires there { IsThere self.old sender }
        requires few { self.old.total.messages + 1 < 2 ^ 64 }
        ensures before { out.new.before ≡ out.old.before }
        ensures told { OnOk result (Tells self.old self.new out.old.text out.new.text (error_to sender line error.now ∷ [])) }
    {
        self.address(sender, Some(line), None, out)?;
        out.put(b"\"error\":\"")?;
        out.put(error)?;
        out.put(b"\"")?;
        put_end(out)
    }
}
