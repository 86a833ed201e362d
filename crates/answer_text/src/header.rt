//! What is around the members of an answer.
ghost use Rattle.std.specs.Prelude.{◌≡◌, ◌++◌, codes, decimal, OnOk};
ghost use Rattle.pair_text.specs.Texts.{◌then◌};
ghost use Rattle.answer_text.specs.Answers.{recipient_text, number_member, answer_head};

use pair_text::Text;
use wire_records::Memory;

/// Whom an answer is for.
#[derive(Clone, Copy, PartialEq, Eq)]
pub enum Recipient {
    /// The operator.
    Operator,
    /// The account of this number.
    Desk(u32),
    /// The operator and each account.
    All,
}

/// What is before the members of an answer.
#[derive(Clone, Copy)]
pub struct Heading {
    /// Whom the answer is for.
    pub to: Recipient,
    /// Which message to this recipient it is, counted from 1.
    pub number: u64,
    /// Which line of its sender it answers, counted from 1, if the sender is the recipient.
    pub line: Option<u64>,
    /// Which entry of the file was kept for it, counted from 1, if the operator is told.
    pub entry: Option<u64>,
}

// Appends the text of a recipient.
fn put_recipient(to: Recipient, out: &mut Text) -> Result<(), Memory>
    ensures before { out.new.before ≡ out.old.before }
    ensures put { OnOk result (out.new.text ≡ out.old.text ++ recipient_text to) }
{
    match to {
        Recipient::Operator => out.put(b"operator"),
        Recipient::Desk(account) => out.put_number(b"", account),
        Recipient::All => out.put(b"all"),
    }
}

// Appends a number, if there is one.
fn put_some(name: &[u8], number: Option<u64>, out: &mut Text) -> Result<(), Memory>
    ensures before { out.new.before ≡ out.old.before }
    ensures put { OnOk result (out.new.text ≡ out.old.text ++ number_member name.now number) }
{
    match number {
        Some(number) => {
            out.put(b",\"")?;
            out.put(name)?;
            out.put_number(b"\":", number)
        }
        None => Ok(()),
    }
}

/// Appends what is before the members of an answer.
pub fn put_head(heading: &Heading, out: &mut Text) -> Result<(), Memory>
    ensures before { out.new.before ≡ out.old.before }
    ensures put { OnOk result (out.new.text ≡ out.old.text ++ answer_head heading.now) }
{
    out.put(b"{\"to\":\"")?;
    put_recipient(heading.to, out)?;
    out.put_number(b"\",\"number\":", heading.number)?;
    put_some(b"line", heading.line, out)?;
    put_some(b"entry", heading.entry, out)?;
    out.put(b",")
}

/// Appends what is after the members of an answer.
pub fn put_end(out: &mut Text) -> Result<(), Memory>
    ensures before { out.new.before ≡ out.old.before }
    ensures put { OnOk result (out.new.text ≡ out.old.text ++ codes "}\n") }
{
    out.put(b"}\n")
}
