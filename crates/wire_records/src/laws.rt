//! Laws of the grammar, whatever reads or writes it. Each law is the contract of a function that
//! does nothing.
ghost use Rattle.wire_records.specs.Laws.{OneRecord, OneCommand, OneRefusal, OnePrefix, WrittenIsFramed, OneReading, EachIsRead, CommandIsRead, ReadInLater, ReadsItsOwn, CommandIsShort, OneFile, FirstOfFile, FileIsRead};
ghost use Rattle.std.specs.Prelude.{◌≡◌, ◌↔◌, IsTrue};
ghost use Rattle.wire_records.specs.Records.{most_body};
ghost use Rattle.wire_records.specs.declared.version.Version.TheVariants.{One};
ghost use Rattle.wire_records.specs.Formats.{command_magic_of};
ghost use Rattle.wire_records.specs.CommandRecords.{most_row, most_row_until};

use crate::{
    BodyFault, COMMAND_MAGIC, MOST_BODY, MOST_ROW, MOST_ROW_UNTIL, Refusal, Reply, Version,
};

/// No record's encoding is a proper prefix of another's, so what was written is read again, whatever
/// follows it.
pub fn one_record()
    ensures { OneRecord }
{}

/// A record encodes at most one command.
pub fn one_command()
    ensures { OneCommand }
{}

/// No two refusals have the same code.
pub fn one_refusal()
    ensures { OneRefusal }
{}

/// What bytes begin with is unique: what `next_record` returns is the only result that its contract allows.
pub fn one_prefix()
    ensures { OnePrefix }
{}

/// A record that was written is framed again, whatever follows it.
pub fn written_is_framed()
    ensures { WrittenIsFramed }
{}

/// In a version a record has at most one reading: one command or one fault.
pub fn one_reading()
    ensures { OneReading }
{}

/// In each version each record of bytes has a reading, whatever it holds.
pub fn each_is_read()
    ensures { EachIsRead }
{}

/// In a version that has it, the record of a command is read as that command, and as no fault.
pub fn command_is_read()
    ensures { CommandIsRead }
{}

/// What a record is read as whatever the version is its reading in each version after the first, as these have all commands.
/// So what `RecordView::command` returns is the only command, or the only fault, that its contract allows.
pub fn read_in_later()
    ensures { ReadInLater }
{}

/// A command that is read in a version is one of its commands.
pub fn reads_its_own()
    ensures { ReadsItsOwn }
{}

/// The record of a command with few enough legs, if it has any, is within the limit of command records.
pub fn command_is_short()
    ensures { CommandIsShort }
{}

/// Bytes have exactly one reading as a command file: one version, list of records and ending, or none.
pub fn one_file()
    ensures { OneFile }
{}

/// Records that a command file starts with are the first of its reading.
pub fn first_of_file()
    ensures { FirstOfFile }
{}

/// A command file of records within the limit is read as these records, to its end.
pub fn file_is_read()
    ensures { FileIsRead }
{}

/// The magic and the limits that the code names are those of the definitions.
pub fn constants_are_named()
    ensures magic { COMMAND_MAGIC ≡ command_magic_of One }
    ensures most_body { MOST_BODY ≡ most_body }
    ensures most_row { MOST_ROW ≡ most_row }
    ensures most_row_until { MOST_ROW_UNTIL ≡ most_row_until }
{}

/// `==` is true of two versions exactly if they are the same.
pub fn equal_versions()
    ensures { (a b : Version) → IsTrue (⟦<Version as PartialEq>⟧.eq a b) ↔ (a ≡ b) }
{}

/// `==` is true of two replies exactly if they are the same.
pub fn equal_replies()
    ensures { (a b : Reply) → IsTrue (⟦<Reply as PartialEq>⟧.eq a b) ↔ (a ≡ b) }
{}

/// `==` is true of two refusals exactly if they are the same.
pub fn equal_refusals()
    ensures { (a b : Refusal) → IsTrue (⟦<Refusal as PartialEq>⟧.eq a b) ↔ (a ≡ b) }
{}

/// `==` is true of two faults exactly if they are the same.
pub fn equal_faults()
    ensures { (a b : BodyFault) → IsTrue (⟦<BodyFault as PartialEq>⟧.eq a b) ↔ (a ≡ b) }
{}
