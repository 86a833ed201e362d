//! The records of a command file, read in place: framing, commands, and the names of replies.
//!
//! A record is a tag, a length and a body. [`next_record`] takes one off the beginning of borrowed bytes,
//! and [`RecordView::command`] says which command it encodes; neither copies or allocates anything. The numbers
//! of an order are read in place too, through a [`PlaceView`], and its legs one by one, through a [`RowView`].
//! [`command_version`] looks at the magic before the first record, and says which version it is of. [`write_command`]
//! writes the one record of a command. [`Version::limits`] has what a market of a version may have at most. The laws of all
//! encodings, and of files as a whole, are in [`laws`].
#![tactic(auto)]

mod command;
mod file;
pub mod laws;
mod limits;
mod place;
mod record;
mod reply;
mod version;
mod write;

pub use command::{BodyFault, Command, CommandView};
pub use file::{
    COMMAND_MAGIC, MOST_BODY, MOST_RECORD, MOST_ROW, MOST_ROW_UNTIL, command_magic,
    command_version, is_command_file,
};
pub use limits::Limits;
pub use out_of_memory::Memory;
pub use place::{PlaceView, RowView};
pub use record::{Framed, RecordView, next_record};
pub use reply::{Refusal, Reply};
pub use version::Version;
pub use write::{put_head, write_command};
