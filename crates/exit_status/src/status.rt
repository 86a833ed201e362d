//! The statuses, a row each.
ghost use Rattle.std.specs.Prelude.{◌≡◌, None, Some};

/// How the program ends. Each status has one exit number and one line on standard error, but for
/// `Done`, which has none.
#[derive(Clone, Copy, PartialEq, Eq)]
pub enum Status {
    /// All was done.
    Done,
    /// The arguments are no form of the command line.
    Usage,
    /// The input is no file of the kind that is asked for: it doesn't begin with the magic.
    NotFlow,
    /// The input is truncated or states too long a record; the broken record or entry begins at this byte, from 0.
    Torn(u64),
    /// A read of the input failed.
    ReadFault,
    /// A write of the output failed.
    WriteFault,
    /// An allocation failed.
    NoMemory,
    /// The entry of this number, counted from 1, is invalid.
    Rejected(u64),
    /// The input has more than this many bytes.
    TooLong(u64),
    /// The line of this number, counted from 1, is neither blank nor a command.
    BadText(u64),
    /// The input begins with the magic of a checkpoint, but with no checkpoint of a consistent market.
    BadCheckpoint,
    /// The journal's market has no account of this number.
    NoAccount(u64),
    /// A call of the disk failed.
    DiskFault,
    /// The file holds something, and is no kept file.
    NotDisk,
    /// At this byte of the file, from 0, an entry should be and none is.
    Damaged(u64),
    /// The entry of this number, counted from 1, isn't what the lines ask for; 0 if the file begins otherwise.
    Differs(u64),
}

// What the program exits with and prints at a status: its number, and its line, of which a number may be a part.
#[derive(Clone, Copy)]
pub(crate) struct Row {
    exit: u8,
    pub(crate) before: &'static [u8],
    pub(crate) number: Option<u64>,
    pub(crate) after: &'static [u8],
}

// The row of a status whose line has no number.
fn plain(exit: u8, line: &'static [u8]) -> Row
    ensures exit { result.exit ≡ exit }
    ensures before { result.before.now ≡ line.now }
    ensures number { result.number ≡ None }
{
    Row {
        exit,
        before: line,
        number: None,
        after: b"",
    }
}

// The row of a status whose line has this number between two texts.
fn counted(exit: u8, before: &'static [u8], number: u64, after: &'static [u8]) -> Row
    ensures exit { result.exit ≡ exit }
    ensures before { result.before.now ≡ before.now }
    ensures number { result.number ≡ Some number }
    ensures after { result.after.now ≡ after.now }
{
    Row {
        exit,
        before,
        number: Some(number),
        after,
    }
}

impl Status {
    ghost use Rattle.exit_status.specs.Statuses.{exit_of, line_of};
    ghost use Rattle.exit_status.specs.Private.{line_in};

    // Returns the status's row.
    pub(crate) fn row(&self) -> Row
        ensures exit { result.exit ≡ exit_of self.now }
        ensures line { line_in result.before.now result.number result.after.now ≡ line_of self.now }
    {
        match *self {
            Status::Done => plain(0, b""),
            Status::Usage => plain(1, b"flow: usage\n"),
            Status::NotFlow => plain(2, b"flow: not a flow file\n"),
            Status::Torn(place) => counted(3, b"flow: torn at byte ", place, b"\n"),
            Status::ReadFault => plain(4, b"flow: read failed\n"),
            Status::WriteFault => plain(5, b"flow: write failed\n"),
            Status::NoMemory => plain(6, b"flow: no memory\n"),
            Status::Rejected(number) => counted(7, b"flow: pair ", number, b" is not legal\n"),
            Status::TooLong(limit) => counted(8, b"flow: more than ", limit, b" bytes\n"),
            Status::BadText(number) => counted(9, b"flow: line ", number, b" is no command\n"),
            Status::BadCheckpoint => plain(10, b"flow: checkpoint is not sound\n"),
            Status::NoAccount(number) => counted(11, b"flow: no account ", number, b"\n"),
            Status::DiskFault => plain(12, b"flow: disk failed\n"),
            Status::NotDisk => plain(13, b"flow: not a flow disk\n"),
            Status::Damaged(place) => counted(14, b"flow: disk damaged at byte ", place, b"\n"),
            Status::Differs(number) => counted(
                15,
                b"flow: entry ",
                number,
                b" is not what the lines ask for\n",
            ),
        }
    }

    /// The number that the program exits with.
    pub fn exit(&self) -> u8
        ensures { result ≡ exit_of self.now }
    {
        self.row().exit
    }
}
