//! Opens a file and an input, and compares how they begin.
ghost use Rattle.std.specs.Prelude.{◌≡◌, ◌⊎◌, ◌≤◌, ◌+◌, ◌^◌, ℕ, Some, None, Err, IfSome, IfOk, IfErr, OnOk, length};
ghost use Rattle.flow_io.specs.Faults.{Blames};
ghost use Rattle.flow_io.specs.Streams.{TakesAtMost};
ghost use Rattle.market_history.specs.Histories.{Start};
ghost use Rattle.journal_disk.specs.Ahead.{IsPiece};
ghost use Rattle.journal_disk.specs.Looking.{OnlyLooks};
ghost use Rattle.journal_disk.specs.Recovering.{IsFound};
ghost use Rattle.journal_disk.specs.Stepping.{IsDamagedAt};
ghost use Rattle.journal_keeping.specs.Lengths.{most_input};
ghost use Rattle.desk_opening.specs.Beginnings.{IsBeginning};
ghost use Rattle.desk_opening.specs.Openings.{HasOpened, HasNotOpened, TakesBeginning, IsUnopened, IsNoBook};
ghost use Rattle.desk_opening.specs.Private.{IsFile, MakesBook, MakesNoBook};

use crate::beginning::{Beginning, read_beginning};
use crate::book::Book;
use crate::disk::begins_so;
use disk_edge::Disk;
use flow_io::{Source, Window};
use journal_disk::{Ahead, Appender, DiskJournal, recover};
use journal_keeping::{InputFault, OpenFault, first_market, make_disk};
use market_core::Market;
use std::alloc::Global;
use wire_records::Version;

/// A market of many senders that was opened.
#[derive(Drop)]
pub struct Opened {
    /// The market before the first line.
    pub market: Market,
    /// Its file.
    pub book: Book,
    /// The window through which the lines are read: it begins at the first of them.
    pub window: Window,
}

/// Why a market of many senders wasn't opened.
#[derive(Clone, Copy, PartialEq, Eq)]
pub enum StartFault {
    /// The file wasn't opened; or a call of it failed, or memory ran out, while it was compared.
    Open(OpenFault),
    /// The beginning of the input wasn't taken.
    Input(InputFault),
    /// The file isn't new, and begins otherwise than the input.
    Differs,
    /// The beginning of the input was taken, and a call of the new file failed. The file has to be opened again.
    Make,
}

// A file that was opened: one of a version, at its first entry that is one of the journal, or what makes a new one.
#[derive(Drop)]
enum File {
    Kept(Version, DiskJournal, Ahead),
    New(Appender),
}

// Looks whether the first entry of a file is complete, or there is none, unless the reading is past it.
fn see_first<D: Disk>(
    disk: &mut D,
    ahead: &mut Ahead,
    journal: &DiskJournal,
) -> Result<(), OpenFault>
    requires piece { IfSome (D.state disk.old).content (IsPiece ahead.old) }
    ensures piece { IfSome (D.state disk.new).content (IsPiece ahead.new) }
    ensures whole { OnOk result (journal.now ≡ 8 → IfSome (D.state disk.old).content (λ held. ¬ IsDamagedAt 8 held)) }
    ensures refused { IfErr result (λ fault. (fault ≡ OpenFault.Disk) ⊎ ((fault ≡ OpenFault.Memory)
        ⊎ ((fault ≡ OpenFault.Damaged 8) × (journal.now ≡ 8) × IfSome (D.state disk.old).content (IsDamagedAt 8)))) }
    ensures looks { OnlyLooks (D.state disk.old) (D.state disk.new) }
    ensures cause { Blames (result ≡ Err OpenFault.Disk) (D.state disk.old).faults (D.state disk.new).faults }
{
    if !journal.is_first() {
        return Ok(());
    }
    let mut first = DiskJournal::after_magic();
    match first.find(disk, ahead) {
        Ok(Some(count)) => match first.take(ahead, count) {
            Ok(_) => Ok(()),
            Err(fault) => Err(OpenFault::from(fault)),
        },
        Ok(None) => Ok(()),
        Err(fault) => Err(OpenFault::from(fault)),
    }
}

// Opens a file of a version, up to its first entry that is one of the journal, which is complete if there is one.
fn kept_file<D: Disk>(alloc: Global, disk: &mut D, version: Version) -> Result<File, OpenFault>
    requires found { IfSome (D.state disk.old).content (λ held. IsFound (Some version) held (D.state disk.old)) }
    ensures found { IfOk result (λ file. IsFile file (D.state disk.new)) }
    ensures refused { IfErr result (IsUnopened (D.state disk.old).content) }
    ensures sound { OnOk result (IfSome (D.state disk.old).content (λ held. ¬ IsNoBook held)) }
    ensures looks { OnlyLooks (D.state disk.old) (D.state disk.new) }
    ensures cause { Blames (result ≡ Err OpenFault.Disk) (D.state disk.old).faults (D.state disk.new).faults }
{
    let mut ahead = match Ahead::new(alloc, disk) {
        Ok(ahead) => ahead,
        Err(fault) => return Err(OpenFault::from(fault)),
    };
    let mut journal = DiskJournal::after_magic();
    match first_market(alloc, &mut journal, disk, &mut ahead, version) {
        Ok(_) => {}
        Err(fault) => return Err(fault),
    }
    match see_first(disk, &mut ahead, &journal) {
        Ok(()) => Ok(File::Kept(version, journal, ahead)),
        Err(fault) => Err(fault),
    }
}

// Opens a file. It is only looked at.
fn open_file<D: Disk>(alloc: Global, disk: &mut D) -> Result<File, OpenFault>
    ensures found { IfOk result (λ file. IsFile file (D.state disk.new)) }
    ensures refused { IfErr result (IsUnopened (D.state disk.old).content) }
    ensures sound { OnOk result (IfSome (D.state disk.old).content (λ held. ¬ IsNoBook held)) }
    ensures looks { OnlyLooks (D.state disk.old) (D.state disk.new) }
    ensures cause { Blames (result ≡ Err OpenFault.Disk) (D.state disk.old).faults (D.state disk.new).faults }
{
    match recover(disk) {
        Ok(Some(version)) => kept_file(alloc, disk, version),
        Ok(None) => match Appender::for_new(alloc) {
            Ok(appender) => Ok(File::New(appender)),
            Err(_) => Err(OpenFault::Memory),
        },
        Err(fault) => Err(OpenFault::from(fault)),
    }
}

// Makes the book of a file, which is only looked at if it isn't new, and then has to begin as the input does.
fn book_of<D: Disk>(disk: &mut D, file: File, beginning: &Beginning) -> Result<Book, StartFault>
    requires file { IsFile file (D.state disk.old) }
    requires short { length beginning.now.stored.items ≤ 2 ^ 33 }
    ensures made { IfOk result (λ book. (begin : Start) → IsBeginning begin beginning.now.market beginning.now.stored.items →
        MakesBook begin beginning.now.market book (D.state disk.old) (D.state disk.new)) }
    ensures fails { IfErr result (λ fault. (begin : Start) → IsBeginning begin beginning.now.market beginning.now.stored.items →
        MakesNoBook begin (D.state disk.old) (D.state disk.new) fault) }
    ensures cause { Blames ((result ≡ Err (StartFault.Open OpenFault.Disk)) ⊎ (result ≡ Err StartFault.Make)) (D.state disk.old).faults (D.state disk.new).faults }
{
    match file {
        File::Kept(version, journal, mut ahead) => match begins_so(
            disk, &mut ahead, &journal, version, beginning,
        ) {
            Ok(true) => Ok(Book::Kept(journal, ahead)),
            Ok(false) => Err(StartFault::Differs),
            Err(fault) => Err(StartFault::Open(OpenFault::from(fault))),
        },
        File::New(mut appender) => match make_disk(
            &mut appender,
            disk,
            beginning.market.version(),
            &beginning.stored,
        ) {
            Ok(()) => Ok(Book::Open(appender)),
            Err(_) => Err(StartFault::Make),
        },
    }
}

/// Opens a file and an input for a market of many senders. The file is opened first, up to its first entry that is one of the journal. Then the
/// beginning of the input is read, through a window for lines of at most `most` bytes, and of at most `limit` bytes in all. A file that isn't new
/// has to begin as the input does, and its entries are read along with the lines then; a new one is made one that begins so. At most one byte past
/// the limit is taken.
///
/// After each error but `Make` the file was only looked at. `Open` with `NotDisk` or `Damaged` comes before the input is read; `Damaged` has the
/// place 8, and says that the first entry is neither a complete one of a journal nor the checkpoint of a consistent market of the file's version.
/// Nothing is read of the input of a file that is so. `Open` with `Disk` comes before the input is read, or once its beginning was taken. It
/// and `Make` come only if the disk's count of faults rose, and `Input` with `Read` only if the source's did. Costs what reading a
/// checkpoint costs, once for the file and once for the input; the file's market is dropped before the input is read.
pub fn open_desk<S: Source, D: Disk>(
    alloc: Global,
    limit: u64,
    most: usize,
    source: &mut S,
    disk: &mut D,
) -> Result<Opened, StartFault>
    requires room { 13 ≤ most }
    requires narrow { most + 1 ≤ 2 ^ 20 }
    requires few { limit ≤ most_input }
    ensures begun { IfOk result (λ o. HasOpened most limit (D.state disk.old) (D.state disk.new) o.market o.book o.window (S.rest source.old) (S.rest source.new)) }
    ensures fails { IfErr result (HasNotOpened limit (D.state disk.old) (D.state disk.new) (S.rest source.old) (S.rest source.new)) }
    ensures refuses { IfSome (D.state disk.old).content (λ held. IsNoBook held → ((fault : OpenFault) × (result ≡ Err (StartFault.Open fault))) × (source.new ≡ source.old)) }
    ensures unread { (result ≡ Err (StartFault.Open OpenFault.NotDisk)) ⊎ ((place : ℕ) × (result ≡ Err (StartFault.Open (OpenFault.Damaged place)))) →
        source.new ≡ source.old }
    ensures shown { result ≡ Err (StartFault.Open OpenFault.Disk) →
        (source.new ≡ source.old) ⊎ ((begin : Start) × TakesBeginning limit begin (S.rest source.old) (S.rest source.new)) }
    ensures taken { TakesAtMost (S.rest source.old) (S.rest source.new) (limit + 1) }
    ensures disk_cause { Blames ((result ≡ Err (StartFault.Open OpenFault.Disk)) ⊎ (result ≡ Err StartFault.Make)) (D.state disk.old).faults (D.state disk.new).faults }
    ensures source_cause { Blames (result ≡ Err (StartFault.Input InputFault.Read)) (S.faults source.old) (S.faults source.new) }
{
    let file = match open_file(alloc, disk) {
        Ok(file) => file,
        Err(fault) => return Err(StartFault::Open(fault)),
    };
    let mut window = match Window::new(alloc, most + 1, limit) {
        Ok(window) => window,
        Err(_) => return Err(StartFault::Open(OpenFault::Memory)),
    };
    let beginning = match read_beginning(alloc, &mut window, source) {
        Ok(beginning) => beginning,
        Err(fault) => return Err(StartFault::Input(fault)),
    };
    match book_of(disk, file, &beginning) {
        Ok(book) => Ok(Opened {
            market: beginning.market,
            book,
            window,
        }),
        Err(fault) => Err(fault),
    }
}
