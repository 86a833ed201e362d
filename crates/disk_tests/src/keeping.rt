//! Keeping entries of a journal on a disk.
ghost use Rattle.std.specs.Prelude.{◌≤◌, ◌^◌, ℕ, List, Some, IfOk, IfSome};
ghost use Rattle.wire_records.specs.declared.version.Version.{Version as version_value};
ghost use Rattle.journal_disk.specs.Pairs.{RecordPair};
ghost use Rattle.journal_disk.specs.Entries.{Head, IsNewDisk, Holds, EndsAt, Keeps};
ghost use Rattle.journal_disk.specs.Looking.{OnlyLooks};
ghost use Rattle.journal_disk.specs.Recovering.{IsFound};

use disk_edge::Disk;
use journal_disk::{Ahead, Appender, DiskFault, DiskJournal, Group, Step, is_whole_pair, recover};
use std::alloc::Global;
use std::process::Abort;
use wire_records::Version;

// The most bytes that are stored of a group.
const MOST_TOGETHER: usize = 1 << 21;

// Reads the kept entries, up to a commit byte that isn't set, and returns how many there are, and the last byte of each.
fn read_kept<D: Disk>(
    alloc: Global,
    journal: &mut DiskJournal,
    disk: &mut D,
    lasts: &mut Vec<u8>,
    pair: &mut Vec<u8>,
) -> Result<(), DiskFault>
    ensures ends { IfOk result (λ _. (head : Head) (pairs : List RecordPair) (rest : List ℕ) →
        Holds head pairs journal.old rest (D.state disk.old) → (found : List RecordPair) × EndsAt head found journal.new (D.state disk.new)) }
    ensures looks { OnlyLooks (D.state disk.old) (D.state disk.new) }
{
    let mut ahead = Ahead::new(alloc, disk)?;
    'pairs: loop {
        match journal.next(disk, &mut ahead, pair)? {
            Step::Pair => lasts.extend_from_slice(&pair[pair.len().saturating_sub(1)..])?,
            Step::Closed => return Ok(()),
        }
    }
}

// Adds an entry, if the bytes are those of one, and else a group of entries.
fn add<D: Disk>(
    appender: &mut Appender,
    disk: &mut D,
    pair: &[u8],
    group: &Group,
) -> Result<(), DiskFault>
    requires room { appender.old ≤ 2 ^ 60 }
    requires kept { IfSome (D.state disk.old).content
        (λ _. (head : Head) × (pairs : List RecordPair) × Keeps head pairs appender.old (D.state disk.old)) }
{
    if is_whole_pair(pair) {
        return appender.append(disk, pair);
    }
    if group.len() <= MOST_TOGETHER {
        return appender.append_group(disk, group);
    }
    Ok(())
}

// Makes a new disk one of version Two, and adds an entry or a group.
fn keep_first<D: Disk>(
    alloc: Global,
    disk: &mut D,
    pair: &[u8],
    group: &Group,
) -> Result<(), DiskFault>
    requires new { IfSome (D.state disk.old).content IsNewDisk }
{
    let mut appender = Appender::for_new(alloc)?;
    appender.make(disk, Version::Two)?;
    add(&mut appender, disk, pair, group)
}

// Reads the entries that a disk keeps, and adds one or a group.
fn keep_next<D: Disk>(
    alloc: Global,
    disk: &mut D,
    lasts: &mut Vec<u8>,
    pair: &[u8],
    group: &Group,
) -> Result<(), DiskFault>
    requires found { IfSome (D.state disk.old).content
        (λ bytes. (version : version_value) × IsFound (Some version) bytes (D.state disk.old)) }
{
    let mut found = Vec::new(alloc);
    let mut journal = DiskJournal::after_magic();
    read_kept(alloc, &mut journal, disk, lasts, &mut found)?;
    let mut appender = journal.begin(alloc, disk)?;
    add(&mut appender, disk, pair, group)
}

// Opens a disk, reads the kept entries, and adds one or a group. A new disk is made one of version Two. Returns the last byte of each
// entry that was kept.
fn keep<D: Disk>(
    alloc: Global,
    disk: &mut D,
    pair: &[u8],
    group: &Group,
) -> Result<Vec<u8>, DiskFault> {
    let mut lasts = Vec::new(alloc);
    match recover(disk)? {
        None => keep_first(alloc, disk, pair, group)?,
        Some(_) => keep_next(alloc, disk, &mut lasts, pair, group)?,
    }
    Ok(lasts)
}

// Keeps an entry, or else a group of entries, and compares the last bytes of those before.
pub fn keeps<D: Disk>(
    rt: &impl Abort,
    alloc: Global,
    disk: &mut D,
    pair: &[u8],
    group: &Group,
    want: &[u8],
) {
    match keep(alloc, disk, pair, group) {
        Ok(lasts) => assert_eq!(rt; lasts.as_slice(), want),
        Err(fault) => assert!(rt; false, "{fault:?}"),
    }
}
