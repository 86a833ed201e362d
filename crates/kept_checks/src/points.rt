//! A first entry, which holds none of the journal.
ghost use Rattle.std.specs.Prelude.{◌<◌, ◌^◌, IfSome, length};
ghost use Rattle.journal_disk.specs.Entries.{IsNewDisk};

use crate::calling::{disk_from, put_digits};
use check_lines::Told;
use disk_edge::Disk;
use journal_disk::{Ahead, Appender, DiskFault, DiskJournal, recover, stored_first};
use memory_io::MemoryDisk;
use std::alloc::Global;
use wire_records::Version;

// More bytes than a first entry of a case has.
const MOST: usize = 1000;

// Makes a new disk one of version Two whose first entry holds these bytes.
fn keep_point<D: Disk>(alloc: Global, disk: &mut D, point: &[u8]) -> Result<(), DiskFault>
    requires new { IfSome (D.state disk.old).content IsNewDisk }
    requires short { length point.now < 2 ^ 32 }
{
    let mut bytes = Vec::new(alloc);
    bytes.extend_from_slice(point)?;
    let stored = stored_first(bytes)?;
    let mut appender = Appender::for_new(alloc)?;
    appender.make(disk, Version::Two)?;
    appender.append_first(disk, &stored)
}

// Makes a disk, which has to be a new one, one whose first entry holds these bytes.
fn keep_first<D: Disk>(alloc: Global, disk: &mut D, point: &[u8]) -> Result<(), DiskFault>
    requires short { length point.now < 2 ^ 32 }
{
    match recover(disk)? {
        None => keep_point(alloc, disk, point),
        Some(_) => Err(DiskFault::NotDisk),
    }
}

// Returns the bytes of a first entry that begins with a magic, and moves on past it.
fn read_point<D: Disk>(
    alloc: Global,
    journal: &mut DiskJournal,
    disk: &mut D,
    magic: &[u8],
) -> Result<Option<Vec<u8>>, DiskFault> {
    let mut ahead = Ahead::new(alloc, disk)?;
    match journal.find_first(disk, &mut ahead, magic)? {
        Some(count) => {
            let point = journal.first(&ahead, count).to_vec(alloc)?;
            journal.pass(count);
            Ok(Some(point))
        }
        None => Ok(None),
    }
}

fn put_point(
    alloc: Global,
    journal: &mut DiskJournal,
    disk: &mut MemoryDisk,
    magic: &str,
    told: &mut Told,
) {
    match read_point(alloc, journal, disk, magic.as_bytes()) {
        Ok(Some(point)) => put_digits(alloc, &point, told),
        Ok(None) => told.put("none\n"),
        Err(_) => told.give_up(),
    }
}

// Looks for a first entry by each magic, one after the other.
fn put_each(alloc: Global, disk: &mut MemoryDisk, magics: &str, told: &mut Told) {
    let mut journal = DiskJournal::after_magic();
    for magic in magics.split(',') {
        told.put("  '");
        told.put(magic);
        told.put("': ");
        put_point(alloc, &mut journal, disk, magic, told);
    }
}

// Makes a new disk whose first entry has the bytes, and looks for it by each magic.
fn put_points(alloc: Global, disk: &mut MemoryDisk, magics: &str, bytes: &[u8], told: &mut Told) {
    if bytes.len() > MOST {
        return told.give_up();
    }
    told.keep(keep_first(alloc, disk, bytes).ok());
    told.put("\n  disk ");
    put_digits(alloc, disk.bytes(), told);
    put_each(alloc, disk, magics, told)
}

pub(crate) fn put_found(alloc: Global, magics: &str, bytes: &[u8], told: &mut Told) {
    match disk_from(alloc, &[], MOST, 100, 0) {
        Some(mut disk) => put_points(alloc, &mut disk, magics, bytes, told),
        None => told.give_up(),
    }
}
