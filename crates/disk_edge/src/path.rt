//! The file at a path as a disk.
ghost use Rattle.std.specs.Prelude.{◌≡◌, true, false, Ok, IsErr};
ghost use Rattle.flow_io.specs.Faults.{Blames};

use crate::{Disk, DiskFailed, FileDisk};
use std::fs::{File, Files, OpenOptions};
use std::io;
use std::io::ErrorKind;
use std::marker::Model;
use std::path::{AsPath, Path};

/// The file at a path as a disk. If there is no file it is an empty disk, and the first write makes the file; no other
/// call does. The disk holds the file's one lock until it is dropped, so no two of these disks are over one file. If
/// the file can't be opened, or another process has the lock, each call fails; if the first write can't make and lock
/// the file, each call from that write on.
#[derive(Drop)]
pub struct PathDisk<'a, R> {
    files: &'a R,
    path: &'a str,
    is_missing: bool,
    disk: FileDisk,
}

impl<'a, R> Model for PathDisk<'a, R> {
    ghost use Rattle.disk_edge.specs.Files.{PathState};

    ghost Value = { PathState };

    ghost view = { λ it. record { is_missing = it.is_missing; file = it.disk } };
}

impl<'a, R: Files<File = File>> PathDisk<'a, R> {
    /// Makes a disk over the file at this path, which is opened and locked if it is there.
    pub fn open(files: &'a R, path: &'a str) -> PathDisk<'a, R>
        ensures { result.file.faults ≡ 0 }
    {
        let opened = open_locked(files, path);
        let is_missing = match &opened {
            Ok(_) => false,
            Err(error) => error.kind() == ErrorKind::NotFound,
        };
        PathDisk {
            files,
            path,
            is_missing,
            disk: FileDisk::new(opened.ok()),
        }
    }

    // Makes the file, if it isn't there.
    fn make(&mut self)
        ensures there { self.new.is_missing ≡ false }
        ensures same { self.old.is_missing ≡ false → self.new ≡ self.old }
        ensures faults { self.new.file.faults ≡ self.old.file.faults }
    {
        if self.is_missing {
            self.is_missing = false;
            self.disk.put(make_locked(self.files, self.path).ok());
        }
    }
}

// Opens the file at this path and locks it. If it is still empty, its name is synced, so that it outlasts a crash.
fn open_locked<R: Files<File = File>>(files: &R, path: &str) -> io::Result<File> {
    let file = OpenOptions::new().read(true).write(true).open(files, path)?;
    file.try_lock()?;
    if file.metadata()?.len() == 0 {
        sync_folder(files, path)?;
    }
    Ok(file)
}

// Makes a file at this path, if nothing is there, not even a link, and locks it. Its name is synced, so that it
// outlasts a crash.
fn make_locked<R: Files<File = File>>(files: &R, path: &str) -> io::Result<File> {
    let file = OpenOptions::new()
        .read(true)
        .write(true)
        .create_new(true)
        .open(files, path)?;
    file.try_lock()?;
    sync_folder(files, path)?;
    Ok(file)
}

// Syncs the folder of a path, so that the names in it outlast a crash.
fn sync_folder<R: Files<File = File>>(files: &R, path: &str) -> io::Result<()> {
    File::open(files, folder_of(path))?.sync_all()
}

// Returns the folder of the file that a path names.
fn folder_of<'a>(path: &'a str) -> Path<'a> {
    match Path::new(path).parent() {
        Some(folder) if !folder.path_text().is_empty() => folder,
        _ => Path::new("."),
    }
}

impl<'a, R: Files<File = File>> Disk for PathDisk<'a, R> {
    ghost use Rattle.disk_edge.specs.Files.{file_state, file_is_disk};

    ghost state = { λ disk. file_state disk.file };

    ghost is_disk = { λ disk. file_is_disk disk.file };

    fn length(&mut self) -> Result<u64, DiskFailed>
        ensures missing { self.old.is_missing ≡ true → result ≡ Ok 0 }
        ensures still { self.new.is_missing ≡ self.old.is_missing }
        ensures cause { Blames (IsErr result) self.old.file.faults self.new.file.faults }
    {
        if self.is_missing {
            return Ok(0);
        }
        self.disk.length()
    }

    fn read_at(&mut self, place: u64, into: &mut [u8]) -> Result<(), DiskFailed>
        ensures still { self.new.is_missing ≡ self.old.is_missing }
        ensures cause { Blames (IsErr result) self.old.file.faults self.new.file.faults }
    {
        self.disk.read_at(place, into)
    }

    /// Makes the file first, if it isn't there.
    fn write_at(&mut self, place: u64, bytes: &[u8]) -> Result<(), DiskFailed>
        ensures there { self.new.is_missing ≡ false }
        ensures cause { Blames (IsErr result) self.old.file.faults self.new.file.faults }
    {
        self.make();
        self.disk.write_at(place, bytes)
    }

    fn cut(&mut self, to: u64) -> Result<(), DiskFailed>
        ensures still { self.new.is_missing ≡ self.old.is_missing }
        ensures cause { Blames (IsErr result) self.old.file.faults self.new.file.faults }
    {
        self.disk.cut(to)
    }

    fn sync(&mut self) -> Result<(), DiskFailed>
        ensures missing { self.old.is_missing ≡ true → result ≡ Ok tt }
        ensures still { self.new.is_missing ≡ self.old.is_missing }
        ensures cause { Blames (IsErr result) self.old.file.faults self.new.file.faults }
    {
        if self.is_missing {
            return Ok(());
        }
        self.disk.sync()
    }
}
