//! The trusted edge: a real file.
ghost use Rattle.std.specs.Prelude.{◌≡◌, false, IsErr};
ghost use Rattle.flow_io.specs.Faults.{Blames};

use crate::{Disk, DiskFailed};
use std::fs::File;
use std::io;
use std::marker::Model;
use std::os::unix::fs::FileExt;

/// A real file as a disk. Its content isn't known in contracts, and neither is what a crash may leave: that its calls
/// do to the file what those of a disk do is trusted. Each call fails if the file couldn't be opened.
#[derive(Drop)]
pub struct FileDisk {
    file: Option<File>,
    faults: u64,
}

impl Model for FileDisk {
    ghost use Rattle.std.specs.Prelude.{is_some};
    ghost use Rattle.disk_edge.specs.Files.{FileState};

    ghost Value = { FileState };

    ghost view = { λ disk. record { is_open = is_some disk.file; faults = disk.faults } };
}

impl FileDisk {
    ghost use Rattle.std.specs.Prelude.{is_some};

    /// Makes a disk over this file, or over one whose opening failed. No call has failed so far.
    pub fn new(file: Option<File>) -> FileDisk
        ensures { result ≡ record { is_open = is_some file; faults = 0 } }
    {
        FileDisk { file, faults: 0 }
    }

    // Replaces the file by this one, or by one whose opening failed.
    pub(crate) fn put(&mut self, file: Option<File>)
        ensures { self.new ≡ record { is_open = is_some file; faults = self.old.faults } }
    {
        self.file = file;
    }

    // Returns the result of a call of the system. A call that failed is counted.
    fn told<T>(&mut self, answer: io::Result<T>) -> Result<T, DiskFailed>
        ensures open { self.new.is_open ≡ self.old.is_open }
        ensures cause { Blames (IsErr result) self.old.faults self.new.faults }
    {
        match answer {
            Ok(value) => Ok(value),
            Err(_) => self.refuse(),
        }
    }

    // Counts a failed call, or one over a file whose opening failed, and returns its error.
    fn refuse<T>(&mut self) -> Result<T, DiskFailed>
        ensures open { self.new.is_open ≡ self.old.is_open }
        ensures failed { IsErr result }
        ensures cause { Blames (IsErr result) self.old.faults self.new.faults }
    {
        self.faults = self.faults.saturating_add(1);
        Err(DiskFailed)
    }
}

impl Disk for FileDisk {
    ghost use Rattle.disk_edge.specs.Files.{file_state, file_is_disk};

    ghost state = { λ disk. file_state disk };

    ghost is_disk = { λ disk. file_is_disk disk };

    fn length(&mut self) -> Result<u64, DiskFailed>
        ensures open { self.new.is_open ≡ self.old.is_open }
        ensures shut { self.old.is_open ≡ false → IsErr result }
        ensures cause { Blames (IsErr result) self.old.faults self.new.faults }
    {
        match &self.file {
            None => self.refuse(),
            Some(file) => {
                let answer = file.metadata().map(|metadata| metadata.len());
                self.told(answer)
            }
        }
    }

    fn read_at(&mut self, place: u64, into: &mut [u8]) -> Result<(), DiskFailed>
        ensures open { self.new.is_open ≡ self.old.is_open }
        ensures shut { self.old.is_open ≡ false → IsErr result }
        ensures cause { Blames (IsErr result) self.old.faults self.new.faults }
    {
        match &self.file {
            None => self.refuse(),
            Some(file) => {
                let answer = file.read_exact_at(into, place);
                self.told(answer)
            }
        }
    }

    fn write_at(&mut self, place: u64, bytes: &[u8]) -> Result<(), DiskFailed>
        ensures open { self.new.is_open ≡ self.old.is_open }
        ensures shut { self.old.is_open ≡ false → IsErr result }
        ensures cause { Blames (IsErr result) self.old.faults self.new.faults }
    {
        match &self.file {
            None => self.refuse(),
            Some(file) => {
                let answer = file.write_all_at(bytes, place);
                self.told(answer)
            }
        }
    }

    fn cut(&mut self, to: u64) -> Result<(), DiskFailed>
        ensures open { self.new.is_open ≡ self.old.is_open }
        ensures shut { self.old.is_open ≡ false → IsErr result }
        ensures cause { Blames (IsErr result) self.old.faults self.new.faults }
    {
        match &self.file {
            None => self.refuse(),
            Some(file) => {
                let answer = file.set_len(to);
                self.told(answer)
            }
        }
    }

    fn sync(&mut self) -> Result<(), DiskFailed>
        ensures open { self.new.is_open ≡ self.old.is_open }
        ensures shut { self.old.is_open ≡ false → IsErr result }
        ensures cause { Blames (IsErr result) self.old.faults self.new.faults }
    {
        match &self.file {
            None => self.refuse(),
            Some(file) => {
                let answer = file.sync_data();
                self.told(answer)
            }
        }
    }
}
