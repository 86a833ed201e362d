ghost use Rattle.std.specs.Prelude.{◌≡◌, ◌⊎◌, ◌≤◌, ◌<◌, ◌+◌, ◌-◌, min, [], true, false, IsErr, IfOk, OnOk, OnErr, length, take, drop, is_err, is_ok, ◌↔◌};
ghost use Rattle.flow_io.specs.Faults.{Rose, Blames};
ghost use Rattle.disk_edge.specs.Disks.{OnlyTells, ChangesBy};
ghost use Rattle.disk_edge.specs.Images.{written, TornWrite, TornCut, AddsNoLonger, LeavesOnly};
ghost use Rattle.memory_io.specs.Disk.{disk_of, looked, synced, cut, MemoryState, NextFails, after_call, write_call, FillsRoom, IsStopIn, content_after};

use crate::bytes::{overwrite, put_all, read_out};
use crate::call_log::CallLog;
use crate::replay::Replay;
use crate::turns::{Turn, Turns};
use disk_edge::{Disk, DiskFailed};
use flow_io::Memory;
use std::alloc::Global;
use std::marker::Model;

/// A disk in memory, with stated calls that fail, and a record of its calls that says what a stop in each would leave. Its content is
/// known. For tests.
#[derive(Drop)]
pub struct MemoryDisk {
    first: Vec<u8>,
    content: Vec<u8>,
    log: CallLog,
    calls: Turns,
}

impl Model for MemoryDisk {
    ghost use Rattle.memory_io.specs.Disk.{MemoryState};
    ghost use Rattle.memory_io.specs.Sound.{IsConsistent};

    ghost Value = { MemoryState };

    ghost view = { λ disk. record {
      first = disk.first.items;
      made = disk.log.made;
      room = disk.log.room;
      most = disk.calls.most;
      failing = disk.calls.failing.items;
      calls = disk.calls.made;
      faults = disk.calls.failed;
    } };

    ghost invariant = { λ disk. IsConsistent disk.first disk.content disk.log disk.calls };
}

impl MemoryDisk {
    /// Returns a disk that holds these bytes, which are its one image. It records `calls` calls, and `room` bytes of all their writes
    /// together. Calls are counted from 1. A call fails exactly if its number is in `failing` or above `calls`, or if it is a write whose
    /// bytes would bring those of all recorded writes above `room`. A call that fails for `calls` or `room` leaves content and images as
    /// they were. All memory is allocated here.
    pub fn new(
        alloc: Global,
        bytes: Vec<u8>,
        room: usize,
        calls: u32,
        failing: Vec<u64>,
    ) -> Result<MemoryDisk, Memory>
        ensures { IfOk result (λ disk. disk ≡ record {
          first = bytes.items;
          made = [];
          room = room;
          most = calls;
          failing = failing.items;
          calls = 0;
          faults = 0;
        }) }
    {
        let size = match bytes.len().checked_add(room) {
            Some(size) => size,
            None => return Err(Memory),
        };
        let mut content = Vec::with_capacity(alloc, size)?;
        let log = CallLog::new(alloc, calls, room)?;
        overwrite(&mut content, 0, &bytes);
        Ok(MemoryDisk {
            first: bytes,
            content,
            log,
            calls: Turns::new(failing, calls),
        })
    }

    /// Returns what a read gives.
    pub fn bytes(&self) -> &[u8]
        ensures { result.now ≡ content_after self.now.made self.now.first }
    {
        &self.content
    }

    /// Returns how many calls were recorded: a stop may come in any of these. A write that failed since there was no room is one of them,
    /// as a call that changed nothing.
    pub fn recorded(&self) -> u32
        ensures { result ≡ min self.now.calls self.now.most }
    {
        self.calls.made.min(self.calls.most as u64) as u32
    }

    /// Returns one image of a stop in the call of this number, which was recorded: of each write that no sync had kept it has the first
    /// `part` bytes as written, and `fill` for the rest. A cut is made in full if it succeeded, and a sync in which the stop comes isn't
    /// made. Allocates the bytes at the start twice, and the room of the writes three times.
    pub fn crashed(&self, alloc: Global, call: u64, part: u64, fill: u8) -> Result<Vec<u8>, Memory>
        requires { (1 ≤ call) × (call ≤ min self.now.calls self.now.most) }
        ensures stop { IfOk result (λ image. IsStopIn self.now call part fill image.items) }
        ensures left { IfOk result (λ image. (disk_of self.now).since (call - 1) image.items) }
    {
        let count = self.log.made_at(call as usize);
        let size = self.first.len() + self.log.room();
        let mut replay = Replay {
            held: Vec::with_capacity(alloc, size)?,
            image: Vec::with_capacity(alloc, size)?,
            torn: Vec::with_capacity(alloc, self.log.room())?,
        };
        put_all(&mut replay.held, &self.first);
        put_all(&mut replay.image, &self.first);
        self.log.replay(&mut replay, count, part as usize, fill);
        Ok(replay.image)
    }

    // Makes a call that changes nothing.
    fn look(&mut self) -> Result<(), DiskFailed>
        ensures fails { IsErr result ↔ NextFails self.old }
        ensures made { self.new ≡ after_call self.old looked (is_err result) }
        ensures cause { Blames (IsErr result) self.old.faults self.new.faults }
    {
        match self.calls.next() {
            Turn::Past => {
                self.calls.fail();
                Err(DiskFailed)
            }
            Turn::Listed => {
                self.log.look();
                self.calls.fail();
                Err(DiskFailed)
            }
            Turn::Free => {
                self.log.look();
                Ok(())
            }
        }
    }

    // Makes a write without room for it: a call that changes nothing, and fails.
    fn refuse(&mut self)
        ensures made { self.new ≡ after_call self.old looked true }
        ensures cause { Rose self.old.faults self.new.faults }
    {
        match self.calls.next() {
            Turn::Past => self.calls.fail(),
            Turn::Listed => {
                self.log.look();
                self.calls.fail();
            }
            Turn::Free => {
                self.log.look();
                self.calls.fail();
            }
        }
    }

    // Makes a write.
    fn write(&mut self, place: u64, bytes: &[u8]) -> Result<(), DiskFailed>
        ensures fails { IsErr result ↔ (NextFails self.old ⊎ FillsRoom self.old bytes.now) }
        ensures made { self.new ≡ after_call self.old (write_call self.old place bytes.now (is_ok result)) (is_err result) }
        ensures cause { Blames (IsErr result) self.old.faults self.new.faults }
    {
        if bytes.len() > self.log.spare() {
            self.refuse();
            return Err(DiskFailed);
        }
        match self.calls.next() {
            Turn::Past => {
                self.calls.fail();
                Err(DiskFailed)
            }
            Turn::Listed => {
                self.log.write(place, bytes, false);
                self.calls.fail();
                Err(DiskFailed)
            }
            Turn::Free => {
                self.log.write(place, bytes, true);
                overwrite(&mut self.content, place as usize, bytes);
                Ok(())
            }
        }
    }

    // Makes a cut.
    fn shorten(&mut self, to: u64) -> Result<(), DiskFailed>
        ensures fails { IsErr result ↔ NextFails self.old }
        ensures made { self.new ≡ after_call self.old (cut to (is_ok result)) (is_err result) }
        ensures cause { Blames (IsErr result) self.old.faults self.new.faults }
    {
        match self.calls.next() {
            Turn::Past => {
                self.calls.fail();
                Err(DiskFailed)
            }
            Turn::Listed => {
                self.log.cut(to, false);
                self.calls.fail();
                Err(DiskFailed)
            }
            Turn::Free => {
                self.log.cut(to, true);
                self.content.truncate(to as usize);
                Ok(())
            }
        }
    }

    // Makes a sync, which is recorded as one if it succeeds.
    fn keep(&mut self) -> Result<(), DiskFailed>
        ensures fails { IsErr result ↔ NextFails self.old }
        ensures ok { OnOk result (self.new ≡ after_call self.old synced false) }
        ensures err { OnErr result (self.new ≡ after_call self.old looked true) }
        ensures cause { Blames (IsErr result) self.old.faults self.new.faults }
    {
        match self.calls.next() {
            Turn::Past => {
                self.calls.fail();
                Err(DiskFailed)
            }
            Turn::Listed => {
                self.log.look();
                self.calls.fail();
                Err(DiskFailed)
            }
            Turn::Free => {
                self.log.sync();
                Ok(())
            }
        }
    }
}

impl Disk for MemoryDisk {
    ghost use Rattle.memory_io.specs.Disk.{disk_of};
    ghost use Rattle.memory_io.specs.MemoryLaws.{is_disk};

    ghost state = { disk_of };

    fn length(&mut self) -> Result<u64, DiskFailed>
        ensures tells { OnlyTells result (λ count bytes. count ≡ length bytes) (disk_of self.old) (disk_of self.new) }
        ensures fails { IsErr result ↔ NextFails self.old }
        ensures made { self.new ≡ after_call self.old looked (is_err result) }
    {
        self.look()?;
        Ok(self.bytes().len() as u64)
    }

    fn read_at(&mut self, place: u64, into: &mut [u8]) -> Result<(), DiskFailed>
        requires { place + length into.old ≤ length (content_after self.old.made self.old.first) }
        ensures tells { OnlyTells result (λ _ bytes. into.new ≡ take (length into.old) (drop place bytes)) (disk_of self.old) (disk_of self.new) }
        ensures fails { IsErr result ↔ NextFails self.old }
        ensures made { self.new ≡ after_call self.old looked (is_err result) }
        ensures stays { OnErr result (into.new ≡ into.old) }
    {
        self.look()?;
        read_out(self.bytes(), place as usize, into);
        Ok(())
    }

    fn write_at(&mut self, place: u64, bytes: &[u8]) -> Result<(), DiskFailed>
        ensures changes { ChangesBy result (written place bytes.now) (TornWrite place (length bytes.now)) (disk_of self.old) (disk_of self.new) }
        ensures fails { IsErr result ↔ (NextFails self.old ⊎ FillsRoom self.old bytes.now) }
        ensures made { self.new ≡ after_call self.old (write_call self.old place bytes.now (is_ok result)) (is_err result) }
    {
        self.write(place, bytes)
    }

    fn cut(&mut self, to: u64) -> Result<(), DiskFailed>
        requires { to ≤ length (content_after self.old.made self.old.first) }
        ensures changes { ChangesBy result (take to) (TornCut to) (disk_of self.old) (disk_of self.new) }
        ensures no_longer { AddsNoLonger (disk_of self.old).images (disk_of self.new).images }
        ensures fails { IsErr result ↔ NextFails self.old }
        ensures made { self.new ≡ after_call self.old (cut to (is_ok result)) (is_err result) }
    {
        self.shorten(to)
    }

    fn sync(&mut self) -> Result<(), DiskFailed>
        ensures tells { OnlyTells result (λ _. LeavesOnly (disk_of self.new).images) (disk_of self.old) (disk_of self.new) }
        ensures fails { IsErr result ↔ NextFails self.old }
        ensures ok { OnOk result (self.new ≡ after_call self.old synced false) }
        ensures err { OnErr result (self.new ≡ after_call self.old looked true) }
    {
        self.keep()
    }

    ghost is_disk = { is_disk };
}
