//! A host between the lines: entries that wait are kept together, and then the texts of complete lines are written.
ghost use Rattle.std.specs.Prelude.{◌≡◌, ◌≢◌, ◌≤◌, ◌<◌, ◌+◌, ◌^◌, ◌⊎◌, ℕ, List, [], ◌++◌, Err, IfOk, IfErr, OnOk, OnErr, IsErr, length};
ghost use Rattle.flow_io.specs.Faults.{Blames};
ghost use Rattle.journal_keeping.specs.Outputs.{output};

use crate::fault::HostFault;
use desk_opening::Book;
use desk_session::DeskSession;
use disk_edge::Disk;
use flow_io::{Sink, WriteFailed};
use journal_disk::Group;
use std::alloc::Global;
use std::marker::Model;
use wire_records::Memory;

// The most bytes of the entries of a group, unless one line alone has more.
const MOST_GROUP: usize = 1 << 20;

// A market of many senders, its file, and what isn't kept or written yet.
pub(crate) struct Host {
    pub(crate) alloc: Global,
    pub(crate) session: DeskSession,
    pub(crate) book: Book,
    // The entries of the complete lines that aren't kept yet.
    pub(crate) group: Group,
    // The entries of the line that is being answered.
    pub(crate) fresh: Group,
    // Whether one of them is that of a batch.
    pub(crate) has_batch: bool,
    // How many of the texts belong to complete lines, and how many were written.
    pub(crate) told: usize,
    pub(crate) written: usize,
}

impl Drop for Host {
    // By hand, so that the end of a value is one call in the proofs of those who own it (docs/PROVING_TRAPS.md).
    fn drop(self) {
        let Host {
            alloc: _,
            session: _,
            book: _,
            group: _,
            fresh: _,
            has_batch: _,
            told: _,
            written: _,
        } = self;
    }
}

impl Model for Host {
    ghost use Rattle.desk_keeping.specs.Private.{HostState};

    ghost Value = { HostState };

    ghost view = { λ h. record { session = h.session; book = h.book; group = h.group; fresh = h.fresh; told = h.told; written = h.written } };
}

impl Host {
    ghost use Rattle.desk_opening.specs.Books.{CanKeep};
    ghost use Rattle.desk_keeping.specs.Private.{IsOrdered, WritesTexts, WritesFirst, KeepsGroup, BreaksGroup, EndsLine, BreaksEnd, MaySettle, StopsHere, AnswersLong, IsAtEntry};
    ghost use Rattle.desk_lines.specs.Hearing.{most_envelope};
    ghost use Rattle.desk_session.specs.States.{CountsAccounts};
    ghost use Rattle.desk_session.specs.Bounds.{IsWithin};

    // Begins before the first line.
    pub(crate) fn new(alloc: Global, session: DeskSession, book: Book) -> Host
        ensures { result ≡ record { session = session; book = book; group = []; fresh = []; told = 0; written = 0 } }
    {
        Host {
            alloc,
            session,
            book,
            group: Group::new(alloc),
            fresh: Group::new(alloc),
            has_batch: false,
            told: 0,
            written: 0,
        }
    }

    // Writes the texts of complete lines, each by one call.
    fn write_texts<K: Sink>(&mut self, out: &mut K) -> Result<(), WriteFailed>
        requires order { IsOrdered self.old }
        ensures writes { OnOk result (WritesTexts self.old self.new (output K.held K.calls K.faults out.old) (output K.held K.calls K.faults out.new)) }
        ensures broken { OnErr result (WritesFirst self.old (output K.held K.calls K.faults out.old) (output K.held K.calls K.faults out.new)) }
        ensures aside { (self.new.book ≡ self.old.book) × (self.new.group ≡ self.old.group) × (self.new.fresh ≡ self.old.fresh) }
        ensures cause { Blames (IsErr result) (K.faults out.old) (K.faults out.new) }
    {
        for place in self.written..self.told {
            match out.write(self.session.text_at(place)) {
                Ok(()) => {}
                Err(failed) => return Err(failed),
            }
        }
        self.written = self.told;
        if self.written == self.session.text_count() {
            self.session.clear_texts();
            self.told = 0;
            self.written = 0;
        }
        Ok(())
    }

    // Keeps the entries of complete lines, and then writes their texts.
    fn keep_group<D: Disk, K: Sink>(&mut self, disk: &mut D, out: &mut K) -> Result<(), HostFault>
        requires order { IsOrdered self.old }
        requires can { self.old.group ≢ [] → CanKeep self.old.group self.old.book (D.state disk.old) }
        ensures keeps { OnOk result (KeepsGroup self.old self.new (D.state disk.old) (D.state disk.new)
            (output K.held K.calls K.faults out.old) (output K.held K.calls K.faults out.new) (disk.new ≡ disk.old)) }
        ensures broken { IfErr result (λ fault. BreaksGroup fault self.old self.new (D.state disk.old) (D.state disk.new)
            (output K.held K.calls K.faults out.old) (output K.held K.calls K.faults out.new) (disk.new ≡ disk.old)) }
        ensures disk_cause { Blames (result ≡ Err HostFault.Disk) (D.state disk.old).faults (D.state disk.new).faults }
        ensures out_cause { Blames (result ≡ Err HostFault.Write) (K.faults out.old) (K.faults out.new) }
    {
        match self.book.keep(disk, &self.group) {
            Ok(()) => {}
            Err(_) => return Err(HostFault::Disk),
        }
        self.group.clear();
        match self.write_texts(out) {
            Ok(()) => Ok(()),
            Err(_) => Err(HostFault::Write),
        }
    }

    // Keeps and writes what waits if a group ends here: before more of the input is read, or after a batch.
    pub(crate) fn settle<D: Disk, K: Sink>(
        &mut self,
        is_last: bool,
        disk: &mut D,
        out: &mut K,
    ) -> Result<(), HostFault>
        requires order { IsOrdered self.old }
        requires can { self.old.group ≢ [] → CanKeep self.old.group self.old.book (D.state disk.old) }
        ensures keeps { OnOk result (MaySettle is_last self.old self.new (D.state disk.old) (D.state disk.new)
            (output K.held K.calls K.faults out.old) (output K.held K.calls K.faults out.new) (disk.new ≡ disk.old) (out.new ≡ out.old)) }
        ensures broken { IfErr result (λ fault. BreaksGroup fault self.old self.new (D.state disk.old) (D.state disk.new)
            (output K.held K.calls K.faults out.old) (output K.held K.calls K.faults out.new) (disk.new ≡ disk.old)) }
        ensures disk_cause { Blames (result ≡ Err HostFault.Disk) (D.state disk.old).faults (D.state disk.new).faults }
        ensures out_cause { Blames (result ≡ Err HostFault.Write) (K.faults out.old) (K.faults out.new) }
    {
        if is_last || self.has_batch {
            self.has_batch = false;
            return self.keep_group(disk, out);
        }
        Ok(())
    }

    // Ends a line that was heard: its entries join the group, which ends before them if it gets too long.
    pub(crate) fn end_line<D: Disk, K: Sink>(
        &mut self,
        disk: &mut D,
        out: &mut K,
    ) -> Result<(), HostFault>
        requires order { IsOrdered self.old }
        requires can { self.old.group ≢ [] → CanKeep self.old.group self.old.book (D.state disk.old) }
        ensures ends { OnOk result (EndsLine self.old self.new (D.state disk.old) (D.state disk.new)
            (output K.held K.calls K.faults out.old) (output K.held K.calls K.faults out.new) (disk.new ≡ disk.old) (out.new ≡ out.old)) }
        ensures broken { IfErr result (λ fault. BreaksEnd fault self.old self.new (D.state disk.old) (D.state disk.new)
            (output K.held K.calls K.faults out.old) (output K.held K.calls K.faults out.new) (disk.new ≡ disk.old) (out.new ≡ out.old)) }
        ensures short { OnOk result (length self.old.fresh ≤ 1048576 → length self.new.group ≤ 1048576) }
        ensures disk_cause { Blames (result ≡ Err HostFault.Disk) (D.state disk.old).faults (D.state disk.new).faults }
        ensures out_cause { Blames (result ≡ Err HostFault.Write) (K.faults out.old) (K.faults out.new) }
    {
        if !self.group.is_empty()
            && self.group.len().saturating_add(self.fresh.len()) > MOST_GROUP
        {
            match self.keep_group(disk, out) {
                Ok(()) => {}
                Err(fault) => return Err(fault),
            }
        }
        match self.group.join(&self.fresh) {
            Ok(()) => {}
            Err(_) => return Err(HostFault::Memory),
        }
        self.fresh.clear();
        self.told = self.session.text_count();
        Ok(())
    }

    // Answers a line that is too long, whatever it is.
    pub(crate) fn answer_long(&mut self) -> Result<(), Memory>
        requires counted { CountsAccounts self.old.session }
        requires room { (used : ℕ) × IsWithin used self.old.session × (used + 1 ≤ 2 ^ 48) }
        ensures answers { OnOk result ((line : List ℕ) → most_envelope < length line → AnswersLong line self.old self.new) }
        ensures told { OnOk result (self.new.told ≡ length self.new.session.talk.texts) }
        ensures counted { OnOk result (CountsAccounts self.new.session) }
        ensures room { OnOk result ((used : ℕ) → IsWithin used self.old.session → IsWithin (used + 1) self.new.session) }
    {
        // Called for its contract: the market is consistent.
        let _consistent = self.session.market().alloc();
        match self.session.hear_long() {
            Ok(()) => {
                self.told = self.session.text_count();
                Ok(())
            }
            Err(memory) => Err(memory),
        }
    }

    // Ends at a fault. At an entry of the file all that was taken from it before is answered first, also of this line.
    pub(crate) fn stop<K: Sink>(&mut self, fault: HostFault, out: &mut K) -> HostFault
        requires order { IsAtEntry fault → IsOrdered self.old }
        ensures out_cause { fault ≢ HostFault.Write → Blames (result ≡ HostFault.Write) (K.faults out.old) (K.faults out.new) }
        ensures stops { StopsHere fault result self.old (output K.held K.calls K.faults out.old) (output K.held K.calls K.faults out.new) (out.new ≡ out.old) }
    {
        match fault {
            HostFault::Damaged(_) | HostFault::Rejected(_) | HostFault::Differs(_) => {}
            _ => return fault,
        }
        self.told = self.session.text_count();
        match self.write_texts(out) {
            Ok(()) => fault,
            Err(_) => HostFault::Write,
        }
    }
}
