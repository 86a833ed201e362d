//! Entries that are appended together.
ghost use Rattle.std.specs.Prelude.{◌≡◌, ◌≢◌, ◌≤◌, ◌+◌, ◌↔◌, ◌++◌, [], ◌∷◌, length, IsTrue, OnOk, OnErr, vec_len, vec_capacity};
ghost use Rattle.journal_records.specs.Pairs.{longest_pair};
ghost use Rattle.journal_disk.specs.Pairs.{IsWholePair};
ghost use Rattle.journal_disk.specs.Entries.{framed};
ghost use Rattle.journal_disk.specs.Groups.{stored_in};

use crate::calls::OPEN;
use std::alloc::Global;
use std::marker::Model;
use wire_fields::{put_bytes, put_u8, put_u32};
use wire_records::Memory;

/// Entries that [`Appender::append_group`](crate::Appender::append_group) appends together, so that a crash leaves all
/// of them or none. Contracts see the bytes that are stored of them: for each entry a set commit byte, the entry's
/// length in four bytes, and the entry.
#[derive(Drop)]
pub struct Group {
    buffer: Vec<u8>,
}

impl Model for Group {
    ghost use Rattle.std.specs.Prelude.{ℕ, List};
    ghost use Rattle.journal_disk.specs.Groups.{stored_in, EndsUnset};

    ghost Value = { List ℕ };

    ghost view = { λ group. stored_in group.buffer.items };

    ghost invariant = { λ group. EndsUnset group.buffer.items };
}

// Appends what is stored of an entry after its commit byte, the length and the entry, and an unset commit byte.
pub(crate) fn put_stored(buffer: &mut Vec<u8>, pair: &[u8])
    requires room { vec_len buffer.old + (5 + length pair.now) ≤ vec_capacity buffer.old }
    requires short { length pair.now ≤ longest_pair }
    ensures stored { buffer.new.items ≡ buffer.old.items ++ (framed pair.now ++ 0 ∷ []) }
    ensures room { vec_capacity buffer.new ≡ vec_capacity buffer.old }
{
    put_u32(buffer, pair.len() as u32);
    put_bytes(buffer, pair);
    put_u8(buffer, 0);
}

// Sets the commit byte after the last entry in a buffer, if there is one, since another entry will follow it.
fn set_last(buffer: &mut Vec<u8>)
    ensures set { 1 ∷ buffer.new.items ≡ stored_in buffer.old.items ++ 1 ∷ [] }
    ensures len { vec_len buffer.new ≡ vec_len buffer.old }
    ensures room { vec_capacity buffer.new ≡ vec_capacity buffer.old }
{
    match buffer.pop() {
        Some(_) => put_u8(buffer, OPEN),
        None => {}
    }
}

impl Group {
    /// Makes an empty group. Takes no memory.
    pub fn new(alloc: Global) -> Group
        ensures { result ≡ [] }
    {
        Group {
            buffer: Vec::new(alloc),
        }
    }

    /// Adds the bytes of one complete entry after the others. After `Memory` the group is as before. Costs the entry's
    /// bytes, and those of the group if its memory has to grow.
    pub fn push(&mut self, pair: &[u8]) -> Result<(), Memory>
        requires { IsWholePair pair.now }
        ensures pushed { OnOk result (self.new ≡ self.old ++ 1 ∷ framed pair.now) }
        ensures stays { OnErr result (self.new ≡ self.old) }
    {
        self.buffer.reserve(5 + pair.len())?;
        set_last(&mut self.buffer);
        put_stored(&mut self.buffer, pair);
        Ok(())
    }

    /// Adds the entries of another group after its own. After `Memory` the group is as before. Costs the bytes of the
    /// other group, and its own if its memory has to grow.
    pub fn join(&mut self, other: &Group) -> Result<(), Memory>
        ensures joined { OnOk result (self.new ≡ self.old ++ other.now) }
        ensures stays { OnErr result (self.new ≡ self.old) }
    {
        if other.is_empty() {
            return Ok(());
        }
        self.buffer.reserve(other.buffer.len())?;
        set_last(&mut self.buffer);
        put_bytes(&mut self.buffer, &other.buffer);
        Ok(())
    }

    /// Returns how many bytes are stored of the entries: 5 for each, and those of the entry.
    pub fn len(&self) -> usize
        ensures { result ≡ length self.now }
    {
        self.buffer.len()
    }

    /// Returns whether there is no entry.
    pub fn is_empty(&self) -> bool
        ensures { IsTrue result ↔ (self.now ≡ []) }
    {
        self.buffer.is_empty()
    }

    /// Removes all entries, and keeps the memory.
    pub fn clear(&mut self)
        ensures { self.new ≡ [] }
    {
        self.buffer.clear();
    }

    // Returns what is written of the entries after the commit byte before them: the bytes that are stored of them,
    // without that byte, and an unset commit byte.
    pub(crate) fn after_commit(&self) -> &[u8]
        ensures stored { self.now ≢ [] → 1 ∷ result.now ≡ self.now ++ 0 ∷ [] }
        ensures len { length result.now ≡ length self.now }
    {
        &self.buffer
    }
}
