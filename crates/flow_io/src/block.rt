//! A block of memory between a source and its reader.
ghost use Rattle.std.specs.Prelude.{◌≡◌, ◌+◌, ◌≤◌, ◌<◌, ◌++◌, ℕ, List, [], length, drop, vec_len, IfOk, IfSome, OnErr, IsErr};
ghost use Rattle.flow_io.specs.Faults.{Blames};
ghost use Rattle.flow_io.specs.Streams.{Takes};

use crate::{Memory, ReadFailed, Source};
use std::alloc::Global;

// The bytes from `start` to `end` are held, and further bytes are read after them.
#[derive(Drop)]
pub(crate) struct Block {
    bytes: Vec<u8>,
    start: usize,
    end: usize,
    ghost ordered: { start ≤ end },
    ghost within: { end ≤ vec_len bytes },
}

impl Block {
    ghost use Rattle.flow_io.specs.Private.{items};

    // Makes a block that holds nothing. All its memory is allocated here.
    pub(crate) fn new(alloc: Global, room: usize) -> Result<Block, Memory>
        ensures empty { IfOk result (λ block. items block ≡ []) }
        ensures room { IfOk result (λ block. vec_len block.bytes ≡ room) }
    {
        let mut bytes = Vec::with_capacity(alloc, room)?;
        bytes.resize(room, 0)?;
        Ok(Block {
            bytes,
            start: 0,
            end: 0,
        })
    }

    pub(crate) fn room(&self) -> usize
        ensures { result ≡ vec_len self.now.bytes }
    {
        self.bytes.len()
    }

    pub(crate) fn held(&self) -> &[u8]
        ensures value { result.now ≡ items self.now }
        ensures fits { length result.now ≤ vec_len self.now.bytes }
    {
        &self.bytes[self.start..self.end]
    }

    pub(crate) fn len(&self) -> usize
        ensures length { result ≡ length (items self.now) }
        ensures fits { result ≤ vec_len self.now.bytes }
    {
        self.end - self.start
    }

    // Gives up the first `count` of the held bytes.
    pub(crate) fn give_up(&mut self, count: usize)
        requires { count ≤ length (items self.old) }
        ensures items { items self.new ≡ drop count (items self.old) }
        ensures room { vec_len self.new.bytes ≡ vec_len self.old.bytes }
    {
        self.start += count;
    }

    // Moves the held bytes to the beginning of the block.
    fn move_to_front(&mut self)
        ensures items { items self.new ≡ items self.old }
        ensures prefix { self.new.end ≡ length (items self.old) }
        ensures room { vec_len self.new.bytes ≡ vec_len self.old.bytes }
    {
        let (start, end) = (self.start, self.end);
        self.bytes.copy_within(start..end, 0);
        self.start = 0;
        self.end = end - start;
    }

    // Reads once, at most `most` bytes, appends them to the held bytes and returns their number; 0 is the end of the input.
    pub(crate) fn read<S: Source>(
        &mut self,
        source: &mut S,
        most: usize,
    ) -> Result<usize, ReadFailed>
        requires some { 0 < most }
        requires room { length (items self.old) + most ≤ vec_len self.old.bytes }
        ensures read { IfOk result (λ count. (more : List ℕ) × (length more ≡ count) × (count ≤ most)
            × (items self.new ≡ items self.old ++ more) × Takes (S.rest source.old) (S.rest source.new) more) }
        ensures end { IfOk result (λ count. count ≡ 0 → IfSome (S.rest source.new) (λ left. left ≡ [])) }
        ensures failed { OnErr result ((items self.new ≡ items self.old) × (S.rest source.new ≡ S.rest source.old)) }
        ensures room { vec_len self.new.bytes ≡ vec_len self.old.bytes }
        ensures cause { Blames (IsErr result) (S.faults source.old) (S.faults source.new) }
    {
        self.move_to_front();
        let end = self.end;
        let count = source.read(&mut self.bytes[end..end + most])?;
        self.end = end + count;
        Ok(count)
    }
}
