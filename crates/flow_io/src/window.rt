ghost use Rattle.std.specs.Prelude.{◌≡◌, ◌≢◌, ◌+◌, ◌≤◌, ◌<◌, ◌^◌, ◌↔◌, [], Some, None, Err, ◌⊎◌, length, drop, IfOk, IfSome, OnOk, OnErr, IsErr};
ghost use Rattle.flow_io.specs.Faults.{Blames};
ghost use Rattle.flow_io.specs.Windows.{Fills, FillsPast, IsWithin, empty_window};

use crate::behind::read_behind;
use crate::block::Block;
use crate::{ReadAllFault, ReadFailed, Source};
use out_of_memory::Memory;
use std::alloc::Global;
use std::marker::Model;

// The most bytes that one read past a window asks for.
const PIECE: usize = 65_536;

/// What filling a window resulted in.
#[derive(Clone, Copy, PartialEq, Eq)]
pub enum Filled {
    /// As many bytes are held as were wanted, or more.
    Enough,
    /// Fewer are held, and the source has no more.
    Ended,
    /// Fewer are held: they end at the limit, and the source has more.
    Limited,
}

/// How the input of a window ends, once that was seen.
#[derive(Clone, Copy, PartialEq, Eq)]
pub enum InputEnd {
    /// The source has no more bytes.
    Source,
    /// It has more than the limit.
    Limit,
}

/// A part of a source's bytes, held in one block of memory: the first of them can be given up, and more can be read.
///
/// At most `room` bytes are held, and those given up and those held are never more than `limit` together.
#[derive(Drop)]
pub struct Window {
    block: Block,
    place: u64,
    limit: u64,
    over: Option<InputEnd>,
}

impl Model for Window {
    ghost use Rattle.std.specs.Prelude.{length, vec_len};
    ghost use Rattle.flow_io.specs.Windows.{WindowState, IsWithin};
    ghost use Rattle.flow_io.specs.Private.{items};

    ghost Value = { WindowState };

    ghost view = { λ w. record {
      held = items w.block;
      place = w.place;
      room = vec_len w.block.bytes;
      limit = w.limit;
      over = w.over;
    } };

    ghost invariant = { λ w. IsWithin w.place (length (items w.block)) w.limit w.over };
}

impl Window {
    /// Makes a window that holds nothing, at place 0. All its memory is allocated here.
    pub fn new(alloc: Global, room: usize, limit: u64) -> Result<Window, Memory>
        requires some { 1 ≤ room }
        requires few { room ≤ 2 ^ 20 }
        ensures { IfOk result (λ window. window ≡ empty_window room limit) }
    {
        let block = Block::new(alloc, room)?;
        Ok(Window {
            block,
            place: 0,
            limit,
            over: None,
        })
    }

    /// Returns the bytes that are held.
    pub fn held(&self) -> &[u8]
        ensures held { result.now ≡ self.now.held }
        ensures few { length result.now ≤ self.now.room }
        ensures within { IsWithin self.now.place (length self.now.held) self.now.limit self.now.over }
    {
        self.block.held()
    }

    /// Returns how many bytes were given up before those that are held.
    pub fn place(&self) -> u64
        ensures { result ≡ self.now.place }
    {
        self.place
    }

    /// Gives up the first `count` of the held bytes.
    pub fn advance(&mut self, count: usize)
        requires { count ≤ length self.old.held }
        ensures { self.new ≡ record self.old { held = drop count self.old.held; place = self.old.place + count } }
    {
        self.block.give_up(count);
        self.place += count as u64;
    }

    // Looks for one more byte of the source. If there is one, it is taken and discarded.
    fn look_past<S: Source>(&mut self, source: &mut S) -> Result<(), ReadFailed>
        requires open { self.old.over ≡ None }
        requires whole { self.old.place + length self.old.held ≡ self.old.limit }
        ensures fills { Fills self.old self.new (S.rest source.old) (S.rest source.new) }
        ensures seen { OnOk result (self.new.over ≢ None) }
        ensures still { self.new.held ≡ self.old.held }
        ensures failed { OnErr result (self.new ≡ self.old) }
        ensures ended { self.new.over ≡ Some InputEnd.Source → IfSome (S.rest source.new) (λ left. left ≡ []) }
        ensures cause { Blames (IsErr result) (S.faults source.old) (S.faults source.new) }
    {
        let mut byte = [0u8; 1];
        let count = source.read(&mut byte)?;
        self.over = if count == 0 {
            Some(InputEnd::Source)
        } else {
            Some(InputEnd::Limit)
        };
        Ok(())
    }

    // Reads once: appends some bytes to those that are held, or sees how the input ends.
    fn read_more<S: Source>(&mut self, source: &mut S) -> Result<(), ReadFailed>
        requires open { self.old.over ≡ None }
        requires room { length self.old.held < self.old.room }
        ensures fills { Fills self.old self.new (S.rest source.old) (S.rest source.new) }
        ensures further { OnOk result ((self.new.over ≢ None) ⊎ (length self.old.held < length self.new.held)) }
        ensures failed { OnErr result (self.new ≡ self.old) }
        ensures still { self.new.over ≢ None → self.new.held ≡ self.old.held }
        ensures ended { self.new.over ≡ Some InputEnd.Source → IfSome (S.rest source.new) (λ left. left ≡ []) }
        ensures cause { Blames (IsErr result) (S.faults source.old) (S.faults source.new) }
    {
        let left = self.limit - self.place - self.block.len() as u64;
        if left == 0 {
            return self.look_past(source);
        }
        let room = self.block.room() - self.block.len();
        let most = (room as u64).min(left) as usize;
        let count = self.block.read(source, most)?;
        if count == 0 {
            self.over = Some(InputEnd::Source);
        }
        Ok(())
    }

    /// Reads until at least `want` bytes are held or the input ends. Returns `Enough` exactly if so many are held then;
    /// `Limited` if fewer are held, they end at the limit and the source has more, of which one byte is taken and
    /// discarded; and `Ended` in every other case. After `Limited` and `Ended` no further call reads. Each read asks for as
    /// many bytes as there is room for within the limit.
    ///
    /// `ReadFailed` comes only if the source's count of faults rose. The bytes that were taken before are held, fewer
    /// than `want`.
    pub fn fill<S: Source>(&mut self, source: &mut S, want: usize) -> Result<Filled, ReadFailed>
        requires room { want ≤ self.old.room }
        requires same { self.old.over ≡ Some InputEnd.Source → IfSome (S.rest source.old) (λ left. left ≡ []) }
        ensures fills { Fills self.old self.new (S.rest source.old) (S.rest source.new) }
        ensures enough { IfOk result (λ filled. (filled ≡ Filled.Enough) ↔ (want ≤ length self.new.held)) }
        ensures limited { IfOk result (λ filled. (filled ≡ Filled.Limited)
            ↔ ((length self.new.held < want) × (self.new.over ≡ Some InputEnd.Limit))) }
        ensures ended { IfOk result (λ filled. (filled ≡ Filled.Ended)
            ↔ ((length self.new.held < want) × (self.new.over ≡ Some InputEnd.Source))) }
        ensures open { IfOk result (λ filled. filled ≡ Filled.Enough → self.new.over ≡ self.old.over) }
        ensures all { self.new.over ≡ Some InputEnd.Source → IfSome (S.rest source.new) (λ left. left ≡ []) }
        ensures within { IsWithin self.new.place (length self.new.held) self.new.limit self.new.over }
        ensures failed { OnErr result ((self.new.over ≡ None) × (length self.new.held < want)) }
        ensures over { self.old.over ≢ None → (self.new ≡ self.old) × (source.new ≡ source.old) }
        ensures cause { Blames (IsErr result) (S.faults source.old) (S.faults source.new) }
    {
        while self.block.len() < want {
            match self.over {
                Some(InputEnd::Source) => return Ok(Filled::Ended),
                Some(InputEnd::Limit) => return Ok(Filled::Limited),
                None => self.read_more(source)?,
            }
        }
        Ok(Filled::Enough)
    }

    /// Reads once, past a window that holds nothing, straight into a vector: some bytes, at most `count` and 65,536 and no
    /// more than the limit leaves, are appended to `into`, the window's place moves past them, and their number is
    /// returned. It is 0 exactly if the input ends there, which the window remembers, as after [`fill`](Window::fill):
    /// at the limit one byte more is looked for, taken and discarded.
    ///
    /// `Read` comes only if the source's count of faults rose, and `Memory` only if there is none for the bytes. Then
    /// nothing changed.
    pub fn read_past<S: Source>(
        &mut self,
        source: &mut S,
        into: &mut Vec<u8>,
        count: usize,
    ) -> Result<usize, ReadAllFault>
        requires none { self.old.held ≡ [] }
        requires open { self.old.over ≡ None }
        requires some { 0 < count }
        ensures fills { FillsPast self.old self.new into.old.items into.new.items (S.rest source.old) (S.rest source.new) }
        ensures read { IfOk result (λ read. (read ≤ count) × (length into.new.items ≡ length into.old.items + read)) }
        ensures further { IfOk result (λ read. (self.new.over ≢ None) ↔ (read ≡ 0)) }
        ensures all { self.new.over ≡ Some InputEnd.Source → IfSome (S.rest source.new) (λ left. left ≡ []) }
        ensures within { IsWithin self.new.place (length self.new.held) self.new.limit self.new.over }
        ensures failed { OnErr result ((self.new ≡ self.old) × (into.new.items ≡ into.old.items) × (S.rest source.new ≡ S.rest source.old)) }
        ensures cause { Blames (result ≡ Err ReadAllFault.Read) (S.faults source.old) (S.faults source.new) }
    {
        let left = self.limit - self.place;
        if left == 0 {
            return match self.look_past(source) {
                Ok(()) => Ok(0),
                Err(_) => Err(ReadAllFault::Read),
            };
        }
        let most = (count.min(PIECE) as u64).min(left) as usize;
        match read_behind(source, into, most) {
            Ok(read) => {
                if read == 0 {
                    self.over = Some(InputEnd::Source);
                }
                self.place += read as u64;
                Ok(read)
            }
            Err(fault) => Err(fault),
        }
    }
}
