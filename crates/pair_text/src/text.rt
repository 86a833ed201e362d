//! A text that is appended to a list, or taken back.
ghost use Rattle.std.specs.Prelude.{◌≡◌, ◌≤◌, ◌++◌, [], take, OnOk, vec_capacity};
ghost use Rattle.pair_text.specs.Texts.{◌then◌, asset_name};

use crate::names::name_len;
use itoa::{Buffer, Integer};
use std::marker::Model;
use std::mem;
use ticker_table::TickerTable;
use wire_records::Memory;

/// A text appended to a list. It holds the list meanwhile, with the length and the capacity that the list had before,
/// and gives it back with or without the text.
///
/// After a call returned `Memory`, a prefix of what it was to append follows the text; [`Text::taken_back`] removes it
/// with the rest.
#[derive(Drop)]
pub struct Text {
    bytes: Vec<u8>,
    start: usize,
    room: usize,
}

impl Model for Text {
    ghost use Rattle.std.specs.Prelude.{◌≤◌, take, drop, vec_len, vec_capacity};
    ghost use Rattle.pair_text.specs.Appended.{Appended};

    ghost Value = { Appended };

    ghost view = { λ t. record {
      before = record { items = take t.start t.bytes.items; room = t.room };
      text = drop t.start t.bytes.items;
    } };

    ghost invariant = { λ t. (t.start ≤ vec_len t.bytes) × (t.room ≤ vec_capacity t.bytes) };
}

impl Text {
    /// Takes a list, to append to it, and leaves an empty one in its place. Takes no memory.
    pub fn following(out: &mut Vec<u8>) -> Text
        ensures items { result.before.items ≡ out.old.items }
        ensures room { result.before.room ≡ vec_capacity out.old }
        ensures empty { result.text ≡ [] }
    {
        let alloc = *out.allocator();
        let bytes = mem::replace(out, Vec::new(alloc));
        let start = bytes.len();
        let room = bytes.capacity();
        Text { bytes, start, room }
    }

    /// Appends bytes.
    pub fn put(&mut self, bytes: &[u8]) -> Result<(), Memory>
        ensures before { self.new.before ≡ self.old.before }
        ensures put { OnOk result (self.new.text ≡ self.old.text ++ bytes.now) }
    {
        self.bytes.extend_from_slice(bytes)?;
        Ok(())
    }

    /// Appends a word and a number, in plain decimal.
    pub fn put_number<I: Integer>(&mut self, word: &[u8], number: I) -> Result<(), Memory>
        ensures before { self.new.before ≡ self.old.before }
        ensures put { OnOk result (self.new.text ≡ self.old.text ++ (word.now then I.text number)) }
    {
        let mut buffer = Buffer::new();
        self.put(word)?;
        self.put(buffer.format(number).as_bytes())
    }

    /// Appends a word and the name of an asset's ticker: nothing after the word if there is no such asset.
    pub fn put_name(&mut self, word: &[u8], tickers: &TickerTable, asset: u16) -> Result<(), Memory>
        ensures before { self.new.before ≡ self.old.before }
        ensures put { OnOk result (self.new.text ≡ self.old.text ++ (word.now then asset_name tickers.now asset)) }
    {
        self.put(word)?;
        match tickers.ticker(asset) {
            Some(ticker) => self.put(&ticker[..name_len(&ticker)]),
            None => Ok(()),
        }
    }

    /// Returns the list with the text after what was in it before. Takes no memory.
    pub fn whole(self) -> Vec<u8>
        ensures items { result.items ≡ self.before.items ++ self.text }
        ensures room { self.before.room ≤ vec_capacity result }
    {
        self.bytes
    }

    /// Returns the list as it was, without the text. Takes no memory.
    pub fn taken_back(self) -> Vec<u8>
        ensures items { result.items ≡ self.before.items }
        ensures room { self.before.room ≤ vec_capacity result }
    {
        let mut bytes = self.bytes;
        bytes.truncate(self.start);
        bytes
    }
}
