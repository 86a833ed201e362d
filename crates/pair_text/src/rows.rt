//! The last batches and the legs of orders.
ghost use Rattle.std.specs.Prelude.{◌≡◌, ◌<◌, ◌++◌, length, slice_index_or, OnOk};
ghost use Rattle.std.specs.List.{flat_map};
ghost use Rattle.pair_text.specs.Texts.{entry_text, last_text};
ghost use Rattle.pair_text.specs.Private.{no_entry};

use crate::text::Text;
use ticker_table::TickerTable;
use weight_rows::Entry;
use wire_records::{Memory, RowView};

// Returns the leg at a place that has one.
fn entry_at(row: &RowView<'_>, place: usize) -> Entry
    requires { place < length row.now }
    ensures { result ≡ slice_index_or row.now place no_entry }
{
    row.entry(place).unwrap()
}

impl Text {
    /// Appends the last batch of an order, if it has one: ` last ` and its number.
    pub fn put_last(&mut self, last: Option<u32>) -> Result<(), Memory>
        ensures before { self.new.before ≡ self.old.before }
        ensures put { OnOk result (self.new.text ≡ self.old.text ++ last_text last) }
    {
        match last {
            Some(last) => self.put_number(b" last ", last),
            None => Ok(()),
        }
    }

    /// Appends the legs of an order, each with a space before it: the name of its asset, `:`, and its weight.
    pub fn put_entries(&mut self, tickers: &TickerTable, row: &RowView<'_>) -> Result<(), Memory>
        ensures before { self.new.before ≡ self.old.before }
        ensures put { OnOk result (self.new.text ≡ self.old.text ++ flat_map (entry_text tickers.now) row.now) }
    {
        for place in 0..row.len() {
            self.put_entry(tickers, entry_at(row, place))?;
        }
        Ok(())
    }

    // Appends a leg of an order.
    fn put_entry(&mut self, tickers: &TickerTable, entry: Entry) -> Result<(), Memory>
        ensures before { self.new.before ≡ self.old.before }
        ensures put { OnOk result (self.new.text ≡ self.old.text ++ entry_text tickers.now entry) }
    {
        self.put_name(b" ", tickers, entry.asset)?;
        self.put_number(b":", entry.weight)
    }
}
