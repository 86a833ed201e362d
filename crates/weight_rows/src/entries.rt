ghost use Rattle.std.specs.Prelude.{◌≡◌};

use std::marker::Model;

/// A leg of an order: an asset, and how many units of it one unit of the portfolio buys.
#[derive(Clone, Copy, PartialEq, Eq, Hash)]
pub struct Entry {
    /// The asset's number, counted from 0.
    pub asset: u16,
    /// Whole units of the asset per unit of the portfolio; a negative weight sells them.
    pub weight: i32,
}

/// Legs in the order in which they were given. They may be a weight vector or not.
#[derive(Drop)]
pub struct EntryList {
    entries: Vec<Entry>,
}

impl Model for EntryList {
    ghost use Rattle.std.specs.Prelude.{List};
    ghost use Rattle.weight_rows.specs.declared.entries.Entry.{Entry};

    ghost Value = { List Entry };

    ghost view = { λ list. list.entries.items };
}

impl EntryList {
    /// Makes a list of the legs of a vector, whose memory it keeps.
    pub fn new(entries: Vec<Entry>) -> EntryList
        ensures { result ≡ entries.items }
    {
        EntryList { entries }
    }

    /// Returns the legs, without copying them.
    pub fn as_slice(&self) -> &[Entry]
        ensures { result.now ≡ self.now }
    {
        self.entries.as_slice()
    }

    /// Gives the vector back; allocates nothing.
    pub fn into_vec(self) -> Vec<Entry>
        ensures { result.items ≡ self }
    {
        let EntryList { entries } = self;
        entries
    }
}
