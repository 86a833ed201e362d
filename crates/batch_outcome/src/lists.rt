//! The lists of an outcome. Each is a vector that contracts see as the list of its numbers.
ghost use Rattle.std.specs.Prelude.{◌≡◌};

use std::marker::Model;

/// One price for each asset, in grains, by the assets' numbers.
#[derive(Drop)]
pub struct PriceList {
    items: Vec<i64>,
}

impl Model for PriceList {
    ghost use Rattle.std.specs.Prelude.{List, ℤ};

    ghost Value = { List ℤ };

    ghost view = { λ list. list.items.items };
}

impl PriceList {
    /// Returns the prices of a vector, whose memory it keeps.
    pub fn new(items: Vec<i64>) -> PriceList
        ensures { result ≡ items.items }
    {
        PriceList { items }
    }

    /// Returns the prices, without copying them.
    pub fn as_slice(&self) -> &[i64]
        ensures { result.now ≡ self.now }
    {
        self.items.as_slice()
    }
}

/// One rate for each live order, in units of its portfolio per batch, by the orders' places.
#[derive(Drop)]
pub struct RateList {
    items: Vec<u32>,
}

impl Model for RateList {
    ghost use Rattle.std.specs.Prelude.{List, ℕ};

    ghost Value = { List ℕ };

    ghost view = { λ list. list.items.items };
}

impl RateList {
    /// Returns the rates of a vector, whose memory it keeps.
    pub fn new(items: Vec<u32>) -> RateList
        ensures { result ≡ items.items }
    {
        RateList { items }
    }

    /// Returns the rates, without copying them.
    pub fn as_slice(&self) -> &[u32]
        ensures { result.now ≡ self.now }
    {
        self.items.as_slice()
    }
}

/// One imbalance for each asset, in units, by the assets' numbers.
#[derive(Drop)]
pub struct ResidualList {
    items: Vec<i64>,
}

impl Model for ResidualList {
    ghost use Rattle.std.specs.Prelude.{List, ℤ};

    ghost Value = { List ℤ };

    ghost view = { λ list. list.items.items };
}

impl ResidualList {
    /// Returns the imbalances of a vector, whose memory it keeps.
    pub fn new(items: Vec<i64>) -> ResidualList
        ensures { result ≡ items.items }
    {
        ResidualList { items }
    }

    /// Returns the imbalances, without copying them.
    pub fn as_slice(&self) -> &[i64]
        ensures { result.now ≡ self.now }
    {
        self.items.as_slice()
    }
}

/// The assets that a search moved, by their numbers, one for each move.
#[derive(Drop)]
pub struct Trace {
    items: Vec<u8>,
}

impl Model for Trace {
    ghost use Rattle.std.specs.Prelude.{List, ℕ};

    ghost Value = { List ℕ };

    ghost view = { λ list. list.items.items };
}

impl Trace {
    /// Returns the moves of a vector, whose memory it keeps.
    pub fn new(items: Vec<u8>) -> Trace
        ensures { result ≡ items.items }
    {
        Trace { items }
    }

    /// Returns the moves, without copying them.
    pub fn as_slice(&self) -> &[u8]
        ensures { result.now ≡ self.now }
    {
        self.items.as_slice()
    }
}
