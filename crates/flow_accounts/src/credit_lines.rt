//! The credits of all accounts.
ghost use Rattle.std.specs.Prelude.{◌≡◌, ◌+◌, ◌-◌, ◌<◌, ◌≤◌, ◌++◌, [], ◌∷◌, length, map, replicate, slice_index_or, slice_set, OnOk, OnErr};
ghost use Rattle.flow_accounts.specs.Lawful.{most_assets, most_accounts};
ghost use Rattle.flow_accounts.specs.Lines.{with_place};
ghost use Rattle.flow_accounts.specs.NoCredit.{no_line};

use crate::lines::Lines;
use std::alloc::{AllocError, Global};
use std::marker::Model;

// The credits of all accounts, in the order of their numbers: a line for each, in whole ticks and in units.
// Few accounts have credit, so only the lines up to the last account that was given some are stored. Each later one is all 0.
// There is room for the lines of all accounts, so that only a new account may run out of memory.
#[derive(Drop)]
pub(crate) struct CreditLines {
    stored: Lines<u64, u64>,
    count: usize,
}

impl Model for CreditLines {
    ghost use Rattle.flow_accounts.specs.CreditLines.{Credits};

    ghost Value = { Credits };

    ghost use Rattle.flow_accounts.specs.StoredLines.{credits_in, AreStored};

    ghost view = { credits_in };

    ghost invariant = { AreStored };
}

// Stores lines without credit until there are this many, or none if there are as many already.
fn store_to(stored: &mut Lines<u64, u64>, lines: usize)
    requires room { lines ≤ stored.old.room }
    requires none { stored.old.none ≡ 0 }
    ensures stored { stored.new ≡ record stored.old {
      lines = stored.old.lines ++ replicate (lines - length stored.old.lines) (no_line stored.old.assets);
      room = stored.new.room;
    } }
    ensures grows { stored.old.room ≤ stored.new.room }
{
    while stored.len() < lines {
        stored.push(0);
    }
}

impl CreditLines {
    // Makes the lines of no account, for so many assets. It allocates nothing.
    pub(crate) fn new(alloc: Global, assets: u16) -> CreditLines
        requires { assets ≤ most_assets }
        ensures assets { result.assets ≡ assets }
        ensures lines { result.lines ≡ [] }
    {
        CreditLines {
            stored: Lines::new(alloc, assets, 0),
            count: 0,
        }
    }

    // Makes room for the lines of so many accounts more.
    pub(crate) fn reserve(&mut self, accounts: usize) -> Result<(), AllocError>
        requires { length self.old.lines + accounts ≤ most_accounts }
        ensures { self.new ≡ self.old }
    {
        self.stored
            .reserve(self.count - self.stored.len() + accounts)
    }

    // Adds the line of one more account, which has no credit.
    pub(crate) fn add(&mut self) -> Result<(), AllocError>
        requires { length self.old.lines < most_accounts }
        ensures added { OnOk result (self.new ≡ record self.old { lines = self.old.lines ++ no_line self.old.assets ∷ [] }) }
        ensures stays { OnErr result (self.new ≡ self.old) }
    {
        self.stored.reserve(self.count - self.stored.len() + 1)?;
        self.count += 1;
        Ok(())
    }

    // Adds an asset, in which no account has credit.
    pub(crate) fn add_asset(&mut self)
        requires { self.old.assets < most_assets }
        ensures { self.new ≡ record self.old { assets = self.old.assets + 1; lines = map (with_place 0) self.old.lines } }
    {
        self.stored.add_asset();
    }

    // Returns the credit in money that is at a place, counted from 0.
    pub(crate) fn money(&self, place: usize) -> u64
        requires { place < length self.now.lines }
        ensures { result ≡ (slice_index_or self.now.lines place (no_line self.now.assets)).money }
    {
        if place < self.stored.len() {
            self.stored.money(place)
        } else {
            0
        }
    }

    // Returns the credit in an asset that is at a place, counted from 0.
    pub(crate) fn units(&self, place: usize, asset: u16) -> u64
        requires place { place < length self.now.lines }
        requires asset { asset < self.now.assets }
        ensures { result ≡ slice_index_or (slice_index_or self.now.lines place (no_line self.now.assets)).units asset 0 }
    {
        if place < self.stored.len() {
            self.stored.units(place, asset)
        } else {
            0
        }
    }

    // Sets the credit in money that is at a place, counted from 0. Where nothing is stored, none is set by storing nothing.
    pub(crate) fn set_money(&mut self, place: usize, ticks: u64)
        requires { place < length self.old.lines }
        ensures { self.new ≡ record self.old {
          lines = slice_set self.old.lines place
              (record (slice_index_or self.old.lines place (no_line self.old.assets)) { money = ticks });
        } }
    {
        if ticks == 0 && place >= self.stored.len() {
            return;
        }
        store_to(&mut self.stored, place + 1);
        self.stored.set_money(place, ticks);
    }

    // Sets the credit in an asset that is at a place, counted from 0, as the credit in money.
    pub(crate) fn set_units(&mut self, place: usize, asset: u16, units: u64)
        requires place { place < length self.old.lines }
        requires asset { asset < self.old.assets }
        ensures { self.new ≡ record self.old {
          lines = slice_set self.old.lines place
              (record (slice_index_or self.old.lines place (no_line self.old.assets))
              { units = slice_set (slice_index_or self.old.lines place (no_line self.old.assets)).units asset units });
        } }
    {
        if units == 0 && place >= self.stored.len() {
            return;
        }
        store_to(&mut self.stored, place + 1);
        self.stored.set_units(place, asset, units);
    }
}
