//! The accounts of a market: the money and the units of each asset that every account holds, and
//! the totals of all deposits less all withdrawals.
//!
//! Money is kept in grains, and 2^32 grains are a tick. It is deposited and withdrawn in whole
//! ticks, and moved in grains when a batch is settled. Assets are kept in whole units. Accounts are
//! numbered from 1, assets from 0.
//!
//! An account may get credit, in money and in each asset, for what its orders need: a balance may
//! then fall to minus its credit, and never below. A withdrawal doesn't use credit. A total may be
//! negative: an account may withdraw what it gained in a settlement, though nobody deposited it.
//! Who settles only among the accounts keeps each total equal to the sum of its balances, by
//! the [`laws`].
//!
//! # Limits
//!
//! There are at most 65,536 accounts and 64 assets. No deposit takes the total of money above 2^100
//! grains, or that of an asset above 2^60 units. A balance stays below 2^124 grains or 2^62 units,
//! and a total above -2^124 grains or -2^62 units; the calls state what their callers have to ensure
//! for that.
//!
//! # Costs
//!
//! Every call takes the same time however many accounts and assets there are, with three exceptions. Opening an
//! account sometimes moves all of them to larger blocks. Adding an asset that finds no place goes once over all accounts,
//! five times at most. Setting a credit stores the credits of the accounts up to its own that aren't stored yet, each of
//! them once, so a call takes the same time on average.
//!
//! An account takes 16 bytes for its money, and 8 for each of its places for units. It has no place without assets, 4 with
//! up to 4 assets, then 8, 16, 32 and 64: so it takes 48 bytes with three assets, and 528 with 64. Its credits take 8 bytes,
//! and 8 for each place, in blocks of their own, where nothing is written after the last account that was given credit.
//!
//! The blocks have room for 64 places for each account, so that only another account may run out of memory: 1,048 bytes for
//! each account, of which the bytes above are written. Most systems give next to no memory for what isn't written.
//! A block doubles as it grows, so it has up to twice the bytes of its accounts; 65,536 of them have 65.5 MiB
//! in all. While a block is moved, the smaller one is there too.
//! Only [`Accounts::add_account`] and [`Accounts::restore`] allocate.
//!
//! [`Accounts::restore`] makes accounts with all their balances at once, read through [`AccountParts`].
#![tactic(auto)]

ghost use Rattle.std.specs.Prelude.{◌≡◌, SomeIff};

mod credit;
mod credit_lines;
mod deposits;
mod fault;
mod growth;
pub mod laws;
mod lines;
mod parts;
mod places;
mod restore;
mod settlement;
mod withdrawals;

use credit_lines::CreditLines;
pub use fault::AccountFault;
use lines::Lines;
pub use out_of_memory::Memory;
pub use parts::AccountParts;
pub use places::grains_of;
use std::alloc::Global;
use std::marker::Model;

/// How many accounts there may be.
pub const MOST_ACCOUNTS: u32 = 65_536;

/// How many assets there may be.
pub const MOST_ASSETS: u16 = 64;

/// The length of an array by assets: one place for each asset that there may be.
pub const PLACES: usize = MOST_ASSETS as usize;

/// The greatest credit, in ticks or units.
pub const MOST_CREDIT: u64 = 1 << 40;

/// The limit of the total of money, in grains: no deposit takes it above this.
pub const MONEY_LIMIT: i128 = 1 << 100;

/// The limit of the total of an asset, in units: no deposit takes it above this.
pub const UNIT_LIMIT: i128 = 1 << 60;

/// All accounts with their balances, and the totals of deposits less withdrawals.
///
/// Contracts see one value: a list of accounts, each with its money and a list of its units by
/// asset; a list of their credit lines; the total of money; and the list of the assets' totals.
pub struct Accounts {
    holdings: Lines<i128, i64>,
    credits: CreditLines,
    total_money: i128,
    total_units: [i64; PLACES],
}

impl Drop for Accounts {
    // By hand, so that the end of a value is one call in the proofs of those who own it (docs/PROVING_TRAPS.md).
    fn drop(self) {
        let Accounts {
            holdings: _,
            credits: _,
            total_money: _,
            total_units: _,
        } = self;
    }
}

impl Model for Accounts {
    ghost use Rattle.flow_accounts.specs.Balances.{Balances};

    ghost Value = { Balances };

    ghost use Rattle.flow_accounts.specs.Places.{balances_in, AreKept};

    ghost view = { balances_in };

    ghost invariant = { AreKept };
}

impl Accounts {
    ghost use Rattle.flow_accounts.specs.Balances.{no_balances, account_count, asset_count, IsAccount, IsAsset, money_of, units_of, total_units_of};
    ghost use Rattle.flow_accounts.specs.Lawful.{AreLawful, IsMoneyTotal};

    /// Makes accounts without any account or asset, and with totals of 0. It allocates nothing: `alloc` is for the accounts
    /// that are opened later.
    pub fn new(alloc: Global) -> Accounts
        ensures empty { result ≡ no_balances }
        ensures lawful { AreLawful result }
    {
        Accounts {
            holdings: Lines::new(alloc, 0, 0),
            credits: CreditLines::new(alloc, 0),
            total_money: 0,
            total_units: places::no_units(),
        }
    }

    /// Returns how many accounts there are, at most 65,536. They are numbered from 1 to this.
    pub fn count(&self) -> u32
        ensures count { result ≡ account_count self.now }
        ensures lawful { AreLawful self.now }
    {
        self.holdings.len() as u32
    }

    /// Returns how many assets there are, at most 64. They are numbered from 0.
    pub fn assets(&self) -> u16
        ensures count { result ≡ asset_count self.now }
        ensures lawful { AreLawful self.now }
    {
        self.holdings.assets()
    }

    /// Returns the money of an account in grains, or `None` exactly if the account isn't there.
    pub fn money(&self, account: u32) -> Option<i128>
        ensures { SomeIff result (IsAccount self.now account) (money_of self.now account) }
    {
        if self.has_account(account) {
            Some(self.money_held(account))
        } else {
            None
        }
    }

    /// Returns the units of an asset that an account holds, or `None` exactly if the account or the
    /// asset isn't there.
    pub fn units(&self, account: u32, asset: u16) -> Option<i64>
        ensures { SomeIff result (IsAccount self.now account × IsAsset self.now asset)
            (units_of self.now account asset) }
    {
        if self.has_account(account) && self.has_asset(asset) {
            Some(self.units_held(account, asset))
        } else {
            None
        }
    }

    /// Returns all deposits of money less all withdrawals, in grains. It is at most 2^100, above -2^124,
    /// and may be negative.
    pub fn total_money(&self) -> i128
        ensures total { result ≡ self.now.totals.money }
        ensures within { IsMoneyTotal result }
    {
        self.total_money
    }

    /// Returns all deposits of an asset less all withdrawals, in units, or `None` exactly if the asset
    /// isn't there. It is at most 2^60, above -2^62, and may be negative.
    pub fn total_units(&self, asset: u16) -> Option<i64>
        ensures { SomeIff result (IsAsset self.now asset) (total_units_of self.now asset) }
    {
        if self.has_asset(asset) {
            Some(self.units_total(asset))
        } else {
            None
        }
    }
}
