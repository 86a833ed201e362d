ghost use Rattle.std.specs.Prelude.{◌≡◌, ◌≤◌, ◌↔◌, IsOk, OnOk, OnErr, IfErr, SomeIff, pos, ◌≤ℤ◌, ◌+ℤ◌, Some, None};

use crate::places::grains_of;
use crate::{AccountFault, Accounts, MOST_CREDIT};

impl Accounts {
    ghost use Rattle.flow_accounts.specs.Balances.{IsAccount, IsAsset, money_credit_of, unit_credit_of, money_with_credit, units_with_credit, set_credit};
    ghost use Rattle.flow_accounts.specs.Lawful.{AreLawful, most_credit};
    ghost use Rattle.flow_accounts.specs.Answers.{AcceptsCredit, RefusesCredit};

    /// Returns an account's credit in money, in ticks, or `None` exactly if the account isn't there.
    pub fn money_credit(&self, account: u32) -> Option<u64>
        ensures { SomeIff result (IsAccount self.now account) (money_credit_of self.now account) }
    {
        if self.has_account(account) {
            Some(self.money_credit_held(account))
        } else {
            None
        }
    }

    /// Returns an account's credit in an asset, in units, or `None` exactly if the account or the asset isn't there.
    pub fn unit_credit(&self, account: u32, asset: u16) -> Option<u64>
        ensures { SomeIff result (IsAccount self.now account × IsAsset self.now asset)
            (unit_credit_of self.now account asset) }
    {
        if self.has_account(account) && self.has_asset(asset) {
            Some(self.unit_credit_held(account, asset))
        } else {
            None
        }
    }

    fn money_credit_held(&self, account: u32) -> u64
        requires { IsAccount self.now account }
        ensures { result ≡ money_credit_of self.now account }
    {
        self.credits.money(account as usize - 1)
    }

    fn unit_credit_held(&self, account: u32, asset: u16) -> u64
        requires account { IsAccount self.now account }
        requires asset { IsAsset self.now asset }
        ensures { result ≡ unit_credit_of self.now account asset }
    {
        self.credits.units(account as usize - 1, asset)
    }

    /// Gives an account this credit in money, in place of the one that it had. `reserved` is what the account's orders
    /// may still need of its money, in grains: from 0 to the balance and the credit that it had.
    ///
    /// The first of these that holds refuses it, and then nothing changes: `NoAccount` if the account isn't there;
    /// `CreditLimit` for more than 2^40 ticks; `InUse` if the credit is below what is reserved less the balance, which
    /// `InUse` carries, in grains.
    ///
    /// The cost is constant on average: the credits of the accounts before this one are stored first, if they aren't yet. A credit
    /// of 0 where none is stored stores nothing.
    pub fn set_money_credit(
        &mut self,
        account: u32,
        ticks: u64,
        reserved: i128,
    ) -> Result<(), AccountFault>
        requires not_negative { pos 0 ≤ℤ reserved }
        requires covered { IsAccount self.old account → reserved ≤ℤ money_with_credit self.old account }
        ensures accepted { IsOk result ↔ AcceptsCredit self.old account None ticks reserved }
        ensures refused { IfErr result (RefusesCredit self.old account None ticks reserved) }
        ensures ok { OnOk result (self.new ≡ set_credit self.old account None ticks) }
        ensures err { OnErr result (self.new ≡ self.old) }
        ensures lawful { AreLawful self.new }
    {
        self.money_credit_fault(account, ticks, reserved)?;
        self.write_money_credit(account, ticks, reserved);
        Ok(())
    }

    /// Gives an account this credit in an asset, in place of the one that it had. `reserved` is what the account's
    /// orders may still need of the asset, in units: from 0 to the balance and the credit that it had.
    ///
    /// The first of these that holds refuses it, and then nothing changes: `NoAccount` and `NoAsset` if the account
    /// or the asset isn't there; `CreditLimit` for more than 2^40 units; `InUse` if the credit is below what is
    /// reserved less the balance, which `InUse` carries, in units.
    ///
    /// The cost is constant on average: the credits of the accounts before this one are stored first, if they aren't yet. A credit
    /// of 0 where none is stored stores nothing.
    pub fn set_unit_credit(
        &mut self,
        account: u32,
        asset: u16,
        units: u64,
        reserved: i128,
    ) -> Result<(), AccountFault>
        requires not_negative { pos 0 ≤ℤ reserved }
        requires covered { IsAccount self.old account → IsAsset self.old asset →
            reserved ≤ℤ units_with_credit self.old account asset }
        ensures accepted { IsOk result ↔ AcceptsCredit self.old account (Some asset) units reserved }
        ensures refused { IfErr result (RefusesCredit self.old account (Some asset) units reserved) }
        ensures ok { OnOk result (self.new ≡ set_credit self.old account (Some asset) units) }
        ensures err { OnErr result (self.new ≡ self.old) }
        ensures lawful { AreLawful self.new }
    {
        self.unit_credit_fault(account, asset, units, reserved)?;
        self.write_unit_credit(account, asset, units, reserved);
        Ok(())
    }

    /// Returns the fault that [`Accounts::set_money_credit`] would return, if any, with the same `reserved`. Nothing changes.
    pub fn money_credit_fault(
        &self,
        account: u32,
        ticks: u64,
        reserved: i128,
    ) -> Result<(), AccountFault>
        requires not_negative { pos 0 ≤ℤ reserved }
        requires covered { IsAccount self.now account → reserved ≤ℤ money_with_credit self.now account }
        ensures accepted { IsOk result ↔ AcceptsCredit self.now account None ticks reserved }
        ensures refused { IfErr result (RefusesCredit self.now account None ticks reserved) }
        ensures lawful { AreLawful self.now }
    {
        if !self.has_account(account) {
            return Err(AccountFault::NoAccount);
        }
        if ticks > MOST_CREDIT {
            return Err(AccountFault::CreditLimit);
        }
        let used = self.money_owed(account, reserved);
        if grains_of(ticks) < used {
            return Err(AccountFault::InUse(used));
        }
        Ok(())
    }

    /// Returns the fault that [`Accounts::set_unit_credit`] would return, if any, with the same `reserved`. Nothing changes.
    pub fn unit_credit_fault(
        &self,
        account: u32,
        asset: u16,
        units: u64,
        reserved: i128,
    ) -> Result<(), AccountFault>
        requires not_negative { pos 0 ≤ℤ reserved }
        requires covered { IsAccount self.now account → IsAsset self.now asset →
            reserved ≤ℤ units_with_credit self.now account asset }
        ensures accepted { IsOk result ↔ AcceptsCredit self.now account (Some asset) units reserved }
        ensures refused { IfErr result (RefusesCredit self.now account (Some asset) units reserved) }
        ensures lawful { AreLawful self.now }
    {
        if !self.has_account(account) {
            return Err(AccountFault::NoAccount);
        }
        if !self.has_asset(asset) {
            return Err(AccountFault::NoAsset);
        }
        if units > MOST_CREDIT {
            return Err(AccountFault::CreditLimit);
        }
        let used = self.units_owed(account, asset, reserved);
        if i128::from(units) < used {
            return Err(AccountFault::InUse(used));
        }
        Ok(())
    }

    fn write_money_credit(&mut self, account: u32, ticks: u64, reserved: i128)
        requires not_negative { pos 0 ≤ℤ reserved }
        requires accepted { AcceptsCredit self.old account None ticks reserved }
        ensures given { self.new ≡ set_credit self.old account None ticks }
        ensures lawful { AreLawful self.new }
    {
        // Taken for its contract: the balance and the new credit cover what is reserved.
        let _reserved = reserved;
        self.credits.set_money(account as usize - 1, ticks);
    }

    fn write_unit_credit(&mut self, account: u32, asset: u16, units: u64, reserved: i128)
        requires not_negative { pos 0 ≤ℤ reserved }
        requires accepted { AcceptsCredit self.old account (Some asset) units reserved }
        ensures given { self.new ≡ set_credit self.old account (Some asset) units }
        ensures lawful { AreLawful self.new }
    {
        // Taken for its contract: the balance and the new credit cover what is reserved.
        let _reserved = reserved;
        self.credits.set_units(account as usize - 1, asset, units);
    }
}
