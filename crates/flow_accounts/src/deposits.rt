ghost use Rattle.std.specs.Prelude.{◌≡◌, ◌↔◌, IsOk, IfOk, OnOk, OnErr, IfErr, pos, Some, None};

use crate::places::grains_of;
use crate::{AccountFault, Accounts, MONEY_LIMIT, UNIT_LIMIT};

impl Accounts {
    ghost use Rattle.flow_accounts.specs.Balances.{grains, change_balance};
    ghost use Rattle.flow_accounts.specs.Lawful.{AreLawful};
    ghost use Rattle.flow_accounts.specs.Answers.{AcceptsDeposit, RefusesDeposit};
    ghost use Rattle.flow_accounts.specs.Fits.{MoneyFits, UnitsFit};

    /// Deposits ticks: the account's money and the total of money rise by them.
    ///
    /// The first of these that holds refuses it, and then nothing changes: `NoAccount` if the
    /// account isn't there; `Zero` for 0 ticks; `TotalLimit` if the total would pass 2^100
    /// grains. The caller has to ensure that a deposit that isn't refused leaves the balance below
    /// 2^124 grains. If the total is the sum of all balances, it does:
    /// [`laws::changes_fit_at_sums`](crate::laws::changes_fit_at_sums).
    #[inline(always)]
    pub fn deposit_money(&mut self, account: u32, ticks: u64) -> Result<(), AccountFault>
        requires fits { AcceptsDeposit self.old account None ticks →
            MoneyFits self.old account (grains ticks) }
        ensures accepted { IsOk result ↔ AcceptsDeposit self.old account None ticks }
        ensures refused { IfErr result (RefusesDeposit self.old account None ticks) }
        ensures ok { OnOk result (self.new ≡ change_balance self.old account None (grains ticks)) }
        ensures err { OnErr result (self.new ≡ self.old) }
        ensures lawful { AreLawful self.new }
    {
        let amount = self.money_deposit(account, ticks)?;
        self.change_money(account, amount);
        Ok(())
    }

    /// Deposits units of an asset: the account's units and the asset's total rise by them.
    ///
    /// The first of these that holds refuses it, and then nothing changes: `NoAccount` and
    /// `NoAsset` if the account or the asset isn't there; `Zero` for 0 units; `TotalLimit`
    /// if the asset's total would pass 2^60 units. The caller has to ensure that a deposit that
    /// isn't refused leaves the balance below 2^62 units, as for [`Accounts::deposit_money`].
    #[inline(always)]
    pub fn deposit_units(
        &mut self,
        account: u32,
        asset: u16,
        units: u64,
    ) -> Result<(), AccountFault>
        requires fits { AcceptsDeposit self.old account (Some asset) units →
            UnitsFit self.old account asset (pos units) }
        ensures accepted { IsOk result ↔ AcceptsDeposit self.old account (Some asset) units }
        ensures refused { IfErr result (RefusesDeposit self.old account (Some asset) units) }
        ensures ok { OnOk result (self.new ≡ change_balance self.old account (Some asset) (pos units)) }
        ensures err { OnErr result (self.new ≡ self.old) }
        ensures lawful { AreLawful self.new }
    {
        let amount = self.unit_deposit(account, asset, units)?;
        self.change_units(account, asset, amount);
        Ok(())
    }

    /// Returns the grains that [`Accounts::deposit_money`] would add, or the fault that it would return. Nothing changes.
    pub fn money_deposit(&self, account: u32, ticks: u64) -> Result<i128, AccountFault>
        ensures accepted { IsOk result ↔ AcceptsDeposit self.now account None ticks }
        ensures refused { IfErr result (RefusesDeposit self.now account None ticks) }
        ensures amount { IfOk result (λ amount. amount ≡ grains ticks) }
        ensures lawful { AreLawful self.now }
    {
        if !self.has_account(account) {
            return Err(AccountFault::NoAccount);
        }
        if ticks == 0 {
            return Err(AccountFault::Zero);
        }
        let amount = grains_of(ticks);
        if self.total_money() + amount > MONEY_LIMIT {
            return Err(AccountFault::TotalLimit);
        }
        Ok(amount)
    }

    /// Returns the units that [`Accounts::deposit_units`] would add, or the fault that it would return. Nothing changes.
    pub fn unit_deposit(&self, account: u32, asset: u16, units: u64) -> Result<i64, AccountFault>
        ensures accepted { IsOk result ↔ AcceptsDeposit self.now account (Some asset) units }
        ensures refused { IfErr result (RefusesDeposit self.now account (Some asset) units) }
        ensures amount { IfOk result (λ amount. amount ≡ pos units) }
        ensures lawful { AreLawful self.now }
    {
        if !self.has_account(account) {
            return Err(AccountFault::NoAccount);
        }
        if !self.has_asset(asset) {
            return Err(AccountFault::NoAsset);
        }
        if units == 0 {
            return Err(AccountFault::Zero);
        }
        if i128::from(self.units_total(asset)) + i128::from(units) > UNIT_LIMIT {
            return Err(AccountFault::TotalLimit);
        }
        Ok(units as i64)
    }
}
