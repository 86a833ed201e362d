ghost use Rattle.std.specs.Prelude.{◌≡◌, ◌<◌, ◌^◌, ◌↔◌, IsOk, IfOk, OnOk, OnErr, IfErr, pos, neg_ℤ, ◌≤ℤ◌, Some, None};

use crate::places::grains_of;
use crate::{AccountFault, Accounts};

// The change of a balance from which so many units are taken.
fn less(units: u64) -> i64
    requires { units < 2 ^ 62 }
    ensures { result ≡ neg_ℤ (pos units) }
{
    -(units as i64)
}

impl Accounts {
    ghost use Rattle.flow_accounts.specs.Balances.{grains, IsAccount, IsAsset, money_of, units_of, money_with_credit, units_with_credit, change_balance};
    ghost use Rattle.flow_accounts.specs.Lawful.{AreLawful};
    ghost use Rattle.flow_accounts.specs.Answers.{AcceptsWithdrawal, RefusesWithdrawal};
    ghost use Rattle.flow_accounts.specs.Fits.{MoneyFits, UnitsFit};

    /// Withdraws ticks: the account's money and the total of money fall by them. `reserved` is what
    /// the account's orders may still need of its money, in grains: from 0 to the balance and the credit.
    ///
    /// The first of these that holds refuses it, and then nothing changes: `NoAccount` if the
    /// account isn't there; `Zero` for 0 ticks; `NotFree` if the ticks are above the grains
    /// that are free, the balance less `reserved`, which `NotFree` carries. The caller has to ensure that a
    /// withdrawal that isn't refused leaves the total above -2^124 grains, as for
    /// [`Accounts::deposit_money`].
    #[inline(always)]
    pub fn withdraw_money(
        &mut self,
        account: u32,
        ticks: u64,
        reserved: i128,
    ) -> Result<(), AccountFault>
        requires not_negative { pos 0 ≤ℤ reserved }
        requires covered { IsAccount self.old account → reserved ≤ℤ money_with_credit self.old account }
        requires fits { AcceptsWithdrawal self.old account None ticks reserved →
            MoneyFits self.old account (neg_ℤ (grains ticks)) }
        ensures accepted { IsOk result ↔ AcceptsWithdrawal self.old account None ticks reserved }
        ensures refused { IfErr result (RefusesWithdrawal self.old account None ticks reserved) }
        ensures ok { OnOk result (self.new ≡ change_balance self.old account None (neg_ℤ (grains ticks))) }
        ensures err { OnErr result (self.new ≡ self.old) }
        ensures lawful { AreLawful self.new }
    {
        let amount = self.money_withdrawal(account, ticks, reserved)?;
        self.change_money(account, amount);
        Ok(())
    }

    /// Withdraws units of an asset: the account's units and the asset's total fall by them.
    /// `reserved` is what the account's orders may still need of the asset, in units: from 0 to the
    /// balance and the credit.
    ///
    /// The first of these that holds refuses it, and then nothing changes: `NoAccount` and
    /// `NoAsset` if the account or the asset isn't there; `Zero` for 0 units; `NotFree` if
    /// they are above the units that are free, the balance less `reserved`, which `NotFree` carries. The
    /// caller has to ensure that a withdrawal that isn't refused leaves the asset's total above -2^62
    /// units.
    #[inline(always)]
    pub fn withdraw_units(
        &mut self,
        account: u32,
        asset: u16,
        units: u64,
        reserved: i128,
    ) -> Result<(), AccountFault>
        requires not_negative { pos 0 ≤ℤ reserved }
        requires covered { IsAccount self.old account → IsAsset self.old asset →
            reserved ≤ℤ units_with_credit self.old account asset }
        requires fits { AcceptsWithdrawal self.old account (Some asset) units reserved →
            UnitsFit self.old account asset (neg_ℤ (pos units)) }
        ensures accepted { IsOk result ↔ AcceptsWithdrawal self.old account (Some asset) units reserved }
        ensures refused { IfErr result (RefusesWithdrawal self.old account (Some asset) units reserved) }
        ensures ok { OnOk result (self.new ≡ change_balance self.old account (Some asset) (neg_ℤ (pos units))) }
        ensures err { OnErr result (self.new ≡ self.old) }
        ensures lawful { AreLawful self.new }
    {
        let amount = self.unit_withdrawal(account, asset, units, reserved)?;
        self.change_units(account, asset, amount);
        Ok(())
    }

    /// Returns the grains that [`Accounts::withdraw_money`] would add, which are negative, or the fault that it would
    /// return. `reserved` is in grains: from 0 to the balance and the credit. Nothing changes.
    pub fn money_withdrawal(
        &self,
        account: u32,
        ticks: u64,
        reserved: i128,
    ) -> Result<i128, AccountFault>
        requires not_negative { pos 0 ≤ℤ reserved }
        requires covered { IsAccount self.now account → reserved ≤ℤ money_with_credit self.now account }
        ensures accepted { IsOk result ↔ AcceptsWithdrawal self.now account None ticks reserved }
        ensures refused { IfErr result (RefusesWithdrawal self.now account None ticks reserved) }
        ensures amount { IfOk result (λ amount. amount ≡ neg_ℤ (grains ticks)) }
        ensures lawful { AreLawful self.now }
    {
        if !self.has_account(account) {
            return Err(AccountFault::NoAccount);
        }
        if ticks == 0 {
            return Err(AccountFault::Zero);
        }
        let amount = grains_of(ticks);
        let free = self.money_free(account, reserved);
        if amount > free {
            return Err(AccountFault::NotFree(free));
        }
        Ok(-amount)
    }

    /// Returns the units that [`Accounts::withdraw_units`] would add, which are negative, or the fault that it would
    /// return. `reserved` is in units: from 0 to the balance and the credit. Nothing changes.
    pub fn unit_withdrawal(
        &self,
        account: u32,
        asset: u16,
        units: u64,
        reserved: i128,
    ) -> Result<i64, AccountFault>
        requires not_negative { pos 0 ≤ℤ reserved }
        requires covered { IsAccount self.now account → IsAsset self.now asset →
            reserved ≤ℤ units_with_credit self.now account asset }
        ensures accepted { IsOk result ↔ AcceptsWithdrawal self.now account (Some asset) units reserved }
        ensures refused { IfErr result (RefusesWithdrawal self.now account (Some asset) units reserved) }
        ensures amount { IfOk result (λ amount. amount ≡ neg_ℤ (pos units)) }
        ensures lawful { AreLawful self.now }
    {
        if !self.has_account(account) {
            return Err(AccountFault::NoAccount);
        }
        if !self.has_asset(asset) {
            return Err(AccountFault::NoAsset);
        }
        if units == 0 {
            return Err(AccountFault::Zero);
        }
        let free = self.units_free(account, asset, reserved);
        if i128::from(units) > free {
            return Err(AccountFault::NotFree(free));
        }
        Ok(less(units))
    }
}
