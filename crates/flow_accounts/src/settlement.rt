ghost use Rattle.std.specs.Prelude.{◌≡◌, ◌^◌, pos, ◌+ℤ◌, ◌≤ℤ◌, ◌<ℤ◌, Some, None};

use crate::Accounts;

impl Accounts {
    ghost use Rattle.flow_accounts.specs.Balances.{IsAccount, IsAsset, money_of, units_of, money_with_credit, units_with_credit, move_balance};
    ghost use Rattle.flow_accounts.specs.Lawful.{AreLawful};

    /// Changes the money of an account by so many grains, which may be negative, when a batch is
    /// settled. The balance may not fall below minus the account's credit. The total stays.
    pub fn add_money(&mut self, account: u32, amount: i128)
        requires account { IsAccount self.old account }
        requires within_credit { pos 0 ≤ℤ (money_with_credit self.old account +ℤ amount) }
        requires fits { (money_of self.old account +ℤ amount) <ℤ pos (2 ^ 124) }
        ensures moved { self.new ≡ move_balance self.old account None amount }
        ensures lawful { AreLawful self.new }
    {
        let line = account as usize - 1;
        let held = self.holdings.money(line);
        self.holdings.set_money(line, held + amount);
    }

    /// Changes the units of an asset in an account by the amount, which may be negative, when a
    /// batch is settled. The balance may not fall below minus the account's credit in the asset. The total stays.
    pub fn add_units(&mut self, account: u32, asset: u16, amount: i64)
        requires account { IsAccount self.old account }
        requires asset { IsAsset self.old asset }
        requires within_credit { pos 0 ≤ℤ (units_with_credit self.old account asset +ℤ amount) }
        requires fits { (units_of self.old account asset +ℤ amount) <ℤ pos (2 ^ 62) }
        ensures moved { self.new ≡ move_balance self.old account (Some asset) amount }
        ensures lawful { AreLawful self.new }
    {
        let line = account as usize - 1;
        let held = self.holdings.units(line, asset);
        self.holdings.set_units(line, asset, held + amount);
    }
}
