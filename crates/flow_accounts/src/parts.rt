//! Balances that are stored elsewhere and read number by number.
ghost use Rattle.std.specs.Prelude.{◌≡◌, SomeIff};
ghost use Rattle.flow_accounts.specs.Balances.{Balances, IsAccount, IsAsset, account_count, asset_count, money_of, units_of, money_credit_of, unit_credit_of, total_units_of};
ghost use Rattle.flow_accounts.specs.Parts.{HasOneOfEach};

/// Readers of all balances, credits and totals, wherever they are stored, such as in the bytes of a file. Accounts are
/// numbered from 1, assets from 0; `None` comes exactly if a number isn't there. What is read needn't be within any limit.
///
/// Contracts see one value, as for [`Accounts`](crate::Accounts).
pub trait AccountParts {
    // All balances, credits and totals.
    ghost balances: { Self → Balances };

    /// Returns how many assets there are. Each account has a balance and a credit for each of them.
    fn asset_count(&self) -> u16
        ensures count { result ≡ asset_count (balances self.now) }
        ensures one_each { HasOneOfEach (balances self.now) };

    /// Returns how many accounts there are.
    fn account_count(&self) -> u32
        ensures { result ≡ account_count (balances self.now) };

    /// Returns the money of an account, in grains.
    fn money(&self, account: u32) -> Option<i128>
        ensures { SomeIff result (IsAccount (balances self.now) account)
            (money_of (balances self.now) account) };

    /// Returns the credit of an account in money, in ticks.
    fn money_credit(&self, account: u32) -> Option<u64>
        ensures { SomeIff result (IsAccount (balances self.now) account)
            (money_credit_of (balances self.now) account) };

    /// Returns the units of an asset that an account holds.
    fn units(&self, account: u32, asset: u16) -> Option<i64>
        ensures { SomeIff result
            (IsAccount (balances self.now) account × IsAsset (balances self.now) asset)
            (units_of (balances self.now) account asset) };

    /// Returns the credit of an account in an asset, in units.
    fn unit_credit(&self, account: u32, asset: u16) -> Option<u64>
        ensures { SomeIff result
            (IsAccount (balances self.now) account × IsAsset (balances self.now) asset)
            (unit_credit_of (balances self.now) account asset) };

    /// Returns all deposits of money less all withdrawals, in grains.
    fn total_money(&self) -> i128
        ensures { result ≡ (balances self.now).totals.money };

    /// Returns all deposits of an asset less all withdrawals, in units.
    fn total_units(&self, asset: u16) -> Option<i64>
        ensures { SomeIff result (IsAsset (balances self.now) asset)
            (total_units_of (balances self.now) asset) };
}
