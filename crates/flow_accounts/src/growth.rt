ghost use Rattle.std.specs.Prelude.{◌≡◌, ◌+◌, ◌<◌, ◌↔◌, IsTrue, IfOk, IfErr, OnOk, OnErr};

use crate::{AccountFault, Accounts, MOST_ACCOUNTS};

impl Accounts {
    ghost use Rattle.flow_accounts.specs.Balances.{account_count, asset_count, add_asset, open_account};
    ghost use Rattle.flow_accounts.specs.Lawful.{AreLawful, most_accounts, most_assets};
    ghost use Rattle.flow_accounts.specs.Answers.{RefusesAccount};

    /// Adds an asset, of which all balances, all credits and the total are 0. Its number is the count of assets
    /// before. It allocates nothing: there is room for the places of each account already.
    ///
    /// The assets 0, 4, 8, 16 and 32 give each account more places, and take time for each account and place; the
    /// others take the same time however many accounts there are.
    pub fn add_asset(&mut self)
        requires { asset_count self.old < most_assets }
        ensures added { self.new ≡ add_asset self.old }
        ensures lawful { AreLawful self.new }
    {
        self.holdings.add_asset();
        self.credits.add_asset();
    }

    /// Opens an account that holds nothing and has no credit, and returns its number, which is the new count of
    /// accounts.
    ///
    /// `Full` comes exactly if there are 65,536 accounts; else `Memory` if memory runs out for one
    /// more. No other fault comes, and after a fault nothing has changed. There is then room for its units and its credits in
    /// each asset that there may be.
    pub fn add_account(&mut self) -> Result<u32, AccountFault>
        ensures number { IfOk result (λ number. number ≡ account_count self.old + 1) }
        ensures not_full { OnOk result (account_count self.old < most_accounts) }
        ensures refused { IfErr result (RefusesAccount self.old) }
        ensures ok { OnOk result (self.new ≡ open_account self.old) }
        ensures err { OnErr result (self.new ≡ self.old) }
        ensures lawful { AreLawful self.new }
    {
        let count = self.count();
        if self.is_full() {
            return Err(AccountFault::Full);
        }
        self.holdings.reserve(1)?;
        self.credits.add()?;
        self.holdings.push(0);
        Ok(count + 1)
    }

    /// Returns whether there are 65,536 accounts, so that no more are opened.
    pub fn is_full(&self) -> bool
        ensures full { IsTrue result ↔ (account_count self.now ≡ most_accounts) }
        ensures lawful { AreLawful self.now }
    {
        self.count() == MOST_ACCOUNTS
    }
}
