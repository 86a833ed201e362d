//! What calls on accounts require: that sums fit, and that a balance covers what is reserved.
ghost use Rattle.std.specs.Prelude.{IsTrue, Some, pos, ◌+ℤ◌, ◌≤ℤ◌, ◌<ℤ◌};
ghost use Rattle.flow_accounts.specs.Balances.{IsAccount, IsAsset, money_with_credit, units_with_credit};
ghost use Rattle.flow_accounts.specs.Answers.{AcceptsDeposit};
ghost use Rattle.flow_accounts.specs.Fits.{MoneyFits, UnitsFit};

use flow_accounts::Accounts;

// One tick in grains.
pub(crate) const GRAINS_PER_TICK: i128 = 1 << 32;

// Money stays below this, in grains, and its total above minus this.
pub(crate) const MONEY: i128 = 1 << 124;

// Units stay below this, and their total above minus this.
pub(crate) const UNITS: i128 = 1 << 62;

// Returns whether the sum of two numbers is below a limit.
fn stays_below(number: i128, amount: i128, limit: i128) -> bool
    ensures { IsTrue result → (number +ℤ amount) <ℤ limit }
{
    match number.checked_add(amount) {
        Some(sum) => sum < limit,
        None => false,
    }
}

// Returns whether the sum of two numbers is above a limit.
fn stays_above(number: i128, amount: i128, limit: i128) -> bool
    ensures { IsTrue result → limit <ℤ (number +ℤ amount) }
{
    match number.checked_add(amount) {
        Some(sum) => sum > limit,
        None => false,
    }
}

// Returns whether an account's money may change by the amount, if the account exists.
pub(crate) fn money_fits(accounts: &Accounts, account: u32, amount: i128) -> bool
    ensures { IsTrue result → IsAccount accounts.now account → MoneyFits accounts.now account amount }
{
    match accounts.money(account) {
        Some(money) => {
            stays_below(money, amount, MONEY) && stays_above(accounts.total_money(), amount, -MONEY)
        }
        None => true,
    }
}

// Returns whether an account's units of an asset may change by the amount, if both exist.
pub(crate) fn units_fit(accounts: &Accounts, account: u32, asset: u16, amount: i128) -> bool
    ensures { IsTrue result → IsAccount accounts.now account → IsAsset accounts.now asset →
        UnitsFit accounts.now account asset amount }
{
    match accounts.units(account, asset) {
        Some(units) => match accounts.total_units(asset) {
            Some(total) => {
                stays_below(units.into(), amount, UNITS)
                    && stays_above(total.into(), amount, -UNITS)
            }
            None => true,
        },
        None => true,
    }
}

// Returns whether a deposit of units may be made: it is refused, or fits.
pub(crate) fn deposit_fits(accounts: &Accounts, account: u32, asset: u16, units: u64) -> bool
    ensures { IsTrue result → AcceptsDeposit accounts.now account (Some asset) units →
        UnitsFit accounts.now account asset (pos units) }
{
    match accounts.unit_deposit(account, asset, units) {
        Ok(_) => units_fit(accounts, account, asset, units.into()),
        Err(_) => true,
    }
}

// Returns whether what is reserved isn't negative, and an account, if it exists, covers it with its credit.
pub(crate) fn covers(accounts: &Accounts, account: u32, reserved: i128) -> bool
    ensures least { IsTrue result → pos 0 ≤ℤ reserved }
    ensures covered { IsTrue result → IsAccount accounts.now account → reserved ≤ℤ money_with_credit accounts.now account }
{
    if reserved < 0 {
        return false;
    }
    match accounts.money(account) {
        Some(money) => match accounts.money_credit(account) {
            Some(credit) => reserved - i128::from(credit) * GRAINS_PER_TICK <= money,
            None => true,
        },
        None => true,
    }
}

// Returns whether what is reserved isn't negative, and an account, if it and the asset exist, covers it with its credit.
pub(crate) fn covers_units(accounts: &Accounts, account: u32, asset: u16, reserved: i128) -> bool
    ensures least { IsTrue result → pos 0 ≤ℤ reserved }
    ensures covered { IsTrue result → IsAccount accounts.now account → IsAsset accounts.now asset →
        reserved ≤ℤ units_with_credit accounts.now account asset }
{
    if reserved < 0 {
        return false;
    }
    match accounts.units(account, asset) {
        Some(units) => match accounts.unit_credit(account, asset) {
            Some(credit) => reserved - i128::from(credit) <= i128::from(units),
            None => true,
        },
        None => true,
    }
}
