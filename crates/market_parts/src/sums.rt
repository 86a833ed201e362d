//! Whether accounts and exchange hold the totals.
ghost use Rattle.std.specs.Prelude.{◌≡◌, ◌+◌, ◌^◌, ◌*◌, ◌≤◌, ◌+ℤ◌, ◌<ℤ◌, ◌↔◌, pos, unsigned_abs, IsTrue, IsNone, IfSome};
ghost use Rattle.flow_accounts.specs.Balances.{IsAsset};
ghost use Rattle.flow_accounts.specs.Lawful.{AreLawful};
ghost use Rattle.flow_accounts.specs.Sums.{money_of_all, units_of_all};
ghost use Rattle.market_parts.specs.Tests.{IsMoneyHeld, AreUnitsHeld};

use flow_accounts::AccountParts;

// If the balances of the first accounts add up to more than this, in grains, all of them are above any total.
const MONEY_WIDTH: i128 = 1 << 124;

// Returns whether the accounts and the exchange, which holds `exchange`, together hold the total of money.
pub(crate) fn is_money_held<P: AccountParts>(parts: &P, exchange: i128) -> bool
    requires lawful { AreLawful (P.balances parts.now) }
    requires exchange { unsigned_abs exchange ≤ 2 ^ 123 }
    ensures { IsTrue result ↔ IsMoneyHeld (P.balances parts.now) exchange }
{
    match money_sum(parts) {
        Some(sum) => is_sum(sum, exchange, parts.total_money()),
        None => false,
    }
}

// Returns the money of all accounts, in grains, or `None` if it is too much for any total.
fn money_sum<P: AccountParts>(parts: &P) -> Option<i128>
    requires { AreLawful (P.balances parts.now) }
    ensures sum { IfSome result (λ sum. sum ≡ money_of_all (P.balances parts.now)) }
    ensures fits { IfSome result (λ sum. unsigned_abs sum ≤ 2 ^ 125) }
    ensures none { IsNone result → pos (2 ^ 123 + 2 ^ 122) <ℤ money_of_all (P.balances parts.now) }
{
    let mut sum = 0;
    for place in 0..parts.account_count() {
        sum += parts.money(place + 1).unwrap();
        if sum > MONEY_WIDTH {
            return None;
        }
    }
    Some(sum)
}

// Returns whether the accounts and the exchange, which holds `exchange`, together hold the total of an asset.
pub(crate) fn are_units_held<P: AccountParts>(parts: &P, asset: u16, exchange: i64) -> bool
    requires lawful { AreLawful (P.balances parts.now) }
    requires asset { IsAsset (P.balances parts.now) asset }
    ensures { IsTrue result ↔ AreUnitsHeld (P.balances parts.now) asset exchange }
{
    let total = parts.total_units(asset).unwrap();
    is_sum(
        unit_sum(parts, asset),
        i128::from(exchange),
        i128::from(total),
    )
}

// Returns the units of an asset that all accounts hold.
fn unit_sum<P: AccountParts>(parts: &P, asset: u16) -> i128
    requires lawful { AreLawful (P.balances parts.now) }
    requires asset { IsAsset (P.balances parts.now) asset }
    ensures sum { result ≡ units_of_all (P.balances parts.now) asset }
    ensures fits { unsigned_abs result ≤ 2 ^ 80 }
{
    let mut sum = 0;
    for place in 0..parts.account_count() {
        sum += i128::from(parts.units(place + 1, asset).unwrap());
    }
    sum
}

// Returns whether two numbers add up to a third.
fn is_sum(one: i128, other: i128, whole: i128) -> bool
    requires one { unsigned_abs one ≤ 2 ^ 125 }
    requires other { unsigned_abs other ≤ 2 ^ 123 }
    ensures { IsTrue result ↔ ((one +ℤ other) ≡ whole) }
{
    one + other == whole
}
