//! What the legs of an order move.
ghost use Rattle.std.specs.Prelude.{◌≡◌, ℕ, ◌<◌, ◌≤◌, ◌^◌, pos, ◌+ℤ◌, ◌-ℤ◌, ◌*ℤ◌, length, slice_set, unsigned_abs, All, FitsSigned, Some};
ghost use Rattle.std.specs.Int.{w64, w128};
ghost use Rattle.weight_rows.specs.Rows.{IsWeightVector, IsLawfulWeight, IsPrice, price_of, weight_in};
ghost use Rattle.demand_curve.specs.Demand.{most_rate};
ghost use Rattle.flow_accounts.specs.Balances.{IsAccount, IsAsset, asset_count, units_in, move_balance};
ghost use Rattle.flow_accounts.specs.Lawful.{AreLawful};
ghost use Rattle.fill_caps.specs.Moves.{MovesRow};
ghost use Rattle.fill_caps.specs.Room.{MayChangeUnits};

use flow_accounts::Accounts;
use residual_account::ResidualAccount;
use weight_rows::Entry;

/// Adds to the account each asset's weight times `rate`, in units. The exchange gives them, and gets what they cost;
/// the account doesn't pay yet.
pub(crate) fn settle_entries(
    accounts: &mut Accounts,
    exchange: &mut ResidualAccount,
    account: u32,
    entries: &[Entry],
    prices: &[i64],
    rate: u32,
)
    requires lawful { AreLawful accounts.old }
    requires account { IsAccount accounts.old account }
    requires row { IsWeightVector entries.now }
    requires assets { All (λ e. IsAsset accounts.old e.asset) entries.now }
    requires one_price_each { length prices.now ≡ asset_count accounts.old }
    requires range { All IsPrice prices.now }
    requires exchange_each { length exchange.old.units ≡ asset_count accounts.old }
    requires rate { rate ≤ most_rate }
    requires units { (asset : ℕ) → IsAsset accounts.old asset →
        MayChangeUnits accounts.old account asset (weight_in entries.now asset *ℤ pos rate) }
    requires exchange_money { unsigned_abs exchange.old.money ≤ 2 ^ 124 }
    requires exchange_units { (asset : ℕ) → IsAsset accounts.old asset →
        unsigned_abs (units_in exchange.old asset) ≤ 2 ^ 56 }
    ensures { MovesRow prices.now account rate entries.now accounts.old accounts.new exchange.old exchange.new }
{
    for entry in entries {
        settle_entry(accounts, exchange, account, *entry, prices, rate);
    }
}

fn settle_entry(
    accounts: &mut Accounts,
    exchange: &mut ResidualAccount,
    account: u32,
    entry: Entry,
    prices: &[i64],
    rate: u32,
)
    requires account { IsAccount accounts.old account }
    requires asset { IsAsset accounts.old entry.asset }
    requires priced { entry.asset < length prices.now }
    requires weight { IsLawfulWeight entry.weight }
    requires price { IsPrice (price_of prices.now entry.asset) }
    requires rate { rate ≤ most_rate }
    requires units { MayChangeUnits accounts.old account entry.asset (entry.weight *ℤ pos rate) }
    requires exchange_asset { entry.asset < length exchange.old.units }
    requires exchange_money { FitsSigned w128
        (exchange.old.money +ℤ entry.weight *ℤ pos rate *ℤ price_of prices.now entry.asset) }
    requires exchange_units { FitsSigned w64
        (units_in exchange.old entry.asset -ℤ entry.weight *ℤ pos rate) }
    ensures accounts { accounts.new
        ≡ move_balance accounts.old account (Some entry.asset) (entry.weight *ℤ pos rate) }
    ensures lawful { AreLawful accounts.new }
    ensures exchange { exchange.new ≡ record {
      money = exchange.old.money +ℤ entry.weight *ℤ pos rate *ℤ price_of prices.now entry.asset;
      units = slice_set exchange.old.units entry.asset
          (units_in exchange.old entry.asset -ℤ entry.weight *ℤ pos rate);
    } }
{
    let units = units_for(entry.weight, rate);
    accounts.add_units(account, entry.asset, units);
    let cost = cost_of(units, prices[usize::from(entry.asset)]);
    exchange.add(entry.asset, -units, cost);
}

// Returns the units that a leg of this weight brings at this rate.
fn units_for(weight: i32, rate: u32) -> i64
    requires weight { IsLawfulWeight weight }
    requires rate { rate ≤ most_rate }
    ensures value { result ≡ weight *ℤ pos rate }
    ensures bound { unsigned_abs result ≤ 2 ^ 36 }
{
    i64::from(weight) * i64::from(rate)
}

// Returns what `units` cost at `price`, in grains.
fn cost_of(units: i64, price: i64) -> i128
    ensures { result ≡ units *ℤ price }
{
    i128::from(units) * i128::from(price)
}
