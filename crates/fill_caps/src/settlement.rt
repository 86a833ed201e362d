//! The settlement of all orders of a batch.
ghost use Rattle.std.specs.Prelude.{◌≡◌, ℕ, ◌<◌, ◌≤◌, ◌+◌, ◌-◌, ◌*◌, ◌^◌, pos, ◌+ℤ◌, ◌*ℤ◌, ◌≤ℤ◌, length, unsigned_abs, All, List, [], ◌∷◌};
ghost use Rattle.weight_rows.specs.Rows.{IsPrice};
ghost use Rattle.demand_curve.specs.Demand.{IsRounding};
ghost use Rattle.flow_accounts.specs.Balances.{IsAccount, IsAsset, asset_count, money_of, units_of, units_in, total_units_of};
ghost use Rattle.flow_accounts.specs.Lawful.{AreLawful};
ghost use Rattle.flow_accounts.specs.Sums.{money_of_all, units_of_all};
ghost use Rattle.flow_orders.specs.Orders.{IsOrder, most_orders, terms_of, money_need, unit_need};
ghost use Rattle.flow_orders.specs.Excess.{price_for};
ghost use Rattle.flow_orders.specs.Trades.{Trade, trades, staying};
ghost use Rattle.fill_caps.specs.Covers.{CoversNeeds};
ghost use Rattle.fill_caps.specs.Settlement.{settled_balances, settled_exchange};
ghost use Rattle.fill_caps.specs.Room.{HasRoom};
ghost use Rattle.fill_caps.specs.Settles.{Settles};

use crate::entries::settle_entries;
use flow_accounts::Accounts;
use flow_orders::Order;
use residual_account::ResidualAccount;

/// Settles a cleared batch: each order trades its rate at the prices, and the exchange takes the other side of each
/// asset's imbalance.
///
/// There is one price for each asset, in grains and within 2^62 of 0, and one rate for each order, in units, less than
/// 1 apart from the order's demand at the prices. All orders' accounts and assets exist, and what each account holds,
/// with its credit, covers what its orders reserve. Accounts and exchange together hold the totals. The exchange's
/// account isn't far from 0: within 2^123 - 2^99 grains, and 2^55 - 2^31 units of each asset.
///
/// The orders themselves don't change. Costs one pass over the legs of all orders.
pub fn settle(
    accounts: &mut Accounts,
    exchange: &mut ResidualAccount,
    orders: &[Order],
    prices: &[i64],
    rates: &[u32],
)
    requires few { length orders.now ≤ most_orders }
    requires one_rate_each { length rates.now ≡ length orders.now }
    requires roundings { All (λ t. IsRounding (terms_of t.order) t.traded (price_for prices.now t.order))
        (trades orders.now rates.now) }
    requires one_price_each { length prices.now ≡ asset_count accounts.old }
    requires range { All IsPrice prices.now }
    requires exchange_each { length exchange.old.units ≡ asset_count accounts.old }
    requires accounts_there { All (λ o. IsAccount accounts.old o.account) orders.now }
    requires assets_there { All (λ o. All (λ e. IsAsset accounts.old e.asset) o.row) orders.now }
    requires covered { CoversNeeds accounts.old orders.now }
    requires total_money { money_of_all accounts.old +ℤ exchange.old.money ≡ accounts.old.totals.money }
    requires total_units { (asset : ℕ) → IsAsset accounts.old asset →
        units_of_all accounts.old asset +ℤ units_in exchange.old asset ≡ total_units_of accounts.old asset }
    requires exchange_money { unsigned_abs exchange.old.money ≤ 2 ^ 123 - 2 ^ 99 }
    requires exchange_units { All (λ u. unsigned_abs u ≤ 2 ^ 55 - 2 ^ 31) exchange.old.units }
    ensures accounts { accounts.new
        ≡ settled_balances prices.now (trades orders.now rates.now) accounts.old }
    ensures exchange { exchange.new
        ≡ settled_exchange prices.now (trades orders.now rates.now) accounts.old exchange.old }
    ensures covered { CoversNeeds accounts.new (staying (trades orders.now rates.now)) }
    ensures money_held { money_of_all accounts.new +ℤ exchange.new.money
        ≡ money_of_all accounts.old +ℤ exchange.old.money }
    ensures units_held { (asset : ℕ) → IsAsset accounts.old asset →
        units_of_all accounts.new asset +ℤ units_in exchange.new asset
        ≡ units_of_all accounts.old asset +ℤ units_in exchange.old asset }
{
    // Called for its contract: the accounts are lawful.
    let _accounts = accounts.count();
    for (order, rate) in orders.iter().zip(rates) {
        settle_order(accounts, exchange, order, prices, *rate);
    }
}

// Settles one order: its account gets the units of each leg, and pays what the exchange got for them.
fn settle_order(
    accounts: &mut Accounts,
    exchange: &mut ResidualAccount,
    order: &Order,
    prices: &[i64],
    rate: u32,
)
    requires lawful { AreLawful accounts.old }
    requires rounding { IsRounding (terms_of order.now) rate (price_for prices.now order.now) }
    requires one_price_each { length prices.now ≡ asset_count accounts.old }
    requires range { All IsPrice prices.now }
    requires exchange_each { length exchange.old.units ≡ asset_count accounts.old }
    requires account_there { IsAccount accounts.old order.now.account }
    requires assets_there { All (λ e. IsAsset accounts.old e.asset) order.now.row }
    requires room { HasRoom order.now accounts.old exchange.old }
    ensures settles { Settles prices.now (record { order = order.now; traded = rate } ∷ [])
        accounts.old accounts.new exchange.old exchange.new }
    ensures lawful { AreLawful accounts.new }
    ensures exchange_count { length exchange.new.units ≡ length exchange.old.units }
    ensures order { IsOrder order.now }
{
    let account = order.account();
    let held = exchange.money();
    let entries = order.row().entries();
    settle_entries(accounts, exchange, account, entries, prices, rate);
    accounts.add_money(account, held - exchange.money());
}
