//! The imbalance of each asset, added up order by order.
ghost use Rattle.std.specs.Prelude.{◌≡◌, ◌^◌, ◌<◌, ◌≤◌, pos, ◌+ℤ◌, ◌*ℤ◌, unsigned_abs, length, slice_set};
ghost use Rattle.weight_rows.specs.Rows.{most_weight, IsPricedBy};
ghost use Rattle.demand_curve.specs.Demand.{most_rate};
ghost use Rattle.flow_orders.specs.Residuals.{residual_in, AreNear, IsTradeAdded};

use weight_rows::{Entry, WeightRow};

/// The most assets that may have a price.
pub const MOST_PRICES: u16 = 64;

/// Adds an order's trade to the imbalances: to that of each of its assets the weight times the rate, in units, which is
/// negative if the order gives the asset away.
///
/// `residuals` has an imbalance at the number of each asset that the weight vector names, each is within 2^60 units of
/// 0, and the rate is at most 2^24. It costs one pass over the legs and allocates nothing.
pub fn add_residuals(row: &WeightRow, rate: u32, residuals: &mut [i64])
    requires places { IsPricedBy row.now residuals.old }
    requires rate { rate ≤ most_rate }
    requires near { AreNear (2 ^ 60) residuals.old }
    ensures { IsTradeAdded row.now rate residuals.old residuals.new }
{
    for entry in row.entries() {
        add_entry(entry, rate, residuals);
    }
}

// Adds what a leg brings at this rate to the imbalance of its asset.
fn add_entry(entry: &Entry, rate: u32, residuals: &mut [i64])
    requires place { entry.now.asset < length residuals.old }
    requires weight { unsigned_abs entry.now.weight ≤ most_weight }
    requires rate { rate ≤ most_rate }
    requires near { unsigned_abs (residual_in residuals.old entry.now.asset) ≤ 2 ^ 61 }
    ensures { residuals.new ≡ slice_set residuals.old entry.now.asset
        (residual_in residuals.old entry.now.asset +ℤ entry.now.weight *ℤ pos rate) }
{
    residuals[usize::from(entry.asset)] += units(entry.weight, rate);
}

// Returns the units that a leg of this weight brings at a rate.
fn units(weight: i32, rate: u32) -> i64
    requires weight { unsigned_abs weight ≤ most_weight }
    requires rate { rate ≤ most_rate }
    ensures value { result ≡ weight *ℤ pos rate }
    ensures small { unsigned_abs result ≤ 2 ^ 36 }
{
    i64::from(weight) * i64::from(rate)
}
