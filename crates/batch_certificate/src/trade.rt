//! One order's part of the check of a clearing.
ghost use Rattle.std.specs.Prelude.{◌≡◌, ◌^◌, ◌≤◌, pos, unsigned_abs, length, All, IfSome, IfNone};
ghost use Rattle.weight_rows.specs.Rows.{IsPrice, IsPricedBy};
ghost use Rattle.demand_curve.specs.Demand.{most_rate, IsRounding, loss};
ghost use Rattle.flow_orders.specs.Orders.{IsOrder, terms_of};
ghost use Rattle.flow_orders.specs.Excess.{price_for};
ghost use Rattle.flow_orders.specs.Residuals.{AreNear, IsTradeAdded};

use flow_orders::{Order, add_residuals};

/// Adds what an order trades at this rate to the imbalances of its assets, and returns what the rate loses, in grains. If
/// the rate is no rounding of the order's demand at the prices, returns `None` and adds nothing.
pub(crate) fn try_trade(
    order: &Order,
    rate: u32,
    prices: &[i64],
    residuals: &mut [i64],
) -> Option<i128>
    requires range { All IsPrice prices.now }
    requires priced { IsPricedBy order.now.row prices.now }
    requires places { length residuals.old ≡ length prices.now }
    requires near { AreNear (2 ^ 50) residuals.old }
    ensures none { IfNone result (¬ IsRounding (terms_of order.now) rate (price_for prices.now order.now)) }
    ensures rounding { IfSome result (λ lost. IsRounding (terms_of order.now) rate (price_for prices.now order.now)) }
    ensures added { IfSome result (λ lost. IsTradeAdded order.now.row rate residuals.old residuals.new) }
    ensures lost { IfSome result (λ lost. lost ≡ pos (loss (terms_of order.now) rate (price_for prices.now order.now))) }
    ensures small { IfSome result (λ lost. unsigned_abs lost ≤ 2 ^ 60) }
    ensures rate { IfSome result (λ lost. rate ≤ most_rate) }
    ensures order { IsOrder order.now }
{
    let lost = rounding_loss(order, rate, prices)?;
    add_residuals(order.row(), rate, residuals);
    Some(lost)
}

// Returns what an order loses at this rate, in grains, or `None` if the rate is no rounding of its demand.
fn rounding_loss(order: &Order, rate: u32, prices: &[i64]) -> Option<i128>
    requires range { All IsPrice prices.now }
    requires priced { IsPricedBy order.now.row prices.now }
    ensures none { IfNone result (¬ IsRounding (terms_of order.now) rate (price_for prices.now order.now)) }
    ensures rounding { IfSome result (λ lost. IsRounding (terms_of order.now) rate (price_for prices.now order.now)) }
    ensures lost { IfSome result (λ lost. lost ≡ pos (loss (terms_of order.now) rate (price_for prices.now order.now))) }
    ensures small { IfSome result (λ lost. unsigned_abs lost ≤ 2 ^ 60) }
    ensures rate { IfSome result (λ lost. rate ≤ most_rate) }
    ensures order { IsOrder order.now }
{
    let curve = order.curve();
    let price = order.row().price(prices);
    if curve.is_rounded(rate, price) {
        Some(curve.loss(rate, price))
    } else {
        None
    }
}
