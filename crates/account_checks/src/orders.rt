//! Orders: their faults, needs and fills, and sums of their weights.
use crate::placing::order_of;
use crate::telling::put;
use check_lines::Told;
use flow_orders::{Order, OrderFault, money_need, order_fault, spread, steepness, unit_need};
use std::alloc::Global;

// The limit price that is farthest from 0, in ticks.
const FAR: i64 = 1 << 28;

// The greatest cap.
const MOST_CAP: u64 = 1 << 40;

// The greatest weight.
const MOST_WEIGHT: u32 = 4096;

// How many orders there may be.
const MOST_ORDERS: usize = flow_orders::MOST_ORDERS as usize;

// Returns the fault of `LOW HIGH RATE CAP`.
fn fault_of(words: &str) -> Option<Option<OrderFault>> {
    let (low, words) = words.split_once(' ')?;
    let (high, words) = words.split_once(' ')?;
    let (rate, cap) = words.split_once(' ')?;
    Some(order_fault(
        low.parse().ok()?,
        high.parse().ok()?,
        rate.parse().ok()?,
        cap.parse().ok()?,
    ))
}

// Prints the first fault of `LOW HIGH RATE CAP`.
pub(crate) fn put_fault(words: &str, told: &mut Told) {
    match fault_of(words) {
        Some(None) => put("none", &[], told),
        Some(Some(OrderFault::BadLimits)) => put("limits", &[], told),
        Some(Some(OrderFault::BadRate)) => put("rate", &[], told),
        Some(Some(OrderFault::BadCap)) => put("cap", &[], told),
        None => told.give_up(),
    }
}

// Returns the grains and the units that `HIGH WEIGHT LEFT` needs.
fn need_of(words: &str) -> Option<(i128, i64)> {
    let (high, words) = words.split_once(' ')?;
    let (weight, left) = words.split_once(' ')?;
    let high: i64 = high.parse().ok()?;
    let weight: i32 = weight.parse().ok()?;
    let left: u64 = left.parse().ok()?;
    if high < -FAR || high > FAR || left > MOST_CAP || weight.unsigned_abs() > MOST_WEIGHT {
        return None;
    }
    Some((money_need(high, left), unit_need(weight, left)))
}

// Prints the grains and the units that an order needs by `HIGH WEIGHT LEFT`.
pub(crate) fn put_need(words: &str, told: &mut Told) {
    match need_of(words) {
        Some((money, units)) => put("needs", &[money, units.into()], told),
        None => told.give_up(),
    }
}

// Prints the numbers that an order shows, and its weights of the assets 0 and 1.
fn put_order(order: &Order, told: &mut Told) {
    let numbers = [
        order.number().into(),
        order.account().into(),
        order.low().into(),
        order.high().into(),
        order.rate().into(),
        order.cap().into(),
        order.row().weight_of(0).into(),
    ];
    put("order", &numbers, told)
}

// Prints how much of an order was filled, and its curve.
fn put_filled(order: &Order, told: &mut Told) {
    let curve = order.curve();
    let numbers = [
        order.filled().into(),
        curve.low.into(),
        curve.high.into(),
        curve.rate.into(),
        curve.room.into(),
    ];
    put("filled", &numbers, told)
}

// Fills an order, if that is within its batch maximum, and prints whether it is full then.
fn put_fill(order: &mut Order, traded: u32, told: &mut Told) {
    if traded > order.curve().room {
        put("refused", &[], told);
    } else if order.add_fill(traded) {
        put("full", &[], told);
    } else {
        put("live", &[], told);
    }
    put_filled(order, told)
}

fn put_fills(order: &mut Order, fills: &str, told: &mut Told) {
    for fill in fills.split_whitespace() {
        told.put("\n ");
        match fill.parse() {
            Ok(traded) => put_fill(order, traded, told),
            Err(_) => told.give_up(),
        }
    }
}

// Prints an order, and what each fill makes of it: `FILLS; ORDER`.
pub(crate) fn put_filling(alloc: Global, words: &str, told: &mut Told) {
    let (fills, words) = words.split_once(';').unwrap_or(("", words));
    match order_of(alloc, words) {
        Some(mut order) => {
            put_order(&order, told);
            put_fills(&mut order, fills, told)
        }
        None => told.give_up(),
    }
}

// Adds each order that isn't faulty, and prints whether it is there.
fn put_added(alloc: Global, orders: &mut Vec<Order>, placed: &str, told: &mut Told) {
    for words in placed.split(';') {
        match order_of(alloc, words) {
            Some(order) => {
                told.keep(orders.push(order).ok());
                put("placed", &[], told)
            }
            None => put("faulty", &[], told),
        }
    }
}

// Prints the rounding bound and the slope bound that result from the orders' weights of an asset.
#[tactic(auto, using(flow_orders::proofs::Limits::orders_are))]
fn put_bounds(orders: &[Order], asset: u16, told: &mut Told) {
    if orders.len() > MOST_ORDERS {
        return told.give_up();
    }
    let numbers = [
        asset.into(),
        spread(orders, asset).into(),
        steepness(orders, asset).into(),
    ];
    put("asset", &numbers, told)
}

// Prints the sums of the orders' weights of assets: `ASSETS; ORDER; ORDER ..`.
pub(crate) fn put_sums(alloc: Global, words: &str, told: &mut Told) {
    let (assets, placed) = words.split_once(';').unwrap_or((words, ""));
    let mut orders = Vec::new(alloc);
    put_added(alloc, &mut orders, placed, told);
    put_each_bounds(&orders, assets, told)
}

fn put_each_bounds(orders: &[Order], assets: &str, told: &mut Told) {
    for asset in assets.split_whitespace() {
        match asset.parse() {
            Ok(asset) => put_bounds(orders, asset, told),
            Err(_) => told.give_up(),
        }
    }
}
