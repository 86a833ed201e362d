//! What single orders ask for.
use crate::telling::{pair_of, put, put_answer};
use check_lines::Told;
use demand_curve::{Curve, PartRoundings, Roundings};

// The limit farthest from 0, in grains.
const TOP: i64 = 1 << 60;

// The price of a portfolio that is farthest from 0, in grains.
const FAR: i128 = 1 << 78;

// Returns the curve of two limits, a rate and a batch maximum.
fn made(low: i64, high: i64, rate: u32, room: u32) -> Option<Curve> {
    if low < -TOP || high > TOP {
        return None;
    }
    if high < low || high - low < 1 << 32 {
        return None;
    }
    if room < 1 || room > rate || rate > 1 << 24 {
        return None;
    }
    Some(Curve {
        low,
        high,
        rate,
        room,
    })
}

fn curve_of(text: &str) -> Option<Curve> {
    let (limits, rates) = text.split_once(',')?;
    let (low, high) = pair_of(limits)?;
    let (rate, room) = pair_of(rates)?;
    made(low, high, rate, room)
}

// Prints whether the rates next to the roundings, and these, are roundings.
fn put_answers(curve: &Curve, floor: u32, ceil: u32, price: i128, told: &mut Told) {
    if price < -FAR || price > FAR {
        return told.give_up();
    }
    put_answer(curve.is_rounded(floor.wrapping_sub(1), price), told);
    put_answer(curve.is_rounded(floor, price), told);
    put_answer(curve.is_rounded(ceil, price), told);
    put_answer(curve.is_rounded(ceil.wrapping_add(1), price), told);
}

// Prints what a rounding loses.
fn put_loss(curve: &Curve, rate: u32, price: i128, told: &mut Told) {
    if price < -FAR || price > FAR || !curve.is_rounded(rate, price) {
        return told.give_up();
    }
    put(curve.loss(rate, price), told)
}

// Prints the demand, its roundings, what these lose, the dual value, and which rates are roundings.
fn put_at(curve: &Curve, price: i128, told: &mut Told) {
    if price < -FAR || price > FAR {
        return told.give_up();
    }
    let floor = curve.floor_rate(price);
    let ceil = curve.ceil_rate(price);
    put(curve.scaled(price), told);
    put(floor.into(), told);
    put(ceil.into(), told);
    put_loss(curve, floor, price, told);
    put_loss(curve, ceil, price, told);
    put(curve.dual_floor(price), told);
    put_answers(curve, floor, ceil, price, told);
}

// Prints both roundings, together and one by one.
fn put_roundings_at(curve: &Curve, price: i128, told: &mut Told) {
    if price < -FAR || price > FAR {
        return told.give_up();
    }
    let Roundings { floor, ceil } = curve.roundings(price);
    put(floor.into(), told);
    put(ceil.into(), told);
    put(curve.floor_rate(price).into(), told);
    put(curve.ceil_rate(price).into(), told);
}

// Prints both roundings in parts of a unit.
fn put_parts_at(curve: &Curve, parts: u16, price: i128, told: &mut Told) {
    if parts == 0 || price < -FAR || price > FAR {
        return told.give_up();
    }
    let PartRoundings { floor, ceil } = curve.roundings_in(parts, price);
    put(floor.into(), told);
    put(ceil.into(), told);
}

pub(crate) fn put_curve(words: &str, text: &str, told: &mut Told) {
    match (curve_of(text), words.parse()) {
        (Some(curve), Ok(price)) => put_at(&curve, price, told),
        _ => told.give_up(),
    }
}

pub(crate) fn put_roundings(words: &str, text: &str, told: &mut Told) {
    match (curve_of(text), words.parse()) {
        (Some(curve), Ok(price)) => put_roundings_at(&curve, price, told),
        _ => told.give_up(),
    }
}

pub(crate) fn put_parts(words: &str, text: &str, told: &mut Told) {
    let (parts, price) = words.split_once(' ').unwrap_or((words, ""));
    match (curve_of(text), parts.parse(), price.parse()) {
        (Some(curve), Ok(parts), Ok(price)) => put_parts_at(&curve, parts, price, told),
        _ => told.give_up(),
    }
}
