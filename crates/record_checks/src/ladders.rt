//! Ladders of points and turns.
use crate::telling::put;
use check_lines::Told;
use curve_ladder::{Ladder, LadderFault, Point, PointList, ladder_fault};
use std::alloc::Global;

// The price of a portfolio that is farthest from 0, in grains.
const FAR: i128 = 1 << 78;

fn point_of(item: &str) -> Option<Point> {
    let (price, rate) = item.split_once('/')?;
    Some(Point {
        price: price.parse().ok()?,
        rate: rate.parse().ok()?,
    })
}

// Returns the points of a list.
fn points_of(alloc: Global, list: &str) -> Option<PointList> {
    let mut points = Vec::new(alloc);
    if list != "-" {
        for item in list.split(',') {
            points.push(point_of(item)?).ok()?;
        }
    }
    Some(PointList::new(points))
}

// Returns the ladder of turns and points, or `None` if they have a fault.
fn ladder_of(alloc: Global, words: &str) -> Option<Ladder> {
    let (turns, list) = words.split_once(' ')?;
    let turns = turns.parse().ok()?;
    let points = points_of(alloc, list)?;
    if ladder_fault(points.as_slice(), turns).is_some() {
        return None;
    }
    Some(Ladder::new(points, turns))
}

fn put_fault(fault: Option<LadderFault>, told: &mut Told) {
    match fault {
        None => put("ladder", &[], told),
        Some(LadderFault::Points) => put("points", &[], told),
        Some(LadderFault::Price(place)) => put("price", &[place.into()], told),
        Some(LadderFault::Rate(place)) => put("rate", &[place.into()], told),
        Some(LadderFault::Turns) => put("turns", &[], told),
    }
}

// Prints the first fault of turns and points.
pub(crate) fn put_ladder(alloc: Global, words: &str, told: &mut Told) {
    let (turns, list) = words.split_once(' ').unwrap_or((words, ""));
    match (turns.parse(), points_of(alloc, list)) {
        (Ok(turns), Some(points)) => put_fault(ladder_fault(points.as_slice(), turns), told),
        _ => told.give_up(),
    }
}

fn put_value_at(ladder: &Ladder, price: i128, told: &mut Told) {
    if price < -FAR || price > FAR {
        return told.give_up();
    }
    let value = ladder.value(price);
    put("value", &[value.whole.into(), value.part, value.over], told)
}

// Prints what the ladder of turns and points asks for at a price.
pub(crate) fn put_value(alloc: Global, words: &str, told: &mut Told) {
    let (price, words) = words.split_once(' ').unwrap_or((words, ""));
    match (price.parse(), ladder_of(alloc, words)) {
        (Ok(price), Some(ladder)) => put_value_at(&ladder, price, told),
        _ => told.give_up(),
    }
}

fn put_segment_at(ladder: &Ladder, place: u32, told: &mut Told) {
    put("of", &[ladder.segments().into()], told);
    match ladder.segment(place) {
        Some(segment) => {
            let numbers = [
                segment.low.into(),
                segment.high.into(),
                segment.rate.into(),
                segment.cap.into(),
            ];
            put("segment", &numbers, told)
        }
        None => put("none", &[], told),
    }
}

// Prints how many segments the ladder of turns and points has, and the one at a place.
pub(crate) fn put_segment(alloc: Global, words: &str, told: &mut Told) {
    let (place, words) = words.split_once(' ').unwrap_or((words, ""));
    match (place.parse(), ladder_of(alloc, words)) {
        (Ok(place), Some(ladder)) => put_segment_at(&ladder, place, told),
        _ => told.give_up(),
    }
}
