//! Demand curves of many points, made of ordinary orders.
//!
//! A ladder is 2 to 33 points of a price and a rate: the rate that is asked for at that price of a portfolio. Prices
//! ascend, rates never rise from point to point, and the last one is 0. Its value is the first rate up to the first
//! price, 0 from the last price on, and between two points it is on the line through them.
//!
//! Such a curve is a sum of the curves that orders have (Budish, Cramton, Kyle, Lee and Malec, "Flow Trading", 2023:
//! piecewise linear demand). Each drop of the rate between two points becomes one order, a [`Segment`], with its
//! limits at these points and the drop as its rate. At every price the demands of these orders add up to the ladder's
//! value, and at most one of them isn't a whole number, so what a batch trades for all of them together, rounded order
//! by order, is less than one unit away from the value. Points, turns and the limits of the numbers are this project's
//! own.
//!
//! [`ladder_fault`] finds what is wrong with points and turns, [`Ladder::new`] takes those that have no fault,
//! [`Ladder::commands`] makes the commands that place the orders, and [`Ladder::total_rate`] finds these orders among
//! published ones and adds up their rates. Prices of points are in ticks, prices of portfolios in grains, 2^32 to a
//! tick. The definitions are in `specs`, one topic a file; what holds of every ladder is in [`laws`].
//!
//! Only `commands` allocates. Each call makes one or two passes over the points; `total_rate` also finds the first
//! order by binary search, and looks at one order for each segment.
#![tactic(auto)]

mod commands;
mod faults;
mod ladder;
pub mod laws;
mod points;
mod segment;
mod total;
mod value;

pub use commands::CommandList;
pub use faults::{LadderFault, MOST_POINTS, MOST_TURNS, ladder_fault};
pub use ladder::Ladder;
pub use points::{Point, PointList};
pub use segment::Segment;
pub use value::LadderValue;
