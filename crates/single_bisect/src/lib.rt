//! The least and the greatest place at which a monotone yes-or-no question has the answer yes, by bisection.
//!
//! Places are integers, such as the prices of one asset in grains. A [`Probe`] answers the question
//! at one place; an answer may be costly, so each search asks at most 63 times, however far apart
//! its two ends are. Between two asks a search does a few arithmetic operations, and it allocates nothing.
#![tactic(auto)]

mod greatest;
mod least;
mod places;
mod turn;

pub use greatest::greatest_true;
pub use least::least_true;
pub use places::Probe;
