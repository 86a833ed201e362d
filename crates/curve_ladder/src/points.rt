//! The points of a ladder.
ghost use Rattle.std.specs.Prelude.{◌≡◌, ◌≤ℤ◌, ◌<ℤ◌, ◌↔◌, IsTrue};
ghost use Rattle.demand_curve.specs.Numbers.{distance};
ghost use Rattle.curve_ladder.specs.Values.{grains_at, span_between};

use std::marker::Model;

// One tick in grains.
const GRAINS_PER_TICK: i128 = flow_orders::GRAINS_PER_TICK as i128;

/// A point of a ladder: the rate that is asked for at a price of the portfolio.
#[derive(Clone, Copy, PartialEq, Eq)]
pub struct Point {
    /// The price of one unit of the portfolio, in ticks: -2^28 to 2^28 in a ladder.
    pub price: i64,
    /// What is asked for at this price, in units of the portfolio per batch: 0 to 2^24 in a ladder.
    pub rate: u32,
}

impl Point {
    // Returns the point's price in grains.
    pub(crate) fn grains(&self) -> i128
        ensures { result ≡ grains_at self.now }
    {
        i128::from(self.price) * GRAINS_PER_TICK
    }

    // Returns whether a price in grains is below this point's.
    pub(crate) fn is_above(&self, price: i128) -> bool
        ensures { IsTrue result ↔ (price <ℤ grains_at self.now) }
    {
        price < self.grains()
    }

    // Returns how many grains this point's price is above `price`, which isn't higher.
    pub(crate) fn grains_above(&self, price: i128) -> u128
        requires { price ≤ℤ grains_at self.now }
        ensures { result ≡ distance (grains_at self.now) price }
    {
        self.grains().abs_diff(price)
    }

    // Returns how many grains the next point's price is above this one's.
    pub(crate) fn span_to(&self, next: &Point) -> u128
        requires { grains_at self.now ≤ℤ grains_at next.now }
        ensures { result ≡ span_between self.now next.now }
    {
        next.grains_above(self.grains())
    }
}

/// Points in the order in which they were given, whether they make a ladder or not.
#[derive(Drop)]
pub struct PointList {
    points: Vec<Point>,
}

impl Model for PointList {
    ghost use Rattle.std.specs.Prelude.{List};
    ghost use Rattle.curve_ladder.specs.declared.points.Point.{Point};

    ghost Value = { List Point };

    ghost view = { λ list. list.points.items };
}

impl PointList {
    /// Creates the list of the points of a vector, whose memory it keeps.
    pub fn new(points: Vec<Point>) -> PointList
        ensures { result ≡ points.items }
    {
        PointList { points }
    }

    /// Returns the points, without copying them.
    pub fn as_slice(&self) -> &[Point]
        ensures { result.now ≡ self.now }
    {
        self.points.as_slice()
    }

    /// Returns the vector, without allocating.
    pub fn into_vec(self) -> Vec<Point>
        ensures { result.items ≡ self }
    {
        let PointList { points } = self;
        points
    }
}
