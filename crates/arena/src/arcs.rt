//! The arc of a scan, and which ways lead into it.

ghost use Rattle.std.specs.Prelude.{◌≡◌, ◌+◌, ◌-◌, ◌%◌, ◌<◌, ◌≤◌, true, false, unsigned_abs};
ghost use Rattle.arith.specs.Circle.{sine_at, cosine_at};
ghost use Rattle.arith.specs.Bearing.{projection_of};
ghost use Rattle.arena.specs.Nearer.{arc_contains};
ghost use Rattle.arena.specs.declared.arcs.TheConstants.{SIDE};
ghost use Rattle.arena.specs.declared.rules.TheConstants.{MOST_RESOLUTION};

use crate::rules::MOST_RESOLUTION;
use crate::ways::Way;
use arith::{bears_within, cosine_at, sine_at};

/// How many degrees from an arc's end a direction lies in which no point of the arc reaches backwards.
const SIDE: u16 = 89;

/// So far, scaled by 100,000, no point outside of an arc reaches forward in both of these directions: 35 metres.
const DEEP: i32 = 3_500_000;

/// A direction: a degree, with its cosine and its sine, both scaled by 100,000.
#[derive(Clone, Copy, Drop)]
struct Direction {
    degree: u16,
    cosine: i32,
    sine: i32,
    ghost round: { degree < 360 },
    ghost cosine_of_degree: { cosine ≡ cosine_at degree },
    ghost sine_of_degree: { sine ≡ sine_at degree },
    ghost cosine_in_scale: { unsigned_abs cosine ≤ 100000 },
    ghost sine_in_scale: { unsigned_abs sine ≤ 100000 },
}

impl Direction {
    /// Makes the direction of a degree.
    fn of_degree(degree: u16) -> Direction
        requires { degree < 360 }
        ensures { result.degree ≡ degree }
    {
        Direction {
            degree,
            cosine: cosine_at(degree),
            sine: sine_at(degree),
        }
    }

    /// Returns how far a way reaches in this direction, scaled by 100,000.
    fn projection(&self, way: &Way) -> i32
        ensures { result ≡ projection_of way.now.east way.now.north self.now.degree }
    {
        way.east * self.cosine + way.north * self.sine
    }
}

/// The arc around a degree, as far as the resolution of at most 10 degrees to either side. Beside it are the two
/// directions that are 89 degrees from the arc's end on the other side.
#[derive(Clone, Copy, Drop)]
pub struct Arc {
    degree: u16,
    resolution: u16,
    left: Direction,
    right: Direction,
    ghost round: { degree < 360 },
    ghost narrow: { resolution ≤ MOST_RESOLUTION },
    ghost to_left: { left.degree ≡ (degree + (SIDE - resolution)) % 360 },
    ghost to_right: { right.degree ≡ (degree + (360 - SIDE + resolution)) % 360 },
}

impl Arc {
    /// Makes the arc around a degree, with this resolution in degrees.
    pub fn new(degree: u16, resolution: u16) -> Arc
        requires degree { degree < 360 }
        requires resolution { resolution ≤ MOST_RESOLUTION }
        ensures degree { result.degree ≡ degree }
        ensures resolution { result.resolution ≡ resolution }
    {
        Arc {
            degree,
            resolution,
            left: Direction::of_degree(degree_further(degree, SIDE - resolution)),
            right: Direction::of_degree(degree_further(degree, 360 - SIDE + resolution)),
        }
    }

    /// Reports whether a way leads beside the arc: it reaches backwards in one of the two directions.
    pub fn surely_excludes(&self, way: &Way) -> bool
        ensures { result ≡ true
            → arc_contains way.now.east way.now.north self.now.degree self.now.resolution ≡ false }
    {
        self.left.projection(way) < 0 || self.right.projection(way) < 0
    }

    /// Reports whether a way leads into the arc, or nowhere. A rough test decides on those that lead deep into it.
    pub fn contains(&self, way: &Way) -> bool
        ensures { result ≡ arc_contains way.now.east way.now.north self.now.degree self.now.resolution }
    {
        self.is_deep(way) || lies_within(*way, self.degree, self.resolution)
    }

    /// Reports whether a way leads deep into the arc: it reaches forward by 35 metres in both directions, or more.
    fn is_deep(&self, way: &Way) -> bool
        ensures { result ≡ true → arc_contains way.now.east way.now.north self.now.degree self.now.resolution ≡ true }
    {
        self.left.projection(way) >= DEEP && self.right.projection(way) >= DEEP
    }
}

/// Reports whether a way leads into an arc around a degree, or nowhere. This is asked only of a way near the arc's
/// border: it stays out of the way of the rough tests.
#[inline(never)]
fn lies_within(way: Way, degree: u16, resolution: u16) -> bool
    requires degree { degree < 360 }
    requires resolution { resolution ≤ MOST_RESOLUTION }
    ensures { result ≡ arc_contains way.east way.north degree resolution }
{
    way.is_none() || bears_within(way.east, way.north, degree, resolution)
}

/// Returns the degree that lies the given number of degrees further round the circle.
fn degree_further(degree: u16, by: u16) -> u16
    requires degree { degree < 360 }
    requires by { by < 360 }
    ensures value { result ≡ (degree + by) % 360 }
    ensures round { result < 360 }
{
    let sum = degree + by;
    if sum < 360 { sum } else { sum - 360 }
}
