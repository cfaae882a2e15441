//! A missile: where and when it bursts.

ghost use Rattle.std.specs.Prelude.{◌≡◌, ◌+◌, ◌*◌, ◌<◌, ◌≤◌, pos, ◌*ℤ◌, unsigned_abs, nat_lt};
ghost use Rattle.arena.specs.Rules.{last_place};
ghost use Rattle.arena.specs.Leg.{clamped, along};
ghost use Rattle.arena.specs.Shots.{aimed_x, aimed_y, flight};
ghost use Rattle.arena.specs.Arena.{most_updates};

use crate::places::{along, clamped_place};
use crate::points::Point;
use crate::rules::{MISSILE_SPEED, MOST_RANGE};
use arith::{cosine_at, sine_at};

/// A missile in the air: the update in which it bursts, and the place of the burst.
#[derive(Clone, Copy, Default, Drop)]
pub struct Missile {
    pub(crate) burst: u32,
    pub(crate) at: Point,
}

impl Missile {
    /// Makes a missile that is fired after the given number of updates from a place, in the direction of a degree and
    /// at a range in metres.
    #[tactic(auto, unfolding(crate::specs::Shots::aimed_x, crate::specs::Shots::aimed_y))]
    pub fn new(updates: u32, from: Point, degree: u16, range: u16) -> Missile
        requires updates { updates ≤ most_updates }
        requires degree { degree < 360 }
        requires range { range ≤ MOST_RANGE }
        ensures { result ≡ record {
          burst = updates + flight range;
          at = record { x = aimed_x from.x degree range; y = aimed_y from.y degree range };
        } }
    {
        Missile {
            burst: updates + flight(range),
            at: Point::new(
                aimed(from.x(), range, cosine_at(degree)),
                aimed(from.y(), range, sine_at(degree)),
            ),
        }
    }

    /// Returns the update in which the missile bursts.
    pub fn burst(&self) -> u32
        ensures { result ≡ self.now.burst }
    {
        self.burst
    }

    /// Reports whether the missile is still in the air after this update.
    pub(crate) fn flies(&self, update: u32) -> bool
        ensures { result ≡ nat_lt update self.now.burst }
    {
        update < self.burst
    }
}

/// Returns how many updates a missile flies to this range in metres.
#[tactic(auto, unfolding(crate::specs::Shots::flight))]
pub fn flight(range: u16) -> u32
    requires { range ≤ MOST_RANGE }
    ensures value { result ≡ flight range }
    ensures most { result ≤ 14 }
{
    u32::from(range.div_ceil(MISSILE_SPEED).max(1))
}

/// Returns where a missile bursts on an axis, from a place in tenths of a metre and at a range in metres, by the part
/// of the range that lies on the axis.
pub fn aimed(from: u16, range: u16, part: i32) -> u16
    requires from { from ≤ last_place }
    requires range { range ≤ MOST_RANGE }
    requires part { unsigned_abs part ≤ 100000 }
    ensures value { result ≡ clamped last_place (along from (pos (10 * range) *ℤ part)) }
    ensures most { result ≤ last_place }
{
    let way = i32::from(10 * range) * part;
    clamped_place(along(from, way))
}
