//! The bursts of an update, and how much they hurt.

ghost use Rattle.std.specs.Prelude.{◌≡◌, ◌<◌, ◌≤◌, true, false, map, sum, length};
ghost use Rattle.std.specs.Int.{abs_diff};
ghost use Rattle.arena.specs.Rules.{last_place};
ghost use Rattle.arena.specs.Shots.{ring};
ghost use Rattle.arena.specs.Due.{burst_damage};

use crate::points::Point;
use crate::rules::{
    INNER_RING, INNER_RING_DAMAGE, LAST_RING, LAST_RING_DAMAGE, MIDDLE_RING, MIDDLE_RING_DAMAGE,
    MOST_BURSTS, MOST_ROBOTS, MOST_UPDATE_DAMAGE,
};

/// The squared radius of each ring.
const INNER_SQUARE: u32 = INNER_RING as u32 * INNER_RING as u32;

const MIDDLE_SQUARE: u32 = MIDDLE_RING as u32 * MIDDLE_RING as u32;

const LAST_SQUARE: u32 = LAST_RING as u32 * LAST_RING as u32;

/// A missile that bursts in an update: the robot that fired it, and the place of the burst.
#[derive(Clone, Copy, Default, Drop)]
pub struct Burst {
    robot: u8,
    at: Point,
}

impl Burst {
    /// Makes the burst of a robot's missile at a place.
    pub(crate) fn new(robot: usize, at: Point) -> Burst
        requires { robot < MOST_ROBOTS }
        ensures { result ≡ record { robot = robot; at = at } }
    {
        Burst {
            robot: robot as u8,
            at,
        }
    }

    /// Returns the number of the robot that fired the missile, from 0.
    pub fn robot(&self) -> usize
        ensures { result ≡ self.now.robot }
    {
        usize::from(self.robot)
    }

    /// Returns the place on the axis to the east, in tenths of a metre.
    pub fn x(&self) -> u16
        ensures value { result ≡ self.now.at.x }
        ensures most { result ≤ last_place }
    {
        self.at.x()
    }

    /// Returns the place on the axis to the north, in tenths of a metre.
    pub fn y(&self) -> u16
        ensures value { result ≡ self.now.at.y }
        ensures most { result ≤ last_place }
    {
        self.at.y()
    }

    /// Returns the damage in percent that it does at a place.
    #[tactic(auto, unfolding(crate::specs::Due::burst_damage))]
    pub(crate) fn harm(&self, place: Point) -> u8
        ensures value { result ≡ burst_damage place.x place.y self.now }
        ensures most { result ≤ INNER_RING_DAMAGE }
    {
        ring(place.square_to(self.at))
    }

    /// Reports whether it is so far from a place that it does no damage there.
    #[tactic(auto, using(crate::proofs::Squares::far_harm), unfolding(crate::specs::Due::burst_damage))]
    fn misses(&self, place: Point) -> bool
        ensures { result ≡ true → burst_damage place.x place.y self.now ≡ 0 }
    {
        is_far(place.x(), self.at.x()) || is_far(place.y(), self.at.y())
    }
}

/// Returns the damage in percent that some bursts do at a place.
pub(crate) fn harm_by(bursts: &[Burst], place: Point) -> u8
    requires { length bursts.now ≤ MOST_BURSTS }
    ensures value { result ≡ sum (map (burst_damage place.x place.y) bursts.now) }
    ensures most { result ≤ MOST_UPDATE_DAMAGE }
{
    let mut damage = 0;
    for burst in bursts {
        if !burst.misses(place) {
            damage += burst.harm(place);
        }
    }
    damage
}

/// Reports whether two coordinates lie so far apart that no burst at one of them hurts at the other.
fn is_far(from: u16, to: u16) -> bool
    ensures far { result ≡ true → LAST_RING < abs_diff from to }
    ensures near { result ≡ false → abs_diff from to ≤ LAST_RING }
{
    let difference = i32::from(from) - i32::from(to);
    difference < -i32::from(LAST_RING) || difference > i32::from(LAST_RING)
}

/// Returns the damage in percent of a burst at a squared distance in tenths of a metre: that of the smallest ring that
/// reaches there.
#[tactic(auto, unfolding(crate::specs::Shots::ring))]
fn ring(square: u32) -> u8
    ensures value { result ≡ ring square }
    ensures most { result ≤ INNER_RING_DAMAGE }
{
    if square <= INNER_SQUARE {
        INNER_RING_DAMAGE
    } else if square <= MIDDLE_SQUARE {
        MIDDLE_RING_DAMAGE
    } else if square <= LAST_SQUARE {
        LAST_RING_DAMAGE
    } else {
        0
    }
}
