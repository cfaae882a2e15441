//! Where robots are at the start of a match.

ghost use Rattle.std.specs.Prelude.{◌≡◌, ℕ, ◌+◌, ◌*◌, ◌/◌, ◌%◌, ◌<◌, ◌≤◌, ℤ, pos, ◌≤ℤ◌, map, All, length};
ghost use Rattle.arena.specs.Rules.{last_place};
ghost use Rattle.arena.specs.Leg.{clamped};
ghost use Rattle.arena.specs.Random.{generator, random_word};
ghost use Rattle.arena.specs.Start.{robot_at_rest, drawn_place, start};
ghost use Rattle.arena.specs.Placed.{placed, IsPlace};
ghost use Rattle.arena.specs.Arena.{robot_of};

use crate::points::Point;
use crate::random::draw_word;
use crate::robots::Robot;
use crate::rules::{FIRST_HIGH_START, FIRST_LOW_START, MOST_ROBOTS, START_PLACES};
use arrayvec::ArrayVec;
use rand_pcg::Pcg32;

/// Makes robots at drawn places: the first word chooses the quadrant of robot 0, the others follow in the
/// next ones, and each draws x and then y.
pub(crate) fn drawn_robots(random: &mut Pcg32, n: usize) -> ArrayVec<Robot, MOST_ROBOTS>
    requires { n ≤ MOST_ROBOTS }
    ensures robots { (seed number : ℕ) → random.old ≡ generator seed number 0
        → result.items ≡ map robot_of (start seed number n).robots }
    ensures words { (seed number : ℕ) → random.old ≡ generator seed number 0
        → random.new ≡ generator seed number (1 + 2 * n) }
    ensures manned { length result.items ≡ n }
{
    let first = draw_word(random) % 4;
    let mut robots = ArrayVec::new();
    for i in 0..n {
        let quadrant = (i as u32 + first) % 4;
        robots.push(drawn_robot(random, quadrant));
    }
    robots
}

/// Draws a robot's place in a quadrant, of which bit 0 is the east half and bit 1 the north half.
fn drawn_robot(random: &mut Pcg32, quadrant: u32) -> Robot
    requires { quadrant < 4 }
    ensures robot { (seed number drawn : ℕ) → random.old ≡ generator seed number drawn
        → result ≡ robot_of (robot_at_rest (drawn_place (quadrant % 2) (random_word seed number drawn))
        (drawn_place (quadrant / 2) (random_word seed number (drawn + 1)))) }
    ensures words { (seed number drawn : ℕ) → random.old ≡ generator seed number drawn
        → random.new ≡ generator seed number (drawn + 2) }
{
    let x = drawn_place(quadrant % 2, draw_word(random));
    let y = drawn_place(quadrant / 2, draw_word(random));
    Robot::at_rest(Point::new(x, y))
}

/// Returns the place of a word in the low half of an axis, or in the high one.
#[tactic(auto, unfolding(crate::specs::Start::drawn_place))]
fn drawn_place(half: u32, word: u32) -> u16
    ensures value { result ≡ drawn_place half word }
    ensures most { result ≤ last_place }
{
    let from = if half == 0 {
        FIRST_LOW_START
    } else {
        FIRST_HIGH_START
    };
    (from + word % START_PLACES) as u16
}

/// Makes robots at given places, in tenths of a metre.
pub(crate) fn placed_robots(
    places: &ArrayVec<(i32, i32), MOST_ROBOTS>,
) -> ArrayVec<Robot, MOST_ROBOTS>
    requires { All IsPlace places.now.items }
    ensures robots { (seed number : ℕ) → result.items ≡ map robot_of (placed seed number places.now.items).robots }
    ensures manned { length result.items ≡ length places.now.items }
{
    let mut robots = ArrayVec::new();
    for place in places.as_slice() {
        let place = Point::new(coordinate(place.0), coordinate(place.1));
        robots.push(Robot::at_rest(place));
    }
    robots
}

/// Returns a given coordinate as a place of the field.
#[tactic(auto, unfolding(crate::specs::Leg::clamped))]
fn coordinate(z: i32) -> u16
    requires least { pos 0 ≤ℤ z }
    requires most { z ≤ℤ pos last_place }
    ensures value { result ≡ clamped last_place z }
    ensures most { result ≤ last_place }
{
    z as u16
}
