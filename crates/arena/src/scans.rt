//! What a scan sees.

ghost use Rattle.std.specs.Prelude.{◌≡◌, ◌+◌, ◌*◌, ◌/◌, ◌<◌, ◌≤◌, true, false, if◌then◌else◌, map, filter, min, length, pos, unsigned_abs};
ghost use Rattle.arith.specs.Root.{root_of};
ghost use Rattle.arena.specs.Field.{FieldRobot, Field, robot_at};
ghost use Rattle.arena.specs.Collisions.{others};
ghost use Rattle.arena.specs.Scan.{sees, scanned};
ghost use Rattle.arena.specs.Nearer.{IsAtMetres, IsLeast, IsSquare, arc_contains, range_at, squared_length, square_to};
ghost use Rattle.arena.specs.Arena.{robot_of};

use crate::arcs::Arc;
use crate::robots::Robot;
use crate::rules::MOST_RESOLUTION;
use crate::ways::{MOST_SQUARE, MetrePoint, Way};

/// More than any squared distance: no robot is seen.
const OUT_OF_SIGHT: u32 = u32::MAX;

/// Returns the range in metres of the nearest live robot whose bearing differs from a degree by at most the resolution
/// of at most 10, or 0.
pub(crate) fn nearest_range(robots: &[Robot], robot: usize, degree: u16, resolution: u16) -> u16
    requires inside { robot < length robots.now }
    requires degree { degree < 360 }
    requires resolution { resolution ≤ MOST_RESOLUTION }
    ensures { (field : Field) → robots.now ≡ map robot_of field.robots → result ≡ scanned field robot degree resolution }
{
    range_at(nearest(robots, robot, degree, resolution))
}

/// Returns the squared distance of the nearest of the other robots that a robot sees, if there is one.
fn nearest(robots: &[Robot], robot: usize, degree: u16, resolution: u16) -> u32
    requires inside { robot < length robots.now }
    requires degree { degree < 360 }
    requires resolution { resolution ≤ MOST_RESOLUTION }
    ensures nearest { (field : Field) → robots.now ≡ map robot_of field.robots → IsLeast result
        (map (square_to (robot_at field robot))
        (filter (sees (robot_at field robot) degree resolution) (others field.robots robot))) }
    ensures square { IsSquare result }
{
    let from = MetrePoint::of_robot(&robots[robot]);
    let arc = Arc::new(degree, resolution);
    let mut nearest = OUT_OF_SIGHT;
    for (i, other) in robots.iter().enumerate() {
        if i != robot {
            nearest = nearer(&from, &arc, other, nearest);
        }
    }
    nearest
}

/// Returns the squared distance of a robot if it is seen and nearer than the one so far, else the one so far.
#[inline(always)]
fn nearer(from: &MetrePoint, arc: &Arc, other: &Robot, so_far: u32) -> u32
    requires so_far { IsSquare so_far }
    ensures value { (a b : FieldRobot) → IsAtMetres from.now.x from.now.y a → other.now ≡ robot_of b
        → result ≡ (if sees a arc.now.degree arc.now.resolution b then min so_far (square_to a b) else so_far) }
    ensures square { IsSquare result }
    ensures seen { (a b : FieldRobot) → IsAtMetres from.now.x from.now.y a → other.now ≡ robot_of b
        → sees a arc.now.degree arc.now.resolution b ≡ true → result ≤ MOST_SQUARE }
{
    if !other.is_alive() {
        return so_far;
    }
    let way = from.way_to(other);
    if arc.surely_excludes(&way) {
        return so_far;
    }
    shorter(&way, arc, so_far)
}

/// Returns the squared length of a way if it leads into an arc and is shorter than the one so far, else the one so far.
/// Whether one leads into the arc that isn't shorter need not be known.
fn shorter(way: &Way, arc: &Arc, so_far: u32) -> u32
    requires so_far { IsSquare so_far }
    ensures value { result ≡ (if arc_contains way.now.east way.now.north arc.now.degree arc.now.resolution
        then min so_far (squared_length way.now.east way.now.north) else so_far) }
    ensures square { IsSquare result }
    ensures seen { arc_contains way.now.east way.now.north arc.now.degree arc.now.resolution ≡ true
        → result ≤ MOST_SQUARE }
{
    let square = way.square();
    if so_far <= square {
        return so_far;
    }
    if arc.contains(way) { square } else { so_far }
}

/// Returns the range in metres at a squared distance, at least 1, and 0 for none.
fn range_at(square: u32) -> u16
    requires { IsSquare square }
    ensures { result ≡ range_at square }
{
    if square == OUT_OF_SIGHT {
        return 0;
    }
    whole_root(square.max(1))
}

/// Returns the whole root of a squared distance, by Newton's iteration down from a guess that isn't below it.
/// `arith::root` is the same number, with one or two divisions more: it begins further above the root, and ends with an
/// iterate that leads no further down.
fn whole_root(square: u32) -> u16
    requires some { 0 < square }
    requires most { square ≤ MOST_SQUARE }
    ensures { result ≡ unsigned_abs (root_of (pos square)) }
{
    let mut guess = near_root(square);
    while square < guess * guess {
        guess = newton_iterate(square, guess);
    }
    guess as u16
}

/// Returns a guess that isn't below the root of a squared distance, and hardly above it: the second
/// iterate from a power of 2 near the root.
fn near_root(square: u32) -> u32
    requires some { 0 < square }
    requires most { square ≤ MOST_SQUARE }
    ensures above { square < (result + 1) * (result + 1) }
    ensures bound { result ≤ 2000 }
{
    let power = 1 << ((square.ilog2() + 1) / 2);
    newton_iterate(square, newton_iterate(square, power))
}

/// Returns the mean of a guess and of a square divided by it, which is at least the root.
fn newton_iterate(square: u32, guess: u32) -> u32
    requires some { 0 < guess }
    requires square { square ≤ MOST_SQUARE }
    requires guess { guess ≤ 2000 }
    ensures { result ≡ (guess + square / guess) / 2 }
{
    (guess + square / guess) / 2
}
