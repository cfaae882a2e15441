//! The robots after an update. Who chooses whom:
//!
//!     move_robots: for how many updates are the robots known to be apart?
//!      |
//!      +- some -> move_apart_robots: all move; if a missile bursts, hurt_near_bursts
//!      |
//!      +- none -> move_measured_robots: for how many are they, by the gaps between them (updates_apart)?
//!                  |
//!                  +- some -> move_apart_robots
//!                  |
//!                  +- none -> move_close_robots: all move; if two come close or a missile bursts, put_back_and_hurt
//!
//! `move_robots` answers for how many more updates they are known to be apart: 0 after `move_close_robots`. The arena
//! keeps that number for the next update.

ghost use Rattle.std.specs.Prelude.{◌≡◌, ℕ, ◌+◌, ◌/◌, ◌<◌, ◌≤◌, List, All, map, length};
ghost use Rattle.arena.specs.Field.{Shot, FieldRobot, Field};
ghost use Rattle.arena.specs.Collisions.{attempted_move, collision_count};
ghost use Rattle.arena.specs.Moved.{moved_robot, moved};
ghost use Rattle.arena.specs.Arena.{robot_of};
ghost use Rattle.arena.specs.Ahead.{robot_ahead};
ghost use Rattle.arena.specs.Due.{HarmLikeShots};
ghost use Rattle.arena.specs.Apart.{robot_in, gap, IsNearby, IsAtPlace, AreApartFor};
ghost use Rattle.arena.specs.Representing.{HoldsShots};

use crate::axes::{LAST_SUM, SUM_UNITS};
use crate::bursts::{Burst, harm_by};
use crate::collisions::{AttemptedMove, any_are_close, robot_collision_count};
use crate::missiles::Missiles;
use crate::robots::{Robot, damage_after};
use crate::rules::{MOST_BURSTS, MOST_ROBOTS, MOST_SPEED, NEAR};
use arrayvec::ArrayVec;

/// Robots are close if their sums are less than this from each other on both axes: a metre.
const CLOSE: u32 = NEAR as u32 * SUM_UNITS as u32;

/// By how much the sums of two robots come nearer to each other in an update, at most: each moves ten metres.
const APPROACH: u32 = 2 * MOST_SPEED as u32 * SUM_UNITS as u32;

/// Moves all robots on, each as far as walls let it, and returns what collisions have to know.
pub fn move_all_with_attempts(robots: &mut [Robot]) -> ArrayVec<AttemptedMove, MOST_ROBOTS>
    requires { length robots.old ≤ MOST_ROBOTS }
    ensures ahead { (rs : List FieldRobot) → robots.old ≡ map robot_of rs → robots.new ≡ map robot_ahead rs }
    ensures movers { (rs : List FieldRobot) → robots.old ≡ map robot_of rs → result.items ≡ map attempted_move rs }
    ensures count { length result.items ≡ length robots.old }
{
    let mut movers = ArrayVec::new();
    for robot in robots {
        movers.push(robot.move_ahead_as_mover());
    }
    movers
}

/// Returns one robot after the update, from where it has moved on, given how many others it collides with and the
/// bursts of the update.
fn robot_after(robot: &Robot, seen: &AttemptedMove, touched: usize, bursts: &[Burst]) -> Robot
    requires touched { touched ≤ MOST_ROBOTS }
    requires few { length bursts.now ≤ MOST_BURSTS }
    ensures { (r : FieldRobot) (update : ℕ) (shots : List Shot) → HarmLikeShots update shots bursts.now
        → robot.now ≡ robot_ahead r → seen.now ≡ attempted_move r → result ≡ robot_of (moved_robot update shots touched r) }
{
    if !seen.live {
        return *robot;
    }
    let motion = robot.motion_after(seen, touched);
    let harm = harm_by(bursts, motion.place());
    Robot::new(motion, damage_after(robot.damage(), touched, harm))
}

/// Puts robots back that collide, and hurts those and the ones near a burst.
fn put_back_and_hurt(
    robots: &mut [Robot],
    movers: &[AttemptedMove],
    missiles: &Missiles,
    update: u32,
)
    requires most { length robots.old ≤ MOST_ROBOTS }
    requires count { length movers.now ≡ length robots.old }
    ensures { (f : Field) → update ≡ f.updates + 1 → robots.old ≡ map robot_ahead f.robots
        → movers.now ≡ map attempted_move f.robots → HoldsShots f.updates missiles.now f.shots
        → robots.new ≡ map robot_of (moved f).robots }
{
    let bursts = missiles.bursts(update);
    for i in 0..robots.len() {
        let touched = robot_collision_count(movers, i);
        robots[i] = robot_after(&robots[i], &movers[i], touched, bursts.as_slice());
    }
}

/// Moves robots on that may come close to each other. Collisions are looked for only if two are close or a missile
/// bursts.
#[inline(never)]
fn move_close_robots(robots: &mut [Robot], missiles: &Missiles, update: u32)
    requires { length robots.old ≤ MOST_ROBOTS }
    ensures { (f : Field) → update ≡ f.updates + 1 → robots.old ≡ map robot_of f.robots
        → HoldsShots f.updates missiles.now f.shots → robots.new ≡ map robot_of (moved f).robots }
{
    let movers = move_all_with_attempts(robots);
    if missiles.has_no_burst_by(update) && !any_are_close(movers.as_slice()) {
        return;
    }
    put_back_and_hurt(robots, movers.as_slice(), missiles, update);
}

/// Moves all robots on, each as far as walls let it.
fn move_all(robots: &mut [Robot])
    ensures ahead { (rs : List FieldRobot) → robots.old ≡ map robot_of rs → robots.new ≡ map robot_ahead rs }
    ensures nearby { (k : ℕ) → k < length robots.old
        → IsNearby (robot_in robots.old k).motion (robot_in robots.new k).motion }
{
    for robot in robots {
        robot.move_ahead();
    }
}

/// Hurts the robots that are near a burst.
#[inline(never)]
fn hurt_near_bursts(robots: &mut [Robot], missiles: &Missiles, update: u32)
    ensures robots { (f : Field) → update ≡ f.updates + 1 → robots.old ≡ map robot_ahead f.robots
        → HoldsShots f.updates missiles.now f.shots
        → ((i : ℕ) → i < length f.robots → collision_count (map attempted_move f.robots) i ≡ 0)
        → robots.new ≡ map robot_of (moved f).robots }
    ensures places { (k : ℕ) → k < length robots.old
        → IsAtPlace (robot_in robots.old k).motion (robot_in robots.new k).motion }
{
    let bursts = missiles.bursts(update);
    for robot in robots {
        let harm = harm_by(bursts.as_slice(), robot.place());
        robot.take_damage(harm);
    }
}

/// Returns the least of `so_far` and of the gaps between a robot and others, in hundred-thousandths of a tenth of a
/// metre. A gap is the greater of the distances along x and along y.
fn least_gap(robot: &Robot, others: &[Robot], so_far: u32) -> u32
    ensures less { result ≤ so_far }
    ensures least { All (λ other. result / 100000 ≤ gap robot.now.motion other.motion) others.now }
{
    let mut least = so_far;
    for other in others {
        least = least.min(robot.gap(other));
    }
    least
}

/// Returns for how many updates no two robots come close to each other: each moves at most ten metres in one.
fn updates_apart(robots: &[Robot]) -> u32
    ensures { AreApartFor result robots.now }
{
    let mut least = LAST_SUM as u32;
    for (i, robot) in robots.iter().enumerate() {
        least = least_gap(robot, &robots[i + 1..], least);
        if least < CLOSE + APPROACH {
            return 0;
        }
    }
    least.saturating_sub(CLOSE) / APPROACH
}

/// Moves robots on that don't come close to each other for some updates, and returns for how many more they don't.
#[inline(always)]
fn move_apart_robots(robots: &mut [Robot], missiles: &Missiles, update: u32, apart: u32) -> u32
    requires some { 0 < apart }
    requires far { AreApartFor apart robots.old }
    ensures far { AreApartFor result robots.new }
    ensures robots { (f : Field) → update ≡ f.updates + 1 → robots.old ≡ map robot_of f.robots
        → HoldsShots f.updates missiles.now f.shots → robots.new ≡ map robot_of (moved f).robots }
{
    move_all(robots);
    if !missiles.has_no_burst_by(update) {
        hurt_near_bursts(robots, missiles, update);
    }
    apart - 1
}

/// Moves robots on of which it isn't known whether any come close to each other, and returns for how many more updates
/// none do.
#[inline(never)]
fn move_measured_robots(robots: &mut [Robot], missiles: &Missiles, update: u32) -> u32
    requires { length robots.old ≤ MOST_ROBOTS }
    ensures far { AreApartFor result robots.new }
    ensures robots { (f : Field) → update ≡ f.updates + 1 → robots.old ≡ map robot_of f.robots
        → HoldsShots f.updates missiles.now f.shots → robots.new ≡ map robot_of (moved f).robots }
{
    let apart = updates_apart(robots);
    if apart == 0 {
        move_close_robots(robots, missiles, update);
        return 0;
    }
    move_apart_robots(robots, missiles, update, apart)
}

/// Moves robots to where they are after an update, of which this is the number, and returns for how many more updates
/// no two of them come close to each other, as far as it is known. Whether any may is asked only if it isn't known that
/// they don't.
pub fn move_robots(robots: &mut [Robot], missiles: &Missiles, update: u32, apart: u32) -> u32
    requires most { length robots.old ≤ MOST_ROBOTS }
    requires far { AreApartFor apart robots.old }
    ensures far { AreApartFor result robots.new }
    ensures robots { (f : Field) → update ≡ f.updates + 1 → robots.old ≡ map robot_of f.robots
        → HoldsShots f.updates missiles.now f.shots → robots.new ≡ map robot_of (moved f).robots }
{
    if apart == 0 {
        return move_measured_robots(robots, missiles, update);
    }
    move_apart_robots(robots, missiles, update, apart)
}
