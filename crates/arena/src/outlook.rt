//! What the next update will do, asked before it is done: it changes nothing.

ghost use Rattle.std.specs.Prelude.{◌≡◌, ◌<◌, ◌≤◌, true, List, map, length};
ghost use Rattle.arena.specs.Leg.{place_x, place_y};
ghost use Rattle.arena.specs.Field.{FieldRobot, Field, robot_at};
ghost use Rattle.arena.specs.Collisions.{attempted_move, collision_count};
ghost use Rattle.arena.specs.Arena.{robot_of, is_live};
ghost use Rattle.arena.specs.Representing.{RepresentsField};
ghost use Rattle.arena.specs.Outlook.{due, meets_wall, collides_with, next_leg, taken_by};

use crate::arenas::Arena;
use crate::bursts::Burst;
use crate::collisions::{AttemptedMove, robot_collision_count};
use crate::points::Point;
use crate::robots::Robot;
use crate::rules::{INNER_RING_DAMAGE, MOST_BURSTS, MOST_ROBOTS, MOST_SPEED};
use crate::updates::move_all_with_attempts;
use arrayvec::ArrayVec;

impl Arena {
    /// Returns how many robots there are, the dead ones included: 2 to 4.
    pub fn robot_count(&self) -> usize
        ensures value { result ≡ length self.now.robots }
        ensures stands { (f : Field) → RepresentsField self.now f → result ≡ length f.robots }
    {
        self.robots().len()
    }

    /// Returns the heading in which a robot moves, in degrees from 0 to 359: not the one that it wants.
    pub fn heading(&self, robot: usize) -> u16
        requires { robot < length self.now.robots }
        ensures most { result < 360 }
        ensures stands { (f : Field) → RepresentsField self.now f → result ≡ (robot_at f robot).leg.heading }
    {
        self.robot(robot).heading()
    }

    /// Returns the speed at which a robot moves, in percent: not the one that it wants.
    pub fn speed(&self, robot: usize) -> u8
        requires { robot < length self.now.robots }
        ensures most { result ≤ MOST_SPEED }
        ensures stands { (f : Field) → RepresentsField self.now f → result ≡ (robot_at f robot).leg.speed }
    {
        self.robot(robot).speed()
    }

    /// Returns the missiles that burst in the next update, robot by robot, each robot's in the order in which it fired
    /// them.
    pub fn due(&self) -> ArrayVec<Burst, MOST_BURSTS>
        ensures { (f : Field) → RepresentsField self.now f → result.items ≡ due f }
    {
        self.missiles().bursts(self.next_update())
    }

    /// Reports whether a wall stops a robot in the next update, which takes 2 percent. None stops a dead robot.
    pub fn meets_wall(&self, robot: usize) -> bool
        requires { robot < length self.now.robots }
        ensures { (f : Field) → RepresentsField self.now f → result ≡ meets_wall f robot }
    {
        self.robot(robot).meets_wall()
    }

    /// Reports whether two robots collide in the next update, which takes 2 percent from each. No robot meets itself,
    /// and none meets a dead one.
    pub fn meets(&self, a: usize, b: usize) -> bool
        requires a { a < length self.now.robots }
        requires b { b < length self.now.robots }
        ensures { (f : Field) → RepresentsField self.now f → result ≡ collides_with f a b }
    {
        a != b
            && self
                .robot(a)
                .attempted_move()
                .collides(&self.robot(b).attempted_move())
    }

    /// Returns what a burst takes from a robot in the next update, in percent, at the place where the robot then is: 0,
    /// 3, 5 or 10. It takes nothing from a dead robot.
    pub fn taken_by(&self, robot: usize, burst: &Burst) -> u8
        requires { robot < length self.now.robots }
        ensures most { result ≤ INNER_RING_DAMAGE }
        ensures stands { (f : Field) → RepresentsField self.now f → result ≡ taken_by f robot burst.now }
    {
        if !self.alive(robot) {
            return 0;
        }
        burst.harm(self.next_place(robot))
    }

    /// Returns where a live robot is after the next update.
    fn next_place(&self, robot: usize) -> Point
        requires inside { robot < length self.now.robots }
        requires live { is_live self.now robot ≡ true }
        ensures x { (f : Field) → RepresentsField self.now f → result.x ≡ place_x (next_leg f robot) }
        ensures y { (f : Field) → RepresentsField self.now f → result.y ≡ place_y (next_leg f robot) }
    {
        let movers = movers(self.robots());
        let mut ahead = *self.robot(robot);
        let seen = ahead.move_ahead_as_mover();
        let motion = ahead.motion_after(&seen, robot_collision_count(movers.as_slice(), robot));
        motion.place()
    }
}

/// Returns what collisions of the next update have to know of some robots: copies of them move on.
fn movers(robots: &[Robot]) -> ArrayVec<AttemptedMove, MOST_ROBOTS>
    requires { length robots.now ≤ MOST_ROBOTS }
    ensures movers { (rs : List FieldRobot) → robots.now ≡ map robot_of rs → result.items ≡ map attempted_move rs }
    ensures count { length result.items ≡ length robots.now }
{
    let mut copies: ArrayVec<Robot, MOST_ROBOTS> = ArrayVec::new();
    let _ = copies.try_extend_from_slice(robots);
    move_all_with_attempts(copies.as_mut_slice())
}
