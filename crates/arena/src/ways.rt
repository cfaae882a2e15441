//! Ways from a robot to the others, in whole metres.

ghost use Rattle.std.specs.Prelude.{◌≡◌, ◌≤◌, true, false, pos, unsigned_abs};
ghost use Rattle.arena.specs.Field.{FieldRobot};
ghost use Rattle.arena.specs.Scan.{east_to, north_to};
ghost use Rattle.arena.specs.Nearer.{IsAtMetres, squared_length};
ghost use Rattle.arena.specs.Arena.{robot_of};
ghost use Rattle.arena.specs.declared.rules.TheConstants.{LAST_METRE};

use crate::robots::Robot;
use crate::rules::LAST_METRE;

/// No squared length of a way is greater.
pub const MOST_SQUARE: u32 = 2_000_000;

/// A robot's place, in whole metres rounded down.
#[derive(Clone, Copy, Drop)]
pub struct MetrePoint {
    x: u16,
    y: u16,
    ghost x_in_field: { x ≤ LAST_METRE },
    ghost y_in_field: { y ≤ LAST_METRE },
}

impl MetrePoint {
    /// Returns the place of a robot.
    pub fn of_robot(robot: &Robot) -> MetrePoint
        ensures { (a : FieldRobot) → robot.now ≡ robot_of a → IsAtMetres result.x result.y a }
    {
        MetrePoint {
            x: robot.metres_x(),
            y: robot.metres_y(),
        }
    }

    /// Returns the way from here to a robot.
    pub fn way_to(&self, robot: &Robot) -> Way
        ensures east { (a b : FieldRobot) → IsAtMetres self.now.x self.now.y a → robot.now ≡ robot_of b
            → result.east ≡ east_to a b }
        ensures north { (a b : FieldRobot) → IsAtMetres self.now.x self.now.y a → robot.now ≡ robot_of b
            → result.north ≡ north_to a b }
    {
        Way {
            east: i32::from(robot.metres_x()) - i32::from(self.x),
            north: i32::from(robot.metres_y()) - i32::from(self.y),
        }
    }
}

/// A way from one place of the field to another, in whole metres.
#[derive(Clone, Copy, Drop)]
pub struct Way {
    pub east: i32,
    pub north: i32,
    pub ghost east_in_field: { unsigned_abs east ≤ LAST_METRE },
    pub ghost north_in_field: { unsigned_abs north ≤ LAST_METRE },
}

impl Way {
    /// Reports whether the way leads nowhere.
    pub fn is_none(&self) -> bool
        ensures none { result ≡ true → (self.now.east ≡ pos 0) × (self.now.north ≡ pos 0) }
        ensures some { result ≡ false → self.now.east ≡ pos 0 → self.now.north ≡ pos 0 → ⊥ }
    {
        self.east == 0 && self.north == 0
    }

    /// Returns the squared length.
    pub fn square(&self) -> u32
        ensures value { result ≡ squared_length self.now.east self.now.north }
        ensures most { result ≤ MOST_SQUARE }
    {
        (self.east * self.east + self.north * self.north) as u32
    }
}
