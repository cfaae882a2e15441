//! Places on the field.

ghost use Rattle.std.specs.Prelude.{◌≡◌, ◌≤◌, ◌<◌, length};
ghost use Rattle.arena.specs.Field.{Field, robot_at};
ghost use Rattle.arena.specs.Leg.{place_x, place_y};
ghost use Rattle.arena.specs.Rules.{last_place};
ghost use Rattle.arena.specs.Representing.{RepresentsField};

use arena::Arena;

/// A place on the field.
#[derive(Clone, Copy, Drop)]
pub struct Place {
    /// The coordinate to the east, in tenths of a metre from 0 to 9,999.
    pub x: u16,
    /// The coordinate to the north, in tenths of a metre from 0 to 9,999.
    pub y: u16,
    pub ghost on_x: { x ≤ last_place },
    pub ghost on_y: { y ≤ last_place },
}

impl Default for Place {
    fn default() -> Place {
        Place { x: 0, y: 0 }
    }
}

impl Place {
    /// Returns where a robot of an arena is.
    pub fn of(arena: &Arena, robot: usize) -> Place
        requires { robot < length arena.now.robots }
        ensures x { (f : Field) → RepresentsField arena.now f → result.x ≡ place_x (robot_at f robot).leg }
        ensures y { (f : Field) → RepresentsField arena.now f → result.y ≡ place_y (robot_at f robot).leg }
    {
        let (x, y) = arena.place(robot);
        Place { x, y }
    }
}
