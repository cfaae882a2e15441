//! Points of the field.

ghost use Rattle.std.specs.Prelude.{◌≡◌, ◌*◌, ◌≤◌};
ghost use Rattle.std.specs.Int.{abs_diff};
ghost use Rattle.arena.specs.Rules.{last_place};
ghost use Rattle.arena.specs.Collisions.{square};

use std::marker::Model;

/// A point of the field, east and north in tenths of a metre from 0 to 9,999.
#[derive(Clone, Copy, Default, Drop)]
pub struct Point {
    x: u16,
    y: u16,
}

impl Model for Point {
    ghost use Rattle.std.specs.Prelude.{◌≤◌};
    ghost use Rattle.arena.specs.Rules.{last_place};
    ghost use Rattle.arena.specs.Point.{Point};

    ghost Value = { Point };

    ghost view = { λ p. p };

    ghost inverse = { λ p. p };

    ghost invariant = { λ p. (p.x ≤ last_place) × (p.y ≤ last_place) };
}

impl Point {
    /// Makes the point of these coordinates.
    pub fn new(x: u16, y: u16) -> Point
        requires x { x ≤ last_place }
        requires y { y ≤ last_place }
        ensures { result ≡ record { x = x; y = y } }
    {
        Point { x, y }
    }

    /// Returns the coordinate to the east, in tenths of a metre.
    pub fn x(&self) -> u16
        ensures value { result ≡ self.now.x }
        ensures most { result ≤ last_place }
    {
        self.x
    }

    /// Returns the coordinate to the north, in tenths of a metre.
    pub fn y(&self) -> u16
        ensures value { result ≡ self.now.y }
        ensures most { result ≤ last_place }
    {
        self.y
    }

    /// Returns the squared distance of two points, in tenths of a metre.
    #[tactic(auto, unfolding(crate::specs::Collisions::square))]
    pub fn square_to(&self, to: Point) -> u32
        ensures { result ≡ square self.now.x self.now.y to.x to.y }
    {
        axis_square(self.x, to.x()) + axis_square(self.y, to.y())
    }
}

/// Returns the square of what lies between two coordinates in tenths of a metre.
fn axis_square(from: u16, to: u16) -> u32
    requires from { from ≤ last_place }
    requires to { to ≤ last_place }
    ensures value { result ≡ abs_diff from to * abs_diff from to }
    ensures most { result ≤ 99980001 }
{
    let difference = i32::from(from) - i32::from(to);
    (difference * difference) as u32
}
