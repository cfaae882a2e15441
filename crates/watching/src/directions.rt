//! Directions: the eight points of the compass.

ghost use Rattle.std.specs.Prelude.{◌≡◌, ◌<◌};
ghost use Rattle.watching.specs.Directions.{direction_of};

use arith::norm_degree;

/// How many directions there are.
pub const DIRECTIONS: usize = 8;

/// The degrees from one direction to the next.
pub const DIRECTION_DEGREES: usize = 45;

/// Returns the direction that a degree is nearest to: 0 is east, 2 north, 4 west, 6 south.
pub fn direction_of(degree: i32) -> usize
    ensures value { result ≡ direction_of degree }
    ensures inside { result < DIRECTIONS }
{
    (usize::from(norm_degree(degree)) + DIRECTION_DEGREES / 2) % 360 / DIRECTION_DEGREES
}
