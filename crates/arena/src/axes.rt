//! The sums of one axis: where a leg leads, in hundred-thousandths of a tenth of a metre.

ghost use Rattle.std.specs.Prelude.{◌≡◌, ◌≤◌, ◌/◌, pos, ◌*ℤ◌, unsigned_abs, ◌||◌};
ghost use Rattle.arena.specs.Rules.{last_place};
ghost use Rattle.arena.specs.Sums.{sum_from, is_beyond, place_of, clamped_place_of, IsInField};

use crate::rules::{LAST_METRE, LAST_PLACE, MOST_SPEED};

/// How many of them a tenth of a metre has: a way is in the same units.
pub const SUM_UNITS: i32 = 100_000;

/// The greatest sum of a place of the field.
pub const LAST_SUM: i32 = (LAST_PLACE as i32 + 1) * SUM_UNITS - 1;

/// Returns the sum at the origin of a leg, by the part of the heading that lies on the axis: a sum that falls starts at
/// the end of its tenth.
#[tactic(auto, unfolding(crate::specs::Sums::sum_from, crate::specs::Sums::rounding_start))]
pub fn sum_at(origin: u16, part: i32) -> i32
    requires { origin ≤ last_place }
    ensures value { result ≡ sum_from origin part (pos 0) }
    ensures field { IsInField result }
{
    let slack = if part < 0 { SUM_UNITS - 1 } else { 0 };
    i32::from(origin) * SUM_UNITS + slack
}

/// Returns how much a sum grows in an update at this speed.
pub fn sum_step(speed: u8, part: i32) -> i32
    requires speed { speed ≤ MOST_SPEED }
    requires part { unsigned_abs part ≤ 100000 }
    ensures value { result ≡ pos speed *ℤ part }
    ensures most { unsigned_abs result ≤ 10000000 }
{
    i32::from(speed) * part
}

/// Returns the place to which a sum in the field leads, in tenths of a metre.
pub fn place_of(sum: i32) -> u16
    requires { IsInField sum }
    ensures value { result ≡ place_of sum }
    ensures most { result ≤ last_place }
{
    (sum as u32 / SUM_UNITS as u32) as u16
}

/// Returns the place to which a sum in the field leads, in whole metres rounded down.
pub fn metres_of(sum: i32) -> u16
    requires { IsInField sum }
    ensures value { result ≡ place_of sum / 10 }
    ensures most { result ≤ LAST_METRE }
{
    (sum as u32 / (10 * SUM_UNITS as u32)) as u16
}

/// Reports whether a sum leads beyond a wall.
#[tactic(auto, unfolding(crate::specs::Sums::is_beyond))]
fn is_beyond(sum: i32) -> bool
    ensures { result ≡ is_beyond sum }
{
    sum < 0 || sum > LAST_SUM
}

/// Reports whether the sums of a point lead beyond a wall.
pub fn leads_beyond(east: i32, north: i32) -> bool
    ensures { result ≡ (is_beyond east || is_beyond north) }
{
    is_beyond(east) || is_beyond(north)
}

/// Returns the place of the field that is nearest to where a sum leads, in tenths of a metre.
#[tactic(auto, unfolding(crate::specs::Sums::clamped_place_of, crate::specs::Leg::clamped))]
pub fn clamped_place_of(sum: i32) -> u16
    ensures value { result ≡ clamped_place_of sum }
    ensures most { result ≤ last_place }
{
    place_of(sum.clamp(0, LAST_SUM))
}
