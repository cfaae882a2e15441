//! Places on an axis: where a way leads.

ghost use Rattle.std.specs.Prelude.{◌≡◌, ◌≤◌};
ghost use Rattle.arena.specs.Rules.{last_place};
ghost use Rattle.arena.specs.Leg.{clamped, along};

use crate::axes::SUM_UNITS;
use crate::rules::LAST_PLACE;

/// Returns the coordinate to which a way leads from an origin, in tenths of a metre, perhaps beyond a wall. The way is
/// in hundred-thousandths of a tenth of a metre.
#[tactic(auto, unfolding(crate::specs::Leg::along))]
pub(crate) fn along(origin: u16, way: i32) -> i32
    ensures { result ≡ along origin way }
{
    i32::from(origin) + way / SUM_UNITS
}

/// Returns the place of the field that is nearest to a coordinate.
#[tactic(auto, unfolding(crate::specs::Leg::clamped))]
pub(crate) fn clamped_place(z: i32) -> u16
    ensures value { result ≡ clamped last_place z }
    ensures most { result ≤ last_place }
{
    z.clamp(0, i32::from(LAST_PLACE)) as u16
}
