//! The scales of the picture: where a place or a cycle is drawn, and how faint what is old.

ghost use Rattle.std.specs.Prelude.{◌≡◌, ℕ, ◌+◌, ◌-◌, ◌*◌, ◌/◌, ◌≤◌, IfSome, None, min, max};
ghost use Rattle.watching.specs.Rounds.{AreTooMany, IsFirstOf, IsRound, round_number};

use crate::places::Place;
use arena::LAST_METRE;
use settings::MOST_CYCLES;

/// The space on each side of the field, in units of the picture: a unit is a metre.
pub const MARGIN: u32 = 50;

/// The side of the field in the picture.
pub const SIDE: u32 = LAST_METRE as u32 + 1;

/// The opacity of what happened at the start, in percent; what happened at the end has 100.
pub const FAINTEST: u32 = 25;

/// Returns the place's column in the picture, in units from the left.
pub fn column(place: Place) -> u32
    ensures value { result ≡ MARGIN + place.x / 10 }
    ensures inside { result ≤ MARGIN + SIDE }
{
    MARGIN + u32::from(place.x / 10)
}

/// Returns the place's row in the picture, in units from the top: north is up.
pub fn row(place: Place) -> u32
    ensures value { result ≡ MARGIN + (SIDE - place.y / 10) }
    ensures inside { MARGIN ≤ result }
    ensures most { result ≤ MARGIN + SIDE }
{
    MARGIN + (SIDE - u32::from(place.y / 10))
}

/// Returns the opacity in percent at an update of the match: the older, the fainter.
pub fn opacity(update: u32, updates: u32) -> u32
    ensures value { result ≡ FAINTEST + (100 - FAINTEST) * min update updates / max updates 1 }
    ensures least { FAINTEST ≤ result }
    ensures most { result ≤ 100 }
{
    let share = u64::from(100 - FAINTEST) * u64::from(update.min(updates))
        / u64::from(updates.max(1));
    FAINTEST + share as u32
}

/// The left end of the strip of damage, in units of the picture.
pub const STRIP_LEFT: u32 = 1120;

/// The upper end of the strip of damage, where it has 100 percent.
pub const STRIP_TOP: u32 = 440;

/// The width of the strip of damage: all cycles of the match.
pub const STRIP_WIDTH: u32 = 350;

/// The height of a percent in the strip of damage.
pub const STRIP_PERCENT: u32 = 3;

/// Returns the column in the strip of damage of what happened after a number of the match's cycles.
pub fn strip_column(cycle: u32, cycles: u32) -> u32
    ensures value { result ≡ STRIP_LEFT + STRIP_WIDTH * min cycle cycles / max cycles 1 }
    ensures left { STRIP_LEFT ≤ result }
    ensures right { result ≤ STRIP_LEFT + STRIP_WIDTH }
{
    let way = u64::from(STRIP_WIDTH) * u64::from(cycle.min(cycles)) / u64::from(cycles.max(1));
    STRIP_LEFT + way as u32
}

/// Returns the row in the strip of damage of a damage in percent: more damage is higher up.
pub fn strip_row(percent: u8) -> u32
    ensures value { result ≡ STRIP_TOP + STRIP_PERCENT * (100 - min percent 100) }
    ensures top { STRIP_TOP ≤ result }
    ensures bottom { result ≤ STRIP_TOP + STRIP_PERCENT * 100 }
{
    STRIP_TOP + STRIP_PERCENT * (100 - u32::from(percent.min(100)))
}

/// Returns the least round number of cycles with which marks at its multiples are few: at most `most` beside the one
/// at 0.
pub fn mark_spacing(cycles: u32, most: u32) -> u32
    requires { 1 ≤ most }
    ensures some { 1 ≤ result }
    ensures few { cycles / result ≤ most }
    ensures least { (k : ℕ) → cycles / round_number k ≤ most → result ≤ round_number k }
    ensures round { cycles ≤ MOST_CYCLES → IsRound result }
{
    let mut power = 1u32;
    for _ in 0..10u32 {
        if let Some(spacing) = round_spacing(cycles, most, power) {
            return spacing;
        }
        power = power.saturating_mul(10);
    }
    cycles.max(1)
}

/// Returns the first number that is wide enough of a power of ten, twice and five times as much.
fn round_spacing(cycles: u32, most: u32, power: u32) -> Option<u32>
    requires { 1 ≤ power }
    ensures some { IfSome result (λ spacing. (1 ≤ spacing) × (cycles / spacing ≤ most)) }
    ensures first { IfSome result (IsFirstOf power cycles most) }
    ensures none { result ≡ None → AreTooMany power cycles most }
{
    let (twice, five_times) = (power.saturating_mul(2), power.saturating_mul(5));
    if cycles / power <= most {
        Some(power)
    } else if cycles / twice <= most {
        Some(twice)
    } else if cycles / five_times <= most {
        Some(five_times)
    } else {
        None
    }
}
