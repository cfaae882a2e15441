//! The drills of the field: robots that march and shoot, robots at rest, scans, bearings.

ghost use Rattle.std.specs.Prelude.{◌≡◌, ◌<◌, length};

use arena::{Arena, MOST_ROBOTS};
use arith::{MOST_DIFFERENCE, bearing};
use arrayvec::ArrayVec;
use grammar::Intrinsic;

/// The most updates of a drill.
const MOST_UPDATES: u32 = 10_000_000;

/// How many differences two places of an axis may have, in whole metres.
const DIFFERENCES: u32 = 2 * MOST_DIFFERENCE as u32 + 1;

/// The number of updates after which the robots turn, and shoot again as far as they can: those of a missile's flight.
const ROUND: u32 = 14;

/// Lets four robots march to and fro for this number of updates, with two missiles each in the air. Returns the damage
/// of the first one, in percent.
pub fn marches(updates: u32) -> u8 {
    let mut arena = far_apart();
    for update in 0..updates.min(MOST_UPDATES) {
        if update % ROUND == 0 {
            for robot in 0..MOST_ROBOTS {
                order(&mut arena, robot, update / ROUND % 2 == 0);
            }
        }
        arena.update();
    }
    arena.damage(0)
}

/// Lets four robots stand still for this number of updates, with nothing in the air. Returns the damage of the first
/// one, in percent.
pub fn rests(updates: u32) -> u8 {
    let mut arena = far_apart();
    for _update in 0..updates.min(MOST_UPDATES) {
        arena.update();
    }
    arena.damage(0)
}

/// Makes this number of scans that see three robots. Returns the last range in metres: that of the nearest robot. An
/// update comes first, so that the compiler knows none of the places.
pub fn scans(times: u32) -> i32 {
    let mut arena = in_a_row();
    arena.update();
    let mut range = 0;
    for n in 0..times {
        if arena.alive(0) {
            range = arena.ask(0, Intrinsic::Scan, [40 + (n % 10) as i32, 10]);
        }
    }
    range
}

/// Works out this number of bearings, of points all over the field. Returns the last one, in degrees.
pub fn bearings(times: u32) -> u16 {
    let mut degree = 0;
    for n in 0..times {
        let dx = (n % DIFFERENCES * 37 % DIFFERENCES) as i32 - i32::from(MOST_DIFFERENCE);
        let dy = (n % DIFFERENCES * 53 % DIFFERENCES) as i32 - i32::from(MOST_DIFFERENCE);
        degree = bearing(dx, dy);
    }
    degree
}

/// Has a live robot march east or west, and shoot twice to where nobody is.
fn order(arena: &mut Arena, robot: usize, is_east: bool)
    requires robots { length arena.old.robots ≡ MOST_ROBOTS }
    requires inside { robot < MOST_ROBOTS }
    ensures updates { arena.new.updates ≡ arena.old.updates }
    ensures robots { length arena.new.robots ≡ MOST_ROBOTS }
{
    let heading = if is_east { 0 } else { 180 };
    for _ in 0..2 {
        if arena.alive(robot) {
            arena.ask(robot, Intrinsic::Cannon, [90, 700]);
        }
    }
    if arena.alive(robot) {
        arena.ask(robot, Intrinsic::Drive, [heading, 50]);
    }
}

/// Places four robots, each in a corner of its own, none within the reach of another's bursts.
fn far_apart() -> Arena
    ensures updates { result.updates ≡ 0 }
    ensures robots { length result.robots ≡ MOST_ROBOTS }
{
    Arena::placed(
        1,
        1,
        &ArrayVec::from([(1000, 500), (8000, 500), (3000, 1500), (6000, 1500)]),
    )
}

/// Places four robots nearly on one line: the first one sees the three others.
fn in_a_row() -> Arena
    ensures updates { result.updates ≡ 0 }
    ensures robots { length result.robots ≡ MOST_ROBOTS }
{
    Arena::placed(
        1,
        1,
        &ArrayVec::from([(1000, 1000), (5000, 5000), (6000, 6100), (7000, 6900)]),
    )
}
