//! Missiles in the air: a film that begins in the middle of a match has those that were fired before.

ghost use Rattle.std.specs.Prelude.{◌≤◌};

use series::MOST_CYCLES;
use watching::{Place, Shot, UPDATE_CYCLES};

/// A missile: who fired it, in which cycle, with which degree and range, where, and the update in which it bursts.
#[derive(Clone, Copy, Default, Drop)]
pub(crate) struct FiredMissile {
    /// The robot's number, from 0.
    pub(crate) robot: usize,
    /// The cycle in which it was fired.
    pub(crate) cycle: u32,
    /// The degree that was asked for.
    pub(crate) degree: i32,
    /// The range that was asked for.
    pub(crate) range: i32,
    /// Where it was fired, to the east.
    pub(crate) x: u16,
    /// Where it was fired, to the north.
    pub(crate) y: u16,
    /// The update in which it bursts.
    pub(crate) burst: u32,
}

impl FiredMissile {
    /// Makes the missile that a robot fires from a place in a cycle, by these arguments of `cannon`.
    pub(crate) fn new(robot: usize, cycle: u32, place: Place, arguments: [i32; 2]) -> FiredMissile
        requires { cycle ≤ MOST_CYCLES }
    {
        let [degree, range] = arguments;
        let updates = cycle.saturating_sub(1) / UPDATE_CYCLES;
        FiredMissile {
            robot,
            cycle,
            degree,
            range,
            x: place.x,
            y: place.y,
            burst: Shot::new(robot, updates, place, arguments).burst,
        }
    }

    /// Reports whether it is in the air after the given number of updates.
    pub(crate) fn flies(&self, updates: u32) -> bool {
        updates < self.burst
    }
}
