//! The pilots of a match: one of each program, and two of a single one.

ghost use Rattle.std.specs.Prelude.{◌≡◌, ◌<◌, ◌≤◌, Some, length, slice_get, take};
ghost use Rattle.battles.specs.Pairing.{paired};
ghost use Rattle.watching.specs.Played.{codes_of};

use crate::compiled_robots::CompiledRobots;
use arena::MOST_ROBOTS;
use watching::Pilot;

/// Returns the pilots of the robots that fight, and after them as many more as there is room for.
pub(crate) fn pilots_of(compiled: &CompiledRobots) -> [Pilot<'_>; MOST_ROBOTS]
    requires { 0 < length compiled.now.programs.items }
    ensures { codes_of (take (length (paired compiled.now.programs.items)) result) ≡ paired compiled.now.programs.items }
{
    [
        pilot(compiled, 0),
        pilot(compiled, 1),
        pilot(compiled, 2),
        pilot(compiled, 3),
    ]
}

/// Returns the pilot of the robot with this number. After the last one the last program has one more.
#[tactic(auto, using(crate::proofs::FilmedRobots::paired_at))]
fn pilot(compiled: &CompiledRobots, robot: usize) -> Pilot<'_>
    requires { 0 < length compiled.now.programs.items }
    ensures program { robot < length (paired compiled.now.programs.items)
        → slice_get (paired compiled.now.programs.items) robot ≡ Some result.code }
    ensures most { length compiled.now.programs.items ≤ MOST_ROBOTS }
{
    let file = robot.min(compiled.len() - 1);
    Pilot::new(&compiled.programs.as_slice()[file])
}
