//! Intervals in which every machine is far enough ahead: the robots go on without a look at a machine. On a still field
//! many intervals are skipped at once.

ghost use Rattle.std.specs.Prelude.{◌≡◌, ◌↔◌, ◌⊎◌, ◌<◌, ◌≤◌, ◌+◌, ◌*◌, true, false, ℤ, IsTrue, List, length};
ghost use Rattle.arena.specs.Field.{Field};
ghost use Rattle.arena.specs.Arena.{is_live, most_updates};
ghost use Rattle.arena.specs.Representing.{RepresentsField};
ghost use Rattle.engine.specs.Executables.{Executable};
ghost use Rattle.battles.specs.Battle.{Behaviour, BattleState};
ghost use Rattle.battles.specs.Carrying.{IsRobotOf, IsAheadOf, AreRobotsOf, EachFits, HasReached};
ghost use Rattle.battles.specs.IntervalKeeping.{HaveMachines, HasPassedPeriods, HaveFieldRobots};
ghost use Rattle.battles.specs.Intervals.{AreAhead, HasRunAlone, cycles_without_updates};

use crate::intervals::UPDATE_CYCLES;
use crate::runners::Runner;
use arena::Arena;

/// Lets the robots go on by the given number of cycles if each live one's machine is that far ahead. Returns whether
/// they do.
#[inline(always)]
pub(crate) fn advance_if_ahead(runners: &mut [Runner], arena: &Arena, cycles: u32) -> bool
    requires { HaveFieldRobots runners.old arena.now }
    ensures state { result ≡ true → (exes : List Executable) (robots : List Behaviour) (s : BattleState)
        → AreRobotsOf exes robots → HasReached runners.old exes arena.now s
        → HasReached runners.new exes arena.now (cycles_without_updates robots cycles s) }
    ensures stays { result ≡ false → runners.new ≡ runners.old }
    ensures fits { (exes : List Executable) → EachFits runners.old exes → EachFits runners.new exes }
{
    if !are_ahead(runners, arena, cycles) {
        return false;
    }
    advance_all(runners, arena, cycles);
    true
}

/// Skips intervals, each with its update, if the field is still: at most the number given, and no more than each live
/// robot's machine is ahead. Returns how many. Mostly not one can be skipped, which is seen before any division.
#[inline(always)]
pub(crate) fn skip_intervals(runners: &mut [Runner], arena: &mut Arena, most: u32) -> u32
    requires field_robots { HaveFieldRobots runners.old arena.old }
    requires updates { arena.old.updates + most ≤ most_updates }
    ensures state { (exes : List Executable) (robots : List Behaviour) (s : BattleState)
        → AreRobotsOf exes robots → HasReached runners.old exes arena.old s
        → HasPassedPeriods robots exes result runners.new arena.new s }
    ensures manned { (exes : List Executable) → HaveMachines exes runners.old arena.old
        → HaveMachines exes runners.new arena.new }
    ensures updates { arena.new.updates ≡ arena.old.updates + result }
    ensures most { result ≤ most }
{
    if !arena.updates_only_count() || !are_ahead(runners, arena, UPDATE_CYCLES) {
        return 0;
    }
    let intervals = intervals_ahead(runners, arena, most);
    advance_all(runners, arena, UPDATE_CYCLES * intervals);
    arena.update_times(intervals);
    intervals
}

/// Returns how many intervals each live robot's machine is ahead, or `most` if that is less.
#[inline(always)]
fn intervals_ahead(runners: &[Runner], arena: &Arena, most: u32) -> u32
    requires manned { length arena.now.robots ≡ length runners.now }
    ensures ahead { AreAhead (length runners.now) (UPDATE_CYCLES * result) arena.now runners.now }
    ensures most { result ≤ most }
    ensures all { (result ≡ most)
        ⊎ (AreAhead (length runners.now) (UPDATE_CYCLES * (result + 1)) arena.now runners.now → ⊥) }
{
    let mut intervals = most;
    for robot in 0..runners.len() {
        let runner = &runners[robot];
        let ahead = runner.ahead / UPDATE_CYCLES;
        if ahead < intervals && arena.alive(robot) {
            intervals = ahead;
        }
    }
    intervals
}

/// Reports whether each live robot's machine is the given number of cycles ahead.
#[inline(always)]
fn are_ahead(runners: &[Runner], arena: &Arena, cycles: u32) -> bool
    requires manned { length arena.now.robots ≡ length runners.now }
    ensures { IsTrue result ↔ AreAhead (length runners.now) cycles arena.now runners.now }
{
    for robot in 0..runners.len() {
        let runner = &runners[robot];
        if arena.alive(robot) && runner.ahead < cycles {
            return false;
        }
    }
    true
}

/// Lets the robots go on by the given number of cycles.
#[inline(always)]
fn advance_all(runners: &mut [Runner], arena: &Arena, cycles: u32)
    requires field_robots { HaveFieldRobots runners.old arena.now }
    requires ahead { AreAhead (length runners.old) cycles arena.now runners.old }
    ensures state { (exes : List Executable) (robots : List Behaviour) (s : BattleState)
        → AreRobotsOf exes robots → HasReached runners.old exes arena.now s
        → HasReached runners.new exes arena.now (cycles_without_updates robots cycles s) }
    ensures fits { (exes : List Executable) → EachFits runners.old exes → EachFits runners.new exes }
{
    for robot in 0..runners.len() {
        advance_one(&mut runners[robot], arena, robot, cycles);
    }
}

/// Lets a robot go on by the given number of cycles. A dead one does nothing in any of them.
#[inline(always)]
fn advance_one(runner: &mut Runner, arena: &Arena, robot: usize, cycles: u32)
    requires inside { robot < length arena.now.robots }
    requires ahead { is_live arena.now robot ≡ true → cycles ≤ runner.old.ahead }
    ensures alone { (exe : Executable) (r : Behaviour) (f : Field) (trace : List ℤ) → IsRobotOf exe r
        → RepresentsField arena.now f → IsAheadOf runner.old exe trace
        → HasRunAlone ⊥ r robot f trace cycles exe runner.new arena.now }
    ensures machine { runner.new.machine ≡ runner.old.machine }
{
    if arena.alive(robot) {
        runner.ahead -= cycles;
    }
}
