//! The scheduler: intervals of cycles, and the updates between them.

ghost use Rattle.std.specs.Prelude.{◌≡◌, ◌<◌, ◌≤◌, ◌+◌, List, length};
ghost use Rattle.arena.specs.Arena.{most_updates};
ghost use Rattle.battles.specs.Battle.{Behaviour, BattleState, state_after, last_cycle};
ghost use Rattle.battles.specs.Carrying.{AreRobotsOf, HasReached};
ghost use Rattle.battles.specs.IntervalKeeping.{HaveMachines, HasUpdated, MayRunAhead};
ghost use Rattle.battles.specs.Intervals.{period};

use crate::battle_executables::Executables;
use crate::intervals::{MOST_AHEAD, UPDATE_CYCLES, play_interval};
use crate::runners::Runner;
use crate::running_ahead::{advance_if_ahead, skip_intervals};
use arena::Arena;
use settings::MOST_CYCLES;

/// Plays a period: an interval of 15 cycles, and the update after it. Reports whether the battle is decided then.
/// A machine may run ahead by at most `farthest` cycles.
fn play_period(
    runners: &mut [Runner],
    executables: &Executables,
    arena: &mut Arena,
    farthest: u32,
) -> bool
    requires manned { HaveMachines executables.now runners.old arena.old }
    requires updates { arena.old.updates < most_updates }
    requires ahead { MayRunAhead UPDATE_CYCLES farthest }
    ensures state { (robots : List Behaviour) (s : BattleState) → AreRobotsOf executables.now robots
        → HasReached runners.old executables.now arena.old s
        → HasUpdated executables.now runners.new arena.new (period robots s) result }
    ensures manned { HaveMachines executables.now runners.new arena.new }
    ensures updates { arena.new.updates ≡ arena.old.updates + 1 }
{
    if !advance_if_ahead(runners, arena, UPDATE_CYCLES) {
        play_interval(runners, executables, arena, UPDATE_CYCLES, farthest);
    }
    arena.update();
    !arena.has_two_live()
}

/// Plays a battle from its start: periods until it is decided, or the limit is reached, and the cycles after the last
/// update. Returns how many cycles were played.
pub(crate) fn play_cycles(
    runners: &mut [Runner],
    executables: &Executables,
    arena: &mut Arena,
    limit: u32,
) -> u32
    requires manned { HaveMachines executables.now runners.old arena.old }
    requires updates { arena.old.updates ≡ 0 }
    requires within { limit ≤ MOST_CYCLES }
    ensures state { (robots : List Behaviour) (s : BattleState) → AreRobotsOf executables.now robots
        → HasReached runners.old executables.now arena.old s
        → HasReached runners.new executables.now arena.new (state_after robots s result) }
    ensures cycles { (robots : List Behaviour) (s : BattleState) → AreRobotsOf executables.now robots
        → HasReached runners.old executables.now arena.old s → result ≡ last_cycle robots s limit }
    ensures manned { length arena.new.robots ≡ length executables.now }
{
    let intervals = limit / UPDATE_CYCLES;
    let mut number = 0;
    while number < intervals {
        let farthest = (limit - UPDATE_CYCLES * number).min(MOST_AHEAD);
        if play_period(runners, executables, arena, farthest) {
            return UPDATE_CYCLES * (number + 1);
        }
        number += 1;
        number += skip_intervals(runners, arena, intervals - number);
    }
    let rest = limit % UPDATE_CYCLES;
    play_interval(runners, executables, arena, rest, rest);
    limit
}
