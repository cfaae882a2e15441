//! In which cycle of a match something happens to a robot.

ghost use Rattle.std.specs.Prelude.{◌≡◌, ◌<◌, ◌≤◌, ◌&&◌, false, if◌then◌else◌, List, None, Some, length, nat_lt, slice_get};
ghost use Rattle.battles.specs.Battle.{Behaviour, BattleState, last_cycle, first_state};
ghost use Rattle.battles.specs.Carrying.{AreRobotsOf};
ghost use Rattle.code.specs.Generation.{Program};
ghost use Rattle.watching.specs.Games.{GoesOn, HasCome};
ghost use Rattle.watching.specs.Played.{codes_of, exes_of};
ghost use Rattle.watching.specs.Searches.{Happens, IsFound, IsLast, IsNext, IsSoughtCycle};

use crate::games::Game;
use crate::pilot::Pilot;
use crate::sought::{Sought, happens};
use arena::MOST_ROBOTS;
use settings::MOST_CYCLES;

/// Which of the cycles is looked for in which something happens.
#[derive(Clone, Copy)]
pub enum SoughtCycle {
    /// The first one later than this cycle.
    After(u32),
    /// The last one before this cycle.
    Before(u32),
}

/// Returns the cycle that is looked for, of those in which what is sought happens to a robot, in the match of this number
/// and seed of at most `limit` cycles. `None` if there is none.
pub fn sought_cycle(
    pilots: &mut [Pilot<'_>],
    robot: usize,
    sought: &Sought<'_>,
    which: SoughtCycle,
    seed: u64,
    number: u32,
    limit: u32,
) -> Option<u32>
    requires some { 2 ≤ length pilots.old }
    requires most { length pilots.old ≤ MOST_ROBOTS }
    requires limit { limit ≤ MOST_CYCLES }
    requires inside { robot < length pilots.old }
    ensures { (robots : List Behaviour) (code : Program) → AreRobotsOf (exes_of (codes_of pilots.old)) robots
        → slice_get (codes_of pilots.old) robot ≡ Some code → IsSoughtCycle which (Happens robots code
        (first_state (length robots) seed number) robot sought.now)
        (last_cycle robots (first_state (length robots) seed number) limit) result }
{
    let mut game = Game::new(pilots, seed, number, limit);
    match which {
        SoughtCycle::After(cycle) => next_in(&mut game, pilots, robot, sought, cycle, limit),
        SoughtCycle::Before(cycle) => last_in(&mut game, pilots, robot, sought, cycle),
    }
}

/// Plays a match that has begun on to the first cycle later than `after` in which what is sought happens, and returns
/// its number.
fn next_in(
    game: &mut Game,
    pilots: &mut [Pilot<'_>],
    robot: usize,
    sought: &Sought<'_>,
    after: u32,
    limit: u32,
) -> Option<u32>
    requires manned { length game.old.arena.robots ≡ length pilots.old }
    requires begins { game.old.ending.cycles ≡ 0 }
    requires limit { game.old.limit ≡ limit }
    requires inside { robot < length pilots.old }
    ensures { (robots : List Behaviour) (s : BattleState) (code : Program)
        → AreRobotsOf (exes_of (codes_of pilots.old)) robots → slice_get (codes_of pilots.old) robot ≡ Some code
        → HasCome (codes_of pilots.old) robots s pilots.old game.old
        → IsNext (Happens robots code s robot sought.now) after (last_cycle robots s limit) result }
{
    for _ in 0..limit {
        if game.ending().is_over {
            return None;
        }
        let found = step(game, pilots, robot, sought, after);
        if found.is_some() {
            return found;
        }
    }
    None
}

/// Plays a match that has begun on to the cycle before one, and returns the number of the last cycle in which what is
/// sought happens.
fn last_in(
    game: &mut Game,
    pilots: &mut [Pilot<'_>],
    robot: usize,
    sought: &Sought<'_>,
    before: u32,
) -> Option<u32>
    requires manned { length game.old.arena.robots ≡ length pilots.old }
    requires begins { game.old.ending.cycles ≡ 0 }
    requires inside { robot < length pilots.old }
    ensures { (robots : List Behaviour) (s : BattleState) (code : Program)
        → AreRobotsOf (exes_of (codes_of pilots.old)) robots → slice_get (codes_of pilots.old) robot ≡ Some code
        → HasCome (codes_of pilots.old) robots s pilots.old game.old
        → IsLast (Happens robots code s robot sought.now) before (last_cycle robots s game.old.limit) result }
{
    let mut found = None;
    for _ in 0..before.saturating_sub(1) {
        if game.ending().is_over {
            return found;
        }
        found = step(game, pilots, robot, sought, 0).or(found);
    }
    found
}

/// Plays the next cycle of a match that isn't over. Returns its number if what is sought happens in it, and it is later
/// than `after`.
fn step(
    game: &mut Game,
    pilots: &mut [Pilot<'_>],
    robot: usize,
    sought: &Sought<'_>,
    after: u32,
) -> Option<u32>
    requires manned { length game.old.arena.robots ≡ length pilots.old }
    requires goes_on { game.old.ending.is_over ≡ false }
    requires inside { robot < length pilots.old }
    ensures battle { (robots : List Behaviour) (s : BattleState) → AreRobotsOf (exes_of (codes_of pilots.old)) robots
        → HasCome (codes_of pilots.old) robots s pilots.old game.old
        → HasCome (codes_of pilots.old) robots s pilots.new game.new }
    ensures found { (robots : List Behaviour) (s : BattleState) (code : Program)
        → AreRobotsOf (exes_of (codes_of pilots.old)) robots → slice_get (codes_of pilots.old) robot ≡ Some code
        → HasCome (codes_of pilots.old) robots s pilots.old game.old
        → IsFound (Happens robots code s robot sought.now) game.old.ending.cycles after result }
    ensures codes { codes_of pilots.new ≡ codes_of pilots.old }
    ensures manned { length game.new.arena.robots ≡ length pilots.new }
    ensures next { GoesOn game.old game.new }
{
    let happens = happens(game, pilots, robot, sought);
    found_behind(happens, game.ending().cycles, after)
}

/// Returns the number of a cycle in which it happens, if it is later than another one.
fn found_behind(happens: bool, cycle: u32, after: u32) -> Option<u32>
    ensures { result ≡ (if happens && nat_lt after cycle then Some cycle else None) }
{
    (happens && after < cycle).then_some(cycle)
}
