//! Where a robot is at a moment of a match.

ghost use Rattle.std.specs.Prelude.{◌≡◌, ◌<◌, ◌≤◌, List, length};
ghost use Rattle.battles.specs.Battle.{Behaviour, BattleState, first_state};
ghost use Rattle.battles.specs.Carrying.{AreRobotsOf};
ghost use Rattle.watching.specs.Games.{HasCome};
ghost use Rattle.watching.specs.Played.{codes_of, exes_of};
ghost use Rattle.watching.specs.Moments.{HasPlayedTo, IsMoment, IsSeen, cause_of};

use crate::asked::{Asked, go_on, wanted};
use crate::games::Game;
use crate::pilot::Pilot;
use arena::MOST_ROBOTS;
use code::{Cause, Want};
use settings::MOST_CYCLES;

/// Where a robot is after a cycle of a match. The words, the frames, the externals and the address are those of its
/// pilot's machine.
#[derive(Drop)]
pub struct Moment {
    /// The match as it is then: its field, how many cycles were played, and whether it is over.
    pub game: Game,
    /// Whether the robot lives.
    pub is_alive: bool,
    /// What the robot wants of the next cycle: nothing if it is dead.
    pub next: Want,
    /// Why the robot wants a restart, if it wants one.
    pub cause: Option<Cause>,
    /// The last question that the robot asked in the match.
    pub last: Option<Asked>,
}

/// Plays the match of this number and seed, of at most `limit` cycles, up to the moment after a cycle, or to its end if
/// that comes before. Returns where a robot is then. All pilots are at this moment too, whatever they did before.
pub fn moment_at(
    pilots: &mut [Pilot<'_>],
    robot: usize,
    cycle: u32,
    seed: u64,
    number: u32,
    limit: u32,
) -> Moment
    requires some { 2 ≤ length pilots.old }
    requires most { length pilots.old ≤ MOST_ROBOTS }
    requires limit { limit ≤ MOST_CYCLES }
    requires inside { robot < length pilots.old }
    ensures moment { (robots : List Behaviour) → AreRobotsOf (exes_of (codes_of pilots.old)) robots
        → IsMoment robots (first_state (length robots) seed number) limit robot cycle pilots.new result }
    ensures codes { codes_of pilots.new ≡ codes_of pilots.old }
{
    let mut game = Game::new(pilots, seed, number, limit);
    let last = play_to(&mut game, pilots, robot, cycle);
    seen(game, &pilots[robot], robot, last)
}

/// Plays a match that has begun on to the moment after a cycle, or to its end. Returns the last question of a robot.
fn play_to(game: &mut Game, pilots: &mut [Pilot<'_>], robot: usize, cycle: u32) -> Option<Asked>
    requires manned { length game.old.arena.robots ≡ length pilots.old }
    requires begins { game.old.ending.cycles ≡ 0 }
    requires inside { robot < length pilots.old }
    ensures battle { (robots : List Behaviour) (s : BattleState) → AreRobotsOf (exes_of (codes_of pilots.old)) robots
        → HasCome (codes_of pilots.old) robots s pilots.old game.old
        → HasPlayedTo robots s game.old.limit robot cycle (codes_of pilots.old) pilots.new game.new result }
    ensures codes { codes_of pilots.new ≡ codes_of pilots.old }
    ensures manned { length game.new.arena.robots ≡ length pilots.new }
{
    let mut last = None;
    for _ in 0..cycle {
        if game.ending().is_over {
            return last;
        }
        last = go_on(game, pilots, robot).or(last);
    }
    last
}

/// Returns what is seen of a robot as a match is now.
fn seen(game: Game, pilot: &Pilot<'_>, robot: usize, last: Option<Asked>) -> Moment
    requires { robot < length game.arena.robots }
    ensures { IsSeen game pilot.now robot last result }
{
    let is_alive = game.arena().alive(robot);
    let next = wanted(&game, pilot, robot);
    let cause = why(pilot, is_alive);
    Moment {
        game,
        is_alive,
        next,
        cause,
        last,
    }
}

/// Returns why a live robot wants a restart, if it wants one.
fn why(pilot: &Pilot<'_>, is_alive: bool) -> Option<Cause>
    ensures { result ≡ cause_of is_alive pilot.now }
{
    if is_alive {
        pilot.machine().cause(pilot.program())
    } else {
        None
    }
}
