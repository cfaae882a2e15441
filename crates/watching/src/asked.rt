//! What a robot wants of a cycle, and the question that it asks in it.

ghost use Rattle.std.specs.Prelude.{◌≡◌, ◌<◌, ℤ, false, List, length, if◌then◌else◌};
ghost use Rattle.arena.specs.Arena.{is_live};
ghost use Rattle.battles.specs.Battle.{Behaviour, BattleState};
ghost use Rattle.battles.specs.Carrying.{AreRobotsOf};
ghost use Rattle.code.specs.Machine.{want_code};
ghost use Rattle.code.specs.ReachedMachines.{IsReached};
ghost use Rattle.watching.specs.Games.{GoesOn, HasCome};
ghost use Rattle.watching.specs.Played.{codes_of, exes_of};
ghost use Rattle.watching.specs.Moments.{asked_in, last_of, question_in};

use crate::games::Game;
use crate::pilot::Pilot;
use crate::watcher::{Exchange, Nobody};
use code::{Machine, Want};

/// A question, with the cycle in which it was asked, and its reply.
#[derive(Clone, Copy)]
pub struct Asked {
    /// The number of the cycle, from 1.
    pub cycle: u32,
    /// What was asked, and what the field answered.
    pub question: Exchange,
}

/// Returns what a robot wants of the next cycle. A dead one wants nothing.
pub(crate) fn wanted(game: &Game, pilot: &Pilot<'_>, robot: usize) -> Want
    requires { robot < length game.now.arena.robots }
    ensures { (trace : List ℤ) → IsReached pilot.now.state pilot.now.code trace
        → result ≡ (if is_live game.now.arena robot then want_code pilot.now.code trace else Want.Quiet) }
{
    if !game.arena().alive(robot) {
        return Want::Quiet;
    }
    pilot.machine().next(pilot.program())
}

/// Plays the next cycle of a match that isn't over, and returns the question that a robot asks in it.
pub(crate) fn go_on(game: &mut Game, pilots: &mut [Pilot<'_>], robot: usize) -> Option<Asked>
    requires manned { length game.old.arena.robots ≡ length pilots.old }
    requires goes_on { game.old.ending.is_over ≡ false }
    requires inside { robot < length pilots.old }
    ensures battle { (robots : List Behaviour) (s : BattleState) → AreRobotsOf (exes_of (codes_of pilots.old)) robots
        → HasCome (codes_of pilots.old) robots s pilots.old game.old
        → HasCome (codes_of pilots.old) robots s pilots.new game.new }
    ensures asks { (robots : List Behaviour) (s : BattleState) → AreRobotsOf (exes_of (codes_of pilots.old)) robots
        → HasCome (codes_of pilots.old) robots s pilots.old game.old
        → result ≡ question_in robots robot s game.old.ending.cycles }
    ensures codes { codes_of pilots.new ≡ codes_of pilots.old }
    ensures manned { length game.new.arena.robots ≡ length pilots.new }
    ensures next { GoesOn game.old game.new }
{
    let wanted = wanted(game, &pilots[robot], robot);
    game.cycle(pilots, &mut Nobody);
    asked_in(
        wanted,
        game.ending().cycles,
        top_word(pilots[robot].machine()),
    )
}

/// Returns the question of a cycle in which a robot wanted this and got a reply.
fn asked_in(wanted: Want, cycle: u32, reply: i32) -> Option<Asked>
    ensures { result ≡ asked_in wanted cycle reply }
{
    match wanted {
        Want::Ask(intrinsic, arguments) => Some(Asked {
            cycle,
            question: Exchange {
                intrinsic,
                arguments,
                reply,
            },
        }),
        Want::Quiet | Want::Restart => None,
    }
}

/// Returns the word on top of a machine's stack, 0 if there is none. After a question it is the reply.
pub(crate) fn top_word(machine: &Machine) -> i32
    ensures { result ≡ last_of machine.now.words }
{
    let words = machine.words();
    words
        .get(words.len().saturating_sub(1))
        .copied()
        .unwrap_or(0)
}
