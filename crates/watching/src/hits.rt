//! Hits: bursts of a robot's own missiles that hurt another robot.

ghost use Rattle.std.specs.Prelude.{◌≡◌, ◌<◌, ◌+◌, ◌&&◌, ◌==◌, false, not, nat_lt, length};
ghost use Rattle.std.specs.List.{list_any};
ghost use Rattle.arena.specs.Field.{Field};
ghost use Rattle.arena.specs.Outlook.{taken_by};
ghost use Rattle.arena.specs.Representing.{RepresentsField};
ghost use Rattle.battles.specs.Battle.{is_due};
ghost use Rattle.watching.specs.Hits.{hits, hurts_another};

use crate::games::Game;
use arena::{Arena, Burst};

/// Reports whether a robot hits another one in the update of a cycle, if it has one. The robots have taken their turns.
pub(crate) fn hits_after_turns(game: &Game, robot: usize) -> bool
    requires { game.now.ending.is_over ≡ false }
    ensures { (f : Field) → RepresentsField game.now.arena f
        → result ≡ (is_due (game.now.ending.cycles + 1) && hits f robot) }
{
    game.is_update_due() && hits(game.arena(), robot)
}

/// Reports whether a missile of a robot bursts in the next update and hurts another robot.
#[tactic(auto, unfolding(crate::specs::Hits::hits))]
fn hits(arena: &Arena, robot: usize) -> bool
    ensures { (f : Field) → RepresentsField arena.now f → result ≡ hits f robot }
{
    any_is_hit(arena, robot, arena.due().as_slice())
}

/// Reports whether one of some bursts of the next update is that of a robot, and hurts another one.
fn any_is_hit(arena: &Arena, robot: usize, bursts: &[Burst]) -> bool
    ensures { (f : Field) → RepresentsField arena.now f
        → result ≡ list_any (λ burst. (burst.robot == robot) && hurts_another f burst) bursts.now }
{
    for burst in bursts {
        if is_hit(arena, robot, burst) {
            return true;
        }
    }
    false
}

/// Reports whether a burst of the next update is that of a robot, and hurts another one.
fn is_hit(arena: &Arena, robot: usize, burst: &Burst) -> bool
    ensures { (f : Field) → RepresentsField arena.now f
        → result ≡ ((burst.now.robot == robot) && hurts_another f burst.now) }
{
    burst.robot() == robot && hurts_another(arena, burst)
}

/// Reports whether a burst of the next update hurts a robot that didn't fire it.
fn hurts_another(arena: &Arena, burst: &Burst) -> bool
    ensures { (f : Field) → RepresentsField arena.now f → result ≡ hurts_another f burst.now }
{
    for other in 0..arena.robot_count() {
        if hurts(arena, burst, other) {
            return true;
        }
    }
    false
}

/// Reports whether a burst of the next update hurts a robot, which didn't fire it.
fn hurts(arena: &Arena, burst: &Burst, other: usize) -> bool
    requires { other < length arena.now.robots }
    ensures { (f : Field) → RepresentsField arena.now f
        → result ≡ (not (other == burst.now.robot) && nat_lt 0 (taken_by f other burst.now)) }
{
    other != burst.robot() && arena.taken_by(other, burst) > 0
}
