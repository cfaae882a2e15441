//! Laws of the field: each function does nothing, and what it ensures is the law.

ghost use Rattle.std.specs.Prelude.{ℕ, ◌≤◌, length};
ghost use Rattle.arena.specs.Field.{Field};
ghost use Rattle.arena.specs.Shots.{in_air};
ghost use Rattle.arena.specs.Representing.{RepresentsField};
ghost use Rattle.arena.specs.Outlook.{AddsUp};

use crate::arenas::Arena;
use crate::rules::MOST_MISSILES;

/// Proves that the damage adds up, in any field that an arena represents: the next update takes from each robot what
/// `meets_wall`, `meets` and `taken_by` say, up to a damage of 100.
pub fn damage_adds_up(arena: &Arena)
    ensures { (f : Field) → RepresentsField arena.now f → AddsUp f }
{
    // For the proof alone: each robot has slots for its missiles.
    let _missiles = arena.missiles();
}

/// Proves that no robot has more than two missiles in the air, in any field that an arena represents.
pub fn two_missiles(arena: &Arena)
    ensures { (f : Field) (i : ℕ) → RepresentsField arena.now f → length (in_air f.updates i f.shots) ≤ MOST_MISSILES }
{
    arena.prove_two_missiles();
}
