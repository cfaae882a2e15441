//! Battles, from the start of a match to their outcome.

ghost use Rattle.std.specs.Prelude.{◌≡◌, ◌<◌, ◌≤◌, [], List, All, length, replicate};
ghost use Rattle.arena.specs.Field.{Field};
ghost use Rattle.arena.specs.Representing.{RepresentsField};
ghost use Rattle.grammar.specs.Profile.{Profile};
ghost use Rattle.grammar.specs.Tree.{File};
ghost use Rattle.code.specs.Codes.{AreProgramsOf};
ghost use Rattle.battles.specs.Battle.{battle, damages_of};
ghost use Rattle.battles.specs.Carrying.{EachFits, EachIsAheadOf};
ghost use Rattle.battles.specs.Pairing.{paired, robots_of};

use crate::battle_executables::Executables;
use crate::outcome::Outcome;
use crate::programs::Programs;
use crate::runners::{Machines, Runner};
use crate::scheduler::play_cycles;
use arena::Arena;
use arrayvec::ArrayVec;
use settings::{MOST_CYCLES, MOST_FILES};

/// Plays the battle of the match of this number, counted from 1. The seed and the number choose the random numbers;
/// the battle ends after `limit` cycles if it isn't over before. What the machines did before makes no difference.
/// Nothing is allocated, and no battle fails.
pub fn battle(
    programs: &Programs,
    machines: &mut Machines,
    seed: u64,
    number: u32,
    limit: u32,
) -> Outcome
    requires some { 0 < length programs.now }
    requires limit { limit ≤ MOST_CYCLES }
    ensures battle { (p : Profile) (files : List File) → AreProgramsOf programs.now p files
        → result ≡ battle (robots_of p files) seed number limit }
    ensures manned { length result.damages ≡ length (paired programs.now) }
    ensures most { All (λ d. d ≤ 100) result.damages }
{
    let executables = Executables::new(programs);
    let robots = executables.len();
    let mut arena = Arena::new(seed, u64::from(number), robots);
    let runners = &mut machines.runners[..robots];
    begin_runners(runners, &executables);
    let cycles = play_cycles(runners, &executables, &mut arena, limit);
    Outcome::new(cycles, damages(&arena, robots))
}

/// Starts each robot's runner at the beginning of its program.
fn begin_runners(runners: &mut [Runner], executables: &Executables)
    requires { length runners.old ≡ length executables.now }
    ensures fits { EachFits runners.new executables.now }
    ensures begins { EachIsAheadOf runners.new executables.now (replicate (length executables.now) []) }
{
    for robot in 0..runners.len() {
        runners[robot].restart(&executables.executable(robot));
    }
}

/// Returns the damage of each robot.
fn damages(arena: &Arena, robots: usize) -> ArrayVec<u8, MOST_FILES>
    requires manned { length arena.now.robots ≡ robots }
    requires most { robots ≤ MOST_FILES }
    ensures damages { (f : Field) → RepresentsField arena.now f → result.items ≡ damages_of robots f }
    ensures each { length result.items ≡ robots }
    ensures most { All (λ d. d ≤ 100) result.items }
{
    let mut damages = ArrayVec::new();
    for robot in 0..robots {
        damages.push(arena.damage(robot));
    }
    damages
}
