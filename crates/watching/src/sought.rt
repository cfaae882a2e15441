//! What may be sought in the cycles of a match, and whether it happens in one.

ghost use Rattle.std.specs.Prelude.{◌≡◌, ◌<◌, true, false, List, get_or, length, slice_get, ℤ, Some};
ghost use Rattle.battles.specs.Battle.{Behaviour, BattleState};
ghost use Rattle.battles.specs.Carrying.{AreRobotsOf};
ghost use Rattle.code.specs.Generation.{Program};
ghost use Rattle.code.specs.declared.want.Want.TheVariants.{Ask};
ghost use Rattle.watching.specs.Games.{GoesOn, HasCome};
ghost use Rattle.watching.specs.Played.{codes_of, exes_of};
ghost use Rattle.watching.specs.Searches.{Happens, IsGlanced, IsOneLife, Seems, value_of};

use crate::asked::{top_word, wanted};
use crate::games::Game;
use crate::hits::hits_after_turns;
use crate::pilot::Pilot;
use crate::watcher::Nobody;
use code::{Intrinsic, Machine, Want};
use grammar::Var;

/// What is sought in the cycles of a robot. It happens in a cycle that the robot lives to begin.
#[derive(Clone, Copy)]
pub enum Sought<'a> {
    /// After the cycle the next instruction has one of the addresses that are marked, and at most the given number of
    /// frames are open.
    Address(&'a [bool], usize),
    /// The robot asks this function, and the reply is at least the first number and at most the second.
    Question(Intrinsic, i32, i32),
    /// The robot restarts.
    Restart,
    /// The robot is hurt: after the cycle, and its update, its damage is greater than before it.
    Hurt,
    /// The robot hits another one: in the update after the cycle a missile of its own bursts and hurts another robot.
    Hit,
    /// A variable has another value after the cycle than before it.
    Change(Var),
    /// A variable has this value after the cycle.
    Value(Var, i32),
    /// The variable of this number of the function whose addresses are marked has another value after the cycle than
    /// before it, in one life of the function's variables: the instructions before and after the cycle are both in it,
    /// and the variables begin at the same word. Those of `main` live on when it restarts, and are 0 then.
    LocalChange(&'a [bool], u8),
    /// After the cycle the next instruction is in the function whose addresses are marked, and its variable of this
    /// number has this value.
    LocalValue(&'a [bool], u8, i32),
}

/// What is seen of a robot between two cycles.
#[derive(Clone, Copy)]
pub(crate) struct Glance {
    is_alive: bool,
    /// What it wants of the next cycle.
    wanted: Want,
    /// The word on top of its stack.
    word: i32,
    damage: u8,
    /// The value of the variable that is sought.
    value: i32,
    address: usize,
    home: u16,
    frames: usize,
}

/// Plays the next cycle of a match that isn't over, and reports whether what is sought happens to a robot in it.
pub fn happens(game: &mut Game, pilots: &mut [Pilot<'_>], robot: usize, sought: &Sought<'_>) -> bool
    requires manned { length game.old.arena.robots ≡ length pilots.old }
    requires goes_on { game.old.ending.is_over ≡ false }
    requires inside { robot < length pilots.old }
    ensures battle { (robots : List Behaviour) (s : BattleState) → AreRobotsOf (exes_of (codes_of pilots.old)) robots
        → HasCome (codes_of pilots.old) robots s pilots.old game.old
        → HasCome (codes_of pilots.old) robots s pilots.new game.new }
    ensures yes { (robots : List Behaviour) (s : BattleState) (code : Program) → AreRobotsOf (exes_of (codes_of pilots.old)) robots
        → slice_get (codes_of pilots.old) robot ≡ Some code
        → HasCome (codes_of pilots.old) robots s pilots.old game.old → result ≡ true
        → Happens robots code s robot sought.now game.old.ending.cycles }
    ensures no { (robots : List Behaviour) (s : BattleState) (code : Program) → AreRobotsOf (exes_of (codes_of pilots.old)) robots
        → slice_get (codes_of pilots.old) robot ≡ Some code
        → HasCome (codes_of pilots.old) robots s pilots.old game.old
        → Happens robots code s robot sought.now game.old.ending.cycles → result ≡ true }
    ensures codes { codes_of pilots.new ≡ codes_of pilots.old }
    ensures manned { length game.new.arena.robots ≡ length pilots.new }
    ensures next { GoesOn game.old game.new }
{
    let before = look(game, &pilots[robot], robot, sought);
    game.take_turns(pilots, &mut Nobody);
    let is_hit = hits_after_turns(game, robot);
    game.end_cycle(&mut Nobody);
    let after = look(game, &pilots[robot], robot, sought);
    seems(sought, &before, &after, is_hit)
}

/// Returns what is seen of a robot between two cycles, with the variable that is sought.
fn look(game: &Game, pilot: &Pilot<'_>, robot: usize, sought: &Sought<'_>) -> Glance
    requires { robot < length game.now.arena.robots }
    ensures { IsGlanced game.now pilot.now robot sought.now result }
{
    let machine = pilot.machine();
    Glance {
        is_alive: game.arena().alive(robot),
        wanted: wanted(game, pilot, robot),
        word: top_word(machine),
        damage: game.arena().damage(robot),
        value: value_of(machine, sought),
        address: machine.address(),
        home: machine.home(),
        frames: machine.frames().len(),
    }
}

/// Returns the value of the variable that is sought, 0 if none is.
fn value_of(machine: &Machine, sought: &Sought<'_>) -> i32
    ensures { result ≡ value_of sought.now machine.now }
{
    match *sought {
        Sought::Change(variable) | Sought::Value(variable, _) => machine.variable(variable),
        Sought::LocalChange(_, number) | Sought::LocalValue(_, number, _) => {
            machine.variable(Var::Local(number))
        }
        Sought::Address(_, _)
        | Sought::Question(_, _, _)
        | Sought::Restart
        | Sought::Hurt
        | Sought::Hit => 0,
    }
}

/// Reports whether what is sought seems to happen between two glances: the robot lives at the first one, and it shows.
fn seems(sought: &Sought<'_>, before: &Glance, after: &Glance, is_hit: bool) -> bool
    ensures yes { result ≡ true → (before.now.is_alive ≡ true) × Seems sought.now before.now after.now is_hit }
    ensures no { before.now.is_alive ≡ true → Seems sought.now before.now after.now is_hit → result ≡ true }
{
    before.is_alive && shows(sought, before, after, is_hit)
}

/// Reports whether what is sought shows in two glances of a robot that lives at the first one, and in whether it hits
/// another one between them.
fn shows(sought: &Sought<'_>, before: &Glance, after: &Glance, is_hit: bool) -> bool
    ensures yes { result ≡ true → Seems sought.now before.now after.now is_hit }
    ensures no { Seems sought.now before.now after.now is_hit → result ≡ true }
{
    match *sought {
        Sought::Address(marks, most) => is_marked(marks, after.address) && after.frames <= most,
        Sought::Question(function, least, most) => {
            is_asked(before.wanted, function) && least <= after.word && after.word <= most
        }
        Sought::Restart => matches!(before.wanted, Want::Restart),
        Sought::Hurt => before.damage < after.damage,
        Sought::Hit => is_hit,
        Sought::Change(_) => after.value != before.value,
        Sought::Value(_, value) => after.value == value,
        Sought::LocalChange(marks, _) => {
            is_one_life(marks, before, after) && after.value != before.value
        }
        Sought::LocalValue(marks, _, value) => {
            is_marked(marks, after.address) && after.value == value
        }
    }
}

/// Reports whether the instructions of two glances are both marked, in one life of a function's variables.
fn is_one_life(marks: &[bool], before: &Glance, after: &Glance) -> bool
    ensures yes { result ≡ true → IsOneLife marks.now before.now.address before.now.home after.now.address after.now.home }
    ensures no { IsOneLife marks.now before.now.address before.now.home after.now.address after.now.home → result ≡ true }
{
    is_marked(marks, before.address) && is_marked(marks, after.address) && before.home == after.home
}

/// Reports whether an address is marked.
fn is_marked(marks: &[bool], address: usize) -> bool
    ensures { result ≡ get_or marks.now address false }
{
    marks.get(address).copied().unwrap_or(false)
}

/// Reports whether a want asks this function.
fn is_asked(wanted: Want, function: Intrinsic) -> bool
    ensures yes { result ≡ true → (arguments : List ℤ) × (wanted ≡ Ask function arguments) }
    ensures no { (arguments : List ℤ) → wanted ≡ Ask function arguments → result ≡ true }
{
    match wanted {
        Want::Ask(intrinsic, _) => intrinsic == function,
        Want::Quiet | Want::Restart => false,
    }
}
