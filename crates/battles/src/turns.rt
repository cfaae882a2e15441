//! Turns: the cycles of a live robot in which it asks, with what the field replies.

ghost use Rattle.std.specs.Prelude.{◌≡◌, ◌≢◌, ◌++◌, ◌∷◌, [], None, true, ℤ, List, length};
ghost use Rattle.arena.specs.Answer.{answer};
ghost use Rattle.arena.specs.Field.{Field, is_live_at};
ghost use Rattle.arena.specs.Arena.{is_live};
ghost use Rattle.arena.specs.Representing.{RepresentsField};
ghost use Rattle.engine.specs.Engines.{EngineIsReached};
ghost use Rattle.engine.specs.Questions.{cell_of, want_of};
ghost use Rattle.battles.specs.Battle.{Behaviour, robot_turn};
ghost use Rattle.battles.specs.IntervalKeeping.{KeepsPlayable, MayTakeTurn};

use arena::Arena;
use code::Want;
use engine::{Engine, Executable, Question};
use grammar::Intrinsic;

/// Takes the next turn of a live robot, whose machine asks this. No turn hurts a robot. A function that moves, shoots,
/// looks or draws is called by its name. Each call has a reply of its own: one reply after all of them takes longer. A
/// restart is lent the executable that is kept.
#[inline(always)]
pub(crate) fn take_turn<'a>(
    machine: &mut Engine,
    exe: &Executable<'a>,
    kept: &Executable<'a>,
    arena: &mut Arena,
    robot: usize,
    question: Question,
)
    requires same { kept.now ≡ exe.now }
    requires may { MayTakeTurn robot exe.now machine.old arena.old question }
    ensures field { (r : Behaviour) (f : Field) (trace : List ℤ) → r trace ≡ want_of question
        → is_live_at f robot ≡ true → RepresentsField arena.old f → RepresentsField arena.new (robot_turn r robot f trace).0 }
    ensures trace { (r : Behaviour) (f : Field) (trace : List ℤ) → r trace ≡ want_of question
        → is_live_at f robot ≡ true → RepresentsField arena.old f → EngineIsReached machine.old exe.now trace
        → EngineIsReached machine.new exe.now (robot_turn r robot f trace).1 }
    ensures keeps { KeepsPlayable exe.now machine.new arena.old arena.new }
    ensures alive { is_live arena.new robot ≡ true }
{
    match question {
        Question::Draw(_, limit) => machine.reply(exe, question, arena.draw(limit)),
        Question::Ask(_, intrinsic, word) => {
            machine.reply(exe, question, arena.ask(robot, intrinsic, [word, 0]));
        }
        Question::Scan(_, degree, resolution) => {
            machine.reply(exe, question, arena.scan(robot, degree, resolution));
        }
        Question::Cannon(_, degree, range) => {
            machine.reply(exe, question, arena.cannon(robot, degree, range));
        }
        Question::Drive(_, degree, speed) => {
            machine.reply(exe, question, arena.drive(robot, degree, speed));
        }
        Question::Restart => machine.restart(kept),
        Question::Plain(want) => match want {
            Want::Ask(intrinsic, words) => {
                machine.reply(exe, question, ask_plainly(arena, robot, intrinsic, words));
            }
            // no quiet want is asked (`some` of `MayTakeTurn`), so it wants a restart
            _ => machine.restart(kept),
        },
    }
}

/// Answers a question of a live robot that goes on by operations.
#[inline(always)]
pub(crate) fn answer(arena: &mut Arena, robot: usize, question: Question) -> i32
    requires alive { is_live arena.old robot ≡ true }
    requires cell { cell_of question ≢ None }
    ensures field { (r : Behaviour) (f : Field) (trace : List ℤ) → r trace ≡ want_of question
        → is_live_at f robot ≡ true → RepresentsField arena.old f → RepresentsField arena.new (robot_turn r robot f trace).0 }
    ensures reply { (r : Behaviour) (f : Field) (trace : List ℤ) → r trace ≡ want_of question
        → is_live_at f robot ≡ true → RepresentsField arena.old f → (robot_turn r robot f trace).1 ≡ trace ++ result ∷ [] }
    ensures updates { arena.new.updates ≡ arena.old.updates }
    ensures manned { length arena.new.robots ≡ length arena.old.robots }
    ensures alive { is_live arena.new robot ≡ true }
{
    match question {
        Question::Draw(_, limit) => arena.draw(limit),
        Question::Ask(_, intrinsic, word) => arena.ask(robot, intrinsic, [word, 0]),
        Question::Scan(_, degree, resolution) => arena.scan(robot, degree, resolution),
        Question::Cannon(_, degree, range) => arena.cannon(robot, degree, range),
        Question::Drive(_, degree, speed) => arena.drive(robot, degree, speed),
        Question::Restart => unreachable!(),
        Question::Plain(_) => unreachable!(),
    }
}

/// Answers a live robot whose plain machine asks. It stays out of the loop that runs robots.
#[cold]
#[inline(never)]
fn ask_plainly(arena: &mut Arena, robot: usize, intrinsic: Intrinsic, words: [i32; 2]) -> i32
    requires { is_live arena.old robot ≡ true }
    ensures reply { (f : Field) → RepresentsField arena.old f → result ≡ (answer f robot intrinsic words).0 }
    ensures stands { (f : Field) → RepresentsField arena.old f → RepresentsField arena.new (answer f robot intrinsic words).1 }
    ensures updates { arena.new.updates ≡ arena.old.updates }
    ensures manned { length arena.new.robots ≡ length arena.old.robots }
    ensures alive { is_live arena.new robot ≡ true }
{
    arena.ask(robot, intrinsic, words)
}
