//! Watchers: what sees a match as it is played.

ghost use Rattle.std.specs.Prelude.{◌≡◌, ◌<◌, ◌≤◌, ◌+◌, ◌*◌, ◌++◌, ◌∷◌, [], ℕ, ℤ, Bool, List, Some, length, true};
ghost use Rattle.arena.specs.Arena.{Arena};
ghost use Rattle.arena.specs.Field.{Field};
ghost use Rattle.arena.specs.Representing.{Answers, RepresentsField};
ghost use Rattle.code.specs.Causes.{cause_next};
ghost use Rattle.code.specs.Machine.{want_next};
ghost use Rattle.code.specs.ReachedMachines.{IsReached};
ghost use Rattle.code.specs.declared.want.Want.TheVariants.{Ask};
ghost use Rattle.watching.specs.Sights.{Asks, Begins, Restarts, Runs, Sight, Updated, Updates};

use crate::pilot::Pilot;
use arena::Arena;
use battles::UPDATE_CYCLES;
use code::{Cause, Intrinsic};
use settings::MOST_CYCLES;

/// A robot's turn in a cycle.
#[derive(Clone, Copy)]
pub struct Turn {
    /// The number of the cycle, from 1.
    pub cycle: u32,
    /// The number of the robot, from 0.
    pub robot: usize,
}

/// A call of an intrinsic function, and its reply.
#[derive(Clone, Copy)]
pub struct Exchange {
    /// The function.
    pub intrinsic: Intrinsic,
    /// Its arguments: 0 where one is missing or not used.
    pub arguments: [i32; 2],
    /// What the field answered.
    pub reply: i32,
}

/// Returns the word of what a robot restarts for.
pub fn word_of(cause: Cause) -> &'static str {
    match cause {
        Cause::Words => "words",
        Cause::Frames => "frames",
        Cause::Returned => "returned",
    }
}

/// What sees a match as it is played.
///
/// `told` says whether a watcher may have been told these sights, in this order: each call tells it one more. It holds
/// always for a watcher of which nothing is to be proved. `keeps` has numbers of a watcher that no call changes, as where
/// it writes to. `asks_more` says whether the match is to go on after the update of a cycle.
pub trait Watcher {
    ghost told: { Self → List Sight → Type 0 } = { λ _ _. Unit {0} };

    ghost keeps: { Self → List ℕ } = { λ _. [] };

    ghost asks_more: { Self → ℕ → Bool } = { λ _ _. true };

    /// The match begins: the robots have their places.
    fn begins(&mut self, arena: &Arena)
        ensures told { (sights : List Sight) (f : Field) → RepresentsField arena.now f → told self.old sights
            → told self.new (sights ++ Begins f ∷ []) }
        ensures kept { keeps self.new ≡ keeps self.old };

    /// A live robot is about to run a cycle.
    fn turn(&mut self, turn: Turn, pilot: &Pilot<'_>)
        ensures told { (sights : List Sight) (trace : List ℤ) → IsReached pilot.now.state pilot.now.code trace
            → told self.old sights → told self.new (sights ++ Runs turn.cycle turn.robot trace ∷ []) }
        ensures kept { keeps self.new ≡ keeps self.old };

    /// In its turn a robot has asked the field. Its machine doesn't have the reply yet.
    fn asked(&mut self, turn: Turn, pilot: &Pilot<'_>, question: Exchange, arena: &Arena)
        requires inside { turn.robot < length arena.now.robots }
        requires cycle { turn.cycle ≤ MOST_CYCLES }
        requires asks { want_next pilot.now.code pilot.now.state ≡ Ask question.intrinsic question.arguments }
        requires answers { (before : Arena) × Answers before arena.now turn.robot question.intrinsic question.arguments
            question.reply }
        ensures told { (sights : List Sight) (f : Field) → RepresentsField arena.now f → told self.old sights
            → told self.new (sights ++ Asks turn.cycle turn.robot question.intrinsic question.arguments question.reply f
            ∷ []) }
        ensures kept { keeps self.new ≡ keeps self.old };

    /// In its turn a robot is about to restart.
    fn restarts(&mut self, turn: Turn, pilot: &Pilot<'_>, cause: Cause)
        requires { cause_next pilot.now.code pilot.now.state ≡ Some cause }
        ensures told { (sights : List Sight) → told self.old sights
            → told self.new (sights ++ Restarts turn.cycle turn.robot ∷ []) }
        ensures kept { keeps self.new ≡ keeps self.old };

    /// The update after this cycle is about to be done.
    fn updates(&mut self, cycle: u32, arena: &Arena)
        requires { cycle ≡ (arena.now.updates + 1) * UPDATE_CYCLES }
        ensures told { (sights : List Sight) (f : Field) → RepresentsField arena.now f → told self.old sights
            → told self.new (sights ++ Updates cycle f ∷ []) }
        ensures kept { keeps self.new ≡ keeps self.old };

    /// The update after this cycle is done.
    fn updated(&mut self, cycle: u32, arena: &Arena)
        requires { cycle ≡ arena.now.updates * UPDATE_CYCLES }
        ensures told { (sights : List Sight) (f : Field) → RepresentsField arena.now f → told self.old sights
            → told self.new (sights ++ Updated cycle f ∷ []) }
        ensures kept { keeps self.new ≡ keeps self.old };

    /// Reports whether the match is to go on after the update of a cycle. It is stopped if not.
    fn wants_more(&self, cycle: u32) -> bool
        ensures { result ≡ asks_more self.now cycle };
}

/// A watcher that does nothing.
#[derive(Drop)]
pub struct Nobody;

impl Watcher for Nobody {
    fn begins(&mut self, _: &Arena) {}

    fn turn(&mut self, _: Turn, _: &Pilot<'_>) {}

    fn asked(&mut self, _: Turn, _: &Pilot<'_>, _: Exchange, _: &Arena) {}

    fn restarts(&mut self, _: Turn, _: &Pilot<'_>, _: Cause) {}

    fn updates(&mut self, _: u32, _: &Arena) {}

    fn updated(&mut self, _: u32, _: &Arena) {}

    fn wants_more(&self, _: u32) -> bool {
        true
    }
}
