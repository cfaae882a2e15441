//! Pilots: a robot's program with the machine that runs it.

ghost use Rattle.std.specs.Prelude.{◌≡◌, ◌==◌, ◌<◌, ◌≤◌, ◌++◌, ◌∷◌, if◌then◌else◌, ℤ, List, [], IfOk, false, length, true};
ghost use Rattle.arena.specs.Arena.{is_live};
ghost use Rattle.arena.specs.Field.{Field};
ghost use Rattle.arena.specs.Representing.{RepresentsField};
ghost use Rattle.code.specs.Machine.{want_code, want_next};
ghost use Rattle.code.specs.declared.want.Want.TheVariants as want;
ghost use Rattle.code.specs.ReachedMachines.{IsReachable, IsReached};
ghost use Rattle.battles.specs.Pairing.{paired};
ghost use Rattle.watching.specs.Pilot.{IsOfSameUpdate, TakesTurn};
ghost use Rattle.watching.specs.Played.{codes_of};
ghost use Rattle.watching.specs.Sights.{Restarts, Sight, turn_sights};

use crate::watcher::{Exchange, Turn, Watcher};
use arena::{Arena, MOST_ROBOTS};
use code::{Machine, Program, Want};
use settings::MOST_CYCLES;
use std::alloc::{AllocError, Global};
use std::marker::Model;

/// A robot's program, and a machine that runs it.
#[derive(Drop)]
pub struct Pilot<'a> {
    program: &'a Program,
    machine: Machine,
}

impl<'a> Model for Pilot<'a> {
    ghost use Rattle.code.specs.ReachedMachines.{IsReachable};
    ghost use Rattle.watching.specs.Pilot.{Pilot};

    ghost Value = { Pilot };

    ghost view = { λ p. record { code = p.program.now; state = p.machine } };

    ghost invariant = { λ p. IsReachable p.machine p.program.now };
}

impl<'a> Pilot<'a> {
    /// Makes the pilot of a program, at its start.
    pub fn new(program: &'a Program) -> Pilot<'a>
        ensures { result.code ≡ program.now }
    {
        Pilot {
            program,
            machine: Machine::new(program),
        }
    }

    /// Goes to the start of its program, whatever it did before.
    pub(crate) fn begin(&mut self)
        ensures program { self.new.code ≡ self.old.code }
        ensures begins { IsReached self.new.state self.old.code [] }
    {
        self.machine.restart(self.program);
    }

    /// Returns the program.
    pub fn program(&self) -> &'a Program
        ensures { result.now ≡ self.now.code }
    {
        self.program
    }

    /// Returns the machine.
    pub fn machine(&self) -> &Machine
        ensures state { result.now ≡ self.now.state }
        ensures fits { IsReachable result.now self.now.code }
    {
        &self.machine
    }

    /// Runs one cycle before a watcher, which sees it and changes nothing. A dead robot does nothing.
    pub fn turn<W: Watcher>(&mut self, turn: Turn, arena: &mut Arena, watcher: &mut W)
        requires inside { turn.robot < length arena.old.robots }
        requires cycle { turn.cycle ≤ MOST_CYCLES }
        ensures program { self.new.code ≡ self.old.code }
        ensures dead { is_live arena.old turn.robot ≡ false → (self.new ≡ self.old) × (arena.new ≡ arena.old) }
        ensures lives { is_live arena.old turn.robot ≡ true → (trace : List ℤ)
            → IsReached self.old.state self.old.code trace
            → TakesTurn self.old.code turn.robot trace (want_code self.old.code trace) self.new.state
            arena.old arena.new }
        ensures field { IsOfSameUpdate arena.old arena.new }
        ensures told { (sights : List Sight) (f : Field) (trace : List ℤ) → RepresentsField arena.old f
            → IsReached self.old.state self.old.code trace → W.told watcher.old sights
            → W.told watcher.new (sights ++ turn_sights turn.cycle turn.robot (want_code self.old.code trace) f trace) }
        ensures kept { W.keeps watcher.new ≡ W.keeps watcher.old }
    {
        if !arena.alive(turn.robot) {
            return;
        }
        watcher.turn(turn, self);
        match self.machine.next(self.program) {
            Want::Quiet => self.machine.advance(self.program, 0),
            Want::Restart => self.restart(turn, watcher),
            Want::Ask(intrinsic, arguments) => {
                let reply = arena.ask(turn.robot, intrinsic, arguments);
                let question = Exchange {
                    intrinsic,
                    arguments,
                    reply,
                };
                watcher.asked(turn, self, question, arena);
                self.machine.advance(self.program, reply);
            }
        }
    }

    /// Restarts the machine, and reports the cause to the watcher.
    fn restart<W: Watcher>(&mut self, turn: Turn, watcher: &mut W)
        requires { want_next self.old.code self.old.state ≡ want.Restart }
        ensures program { self.new.code ≡ self.old.code }
        ensures restarts { IsReached self.new.state self.old.code [] }
        ensures told { (sights : List Sight) → W.told watcher.old sights
            → W.told watcher.new (sights ++ Restarts turn.cycle turn.robot ∷ []) }
        ensures kept { W.keeps watcher.new ≡ W.keeps watcher.old }
    {
        if let Some(cause) = self.machine.cause(self.program) {
            watcher.restarts(turn, self, cause);
        }
        self.begin();
    }
}

/// Makes the pilots of programs: one of each, or two of a single one.
pub fn pilots(alloc: Global, programs: &[Program]) -> Result<Vec<Pilot<'_>>, AllocError>
    requires some { 0 < length programs.now }
    requires most { length programs.now ≤ MOST_ROBOTS }
    ensures codes { IfOk result (λ pilots. codes_of pilots.items ≡ paired programs.now) }
    ensures count { IfOk result (λ pilots. length pilots.items
        ≡ (if length programs.now == 1 then 2 else length programs.now)) }
{
    let mut pilots = Vec::new(alloc);
    for program in programs {
        pilots.push(Pilot::new(program))?;
    }
    if let [program] = programs {
        pilots.push(Pilot::new(program))?;
    }
    Ok(pilots)
}
