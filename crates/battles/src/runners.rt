//! The robots' machines, each of which may be some cycles ahead of its robot.

ghost use Rattle.std.specs.Prelude.{[]};
ghost use Rattle.engine.specs.Engines.{EngineFits};
ghost use Rattle.battles.specs.Carrying.{IsAheadOf};

use arena::MOST_ROBOTS;
use engine::{Engine, Executable};
use std::marker::Model;

/// The machines of the robots of a battle. A series makes them once; each battle starts them anew.
#[derive(Drop)]
pub struct Machines {
    pub(crate) runners: [Runner; MOST_ROBOTS],
}

impl Default for Machines {
    /// Makes blank machines, which are at the start of no program.
    fn default() -> Machines {
        Machines {
            runners: Default::default(),
        }
    }
}

/// A robot's machine, and how many cycles it is ahead of the robot. In these it asks nothing, so nobody can see that
/// they were run before.
#[derive(Drop)]
pub(crate) struct Runner {
    pub(crate) machine: Engine,
    pub(crate) ahead: u32,
}

impl Model for Runner {
    ghost use Rattle.battles.specs.Carrying.{Runner};

    ghost Value = { Runner };

    ghost view = { λ r. record { machine = r.machine; ahead = r.ahead } };
}

impl Default for Runner {
    fn default() -> Runner {
        Runner {
            machine: Engine::default(),
            ahead: 0,
        }
    }
}

impl Runner {
    /// Begins at the start of a program, whatever it did before.
    pub(crate) fn restart(&mut self, exe: &Executable<'_>)
        ensures fits { EngineFits self.new.machine exe.now }
        ensures begins { IsAheadOf self.new exe.now [] }
    {
        self.machine.restart(exe);
        self.ahead = 0;
    }
}
