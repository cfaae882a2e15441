//! How a battle ends.

ghost use Rattle.std.specs.Prelude.{◌≡◌, ◌<◌, ◌≤◌, length, slice_index};
ghost use Rattle.battles.specs.Battle.{is_survivor};

use arrayvec::ArrayVec;
use settings::MOST_FILES;
use std::marker::Model;

/// How a battle ends: after how many cycles, and with which damage of each robot, in percent.
#[derive(Drop)]
pub struct Outcome {
    cycles: u32,
    damages: ArrayVec<u8, MOST_FILES>,
}

impl Model for Outcome {
    ghost use Rattle.battles.specs.Battle.{Outcome};

    ghost Value = { Outcome };

    ghost view = { λ o. record { cycles = o.cycles; damages = o.damages.items } };
}

impl Outcome {
    /// Makes the outcome of these cycles and damages, one of each robot.
    pub fn new(cycles: u32, damages: ArrayVec<u8, MOST_FILES>) -> Outcome
        ensures { result ≡ record { cycles = cycles; damages = damages.items } }
    {
        Outcome { cycles, damages }
    }

    /// Returns the number of cycles.
    pub fn cycles(&self) -> u32
        ensures { result ≡ self.now.cycles }
    {
        self.cycles
    }

    /// Returns the damage of each robot, in percent.
    pub fn damages(&self) -> &[u8]
        ensures value { result.now ≡ self.now.damages }
        ensures most { length result.now ≤ MOST_FILES }
    {
        self.damages.as_slice()
    }

    /// Reports whether a robot is alive: its damage is below 100.
    #[tactic(auto, unfolding(crate::specs::Battle::is_survivor))]
    pub fn is_alive(&self, robot: usize) -> bool
        requires { robot < length self.now.damages }
        ensures { result ≡ is_survivor self.now robot }
    {
        self.damages[robot] < 100
    }
}
