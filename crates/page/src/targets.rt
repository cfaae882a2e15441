//! Targets: which robot is looked into, and where it is looked for.

ghost use Rattle.std.specs.Prelude.{◌≡◌};
ghost use Rattle.page.specs.Insides.{which_of};

use code::MOST_INSTRUCTIONS;
use watching::SoughtCycle;

/// The marks of a target: one for each address that a program may have.
pub const MARKS: usize = MOST_INSTRUCTIONS;

/// A robot of a match at a cycle, or what is looked for in its cycles. A robot that the match doesn't have is nowhere.
#[repr(C)]
#[derive(Drop)]
pub struct Target {
    /// The robot's number, from 0.
    pub robot: u32,
    /// The cycle after which the robot is shown, or before or after which it is searched for.
    pub cycle: u32,
    /// How many frames are open at most where it is looked for.
    pub frames: u32,
    /// 0 if it is looked for after the cycle. Else it is looked for before the cycle.
    pub backwards: u32,
    /// A byte for each address, which isn't 0 if it is looked for there.
    pub marks: [u8; MARKS],
}

impl Target {
    /// Returns whether the robot is looked for at each address.
    pub(crate) fn marked(&self) -> [bool; MARKS] {
        let mut marked = [false; MARKS];
        for address in 0..MARKS {
            marked[address] = self.marks[address] != 0;
        }
        marked
    }

    /// Returns which cycle is looked for.
    pub(crate) fn which(&self) -> SoughtCycle
        ensures { result ≡ which_of self.now }
    {
        if self.backwards == 0 {
            SoughtCycle::After(self.cycle)
        } else {
            SoughtCycle::Before(self.cycle)
        }
    }
}
