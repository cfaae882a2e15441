//! The turns of an interval are numbered in the order of the cycles and the robots: which one of each robot is next.

ghost use Rattle.std.specs.Prelude.{◌≡◌, ◌↔◌, ℕ, ◌+◌, ◌*◌, ◌%◌, ◌<◌, ◌≤◌, ◌^◌, IsTrue, slice_index_or, slice_set};
ghost use Rattle.battles.specs.Intervals.{AreTurnNumbers, OthersArePast};

use arena::MOST_ROBOTS;
use std::marker::Model;

/// How many numbers the turns of one cycle have. Robots that aren't there have one each too.
pub(crate) const CYCLE_TURNS: u32 = MOST_ROBOTS as u32;

/// The number of each robot's next turn. That of robot `r` in cycle `c` has the number `CYCLE_TURNS * c + r`.
#[derive(Drop)]
pub(crate) struct NextTurns {
    next: [u32; MOST_ROBOTS],
}

impl Model for NextTurns {
    ghost use Rattle.std.specs.Prelude.{ℕ, List};
    ghost use Rattle.battles.specs.Intervals.{AreTurnNumbers};

    ghost Value = { List ℕ };

    ghost view = { λ s. s.next };

    ghost invariant = { λ s. AreTurnNumbers s.next };
}

impl NextTurns {
    /// Makes the first turns of the robots in an interval, by their number and the interval's cycles. Robots that
    /// aren't there have no turn in it.
    #[inline(always)]
    pub(crate) fn new(robots: usize, cycles: u32) -> NextTurns
        requires { cycles ≤ 1000 }
        ensures turn_numbers { AreTurnNumbers result }
        ensures first { (i : ℕ) → i < robots → i < MOST_ROBOTS → slice_index_or result i 0 ≡ i }
        ensures past { (i : ℕ) → robots ≤ i → i < MOST_ROBOTS → CYCLE_TURNS * cycles ≤ slice_index_or result i 0 }
    {
        NextTurns {
            next: [
                first_turn_of(0, robots, cycles),
                first_turn_of(1, robots, cycles),
                first_turn_of(2, robots, cycles),
                first_turn_of(3, robots, cycles),
            ],
        }
    }

    /// Returns the least of the numbers: that of the turn that is next.
    #[inline(always)]
    pub(crate) fn least(&self) -> u32
        ensures least { (i : ℕ) → i < MOST_ROBOTS → result ≤ slice_index_or self.now i 0 }
        ensures turn_numbers { AreTurnNumbers self.now }
        ensures own { slice_index_or self.now (result % CYCLE_TURNS) 0 ≡ result }
    {
        let low = self.next[0].min(self.next[1]);
        let high = self.next[2].min(self.next[3]);
        low.min(high)
    }

    /// Reports whether all robots but this one are past the turns before that of a number. Only draws ask for it:
    /// inlined into the loop over turns, it is worked out before each loop.
    #[inline(never)]
    pub(crate) fn others_are_past(&self, robot: usize, end: u32) -> bool
        requires { robot < MOST_ROBOTS }
        ensures { IsTrue result ↔ OthersArePast end robot self.now }
    {
        (robot == 0 || end <= self.next[0])
            && (robot == 1 || end <= self.next[1])
            && (robot == 2 || end <= self.next[2])
            && (robot == 3 || end <= self.next[3])
    }

    /// Lets a robot go on by the given number of cycles.
    #[inline(always)]
    pub(crate) fn advance(&mut self, robot: usize, cycles: u32)
        requires inside { robot < MOST_ROBOTS }
        requires small { slice_index_or self.old robot 0 + CYCLE_TURNS * cycles < 2 ^ 32 }
        ensures { self.new ≡ slice_set self.old robot (slice_index_or self.old robot 0 + CYCLE_TURNS * cycles) }
    {
        self.next[robot] += CYCLE_TURNS * cycles;
    }
}

/// Returns the number of a robot's first turn.
#[inline(always)]
fn first_turn_of(robot: u8, robots: usize, cycles: u32) -> u32
    requires small { cycles ≤ 1000 }
    requires inside { robot < MOST_ROBOTS }
    ensures own { result % CYCLE_TURNS ≡ robot }
    ensures first { robot < robots → result ≡ robot }
    ensures past { robots ≤ robot → CYCLE_TURNS * cycles ≤ result }
{
    if usize::from(robot) < robots {
        u32::from(robot)
    } else {
        CYCLE_TURNS * cycles + u32::from(robot)
    }
}
