//! The drill of the machine: one robot's program, run for many cycles.

ghost use Rattle.std.specs.Prelude.{◌+◌, ◌-◌, ◌^◌, ◌<◌, ◌≤◌, ◌≢◌};
ghost use Rattle.code.specs.Machine.{want_next};
ghost use Rattle.code.specs.ReachedMachines.{IsReachable};

use code::{Machine, Maker, Profile, Program, Want};
use parser::parse;
use tokens::MemoryFeed;

/// The robot. Each turn is 28 cycles, each tenth one 10 more, and after 100 turns it restarts in the sixth cycle.
pub const ROBOT: &[u8] = b"
    int heading;
    turned(by) { return (heading + by) % 360; }
    main() {
      int turns, range;
      while (turns < 100) {
        heading = turned(7);
        if (turns % 10 == 9) {
          range = scan(heading, 10);
          if (range > 0) cannon(heading, range);
        }
        turns++;
      }
    }
";

/// In how many cycles a machine asked, and in how many it restarted.
#[derive(Clone, Copy, Debug, PartialEq, Eq)]
pub struct Counts {
    /// The cycles that asked.
    pub asks: u32,
    /// The cycles that restarted.
    pub restarts: u32,
}

/// Compiles a source without a fault.
pub fn compiled(source: &[u8]) -> Option<Program> {
    let mut maker = Maker::new(Profile::first());
    let names = parse(&mut MemoryFeed::new(source, 4096), &mut maker).ok()?;
    Some(maker.finish(&names))
}

/// Counts questions and restarts in the first cycles of a machine whose replies are all 0.
pub fn counted(program: &Program, cycles: u32) -> Counts
    ensures { result.asks + result.restarts ≤ cycles }
{
    let mut machine = Machine::new(program);
    let mut counts = Counts {
        asks: 0,
        restarts: 0,
    };
    let mut left = cycles;
    while left > 0 {
        left -= machine.run_quiet(program, left);
        if left > 0 {
            count(&mut machine, program, &mut counts);
            left -= 1;
        }
    }
    counts
}

/// Runs the cycle in which the machine asks or restarts, and counts it.
fn count(machine: &mut Machine, program: &Program, counts: &mut Counts)
    requires fits { IsReachable machine.old program.now }
    requires stopped { want_next program.now machine.old ≢ Want.Quiet }
    requires room { counts.old.asks + counts.old.restarts < 2 ^ 32 - 1 }
    ensures fits { IsReachable machine.new program.now }
    ensures one { counts.new.asks + counts.new.restarts ≤ counts.old.asks + counts.old.restarts + 1 }
{
    match machine.stopped_want(program) {
        Want::Restart => {
            machine.restart(program);
            counts.restarts += 1;
        }
        Want::Ask(..) => {
            machine.reply(program, 0);
            counts.asks += 1;
        }
        Want::Quiet => {}
    }
}
