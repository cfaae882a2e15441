//! A span: the part of a match that a program shows, one robot or all, from a first cycle to a last.

ghost use Rattle.std.specs.Prelude.{◌≡◌, ◌≤◌, ◌↔◌, codes, if◌then◌else◌, nat_le, IfOk, IsTrue, None};
ghost use Rattle.std.specs.Result.{result_ok};
ghost use Rattle.tools.specs.Given.{value_of};
ghost use Rattle.tools.specs.Span.{IsOfRobot, IsOfRobots, robot_named, span_asked};

use crate::faults::{Fault, Wrong};
use crate::known::Known;
use crate::options::Options;
use crate::wishes::number_of;
use settings::{MOST_CYCLES, value_number};

/// The options that a span is asked for by: the only robot, the first cycle, the last cycle.
pub const SPAN_OPTIONS: [Known; 3] = [
    Known::Valued("robot", "N", "only what concerns this robot, from 1"),
    Known::Valued(
        "from",
        "CYCLE",
        "only this cycle and later ones (default 0)",
    ),
    Known::Valued(
        "to",
        "CYCLE",
        "only this cycle and earlier ones (default 1000000000)",
    ),
];

/// A span of cycles of one robot, or of all.
#[derive(Clone, Copy, Debug, PartialEq, Eq, Drop)]
pub struct Span {
    /// The robot's number, from 0: all robots if there is none.
    pub robot: Option<usize>,
    /// The first cycle.
    pub from: u32,
    /// The last cycle.
    pub to: u32,
}

impl Span {
    /// Reads the span of a match of this many robots that options ask for: `--robot`, its number, from 1, by default
    /// all robots;
    /// `--from` and `--to`, the first and the last cycle, 0 to 1,000,000,000, by default all cycles. Other values, and
    /// a last cycle before the first one, are wrong usage.
    pub fn read(options: &Options<'_>, robots: usize) -> Result<Span, Fault>
        ensures asked { result_ok result ≡ span_asked options.now robots }
        ensures robot { IfOk result (λ span. IsOfRobots span.robot robots) }
        ensures cycles { IfOk result (λ span. span.from ≤ span.to) }
        ensures most { IfOk result (λ span. span.to ≤ MOST_CYCLES) }
    {
        let last = u64::from(MOST_CYCLES);
        let from = number_of(options, "from", 0, last, 0)? as u32;
        let to = number_of(options, "to", 0, last, last)? as u32;
        let (from, to) = in_order(from, to)?;
        let robot = robot_of(options, robots)?;
        Ok(Span { robot, from, to })
    }

    /// Reports whether the span has a robot.
    pub fn has_robot(&self, robot: usize) -> bool
        ensures { IsTrue result ↔ IsOfRobot self.now.robot robot }
    {
        match self.robot {
            Some(only) => only == robot,
            None => true,
        }
    }

    /// Reports whether the span has a cycle.
    pub fn has_cycle(&self, cycle: u32) -> bool
        ensures { IsTrue result ↔ ((self.now.from ≤ cycle) × (cycle ≤ self.now.to)) }
    {
        self.from <= cycle && cycle <= self.to
    }

    /// Reports whether the span has a robot in a cycle.
    pub fn has(&self, cycle: u32, robot: usize) -> bool
        ensures { IsTrue result ↔ (IsOfRobot self.now.robot robot × (self.now.from ≤ cycle) × (cycle ≤ self.now.to)) }
    {
        self.has_robot(robot) && self.has_cycle(cycle)
    }

    /// Reports whether the span has all robots, and each cycle of a match of this length.
    pub fn is_whole(&self, cycles: u32) -> bool
        ensures { IsTrue result ↔ ((self.now.robot ≡ None) × (self.now.from ≡ 0) × (cycles ≤ self.now.to)) }
    {
        self.robot.is_none() && self.from == 0 && self.to >= cycles
    }
}

/// Returns the first and the last cycle of a span, if they are in order: one cycle is a span too.
fn in_order(from: u32, to: u32) -> Result<(u32, u32), Fault>
    ensures { result ≡ (if nat_le from to then Ok (from, to) else Err (Fault.Wrong Wrong.Order)) }
{
    if to < from {
        return Err(Fault::Wrong(Wrong::Order));
    }
    Ok((from, to))
}

/// Reads the number of the only robot of the span, from 1 to the number of robots, if one is asked for.
fn robot_of(options: &Options<'_>, robots: usize) -> Result<Option<usize>, Fault>
    ensures named { result_ok result ≡ robot_named robots (value_of options.now (codes "robot")) }
    ensures inside { IfOk result (λ robot. IsOfRobots robot robots) }
{
    let Some(text) = options.value("robot") else {
        return Ok(None);
    };
    match value_number(text, 1, robots as u64) {
        Some(number) => Ok(Some(number as usize - 1)),
        None => Err(Fault::Wrong(Wrong::Robot(robots))),
    }
}
