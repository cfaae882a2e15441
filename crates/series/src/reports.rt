//! The report of a match.

ghost use Rattle.std.specs.Prelude.{◌≡◌, ℕ, ◌+◌, ◌-◌, ◌^◌, ◌<◌, ◌≤◌, List, [], ◌∷◌, ◌++◌, length, map, slice_index};
ghost use Rattle.battles.specs.Battle.{is_survivor};
ghost use Rattle.battles.specs.Pairing.{paired};
ghost use Rattle.sinks.specs.Pens.{MayFail, Adds};
ghost use Rattle.sinks.specs.Puts.{CanFail, Puts};
ghost use Rattle.series.specs.Reports.{report, robot_line, robot_lines, state_text};
ghost use Rattle.series.specs.RobotNames.{robot_names};
ghost use Rattle.series.specs.Lines.{ended_line, lines_text};

use crate::robot_names::robot_name;
use battles::Outcome;
use settings::MOST_FILES;
use sinks::{Pen, Sink};
use tokens::DeviceFault;

/// Writes the report of the match of this number, as one piece. The words name the robots' files.
pub(crate) fn put_report<S: Sink>(
    sink: &mut S,
    number: u32,
    outcome: &Outcome,
    words: &[&str],
) -> Result<(), DeviceFault>
    requires named { length outcome.now.damages ≡ length (paired words.now) }
    requires countable { CanFail (S.written sink.old) }
    ensures { Puts result (S.written sink.old) (S.written sink.new)
        (report number (robot_names (map (λ word. word.now) words.now)) outcome.now) }
{
    let mut pen = Pen::new();
    add_report(&mut pen, sink, number, outcome, words);
    pen.finish(sink)
}

/// Adds the report of the match of this number.
fn add_report<S: Sink>(pen: &mut Pen, sink: &mut S, number: u32, outcome: &Outcome, words: &[&str])
    requires named { length outcome.now.damages ≡ length (paired words.now) }
    requires countable { MayFail pen.old (S.written sink.old) }
    ensures countable { MayFail pen.new (S.written sink.new) }
    ensures text { Adds (S.written sink.old) pen.old (S.written sink.new) pen.new
        (report number (robot_names (map (λ word. word.now) words.now)) outcome.now) }
{
    pen.add(sink, b"Match ");
    pen.add_number(sink, number);
    pen.add(sink, b": cycles = ");
    pen.add_number(sink, outcome.cycles());
    pen.add(sink, b"\n");
    add_robots(pen, sink, outcome, words);
}

/// Adds the line of each robot.
fn add_robots<S: Sink>(pen: &mut Pen, sink: &mut S, outcome: &Outcome, words: &[&str])
    requires named { length outcome.now.damages ≡ length (paired words.now) }
    requires countable { MayFail pen.old (S.written sink.old) }
    ensures countable { MayFail pen.new (S.written sink.new) }
    ensures text { Adds (S.written sink.old) pen.old (S.written sink.new) pen.new
        (lines_text (robot_lines (robot_names (map (λ word. word.now) words.now)) outcome.now)) }
{
    for robot in 0..outcome.damages().len() {
        add_robot(pen, sink, outcome, robot, robot_name(words, robot));
    }
}

/// Adds the line of one robot, which has this name.
fn add_robot<S: Sink>(pen: &mut Pen, sink: &mut S, outcome: &Outcome, robot: usize, name: &[u8])
    requires there { robot < length outcome.now.damages }
    requires most { robot < MOST_FILES }
    requires countable { MayFail pen.old (S.written sink.old) }
    ensures countable { MayFail pen.new (S.written sink.new) }
    ensures text { Adds (S.written sink.old) pen.old (S.written sink.new) pen.new
        (ended_line (robot_line robot (is_survivor outcome.now robot) (slice_index outcome.now.damages robot) name.now)) }
{
    pen.add(sink, b"  ");
    pen.add_number(sink, robot as u32 + 1);
    pen.add(sink, b") ");
    pen.add(sink, state_text(outcome.is_alive(robot)));
    pen.add(sink, b" damage ");
    pen.add_column(sink, 3, u32::from(outcome.damages()[robot]));
    pen.add(sink, b"% ");
    pen.add(sink, name);
    pen.add(sink, b"\n");
}

/// Returns the word for a robot that is alive, or for one that isn't, in five columns.
fn state_text(is_alive: bool) -> &'static [u8]
    ensures { result.now ≡ state_text is_alive }
{
    if is_alive { b"alive" } else { b"dead " }
}
