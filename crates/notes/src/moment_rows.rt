//! Where a robot is at a moment of a match, as rows of fields with tabs between them.

ghost use Rattle.std.specs.Prelude.{◌<◌, ◌≤◌, length};

use crate::notes::NotedProgram;
use crate::spelling::{add_call, add_instruction, add_words};
use arena::{Arena, MOST_ROBOTS};
use code::{Machine, Want};
use grammar::Name;
use settings::Settings;
use std::alloc::AllocError;
use tools::{Draft, Text};
use watching::{Moment, Pilot, moment_at, word_of};

/// Plays the match of a wish up to the moment after a cycle, or to its end if that comes before, and adds where a robot
/// is then: its cycle, its next instruction and what that asks, its last question, its calls with their variables, its
/// externals, its stack, the places of all robots, and an empty line. The only error is that memory is refused.
pub fn add_moment(
    text: &mut Draft,
    wish: &Settings<'_>,
    noted: &NotedProgram<'_>,
    pilots: &mut [Pilot<'_>],
    robot: usize,
    cycle: u32,
) -> Result<(), AllocError>
    requires some { 2 ≤ length pilots.old }
    requires most { length pilots.old ≤ MOST_ROBOTS }
    requires inside { robot < length pilots.old }
{
    let (seed, number, limit) = (wish.seed(), wish.first(), wish.limit());
    let moment = moment_at(pilots, robot, cycle, seed, number, limit);
    let machine = pilots[robot].machine();
    add_cycle(text, &moment);
    add_next(text, noted, machine.address())?;
    add_wish(text, &moment);
    add_asked(text, &moment);
    add_calls(text, noted, machine);
    add_values(
        text,
        "external",
        noted.note.names.externals(),
        machine.externals(),
    );
    text.add("stack\t");
    add_words(text, machine.words());
    text.add("\n");
    add_robots(text, moment.game.arena());
    text.add("\n");
    Ok(())
}

/// Adds the cycle, whether the robot lives, and whether the match is over.
fn add_cycle(text: &mut Draft, moment: &Moment) {
    let ending = moment.game.ending();
    let (cycle, life) = (ending.cycles, life(moment.is_alive));
    let state = if ending.is_over { "over" } else { "goes on" };
    writeln!(text, "cycle\t{cycle}\t{life}\t{state}");
}

/// Returns the word for whether a robot lives.
fn life(is_alive: bool) -> &'static str {
    if is_alive { "alive" } else { "dead" }
}

/// Adds where the next instruction stands, the instruction as a listing has it, and the name of the variable or
/// function in it.
fn add_next(text: &mut Draft, noted: &NotedProgram<'_>, address: usize) -> Result<(), AllocError> {
    let (line, function) = noted.position(address);
    let column = noted.note.positions.column(address);
    writeln!(text, "at\t{address}\t{line}\t{column}\t{function}");
    text.add("instruction\t");
    add_instruction(text, noted, address)?;
    writeln!(text, "\t{}", noted.named().name_in(address).unwrap_or(""));
    Ok(())
}

/// Adds the question or the restart of the next cycle, if it has one.
fn add_wish(text: &mut Draft, moment: &Moment) {
    if moment.game.ending().is_over {
        return;
    }
    if let Want::Ask(intrinsic, arguments) = moment.next {
        text.add("asks\t");
        add_call(text, intrinsic, arguments);
        text.add("\n");
    }
    if let Some(cause) = moment.cause {
        writeln!(text, "restarts\t{}", word_of(cause));
    }
}

/// Adds the last question, its cycle and its reply, if there is one.
fn add_asked(text: &mut Draft, moment: &Moment) {
    if let Some(asked) = &moment.last {
        write!(text, "asked\t{}\t", asked.cycle);
        add_call(text, asked.question.intrinsic, asked.question.arguments);
        writeln!(text, "\t{}", asked.question.reply);
    }
}

/// Adds a row for each open call, the innermost first, and after it the rows of its variables. A row has the number of
/// frames that were open as the call began, the line on which the robot is in it, and the function. Frames of calls
/// whose arguments are being worked out have none.
fn add_calls(text: &mut Draft, noted: &NotedProgram<'_>, machine: &Machine) {
    let named = noted.named();
    let mut address = machine.address();
    let mut depth = machine.frames().len();
    for frame in machine.frames().iter().rev() {
        // the first frame is main's, and each other call that has begun has an address to return to
        if depth == 1 || frame.back > 0 {
            let (line, function) = noted.position(address);
            writeln!(text, "call\t{depth}\t{line}\t{function}");
            let words = machine.words().get(usize::from(frame.base)..);
            let names = named.variables(named.function(address));
            add_values(text, "local", names, words.unwrap_or(&[]));
            address = usize::from(frame.back).saturating_sub(1);
        }
        depth = depth.saturating_sub(1);
    }
}

/// Adds a row of this kind for each name and its value.
fn add_values(text: &mut Draft, kind: &str, names: &[Name], values: &[i32]) {
    for (name, value) in names.iter().zip(values) {
        writeln!(text, "{kind}\t{}\t{value}", name.as_str());
    }
}

/// Adds where each robot is in the field: its place, its heading, its speed, its damage, and whether it lives.
fn add_robots(text: &mut Draft, arena: &Arena) {
    for robot in 0..arena.robot_count() {
        let (number, (x, y)) = (robot.saturating_add(1), arena.place(robot));
        let (heading, speed) = (arena.heading(robot), arena.speed(robot));
        let (damage, life) = (arena.damage(robot), life(arena.alive(robot)));
        writeln!(
            text,
            "robot\t{number}\t{x}\t{y}\t{heading}\t{speed}\t{damage}\t{life}"
        );
    }
}
