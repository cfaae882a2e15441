//! Turns: a row for each question, or for each cycle.

ghost use Rattle.std.specs.Prelude.{is_ok};

use crate::requests::{Form, Task};
use crate::rows::{Rows, add_turn};
use crate::tellers::Teller;
use arena::{Arena, MOST_ROBOTS};
use code::{Cause, Machine};
use grammar::{MOST_NAMES, Name};
use notes::{NotedProgram, Sources, add_call, add_instruction, add_words};
use std::alloc::AllocError;
use tools::{Draft, Fault, Text};
use watching::{Exchange, Pilot, Turn, Watcher};

/// The names of the columns of questions.
const ASK_COLUMNS: &str = "cycle\trobot\tfunction\tline\tcall\treply";

/// The names of the columns of steps.
const STEP_COLUMNS: &str = "cycle\trobot\taddress\tinstruction\tstack\tline\tname\tchanged";

/// What writes questions as they are asked, or steps before they are done.
#[derive(Drop)]
pub struct Turns<'a> {
    rows: Rows<'a>,
    sources: &'a Sources,
    is_stepwise: bool,
    /// The externals of each robot before its last step.
    externals: [[i32; MOST_NAMES]; MOST_ROBOTS],
}

impl<'a> Turns<'a> {
    /// Makes the steps of a match that was not begun if they are asked for, else its questions.
    pub fn new(task: Task<'a>) -> Turns<'a> {
        let (is_stepwise, columns) = match task.request.form {
            Form::Steps => (true, STEP_COLUMNS),
            _ => (false, ASK_COLUMNS),
        };
        Turns {
            rows: Rows::new(task.rt, task.request.span, columns),
            sources: task.sources,
            is_stepwise,
            externals: [[0; MOST_NAMES]; MOST_ROBOTS],
        }
    }

    /// Adds the row of a step, if it is in the span, and keeps the robot's externals.
    fn step(&mut self, turn: Turn, machine: &Machine) {
        let Some(externals) = self.externals.get_mut(turn.robot) else {
            return;
        };
        if self.rows.span.has(turn.cycle, turn.robot)
            && let Some(noted) = self.sources.robot(turn.robot)
        {
            let added = add_step(&mut self.rows.text, turn, &noted, machine, externals);
            self.rows.note(added);
            self.rows.pass();
        }
        for (kept, value) in externals.iter_mut().zip(machine.externals()) {
            *kept = *value;
        }
    }
}

impl Watcher for Turns<'_> {
    ghost asks_more = { λ turns _. is_ok turns.rows.state };

    fn begins(&mut self, _: &Arena) {}

    fn turn(&mut self, turn: Turn, pilot: &Pilot<'_>) {
        if self.is_stepwise {
            self.step(turn, pilot.machine());
        }
    }

    fn asked(&mut self, turn: Turn, pilot: &Pilot<'_>, question: Exchange, _: &Arena) {
        if !self.is_stepwise && self.rows.span.has(turn.cycle, turn.robot) {
            let (line, function) = self.sources.position(turn.robot, pilot.machine().address());
            let text = &mut self.rows.text;
            add_turn(text, turn);
            write!(text, "{function}\t{line}\t");
            add_call(text, question.intrinsic, question.arguments);
            writeln!(text, "\t{}", question.reply);
            self.rows.pass();
        }
    }

    fn restarts(&mut self, _: Turn, _: &Pilot<'_>, _: Cause) {}

    fn updates(&mut self, _: u32, _: &Arena) {}

    fn updated(&mut self, _: u32, _: &Arena) {}

    fn wants_more(&self, _: u32) -> bool {
        self.rows.are_fine()
    }
}

impl Teller for Turns<'_> {
    fn finish(self, _: u32) -> Result<(), Fault> {
        self.rows.finish()
    }
}

/// Adds the row of a step: its instruction, the stack before it, its line, the name in it, and the externals that have
/// other values than these. The only error is that memory is refused.
fn add_step(
    text: &mut Draft,
    turn: Turn,
    noted: &NotedProgram<'_>,
    machine: &Machine,
    externals: &[i32],
) -> Result<(), AllocError> {
    let address = machine.address();
    add_turn(text, turn);
    write!(text, "{address}\t");
    add_instruction(text, noted, address)?;
    text.add("\t");
    add_words(text, machine.words());
    let line = noted.note.positions.line(address);
    let name = noted.named().name_in(address).unwrap_or("");
    write!(text, "\t{line}\t{name}\t");
    let names = noted.note.names.externals();
    add_changes(text, names, externals, machine.externals());
    text.add("\n");
    Ok(())
}

/// Adds the names of externals whose values changed, each with its new value.
fn add_changes(text: &mut Draft, names: &[Name], before: &[i32], after: &[i32]) {
    let mut is_first = true;
    for ((name, old), new) in names.iter().zip(before).zip(after) {
        if new != old {
            text.add(if is_first { "" } else { " " });
            write!(text, "{}={new}", name.as_str());
            is_first = false;
        }
    }
}
