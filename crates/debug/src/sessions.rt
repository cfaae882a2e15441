//! A session: commands, a line each, and their answers.

ghost use Rattle.std.specs.Prelude.{◌<◌, ◌≤◌, length};

use crate::codes::add_code;
use crate::commands::{Command, number_of};
use crate::open_calls::add_calls;
use crate::refusals::Refusal;
use crate::values::add_value;
use arena::MOST_ROBOTS;
use code::Machine;
use notes::{NotedProgram, Sources, add_moment};
use settings::Settings;
use std::io::{BufRead, ErrorKind};
use std::str;
use tools::{Draft, Fault, Text, write_text};
use watching::{Pilot, moment_at, sought_cycle};

/// What the commands of a session are about: a match, and a robot in it.
#[derive(Clone, Copy)]
pub struct Session<'a> {
    /// The match.
    pub wish: &'a Settings<'a>,
    /// The robots' programs, and what is known of their files.
    pub sources: &'a Sources,
    /// The robot's number, from 0.
    pub robot: usize,
    /// The robot's program, and what is known of its file.
    pub noted: NotedProgram<'a>,
}

impl Session<'_> {
    /// Plays the match up to the moment after a cycle, and returns the robot's machine then.
    pub fn machine_at<'p>(&self, pilots: &'p mut [Pilot<'_>], cycle: u32) -> &'p Machine
        requires some { 2 ≤ length pilots.old }
        requires most { length pilots.old ≤ MOST_ROBOTS }
        requires inside { self.now.robot < length pilots.old }
    {
        let (wish, robot) = (self.wish, self.robot);
        let (seed, number, limit) = (wish.seed(), wish.first(), wish.limit());
        let _ = moment_at(pilots, robot, cycle, seed, number, limit);
        let played = &*pilots;
        played[robot].machine()
    }
}

/// Reads commands from standard input, and writes the answer to each, up to `quit` or the end of input. A line about
/// input that can't be read is written, with the name of the program.
pub fn answer_all(
    rt: &HostRuntime,
    name: &str,
    session: &Session<'_>,
    pilots: &mut [Pilot<'_>],
) -> Result<(), Fault>
    requires some { 2 ≤ length pilots.old }
    requires most { length pilots.old ≤ MOST_ROBOTS }
    requires inside { session.now.robot < length pilots.old }
{
    let mut input = rt.reader();
    for _ in 0..u64::MAX {
        let mut line = Vec::new(rt.alloc());
        match input.read_until(b'\n', &mut line) {
            Ok(0) => return Ok(()),
            Ok(_) => {}
            Err(error) => return Err(unread(rt, name, error.kind())),
        }
        let mut text = Draft::new(rt.alloc());
        if !answer(&mut text, session, line.as_slice(), pilots)? {
            return Ok(());
        }
        write_text(rt, text.finish()?.as_str())?;
    }
    Ok(())
}

/// Returns why there is no line: memory was refused, or input can't be read, and then a line about that is written.
fn unread(rt: &HostRuntime, name: &str, kind: ErrorKind) -> Fault {
    if kind == ErrorKind::OutOfMemory {
        return Fault::Memory;
    }
    let _ = eprintln!(rt; "{name}: cannot read standard input");
    Fault::Read
}

/// Adds the answer to a line. Reports whether the session goes on: there is no answer to `quit`.
fn answer(
    text: &mut Draft,
    session: &Session<'_>,
    line: &[u8],
    pilots: &mut [Pilot<'_>],
) -> Result<bool, Fault>
    requires some { 2 ≤ length pilots.old }
    requires most { length pilots.old ≤ MOST_ROBOTS }
    requires inside { session.now.robot < length pilots.old }
{
    let told = match str::from_utf8(line) {
        Ok(line) => add_answer(text, session, line, pilots),
        Err(_) => Err(Refusal::NoText),
    };
    match told {
        Ok(goes_on) => Ok(goes_on),
        Err(Refusal::Memory) => Err(Fault::Memory),
        Err(refusal) => {
            writeln!(text, "wrong\t{refusal}\n");
            Ok(true)
        }
    }
}

/// Adds the answer to a line that is text. Reports whether the session goes on.
fn add_answer<'a>(
    text: &mut Draft,
    session: &Session<'_>,
    line: &'a str,
    pilots: &mut [Pilot<'_>],
) -> Result<bool, Refusal<'a>>
    requires some { 2 ≤ length pilots.old }
    requires most { length pilots.old ≤ MOST_ROBOTS }
    requires inside { session.now.robot < length pilots.old }
{
    let (session, line) = addressed(session, line, pilots.len())?;
    let Session {
        wish,
        robot,
        noted,
        ..
    } = session;
    if robot >= pilots.len() {
        return Err(Refusal::NoText);
    }
    let (seed, number, limit) = (wish.seed(), wish.first(), wish.limit());
    let mut marks = Vec::new(text.alloc());
    match Command::read(line, &noted, &mut marks)? {
        Command::Nothing => {}
        Command::Quit => return Ok(false),
        Command::At(cycle) => add_moment(text, wish, &noted, pilots, robot, cycle)?,
        Command::Find(which, sought) => {
            let found = sought_cycle(pilots, robot, &sought, which, seed, number, limit);
            add_found(text, found);
        }
        Command::Pass(mut pass) => pass.play(text, &session, pilots)?,
        Command::Calls(cycle) => add_calls(text, &session, pilots, cycle)?,
        Command::Code => add_code(text, &noted)?,
        Command::Value(cycle, frames, words) => {
            add_value(text, &session, pilots, cycle, frames, words)?;
        }
    }
    Ok(true)
}

/// Returns the session with the robot that a line names by `robot N` at its beginning, of so many, and the line without
/// these words.
fn addressed<'a, 's>(
    session: &Session<'s>,
    line: &'a str,
    count: usize,
) -> Result<(Session<'s>, &'a str), Refusal<'a>> {
    let Some(rest) = line.trim_start().strip_prefix("robot ") else {
        return Ok((*session, line));
    };
    let rest = rest.trim_start();
    let (word, rest) = rest.split_once(' ').unwrap_or((rest, ""));
    let number = number_of(word.trim_end(), 1, count.min(MOST_ROBOTS) as u32)? as usize;
    let robot = number.saturating_sub(1);
    match session.sources.robot(robot) {
        Some(noted) => Ok((
            Session {
                robot,
                noted,
                ..*session
            },
            rest,
        )),
        None => Err(Refusal::Form("robot N COMMAND")),
    }
}

/// Adds the cycle that was found.
fn add_found(text: &mut Draft, found: Option<u32>) {
    match found {
        Some(cycle) => writeln!(text, "found\t{cycle}\n"),
        None => text.add("none\n\n"),
    }
}
