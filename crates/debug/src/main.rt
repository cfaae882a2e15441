//! Answers questions about one match: where a robot is after a cycle, and in which cycle something happens to it.
#![tactic(auto)]

mod codes;
mod commands;
mod counts;
mod expressions;
mod marks;
mod open_calls;
mod passes;
mod refusals;
mod sessions;
mod sought_events;
mod values;

use crate::sessions::{Session, answer_all};
use notes::compiled;
use std::process::ExitCode;
use tools::{Fault, Known, MATCH_OPTIONS, Options, ProgramFrame, Span, Work, wish};
use watching::pilots;

/// The program's name, its line of wrong usage, and its options.
const FRAME: ProgramFrame = ProgramFrame {
    name: "crobots-debug",
    about: "Reads commands, a line each, and answers where a robot is after a cycle of a match.",
    usage: "[-kMATCH] [-lCYCLES] [-sSEED] [-pPROFILE] [--robot N] FILE..",
    known: &[&MATCH_OPTIONS, &ROBOT_OPTIONS],
};

/// The option of the robot.
const ROBOT_OPTIONS: [Known; 1] = [Known::Valued(
    "robot",
    "N",
    "the robot to look into, from 1 (default 1)",
)];

/// Answers the commands of standard input about the match that the command line asks for, and returns the status.
fn main(rt: HostRuntime) -> ExitCode {
    FRAME.run(&rt, &Debug)
}

/// The work of this program.
struct Debug;

impl Work for Debug {
    /// Compiles the files, and answers commands up to `quit` or the end of input.
    fn work(&self, rt: &HostRuntime, options: &Options<'_>) -> Result<(), Fault> {
        let wish = wish(options)?;
        let robots = wish.file_words().len().max(2);
        let robot = Span::read(options, robots)?.robot.unwrap_or(0);
        let sources = compiled(rt, FRAME.name, &wish)?;
        let mut pilots = pilots(rt.alloc(), sources.programs.as_slice())?;
        let session = Session {
            wish: &wish,
            sources: &sources,
            robot,
            // each file has a note
            noted: sources.robot(robot).ok_or(Fault::Source)?,
        };
        answer_all(rt, FRAME.name, &session, pilots.as_mut_slice())
    }
}
