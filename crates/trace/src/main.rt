//! Plays a match, and reports what happened in it: sums, events, questions, steps, a film, a moment, or changes of
//! variables.
#![tactic(auto)]

ghost use Rattle.std.specs.Prelude.{◌≤◌, length};

mod aims;
mod clocks;
mod events;
mod habits;
mod insides;
mod items;
mod measured;
mod misses;
mod ranges;
mod reports;
mod requests;
mod restarts;
mod rows;
mod stands;
mod sums;
mod sums_objects;
mod tallies;
mod tellers;
mod turns;
mod watches;

use crate::events::Events;
use crate::requests::{FORM_OPTIONS, Form, Request, Task};
use crate::stands::tell_moments;
use crate::sums::{tell_objects, tell_sums};
use crate::tellers::tell;
use crate::turns::Turns;
use crate::watches::tell_changes;
use arena::MOST_ROBOTS;
use notes::compiled;
use std::process::ExitCode;
use tools::{Fault, MATCH_OPTIONS, Options, ProgramFrame, SPAN_OPTIONS, Work};
use watching::{Pilot, pilots};

/// The program's name, its line of wrong usage, and its options.
const FRAME: ProgramFrame = ProgramFrame {
    name: "crobots-trace",
    about: "Plays a match, and reports what each robot did and suffered.",
    usage: "[-kMATCH] [-mMATCHES] [-lCYCLES] [-sSEED] [-pPROFILE] [--robot N] [--from CYCLE] [--to CYCLE] [--columns N] [--sum | --json | --events | --asks | --steps | --film | --inside | --at CYCLE | --watch NAMES] FILE..",
    known: &[&MATCH_OPTIONS, &SPAN_OPTIONS, &FORM_OPTIONS],
};

/// Tells of the match that the command line asks for, and returns the status.
fn main(rt: HostRuntime) -> ExitCode {
    FRAME.run(&rt, &Trace)
}

/// The work of this program.
struct Trace;

impl Work for Trace {
    /// Compiles the files, plays the match, and writes what was asked for.
    fn work(&self, rt: &HostRuntime, options: &Options<'_>) -> Result<(), Fault> {
        let request = Request::read(options)?;
        let sources = compiled(rt, FRAME.name, &request.wish)?;
        let mut pilots = pilots(rt.alloc(), sources.programs.as_slice())?;
        let task = Task {
            rt,
            request: &request,
            sources: &sources,
        };
        told(task, pilots.as_mut_slice())
    }
}

/// Plays the match before what reports it in the form that is asked for.
fn told(task: Task<'_>, pilots: &mut [Pilot<'_>]) -> Result<(), Fault>
    requires some { 2 ≤ length pilots.old }
    requires most { length pilots.old ≤ MOST_ROBOTS }
{
    let wish = &task.request.wish;
    match task.request.form {
        Form::Sum => tell_sums(task, pilots),
        Form::Objects => tell_objects(task, pilots),
        Form::Events | Form::Film | Form::Inside => tell(Events::new(task), wish, pilots),
        Form::Asks | Form::Steps => tell(Turns::new(task), wish, pilots),
        Form::At => tell_moments(task, pilots),
        Form::Watch => tell_changes(task, pilots),
    }
}
