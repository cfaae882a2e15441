//! The frame of a program: its words, its help, its line of usage, and the status that it ends with.

use crate::command_line::words;
use crate::complaints::{tell_taken, tell_unwritten, tell_wrong};
use crate::faults::Fault;
use crate::helps::help_page;
use crate::known::Known;
use crate::options::{Misread, Options, read_options};
use crate::outputs::{check_output, write_text};
use crate::version::VERSION;
use std::process::ExitCode;

/// The work of a program.
pub trait Work {
    /// Does what options ask for. The lines about sources and files are written.
    fn work(&self, rt: &HostRuntime, options: &Options<'_>) -> Result<(), Fault>;
}

/// What a program is called, what it does, and which options it knows.
#[derive(Clone, Copy)]
pub struct ProgramFrame {
    /// Its name, as its lines begin.
    pub name: &'static str,
    /// What it does, in a sentence.
    pub about: &'static str,
    /// The words of its line of usage, after its name.
    pub usage: &'static str,
    /// Its options, in lists, but `-h`, `--help` and `--version`, which each program has.
    pub known: &'static [&'static [Known]],
}

impl ProgramFrame {
    /// Runs a program: reads the words of the command line, and does the work with the options that they give, or
    /// writes its page of help or its version if these are asked for. If that has a fault, writes its lines on standard
    /// error. Returns the status of the fault, 0 if there is none.
    pub fn run<W: Work>(&self, rt: &HostRuntime, work: &W) -> ExitCode {
        match self.done(rt, work) {
            Ok(()) => ExitCode::SUCCESS,
            Err(fault) => ExitCode::from(fault.status()),
        }
    }

    /// Reads the words, and answers them. The lines of a fault are written.
    fn done<W: Work>(&self, rt: &HostRuntime, work: &W) -> Result<(), Fault> {
        let none = Options::none(rt.alloc());
        let words = match words(rt, self.name) {
            Ok(words) => words,
            Err(fault) => return Err(self.told(rt, &none, fault)),
        };
        match read_options(rt.alloc(), words.as_slice(), self.known) {
            Ok(options) => match self.answered(rt, work, &options) {
                Ok(()) => Ok(()),
                Err(fault) => Err(self.told(rt, &options, fault)),
            },
            Err(Misread::Memory) => Err(self.told(rt, &none, Fault::Memory)),
            Err(misread) => {
                let name = self.name;
                let _ = eprintln!(rt; "{name}: {misread}");
                Err(self.told(rt, &none, Fault::Usage))
            }
        }
    }

    /// Does what options ask for.
    fn answered<W: Work>(
        &self,
        rt: &HostRuntime,
        work: &W,
        options: &Options<'_>,
    ) -> Result<(), Fault> {
        if options.has("h") {
            return write_text(rt, help_page(rt.alloc(), self)?.as_str());
        }
        if options.has("version") {
            let name = self.name;
            return write_text(rt, format!(in rt.alloc(); "{name} {VERSION}\n")?.as_str());
        }
        check_output(rt, options)?;
        work.work(rt, options)
    }

    /// Writes the lines of a fault on standard error. That of a source or a file was written before, and output that nobody
    /// reads has none. Returns the fault.
    fn told(&self, rt: &HostRuntime, options: &Options<'_>, fault: Fault) -> Fault {
        let name = self.name;
        match fault {
            Fault::Source | Fault::Read | Fault::Closed => (),
            Fault::Usage => {
                tell_taken(rt, name, options);
                self.tell_usage(rt);
            }
            Fault::Wrong(wrong) => {
                tell_wrong(rt, name, options, wrong);
                self.tell_usage(rt);
            }
            Fault::Write => tell_unwritten(rt, name, options.value("o")),
            Fault::Memory => {
                let _ = eprintln!(rt; "{name}: out of memory");
            }
        }
        fault
    }

    /// Writes the line of usage on standard error.
    fn tell_usage(&self, rt: &HostRuntime) {
        let (name, usage) = (self.name, self.usage);
        let _ = eprintln!(rt; "usage: {name} {usage}");
    }
}
