//! Says what is known of robots before they fight: how much of the stack each needs, whether it may ever restart for
//! want of it, and what its functions and loops take at least and at most.
#![tactic(auto)]

mod json;

use crate::json::add_object;
use facts::{Facts, add_rows};
use grammar::{ParseFault, Profile};
use std::process::ExitCode;
use tools::{
    Draft, Fault, Known, Options, Output, PROFILE_OPTIONS, ProgramFrame, TellsOfFile, Work,
    profile, source_of, tell_diagnostic, tell_files,
};

/// The program's name, its line of wrong usage, and its options.
const FRAME: ProgramFrame = ProgramFrame {
    name: "crobots-bounds",
    about: "Says what is known of robots before they fight: their stack, and the cycles of their functions and loops.",
    usage: "[-pPROFILE] [--json] FILE..",
    known: &[&PROFILE_OPTIONS, &FORM_OPTIONS],
};

/// The option of the form.
const FORM_OPTIONS: [Known; 1] = [Known::Flag("json", "one object a file, as JSON")];

/// Says what is known of the files that the command line names, and returns the status.
fn main(rt: HostRuntime) -> ExitCode {
    FRAME.run(&rt, &Bounds)
}

/// The work of this program.
struct Bounds;

impl Work for Bounds {
    /// Tells of the files one after the other.
    fn work(&self, rt: &HostRuntime, options: &Options<'_>) -> Result<(), Fault> {
        match profile(options) {
            Ok(profile) => {
                let as_json = options.has("json");
                tell_files(rt, &Wish { profile, as_json }, options.files())
            }
            Err(fault) => Err(fault),
        }
    }
}

/// What is asked for beside the files.
#[derive(Clone, Copy)]
struct Wish {
    profile: Profile,
    as_json: bool,
}

impl TellsOfFile for Wish {
    /// Tells of a file. If it has a fault, its diagnostic is written.
    fn tell(&self, rt: &HostRuntime, output: &mut Output, word: &str) -> Result<bool, Fault> {
        let (bytes, alloc) = (source_of(rt, FRAME.name, word)?, rt.alloc());
        match Facts::of(alloc, bytes.as_slice(), self.profile) {
            Ok(facts) => {
                let mut text = Draft::new(alloc);
                if self.as_json {
                    add_object(&mut text, word, &facts);
                } else {
                    add_rows(&mut text, word, &facts);
                }
                text.move_behind(output.text())?;
                Ok(false)
            }
            Err(ParseFault::Source(diagnostic)) => {
                tell_diagnostic(rt, word, &diagnostic);
                Ok(true)
            }
            Err(ParseFault::Device) => Err(Fault::Read),
            Err(ParseFault::Memory) => Err(Fault::Memory),
        }
    }
}
