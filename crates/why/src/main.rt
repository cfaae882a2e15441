//! Says what is wrong with robots' sources, in words for beginners: where, what fits there, and what may be meant.
#![tactic(auto)]

ghost use Rattle.std.specs.Prelude.{◌≡◌, Err};
ghost use Rattle.grammar.specs.Compiled.{compiled};

mod note_objects;
mod recoveries;
mod room_warnings;
mod source_files;

use crate::recoveries::add_later_faults;
use crate::room_warnings::add_want_of_room;
use crate::source_files::SourceFile;
use derivations::{Located, compile, locate};
use explanations::{Note, Warnings, explain, warnings_before, warnings_of};
use grammar::{Diagnostic, ParseFault, Profile};
use std::alloc::Global;
use std::process::ExitCode;
use tokens::{MemoryFeed, WINDOW_BYTES};
use tools::{
    Draft, Fault, Known, Options, Output, PROFILE_OPTIONS, Plain, ProgramFrame, TellsOfFile, Work,
    Wrong, profile, source_of, tell_files,
};

/// The program's name, its line of wrong usage, and its options.
const FRAME: ProgramFrame = ProgramFrame {
    name: "crobots-why",
    about: "Explains the first fault of each robot, or warns about code that compiles but is probably a mistake.",
    usage: "[-pPROFILE] [--all] [--lint [--strict]] [--json] FILE..",
    known: &[&PROFILE_OPTIONS, &WHY_OPTIONS],
};

/// The options of this program alone.
const WHY_OPTIONS: [Known; 4] = [
    Known::Flag("all", "explain faults of several functions"),
    Known::Flag("lint", "warn too, up to the first fault"),
    Known::Flag(
        "strict",
        "with --lint: end with status 1 if there is a warning",
    ),
    Known::Flag("json", "one object a fault or warning, as JSON"),
];

/// Explains the files that the command line names, and returns the status.
fn main(rt: HostRuntime) -> ExitCode {
    FRAME.run(&rt, &Why)
}

/// The work of this program.
struct Why;

impl Work for Why {
    /// Explains the files one after the other.
    fn work(&self, rt: &HostRuntime, options: &Options<'_>) -> Result<(), Fault> {
        match Wish::read(options) {
            Ok(wish) => tell_files(rt, &wish, options.files()),
            Err(fault) => Err(fault),
        }
    }
}

/// What is asked for beside the files.
#[derive(Clone, Copy)]
struct Wish {
    profile: Profile,
    all: bool,
    lint: bool,
    strict: bool,
    as_json: bool,
}

impl Wish {
    /// Reads what options ask for. `--strict` without `--lint` is wrong usage.
    fn read(options: &Options<'_>) -> Result<Wish, Fault> {
        let (lint, strict) = (options.has("lint"), options.has("strict"));
        if strict && !lint {
            return Err(Fault::Wrong(Wrong::Alone("strict", "lint")));
        }
        match profile(options) {
            Ok(profile) => Ok(Wish {
                profile,
                all: options.has("all"),
                lint,
                strict,
                as_json: options.has("json"),
            }),
            Err(fault) => Err(fault),
        }
    }
}

impl TellsOfFile for Wish {
    /// Explains a file. It is faulty too if it has a warning, and warnings count.
    fn tell(&self, rt: &HostRuntime, output: &mut Output, word: &str) -> Result<bool, Fault> {
        let (bytes, alloc) = (source_of(rt, FRAME.name, word)?, rt.alloc());
        let name = format!(in alloc; "{}", Plain(word))?;
        let tokens = locate(alloc, bytes.as_slice())?;
        let file = SourceFile {
            path: name.as_str(),
            source: bytes.as_slice(),
            profile: self.profile,
            as_json: self.as_json,
        };
        match compile(
            file.profile,
            &mut MemoryFeed::new(file.source, WINDOW_BYTES),
        ) {
            Ok(_) if self.lint => {
                let is_warned = tell_all_warnings(output, alloc, &file, tokens)?;
                Ok(self.strict && is_warned)
            }
            Ok(_) => Ok(false),
            Err(ParseFault::Source(diagnostic)) => {
                tell_fault(output, self, &file, tokens.as_slice(), &diagnostic)?;
                if self.all {
                    add_later_faults(output.text(), alloc, &file, &diagnostic)?;
                }
                Ok(true)
            }
            Err(ParseFault::Device) => Err(Fault::Read),
            Err(ParseFault::Memory) => Err(Fault::Memory),
        }
    }
}

/// Tells the warnings about a file that compiles. Reports whether there are some. Its tokens are given back before room is
/// asked for.
fn tell_all_warnings(
    output: &mut Output,
    alloc: Global,
    file: &SourceFile<'_>,
    tokens: Vec<Located>,
) -> Result<bool, Fault> {
    let is_warned = tell_code_warnings(output, file, tokens)?;
    let lacks = add_want_of_room(output.text(), alloc, file)?;
    Ok(lacks || is_warned)
}

/// Tells the warnings about the code of a file that compiles. Reports whether there are some.
fn tell_code_warnings(
    output: &mut Output,
    file: &SourceFile<'_>,
    tokens: Vec<Located>,
) -> Result<bool, Fault> {
    let warnings = warnings_of(file.source, tokens.as_slice(), file.profile);
    tell_warnings(output, file, tokens.as_slice(), &warnings)?;
    Ok(!warnings.list().is_empty())
}

/// Tells the first fault of a file, and the warnings before it if they are asked for.
fn tell_fault(
    output: &mut Output,
    wish: &Wish,
    file: &SourceFile<'_>,
    tokens: &[Located],
    fault: &Diagnostic,
) -> Result<(), Fault>
    requires { compiled file.now.profile file.now.source.now ≡ Err fault.now }
{
    if wish.lint {
        let warnings = warnings_before(file.source, tokens, file.profile, fault);
        tell_warnings(output, file, tokens, &warnings)?;
    }
    let note = explain(file.source, tokens, file.profile, fault);
    tell(output, file, &note)
}

/// Tells the warnings about a file.
fn tell_warnings(
    output: &mut Output,
    file: &SourceFile<'_>,
    tokens: &[Located],
    warnings: &Warnings,
) -> Result<(), Fault> {
    for warning in warnings.list() {
        tell(output, file, &warning.note(tokens))?;
    }
    Ok(())
}

/// Tells a note on a file.
fn tell(output: &mut Output, file: &SourceFile<'_>, note: &Note) -> Result<(), Fault> {
    let text = output.text();
    let mut draft = Draft::new(*text.allocator());
    file.add_note(&mut draft, note.as_str(), None);
    draft.move_behind(text)?;
    Ok(())
}
