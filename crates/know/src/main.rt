//! Says of a robot's source what an editor wants to know while it is typed, a row of JSON each: faults and warnings with
//! their places and fixes, tokens, names, functions, loops, and what is known before a match.
#![tactic(auto)]

ghost use Rattle.std.specs.Prelude.{◌≡◌, Err};
ghost use Rattle.grammar.specs.Compiled.{compiled};

mod codes;
mod crumbs;
mod fault_rows;
mod fault_tokens;
mod fixes;
mod inputs;
mod known_rows;
mod laws;
mod name_rows;
mod notes_read;
mod parts_left_out;
mod places;
mod repairs;
mod robots;
mod rows;
mod token_rows;
mod walkable;

use crate::fault_rows::{add_first, add_first_fault, add_later_faults, add_warnings};
use crate::fault_tokens::fault_index;
use crate::inputs::source_given;
use crate::known_rows::{add_known, add_words};
use crate::name_rows::add_names;
use crate::parts_left_out::LeftOut;
use crate::rows::Subject;
use crate::token_rows::add_tokens;
use crate::walkable::walkable;
use derivations::{Located, compile, locate};
use explanations::{Search, declared};
use grammar::{Diagnostic, ParseFault, Profile};
use recovery::located_past_faults;
use std::alloc::{AllocError, Global};
use std::process::ExitCode;
use tokens::{MemoryFeed, Token, WINDOW_BYTES};
use tools::{
    Draft, Fault, Options, PROFILE_OPTIONS, ProgramFrame, Text, Work, Wrong, begin_row, profile,
    write_text,
};

/// The program's name, its line of wrong usage, and its options.
const FRAME: ProgramFrame = ProgramFrame {
    name: "crobots-know",
    about: "Writes what an editor wants to know of a robot while it is typed, as rows of JSON. The file - is standard input.",
    usage: "[-pPROFILE] FILE",
    known: &[&PROFILE_OPTIONS],
};

/// Says what is known of the source on standard input, and returns the status.
fn main(rt: HostRuntime) -> ExitCode {
    FRAME.run(&rt, &Know)
}

/// The work of this program.
struct Know;

impl Work for Know {
    /// Reads the source, and tells of it.
    fn work(&self, rt: &HostRuntime, options: &Options<'_>) -> Result<(), Fault> {
        match profile(options) {
            Ok(profile) => match only_source(rt, options) {
                Ok(source) => tell(rt, source.as_slice(), profile),
                Err(fault) => Err(fault),
            },
            Err(fault) => Err(fault),
        }
    }
}

/// Reads the only file that is named.
fn only_source(rt: &HostRuntime, options: &Options<'_>) -> Result<Vec<u8>, Fault> {
    match options.files() {
        [] => Err(Fault::Usage),
        [word] => source_given(rt, FRAME.name, word),
        _ => Err(Fault::Wrong(Wrong::Files(1))),
    }
}

/// Writes all rows on a source: the first fault, and where it is, before anything else is looked for.
fn tell(rt: &HostRuntime, source: &[u8], profile: Profile) -> Result<(), Fault> {
    let tokens = locate(rt.alloc(), source)?;
    let subject = Subject {
        alloc: rt.alloc(),
        source,
        tokens: tokens.as_slice(),
        profile,
    };
    match compile(profile, &mut MemoryFeed::new(source, WINDOW_BYTES)) {
        Ok(_) => tell_compiled(rt, &subject),
        Err(ParseFault::Source(fault)) => tell_faulty(rt, &subject, &fault),
        Err(ParseFault::Device) => Err(Fault::Read),
        Err(ParseFault::Memory) => Err(Fault::Memory),
    }
}

/// Writes all rows on a source that compiles.
fn tell_compiled(rt: &HostRuntime, subject: &Subject<'_>) -> Result<(), Fault> {
    let mut text = Draft::new(rt.alloc());
    let declarations = declared(subject.tokens, subject.profile);
    add_warnings(&mut text, subject, &declarations, None)?;
    write(rt, &mut text)?;
    let left_out = LeftOut::nothing(rt.alloc(), subject.source)?;
    tell_names(rt, subject, &left_out)?;
    add_known(&mut text, subject)?;
    add_complete(&mut text);
    write(rt, &mut text)
}

/// Writes all rows on a source with a fault, of which this is the first.
fn tell_faulty(rt: &HostRuntime, subject: &Subject<'_>, fault: &Diagnostic) -> Result<(), Fault>
    requires { compiled subject.now.profile subject.now.source.now ≡ Err fault.now }
{
    let mut text = Draft::new(rt.alloc());
    let (tokens, profile) = (subject.tokens, subject.profile);
    let index = fault_index(subject.alloc, subject.source, tokens, profile, fault)?;
    add_first(&mut text, subject, fault, index);
    write(rt, &mut text)?;
    let mut search = Search::of(tokens, profile);
    add_first_fault(&mut text, subject, &mut search, fault, index)?;
    add_warnings(&mut text, subject, search.declarations(), Some(index))?;
    let left_out = add_later_faults(&mut text, subject, index)?;
    write(rt, &mut text)?;
    tell_names(rt, subject, &left_out)?;
    add_complete(&mut text);
    write(rt, &mut text)
}

/// Writes the rows on the tokens and the names of a source, from which some parts are left out as it is walked.
fn tell_names(rt: &HostRuntime, subject: &Subject<'_>, left_out: &LeftOut) -> Result<(), Fault> {
    let mut text = Draft::new(rt.alloc());
    add_words(&mut text, rt.alloc())?;
    let all = tokens_past_faults(rt.alloc(), subject)?;
    let tokens = match &all {
        Some(all) => all.as_slice(),
        None => subject.tokens,
    };
    add_tokens(&mut text, subject.source, tokens);
    let walked = walkable(rt.alloc(), subject.source, tokens, left_out)?;
    add_names(&mut text, walked.as_slice(), subject.profile);
    write(rt, &mut text)
}

/// Returns the tokens of a source past its lexical errors; none if it has no such error, since then all are known.
fn tokens_past_faults(
    alloc: Global,
    subject: &Subject<'_>,
) -> Result<Option<Vec<Located>>, AllocError> {
    match subject.tokens.last() {
        Some(last) if last.token == Token::End => Ok(None),
        _ => Ok(Some(located_past_faults(alloc, subject.source)?)),
    }
}

/// Adds the last row: nothing is missing.
fn add_complete(text: &mut Draft) {
    begin_row(text, "complete").end();
    text.add("\n");
}

/// Writes what was added to a text, which is empty then.
fn write(rt: &HostRuntime, text: &mut Draft) -> Result<(), Fault> {
    let mut kept = String::new(rt.alloc());
    text.move_behind(&mut kept)?;
    write_text(rt, kept.as_str())
}
