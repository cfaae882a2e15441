//! An example of the library: lists the code of a robot with each operator on constants worked out.
#![tactic(auto)]

mod folder;
mod folds;
mod listing;
#[cfg(test)]
mod tests;

use crate::folder::Folder;
use crate::folds::Folds;
use crate::listing::folded;
use code::{Maker, Profile, Program};
use derivations::compile;
use grammar::{Diagnostic, ParseFault, Watched};
use parser::parse;
use std::io::{ErrorKind, Write};
use std::{env, fs, io};
use tokens::{MemoryFeed, WINDOW_BYTES};

/// Lists the folded code of the file that the command line names, or writes its first fault.
fn main(rt: HostRuntime) -> io::Result<()> {
    let Some(word) = env::args(&rt)?.nth(1) else {
        return Err(ErrorKind::InvalidInput.into());
    };
    let source = fs::read(&rt, word.as_str())?;
    match compiled(source.as_slice(), Profile::first()) {
        Ok((program, folds)) => {
            let Ok(text) = folded(rt.alloc(), program.instructions(), &folds) else {
                return Err(ErrorKind::OutOfMemory.into());
            };
            rt.stdout().write_all(text.as_bytes())
        }
        Err(ParseFault::Source(Diagnostic { line, code })) => {
            println!(rt; "line {line}: {}", code.text())
        }
        Err(_) => Err(ErrorKind::OutOfMemory.into()),
    }
}

/// Compiles a source by a profile, and finds what can be folded in its code.
fn compiled(source: &[u8], profile: Profile) -> Result<(Program, Folds), ParseFault> {
    let made = compile(profile, &mut MemoryFeed::new(source, WINDOW_BYTES))?;
    Ok((made.program, folds_of(source, profile)?))
}

/// Finds what can be folded in the code of a source.
fn folds_of(source: &[u8], profile: Profile) -> Result<Folds, ParseFault> {
    let mut watched = Watched {
        watcher: Folder::new(profile),
        builder: Maker::new(profile),
    };
    let _ = parse(&mut MemoryFeed::new(source, WINDOW_BYTES), &mut watched)?;
    Ok(watched.watcher.into_folds())
}
