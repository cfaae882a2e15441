//! Standard output in large pieces.

ghost use Rattle.std.specs.Prelude.{◌≡◌, ◌≢◌};

use crate::faults::{Fault, Wrong};
use crate::options::Options;
use std::alloc::Global;
use std::fs::{File, canonicalize};
use std::io::{ErrorKind, Write};
use std::path::PathBuf;

/// How many bytes are written at once, about.
const PIECE: usize = 65_536;

/// Text for standard output that is kept until there is much of it.
#[derive(Drop)]
pub struct Output {
    kept: String,
}

impl Output {
    /// Makes an output that keeps no text yet.
    pub fn new(alloc: Global) -> Output {
        Output {
            kept: String::new(alloc),
        }
    }

    /// Returns the text that is kept, so that more can be added to it.
    pub fn text(&mut self) -> &mut String {
        &mut self.kept
    }

    /// Writes the text that is kept, if it is much.
    pub fn pass(&mut self, rt: &HostRuntime) -> Result<(), Fault> {
        if self.kept.len() < PIECE {
            return Ok(());
        }
        self.finish(rt)
    }

    /// Writes the text that is kept.
    pub fn finish(&mut self, rt: &HostRuntime) -> Result<(), Fault> {
        let written = write_text(rt, self.kept.as_str());
        self.kept.clear();
        written
    }
}

/// Writes a text on standard output.
pub fn write_text(rt: &HostRuntime, text: &str) -> Result<(), Fault> {
    match rt.stdout().write_all(text.as_bytes()) {
        Ok(()) => Ok(()),
        Err(error) => Err(unwritten_by(error.kind())),
    }
}

/// Returns why a text isn't written: nobody reads it any more, or it isn't taken.
fn unwritten_by(kind: ErrorKind) -> Fault
    ensures closed { kind ≡ ErrorKind.BrokenPipe → result ≡ Fault.Closed }
    ensures refused { kind ≢ ErrorKind.BrokenPipe → result ≡ Fault.Write }
{
    match kind {
        ErrorKind::BrokenPipe => Fault::Closed,
        _ => Fault::Write,
    }
}

/// Writes a text into the file that `-o` names, or on standard output if options don't have it.
pub fn write_to(rt: &HostRuntime, options: &Options<'_>, text: &str) -> Result<(), Fault> {
    let Some(word) = options.value("o") else {
        return write_text(rt, text);
    };
    match File::create(rt, word) {
        Ok(mut file) => match file.write_all(text.as_bytes()) {
            Ok(()) => Ok(()),
            Err(error) => Err(unwritten_by(error.kind())),
        },
        Err(_) => Err(Fault::Write),
    }
}

/// Refuses an output that is one of the files, whichever names these have: it would be written over.
pub fn check_output(rt: &HostRuntime, options: &Options<'_>) -> Result<(), Fault> {
    let Some(output) = options.value("o") else {
        return Ok(());
    };
    let Some(output) = real_path(rt, output)? else {
        return Ok(());
    };
    for word in options.files() {
        if let Some(file) = real_path(rt, word)?
            && file.as_path().as_str() == output.as_path().as_str()
        {
            return Err(Fault::Wrong(Wrong::Over("o")));
        }
    }
    Ok(())
}

/// Returns the path of the file of a word from the root on, without links: none if there is no such file.
fn real_path(rt: &HostRuntime, word: &str) -> Result<Option<PathBuf>, Fault> {
    match canonicalize(rt, word) {
        Ok(path) => Ok(Some(path)),
        Err(error) if error.kind() == ErrorKind::OutOfMemory => Err(Fault::Memory),
        Err(_) => Ok(None),
    }
}
