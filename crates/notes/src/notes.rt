//! Files: their programs, names and texts, and the line that each instruction comes from.

ghost use Rattle.std.specs.Prelude.{◌≡◌, ◌<◌, ◌≤◌, IfOk, length};

use code::Program;
use derivations::{NamedProgram, SourcePositions, compile_source};
use grammar::{ParseFault, Pools};
use settings::{MOST_FILES, Settings};
use std::alloc::{AllocError, Global};
use std::str;
use tools::{Fault, name_of, source_of, tell_diagnostic, visible};

/// What is known of a file beside its program.
#[derive(Drop)]
pub struct Note {
    /// Its name.
    pub name: String,
    /// Its text.
    pub text: Vec<u8>,
    /// Where its instructions come from.
    pub positions: SourcePositions,
    /// The names of its functions and variables.
    pub names: Pools,
}

impl Note {
    /// Returns the bytes of the line of this number, from 1.
    pub fn text_of(&self, line: u32) -> &[u8] {
        let mut rest = self.text.as_slice();
        for _ in 1..line {
            rest = behind_line(rest);
        }
        rest.get(..line_length(rest)).unwrap_or(&[])
    }
}

/// Returns what follows the first line of a text.
fn behind_line(text: &[u8]) -> &[u8] {
    text.get(line_length(text).saturating_add(1)..)
        .unwrap_or(&[])
}

/// Returns how many bytes the first line of a text has, without its end.
fn line_length(text: &[u8]) -> usize {
    for (at, byte) in text.iter().enumerate() {
        if *byte == b'\n' {
            return at;
        }
    }
    text.len()
}

/// A program, and what is known of its file beside it.
#[derive(Clone, Copy)]
pub struct NotedProgram<'a> {
    /// What is known of the file.
    pub note: &'a Note,
    /// The program.
    pub program: &'a Program,
}

impl<'a> NotedProgram<'a> {
    /// Returns the program with the names of its file.
    pub fn named(&self) -> NamedProgram<'a> {
        NamedProgram {
            program: self.program,
            names: &self.note.names,
        }
    }

    /// Returns the line that the instruction of an address comes from, and the name of its function.
    pub fn position(&self, address: usize) -> (u32, &'a str) {
        let named = self.named();
        let function = named.function_name(named.function(address));
        (self.note.positions.line(address), function)
    }
}

/// The programs of files, and what is known of each beside it.
#[derive(Drop)]
pub struct Sources {
    /// The programs.
    pub programs: Vec<Program>,
    /// What is known beside them.
    pub notes: Vec<Note>,
}

impl Sources {
    /// Returns a robot's program and what is known of its file: a single file is both robots'.
    pub fn robot(&self, robot: usize) -> Option<NotedProgram<'_>> {
        let file = if self.notes.len() == 1 { 0 } else { robot };
        Some(NotedProgram {
            note: self.notes.get(file)?,
            program: self.programs.get(file)?,
        })
    }

    /// Returns the line that the instruction of an address of a robot's program comes from, and the name of its
    /// function.
    pub fn position(&self, robot: usize, address: usize) -> (u32, &str) {
        match self.robot(robot) {
            Some(noted) => noted.position(address),
            None => (0, "?"),
        }
    }
}

/// Compiles the files of a wish, and writes the diagnostic of each faulty one, or a line about the first that can't be
/// opened or read, with the name of the program that asks.
pub fn compiled(rt: &HostRuntime, program: &str, wish: &Settings<'_>) -> Result<Sources, Fault>
    ensures each { IfOk result (λ sources. length sources.programs.items ≡ length wish.now.file_words) }
    ensures some { IfOk result (λ sources. 0 < length sources.programs.items) }
    ensures most { IfOk result (λ sources. length sources.programs.items ≤ MOST_FILES) }
{
    let mut programs = Vec::new(rt.alloc());
    let mut notes = Vec::new(rt.alloc());
    let mut is_faulty = false;
    for word in wish.file_words() {
        match compiled_file(rt, program, wish, word)? {
            Some((made, note)) => {
                programs.push(made).map_err(|_| Fault::Memory)?;
                notes.push(note).map_err(|_| Fault::Memory)?;
            }
            None => is_faulty = true,
        }
    }
    if is_faulty {
        return Err(Fault::Source);
    }
    Ok(Sources { programs, notes })
}

/// Compiles the file of a word. If it has a fault, that is written, and there is no program.
fn compiled_file(
    rt: &HostRuntime,
    program: &str,
    wish: &Settings<'_>,
    word: &str,
) -> Result<Option<(Program, Note)>, Fault> {
    let text = source_of(rt, program, word)?;
    match compile_source(wish.profile(), text.as_slice()) {
        Ok(made) => {
            let note = Note {
                name: plain(rt.alloc(), name_of(word).as_bytes())?,
                text,
                // a program has a position in its source for each instruction
                positions: made.positions.ok_or(Fault::Source)?,
                names: made.names,
            };
            Ok(Some((made.program, note)))
        }
        Err(ParseFault::Source(diagnostic)) => {
            tell_diagnostic(rt, word, &diagnostic);
            Ok(None)
        }
        Err(ParseFault::Device) => Err(Fault::Read),
        Err(ParseFault::Memory) => Err(Fault::Memory),
    }
}

/// Returns bytes as text on one line: a tab is a blank, and each other control character a question mark, as is each
/// byte of what is no text.
pub fn plain(alloc: Global, bytes: &[u8]) -> Result<String, AllocError> {
    let mut plain = String::new(alloc);
    match str::from_utf8(bytes) {
        Ok(text) => {
            for c in text.chars() {
                plain.push(shown(c))?;
            }
        }
        Err(_) => {
            for byte in bytes {
                plain.push(if byte.is_ascii() {
                    shown(char::from(*byte))
                } else {
                    '?'
                })?;
            }
        }
    }
    Ok(plain)
}

/// Returns how a character is shown.
fn shown(c: char) -> char {
    if c == '\t' { ' ' } else { visible(c) }
}
