//! The warning about a robot that may restart for want of room.

use crate::source_files::SourceFile;
use facts::{Facts, add_room};
use std::alloc::{AllocError, Global};
use tools::{Draft, Fault, Text};

/// Adds the warning about the robot of a file that compiles, if it may restart for want of room: a line as those of other
/// warnings, about its `main`. Reports whether it may. The only fault is that memory is refused.
pub fn add_want_of_room(
    text: &mut String,
    alloc: Global,
    file: &SourceFile<'_>,
) -> Result<bool, Fault> {
    let Ok(facts) = Facts::of(alloc, file.source, file.profile) else {
        return Err(Fault::Memory);
    };
    if facts.bound.has_room {
        return Ok(false);
    }
    let note = want_of_room(alloc, &facts)?;
    let mut draft = Draft::new(alloc);
    file.add_note(&mut draft, note.as_str(), None);
    draft.move_behind(text)?;
    Ok(true)
}

/// Returns the warning as a note has it. The only error is that memory is refused.
fn want_of_room(alloc: Global, facts: &Facts) -> Result<String, AllocError> {
    let mut room = Draft::new(alloc);
    add_room(&mut room, facts);
    let room = room.finish()?;
    let mut note = Draft::new(alloc);
    add_place(&mut note, facts);
    note.add(": warning: ");
    let mut is_first = true;
    for words in room.trim().split('\n') {
        if !is_first {
            note.add(", ");
        }
        note.add(words.trim());
        is_first = false;
    }
    note.add("\n");
    note.finish()
}

/// Adds the line and the column of `main`.
fn add_place(note: &mut Draft, facts: &Facts) {
    for part in &facts.functions {
        if part.name.has_bytes(b"main") {
            note.number(u64::from(part.line));
            note.add(":");
            note.number(u64::from(part.column));
        }
    }
}
