//! The faults of a source after its first one, explained.

use crate::source_files::SourceFile;
use derivations::locate;
use explanations::explain_left;
use grammar::Diagnostic;
use recovery::{Lines, MOST_BYTES, MOST_FAULTS, Rest};
use std::alloc::{AllocError, Global};
use tools::{Draft, Fault};

/// Adds the explanations of the faults after the first one, which `compile` found, or that the source is too large. The
/// only fault is that memory is refused.
pub fn add_later_faults(
    text: &mut String,
    alloc: Global,
    file: &SourceFile<'_>,
    first: &Diagnostic,
) -> Result<(), Fault> {
    if file.source.len() > MOST_BYTES {
        let mut draft = Draft::new(alloc);
        file.add_limit(&mut draft);
        draft.move_behind(text)?;
        return Ok(());
    }
    let mut rest = Rest::of(alloc, file.source, file.profile)?;
    let mut fault = *first;
    for _ in 1..MOST_FAULTS {
        let Some(lines) = rest.leave_out(&fault)? else {
            break;
        };
        let Some(next) = rest.fault() else {
            break;
        };
        add_fault(text, alloc, file, &rest, &next, lines)?;
        fault = next;
    }
    Ok(())
}

/// Adds the explanation of the first fault of what is left, and which lines were left out before it.
fn add_fault(
    text: &mut String,
    alloc: Global,
    file: &SourceFile<'_>,
    rest: &Rest,
    fault: &Diagnostic,
    lines: Lines,
) -> Result<(), AllocError> {
    let tokens = locate(alloc, rest.bytes())?;
    let note = explain_left(file.source, tokens.as_slice(), file.profile, fault);
    let mut draft = Draft::new(alloc);
    file.add_note(&mut draft, note.as_str(), Some(lines));
    draft.move_behind(text)
}
