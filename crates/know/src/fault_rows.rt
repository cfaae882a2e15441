//! Faults and warnings as rows, each with its place, its code, what explains it and how it may be mended.

ghost use Rattle.std.specs.Prelude.{◌≡◌, Err};
ghost use Rattle.grammar.specs.Compiled.{compiled};

use crate::codes::{add_fault_code, add_warning_code};
use crate::fault_tokens::fault_index;
use crate::fixes::{Fix, Trouble, fix_of_fault, fix_of_warning};
use crate::notes_read::{FITS, HINT, MET, first_words, said};
use crate::parts_left_out::LeftOut;
use crate::places::token_of_note;
use crate::rows::{Subject, add_position, add_range};
use crate::token_rows::end_of;
use derivations::{Located, locate};
use explanations::{Declarations, Search, explain_found, warnings_up_to};
use grammar::Diagnostic;
use recovery::{MOST_FAULTS, Rest};
use std::alloc::AllocError;
use tools::{Draft, Object, Text, begin_row};

/// Adds the rows of the warnings about a source: about what stands before its fault, which is at the token of an index, if
/// it has one. The variables are those that it declares up to there.
pub fn add_warnings(
    text: &mut Draft,
    subject: &Subject<'_>,
    declarations: &Declarations,
    fault: Option<usize>,
) -> Result<(), AllocError> {
    let (source, tokens, profile) = (subject.source, subject.tokens, subject.profile);
    let end = fault.unwrap_or(tokens.len());
    let warnings = warnings_up_to(source, tokens, profile, declarations, end);
    let mut from = 0;
    for warning in warnings.list() {
        let note = warning.note(tokens);
        from = token_of_note(tokens, from, note.as_str());
        add_warning(
            text,
            subject,
            from,
            first_words(note.as_str()),
            fault.is_none(),
        )?;
    }
    Ok(())
}

/// Adds the row of a warning about the token of an index. Fixes are looked for in a source that compiles.
fn add_warning(
    text: &mut Draft,
    subject: &Subject<'_>,
    index: usize,
    words: &str,
    compiles: bool,
) -> Result<(), AllocError> {
    let fix = if compiles {
        fix_of_warning(subject, index, words)?
    } else {
        None
    };
    let mut row = begin_row(text, "warning");
    add_warning_code(row.field("code"), words);
    if let Some(located) = subject.tokens.get(index) {
        add_place(&mut row, subject.source, located);
    }
    row.words("message", words);
    add_fix(&mut row, &fix);
    row.end();
    text.add("\n");
    Ok(())
}

/// Adds the place of a token, as its position and as its bytes.
fn add_place(row: &mut Object<'_>, source: &[u8], located: &Located) {
    add_position(row, located.line, located.column);
    add_range(row, located.start(), end_of(source, located));
}

/// Adds a fix, or null for none.
fn add_fix(row: &mut Object<'_>, fix: &Option<Fix>) {
    let Some(fix) = fix else {
        row.field("fix").add("null");
        return;
    };
    let mut object = Object::begin(row.field("fix"));
    add_range(&mut object, fix.start, fix.end);
    object.words("text", fix.text.as_str());
    object.end();
}

/// Adds the row of the first fault of a source, at the token of an index, without its hint.
pub fn add_first(text: &mut Draft, subject: &Subject<'_>, fault: &Diagnostic, index: usize) {
    let mut row = begin_row(text, "first");
    add_fault_code(row.field("code"), fault.code);
    let met = subject.tokens.get(index).copied().unwrap_or_default();
    add_place(&mut row, subject.source, &met);
    row.words("message", fault.code.text());
    row.end();
    text.add("\n");
}

/// Adds the row of the first fault of a source, at the token of an index, by a search along the source that hasn't begun.
pub fn add_first_fault(
    text: &mut Draft,
    subject: &Subject<'_>,
    search: &mut Search<'_>,
    fault: &Diagnostic,
    index: usize,
) -> Result<(), AllocError>
    requires { compiled subject.now.profile subject.now.source.now ≡ Err fault.now }
{
    add_fault(text, subject, subject.source, search, fault, index)
}

/// Adds the row of the first fault of what is left of a source, which has these bytes, at the token of an index, by a search
/// along its tokens that hasn't begun.
fn add_fault(
    text: &mut Draft,
    subject: &Subject<'_>,
    left: &[u8],
    search: &mut Search<'_>,
    fault: &Diagnostic,
    index: usize,
) -> Result<(), AllocError> {
    let (alloc, source, profile) = (subject.alloc, subject.source, subject.profile);
    let note = explain_found(source, search, fault);
    let tokens = search.tokens();
    let hint = said(note.as_str(), HINT);
    let trouble = Trouble {
        tokens,
        index,
        hint: hint.unwrap_or(""),
    };
    let fix = fix_of_fault(alloc, left, profile, fault, &trouble)?;
    let mut row = begin_row(text, "fault");
    add_fault_code(row.field("code"), fault.code);
    let met = tokens.get(index).copied().unwrap_or_default();
    add_place(&mut row, source, &met);
    row.words("message", first_words(note.as_str()));
    add_said(&mut row, "met", said(note.as_str(), MET));
    add_said(&mut row, "fits", said(note.as_str(), FITS));
    add_said(&mut row, "hint", hint);
    add_fix(&mut row, &fix);
    row.end();
    text.add("\n");
    Ok(())
}

/// Adds words, or null for none.
fn add_said(row: &mut Object<'_>, name: &str, words: Option<&str>) {
    match words {
        Some(words) => row.words(name, words),
        None => row.field(name).add("null"),
    }
}

/// Adds the rows of the faults after the first one, which is at the token of an index, and returns what is left out for them
/// and for the last one.
pub fn add_later_faults(
    text: &mut Draft,
    subject: &Subject<'_>,
    index: usize,
) -> Result<LeftOut, AllocError> {
    let (alloc, source, profile) = (subject.alloc, subject.source, subject.profile);
    let mut rest = Rest::of(alloc, source, profile)?;
    let mut place = place_of(subject.tokens, index);
    let mut lines = rest.leave_out_at(subject.tokens, index)?;
    for number in 1..=MOST_FAULTS {
        if lines.is_none() {
            break;
        }
        let Some(next) = rest.fault() else {
            return LeftOut::of(alloc, rest.bytes(), None);
        };
        let tokens = locate(alloc, rest.bytes())?;
        let tokens = tokens.as_slice();
        let index = fault_index(alloc, rest.bytes(), tokens, profile, &next)?;
        place = place_of(tokens, index);
        if number < MOST_FAULTS {
            let mut search = Search::of(tokens, profile);
            add_fault(text, subject, rest.bytes(), &mut search, &next, index)?;
            lines = rest.leave_out_at(tokens, index)?;
        }
    }
    LeftOut::of(alloc, rest.bytes(), Some(place))
}

/// Returns how many bytes are before the token of an index.
fn place_of(tokens: &[Located], index: usize) -> usize {
    match tokens.get(index) {
        Some(located) => located.start(),
        None => 0,
    }
}
