//! Declarations and assignments as lines to copy, with the values that the source has.

use crate::foreign::is_foreign;
use crate::heads::{add_head, line_from};
use crate::indices::{is_called, name_at};
use crate::notes::Note;
use derivations::Located;
use std::str;
use tokens::{Name, Punctuator, Token};

/// The most bytes of a value that is copied.
const MOST_COPIED: usize = 40;

/// Adds the declaration of the first name from an index on in its line, and how it is set if a value follows it; or the head
/// of the function that it is.
pub fn add_declaration(note: &mut Note, source: &[u8], tokens: &[Located], index: usize) {
    for (number, located) in line_from(tokens, index).iter().enumerate() {
        let at = index.saturating_add(number);
        let is_before_name = name_at(tokens, at.saturating_add(1)).is_some();
        if let Token::Name(name) = located.token
            && !(is_before_name && is_foreign(&name))
        {
            if is_called(tokens, at) {
                return add_head(note, source, tokens, at);
            }
            note.add(": write `int ");
            note.add(name.as_str());
            note.add(";`");
            let equals = at.saturating_add(1);
            if is_mark(tokens, equals, Punctuator::Equals) {
                note.add(", and `");
                add_assignment(note, source, tokens, &name, equals);
                note.add("` among the statements");
            }
            return;
        }
    }
}

/// Adds the assignments that are meant by names with `,` between them, from an index on, and by as many values behind `=`.
pub fn add_assignments(note: &mut Note, source: &[u8], tokens: &[Located], first: usize) {
    note.add("variables are set one at a time: write `");
    let last = equals_in(tokens, first);
    if last == first {
        return note.add("a = 1; b = 2;`");
    }
    if exchanges(tokens, first, last) {
        return note.add("c = a; a = b; b = c;` to exchange two");
    }
    let mut equals = last;
    for at in first..last {
        if let Some(name) = name_at(tokens, at) {
            if at > first {
                note.push(' ');
            }
            add_assignment(note, source, tokens, &name, equals);
            equals = value_end(tokens, equals.saturating_add(1));
        }
    }
    note.push('`');
}

/// Returns the index of the first `=` from an index on in its line, or that index.
fn equals_in(tokens: &[Located], first: usize) -> usize {
    for number in 0..line_from(tokens, first).len() {
        let at = first.saturating_add(number);
        if is_mark(tokens, at, Punctuator::Equals) {
            return at;
        }
    }
    first
}

/// Reports whether a name before the `=` of an index is read behind it in its line.
fn exchanges(tokens: &[Located], first: usize, equals: usize) -> bool {
    for located in line_from(tokens, equals) {
        for at in first..equals {
            if let Some(name) = name_at(tokens, at)
                && located.token == Token::Name(name)
            {
                return true;
            }
        }
    }
    false
}

/// Adds the assignment to a name of the value behind the token of an index.
fn add_assignment(note: &mut Note, source: &[u8], tokens: &[Located], name: &Name, before: usize) {
    note.add(name.as_str());
    note.add(" = ");
    note.add(value_behind(source, tokens, before));
    note.push(';');
}

/// Returns the value behind the token of an index as the source has it: dots if it isn't whole in its line, or long.
fn value_behind<'a>(source: &'a [u8], tokens: &[Located], before: usize) -> &'a str {
    let first = before.saturating_add(1);
    let end = value_end(tokens, first);
    let is_whole = is_mark(tokens, end, Punctuator::Semicolon)
        || is_mark(tokens, end, Punctuator::Comma);
    let (Some(begin), Some(last)) = (tokens.get(first), tokens.get(end.saturating_sub(1))) else {
        return "..";
    };
    let bytes = source.get(begin.start()..last.end()).unwrap_or(&[]);
    if is_whole && end > first && bytes.len() <= MOST_COPIED && is_printable(bytes) {
        str::from_utf8(bytes).unwrap_or("..")
    } else {
        ".."
    }
}

/// Reports whether bytes are spaces and characters of ASCII that a terminal shows.
fn is_printable(bytes: &[u8]) -> bool {
    for byte in bytes {
        if !byte.is_ascii_graphic() && *byte != b' ' {
            return false;
        }
    }
    true
}

/// Returns the index at which the value ends that begins at another one: of a `,` or `;` outside of its brackets, or of what
/// stands in another line.
pub fn value_end(tokens: &[Located], first: usize) -> usize {
    let mut depth = 0usize;
    let line = line_from(tokens, first);
    for (number, located) in line.iter().enumerate() {
        match located.token {
            Token::Punctuator(Punctuator::OpenRound) => depth = depth.saturating_add(1),
            Token::Punctuator(Punctuator::CloseRound) => depth = depth.saturating_sub(1),
            Token::Punctuator(Punctuator::Comma | Punctuator::Semicolon) if depth == 0 => {
                return first.saturating_add(number);
            }
            _ => {}
        }
    }
    first.saturating_add(line.len())
}

/// Reports whether the token of an index is this punctuator.
fn is_mark(tokens: &[Located], index: usize, punctuator: Punctuator) -> bool {
    match tokens.get(index) {
        Some(located) => located.token == Token::Punctuator(punctuator),
        None => false,
    }
}
