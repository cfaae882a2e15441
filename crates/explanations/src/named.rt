//! Arguments that are given by names, which this language hasn't: the call with their values alone, in the order of its function.

use crate::calls::{DEGREES, OTHERS};
use crate::hints::Hint;
use crate::indices::{name_at, token_at};
use crate::notes::Note;
use crate::pieces::{add_name, add_piece, argument, open_bracket};
use crate::rewriting::Rewrite;
use crate::scenes::Scene;
use derivations::Located;
use std::str;
use tokens::{Punctuator, Token};

/// The most bytes of arguments that are quoted.
const MOST_BYTES: usize = 60;

/// Returns the hint on a `:` behind the name of an argument.
pub fn on_named_arguments(scene: &Scene<'_>) -> Option<Hint> {
    let met = scene.tokens.get(scene.index)?;
    let is_colon = scene.source.get(met.start()) == Some(&b':');
    if !is_colon || !names_argument(scene) {
        return None;
    }
    Some(Hint::Written(
        "an argument has no name: it goes by its place",
        Rewrite::Unnamed(call_around(scene.tokens, scene.index)?),
        "drive(degree, speed)",
    ))
}

/// Returns the index of the name of the call that the token of an index is an argument of.
fn call_around(tokens: &[Located], index: usize) -> Option<usize> {
    open_bracket(tokens, index.saturating_add(1))?.checked_sub(1)
}

/// Reports whether a name that begins an argument is right before the token that doesn't fit.
fn names_argument(scene: &Scene<'_>) -> bool {
    let name = scene.index.saturating_sub(1);
    let begins = matches!(
        scene.token(name.saturating_sub(1)),
        Token::Punctuator(Punctuator::OpenRound | Punctuator::Comma)
    );
    begins && scene.name(name).is_some() && scene.fits_mark(Punctuator::Comma)
}

/// Adds the call of an index without the names of its arguments, by the bytes behind its bracket: no tokens are behind a `:`.
pub fn add_unnamed(note: &mut Note, source: &[u8], tokens: &[Located], call: usize) -> Option<()> {
    let open = tokens.get(call.saturating_add(1))?;
    let rest = source.get(open.end()..)?;
    let first = argument_in(rest, 0)?;
    add_name(note, tokens, call)?;
    note.push('(');
    match argument_in(rest, 1) {
        Some(second) if is_among(&OTHERS, name_in(first)) && is_among(&DEGREES, name_in(second)) =>
            {
                add_values(note, second, Some(first))?;
            }
        second => add_values(note, first, second)?,
    }
    note.push(')');
    Some(())
}

/// Adds the values of one or two arguments.
fn add_values(note: &mut Note, first: &[u8], second: Option<&[u8]>) -> Option<()> {
    note.add(str::from_utf8(value_in(first)).ok()?);
    if let Some(second) = second {
        note.add(", ");
        note.add(str::from_utf8(value_in(second)).ok()?);
    }
    Some(())
}

/// Returns the argument of a number, in a text behind a bracket, if that is closed on its line.
fn argument_in(text: &[u8], wanted: usize) -> Option<&[u8]> {
    let (mut depth, mut number, mut begin) = (0usize, 0usize, 0usize);
    for (at, byte) in text.iter().enumerate() {
        let is_end = depth == 0 && matches!(*byte, b',' | b')');
        if is_end && number == wanted {
            return text.get(begin..at);
        }
        match *byte {
            b'(' => depth = depth.saturating_add(1),
            b')' if depth == 0 => return None,
            b')' => depth = depth.saturating_sub(1),
            b',' if depth == 0 => {
                number = number.saturating_add(1);
                begin = at.saturating_add(1);
            }
            b' '..=b'~' if at < MOST_BYTES => {}
            _ => return None,
        }
    }
    None
}

/// Returns the name of an argument, before its `:` or `=`.
fn name_in(argument: &[u8]) -> &[u8] {
    for (at, byte) in argument.iter().enumerate() {
        if matches!(*byte, b':' | b'=') {
            return argument.get(..at).unwrap_or(&[]).trim_ascii();
        }
    }
    &[]
}

/// Returns the value of an argument, behind its `:` or `=` if it has one.
fn value_in(argument: &[u8]) -> &[u8] {
    for (at, byte) in argument.iter().enumerate() {
        if matches!(*byte, b':' | b'=') {
            return argument
                .get(at.saturating_add(1)..)
                .unwrap_or(&[])
                .trim_ascii();
        }
    }
    argument.trim_ascii()
}

/// Reports whether a name is one of these.
fn is_among(names: &[&str], name: &[u8]) -> bool {
    for other in names {
        if other.as_bytes() == name {
            return true;
        }
    }
    false
}

/// Adds the call of an index with the values of its first two arguments alone, each of which may be an assignment.
pub fn add_exchanged_names(note: &mut Note, tokens: &[Located], call: usize) -> Option<()> {
    add_name(note, tokens, call)?;
    note.push('(');
    let is_exchanged = names(tokens, call, 0, &OTHERS) && names(tokens, call, 1, &DEGREES);
    add_value(note, tokens, call, usize::from(is_exchanged))?;
    if argument(tokens, call, 1).is_some() {
        note.add(", ");
        add_value(note, tokens, call, usize::from(!is_exchanged))?;
    }
    note.push(')');
    Some(())
}

/// Reports whether the argument of a number begins with one of these names.
fn names(tokens: &[Located], call: usize, number: usize, names: &[&str]) -> bool {
    match argument(tokens, call, number) {
        Some((begin, _)) => match name_at(tokens, begin) {
            Some(name) => is_among(names, name.as_bytes()),
            None => false,
        },
        None => false,
    }
}

/// Adds the argument of a number: of an assignment its right side.
fn add_value(note: &mut Note, tokens: &[Located], call: usize, number: usize) -> Option<()> {
    let (begin, end) = argument(tokens, call, number)?;
    let equals = begin.saturating_add(1);
    let is_set = token_at(tokens, equals) == Token::Punctuator(Punctuator::Equals);
    let first = if is_set {
        equals.saturating_add(1)
    } else {
        begin
    };
    add_piece(note, tokens, first, end)
}
