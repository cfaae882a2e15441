//! Statements that a condition behind them decides, and values that a `?` chooses, with the `if` before them.

use crate::hints::Hint;
use crate::indices::token_at;
use crate::notes::Note;
use crate::pieces::{add_piece, is_mark, operand_end};
use crate::rewriting::{MOST_WRITTEN, Rewrite};
use crate::scenes::Scene;
use derivations::{Item, Located};
use grammar::store_operator;
use std::str;
use tokens::{Keyword, Punctuator, Token};

/// Adds a statement that a condition behind it decides, with the condition before it; and behind an `else` what is done else.
pub fn add_chosen(note: &mut Note, tokens: &[Located], begin: usize, test: usize) -> Option<()> {
    let otherwise = word_from(tokens, test, Keyword::Else);
    let end = end_from(tokens, test)?;
    let condition = test.saturating_add(1);
    let value = value_begin(tokens, begin);
    add_test(note, tokens, condition, otherwise.unwrap_or(end))?;
    note.push(' ');
    add_piece(note, tokens, begin, test)?;
    note.push(';');
    if let Some(otherwise) = otherwise {
        note.add(" else ");
        if value > begin {
            add_piece(note, tokens, begin, value)?;
            note.push(' ');
        }
        add_piece(note, tokens, otherwise.saturating_add(1), end)?;
        note.push(';');
    }
    Some(())
}

/// Returns where the value begins of the statement that begins at an index: behind `return`, or behind its `=`.
fn value_begin(tokens: &[Located], begin: usize) -> usize {
    let next = begin.saturating_add(1);
    if token_at(tokens, begin) == Token::Keyword(Keyword::Return) {
        next
    } else if store_operator(&token_at(tokens, next)).is_some() {
        next.saturating_add(1)
    } else {
        begin
    }
}

/// Returns the index of a word behind an index, before the next `;`.
fn word_from(tokens: &[Located], index: usize, word: Keyword) -> Option<usize> {
    let end = end_from(tokens, index)?;
    for at in index..end {
        if token_at(tokens, at) == Token::Keyword(word) {
            return Some(at);
        }
    }
    None
}

/// Returns the index of the next `;` from another one on.
pub fn end_from(tokens: &[Located], index: usize) -> Option<usize> {
    for at in index..tokens.len() {
        if is_mark(tokens, at, Punctuator::Semicolon) {
            return Some(at);
        }
    }
    None
}

/// Adds an `if` with a condition in brackets.
fn add_test(note: &mut Note, tokens: &[Located], begin: usize, end: usize) -> Option<()> {
    note.add("if ");
    let is_bracketed = operand_end(tokens, begin) == Some(end)
        && is_mark(tokens, begin, Punctuator::OpenRound);
    if !is_bracketed {
        note.push('(');
    }
    add_piece(note, tokens, begin, end)?;
    if !is_bracketed {
        note.push(')');
    }
    Some(())
}

/// Returns the hint on a `?` that chooses one of two values.
pub fn on_chosen_values(scene: &Scene<'_>) -> Option<Hint> {
    let met = scene.tokens.get(scene.index)?;
    let begin = scene.pending_at(Item::Exactly(Punctuator::Semicolon))?;
    if scene.source.get(met.start()) != Some(&b'?') {
        return None;
    }
    Some(Hint::Written(
        "there is no `?:`",
        Rewrite::Decided(begin, scene.index),
        "if (..) a = ..; else a = ..;",
    ))
}

/// Adds a statement that begins at an index, with the condition before a `?` before it; and behind an `else` what the value
/// behind the `:` makes of it.
pub fn add_decided(
    note: &mut Note,
    source: &[u8],
    tokens: &[Located],
    begin: usize,
    mark: usize,
) -> Option<()> {
    let value = value_begin(tokens, begin);
    let rest = source.get(tokens.get(mark)?.start().saturating_add(1)..)?;
    let first = value_before(rest, b':')?;
    let second = value_before(rest.get(first.len().saturating_add(1)..)?, b';')?;
    if value == begin {
        return None;
    }
    add_test(note, tokens, value, mark)?;
    for (words, text) in [(" ", first), (" else ", second)] {
        note.add(words);
        add_piece(note, tokens, begin, value)?;
        note.push(' ');
        note.add(str::from_utf8(text).ok()?.trim());
        note.push(';');
    }
    Some(())
}

/// Returns what a text has before a mark, if that is in its line.
fn value_before(text: &[u8], mark: u8) -> Option<&[u8]> {
    for (at, byte) in text.iter().enumerate() {
        match *byte {
            _ if *byte == mark => return text.get(..at),
            b'?' => return None,
            b' '..=b'~' if at < MOST_WRITTEN => {}
            _ => return None,
        }
    }
    None
}
