//! Loops of other languages that count, as a `while` with their own count, steps and block.

use crate::indices::{is_called, is_name, name_at, token_at};
use crate::notes::Note;
use crate::pieces::{add_argument, add_name, add_piece, argument, operand_before, operand_end};
use derivations::Located;
use grammar::store_operator;
use tokens::{Keyword, Punctuator, Token};

/// Words that stand before the block of a loop, or behind its count.
static WORDS: [&[u8]; 2] = [b"times", b"do"];

/// The most tokens of a loop's head.
const MOST_OF_HEAD: usize = 40;

/// Adds a loop that counts up to the number before the `.` of an index, or behind its word.
pub fn add_counted(note: &mut Note, tokens: &[Located], word: usize) -> Option<()> {
    let is_word = matches!(
        token_at(tokens, word),
        Token::Name(_) | Token::Keyword(Keyword::Refused)
    );
    let (begin, end) = if is_word {
        count_behind(tokens, word)?
    } else {
        (operand_before(tokens, word)?, word)
    };
    note.add("n = 0; while (n < ");
    add_piece(note, tokens, begin, end)?;
    note.add(") { n = n + 1; ");
    add_block(note, tokens, end);
    note.add(" }");
    Some(())
}

/// Returns where the count behind a word begins and ends, which may be in brackets.
fn count_behind(tokens: &[Located], word: usize) -> Option<(usize, usize)> {
    if is_called(tokens, word) {
        return argument(tokens, word, 0);
    }
    let begin = word.saturating_add(1);
    Some((begin, operand_end(tokens, begin)?))
}

/// Adds the statements of the block that begins behind an index, a `)` or some words, if it ends on its line; else dots.
fn add_block(note: &mut Note, tokens: &[Located], index: usize) {
    let mut block = Note::new();
    if add_statements(&mut block, tokens, index).is_some() {
        note.add(block.as_str());
    } else {
        note.add("..");
    }
}

/// Adds these statements, or the one without a block that stands behind a `)`.
fn add_statements(note: &mut Note, tokens: &[Located], index: usize) -> Option<()> {
    let Some(open) = block_behind(tokens, index) else {
        return add_statement(note, tokens, index);
    };
    let mut depth = 0usize;
    for at in open..open.saturating_add(MOST_OF_HEAD) {
        match token_at(tokens, at) {
            Token::Punctuator(Punctuator::OpenCurly) => depth = depth.saturating_add(1),
            Token::Punctuator(Punctuator::CloseCurly) => depth = depth.saturating_sub(1),
            Token::Fault(_) | Token::End => return None,
            _ => {}
        }
        if depth == 0 {
            return add_piece(note, tokens, open.saturating_add(1), at);
        }
    }
    None
}

/// Adds the statement behind the `)` of an index: a call or an assignment.
fn add_statement(note: &mut Note, tokens: &[Located], index: usize) -> Option<()> {
    let begin = index.saturating_add(1);
    let next = token_at(tokens, begin.saturating_add(1));
    let is_set = store_operator(&next).is_some();
    let is_close = token_at(tokens, index) == Token::Punctuator(Punctuator::CloseRound);
    name_at(tokens, begin)?;
    if !is_close || !is_set && !is_called(tokens, begin) {
        return None;
    }
    let end = mark_from(tokens, begin, Punctuator::Semicolon)?;
    add_piece(note, tokens, begin, end.saturating_add(1))
}

/// Returns the index of the `{` that is right behind an index, a `)` and some words.
fn block_behind(tokens: &[Located], index: usize) -> Option<usize> {
    for at in index..index.saturating_add(4) {
        match token_at(tokens, at) {
            Token::Punctuator(Punctuator::OpenCurly) => return Some(at),
            Token::Punctuator(Punctuator::CloseRound) => {}
            Token::Name(_) | Token::Keyword(Keyword::Refused) if is_word(tokens, at) => {}
            _ => return None,
        }
    }
    None
}

/// Reports whether the token of an index is a word that stands before a block.
fn is_word(tokens: &[Located], index: usize) -> bool {
    if token_at(tokens, index) == Token::Keyword(Keyword::Refused) {
        return true;
    }
    for word in &WORDS {
        if is_name(tokens, index, word) {
            return true;
        }
    }
    false
}

/// Adds a loop for the `for` of an index: of C, Python, Basic or Lua.
pub fn add_for(note: &mut Note, tokens: &[Located], word: usize) -> Option<()> {
    let name = word.saturating_add(1);
    if is_called(tokens, word) {
        return add_stepped(note, tokens, word.saturating_add(2));
    }
    let sign = name.saturating_add(1);
    if is_name(tokens, sign, b"in") && is_name(tokens, sign.saturating_add(1), b"range") {
        return add_ranged(note, tokens, name, sign.saturating_add(1));
    }
    if token_at(tokens, sign) == Token::Punctuator(Punctuator::Equals) {
        return add_listed(note, tokens, name);
    }
    None
}

/// Adds the loop of a `for` of C: what stands in its brackets, which begin at an index.
fn add_stepped(note: &mut Note, tokens: &[Located], begin: usize) -> Option<()> {
    let is_typed = token_at(tokens, begin) == Token::Keyword(Keyword::Type);
    let first = begin.saturating_add(usize::from(is_typed));
    let test = mark_from(tokens, first, Punctuator::Semicolon)?;
    let step = mark_from(tokens, test.saturating_add(1), Punctuator::Semicolon)?;
    let end = bracket_from(tokens, step.saturating_add(1))?;
    add_piece(note, tokens, first, test)?;
    note.add("; while (");
    add_piece(note, tokens, test.saturating_add(1), step)?;
    note.add(") { ");
    add_block(note, tokens, end);
    note.add(if ends_statement(note.as_str()) {
        " "
    } else {
        "; "
    });
    add_piece(note, tokens, step.saturating_add(1), end)?;
    note.add("; }");
    Some(())
}

/// Reports whether a text ends with a statement.
fn ends_statement(text: &str) -> bool {
    matches!(text.as_bytes().last(), Some(b';' | b'}'))
}

/// Returns the index of the next punctuator of a kind, from an index on.
fn mark_from(tokens: &[Located], index: usize, punctuator: Punctuator) -> Option<usize> {
    for at in index..index.saturating_add(MOST_OF_HEAD) {
        if token_at(tokens, at) == Token::Punctuator(punctuator) {
            return Some(at);
        }
    }
    None
}

/// Returns the index of the `)` that closes what is open at an index.
fn bracket_from(tokens: &[Located], index: usize) -> Option<usize> {
    let mut depth = 1usize;
    for at in index..index.saturating_add(MOST_OF_HEAD) {
        match token_at(tokens, at) {
            Token::Punctuator(Punctuator::OpenRound) => depth = depth.saturating_add(1),
            Token::Punctuator(Punctuator::CloseRound) => depth = depth.saturating_sub(1),
            _ => {}
        }
        if depth == 0 {
            return Some(at);
        }
    }
    None
}

/// Adds the loop of a variable in the `range` of an index.
fn add_ranged(note: &mut Note, tokens: &[Located], name: usize, range: usize) -> Option<()> {
    let begins = argument(tokens, range, 1).is_some();
    add_name(note, tokens, name)?;
    note.add(" = ");
    if begins {
        add_argument(note, tokens, range, 0)?;
    } else {
        note.push('0');
    }
    note.add("; while (");
    add_name(note, tokens, name)?;
    note.add(" < ");
    add_argument(note, tokens, range, usize::from(begins))?;
    begin_step(note, tokens, name)?;
    if argument(tokens, range, 2).is_some() {
        add_argument(note, tokens, range, 2)?;
    } else {
        note.push('1');
    }
    note.add("; }");
    Some(())
}

/// Adds the rest of a loop up to the number of its step.
fn begin_step(note: &mut Note, tokens: &[Located], name: usize) -> Option<()> {
    note.add(") { ..; ");
    add_name(note, tokens, name)?;
    note.add(" = ");
    add_name(note, tokens, name)?;
    note.add(" + ");
    Some(())
}

/// Adds the loop of a variable from a value to another one, with a step if there is one: they stand behind `to` and `step`, or
/// behind a `,`.
fn add_listed(note: &mut Note, tokens: &[Located], name: usize) -> Option<()> {
    let first = name.saturating_add(2);
    let to = operand_end(tokens, first)?;
    let last = operand_end(tokens, to.saturating_add(1))?;
    if !parts(tokens, to) {
        return None;
    }
    add_piece(note, tokens, name, to)?;
    note.add("; while (");
    add_name(note, tokens, name)?;
    note.add(" <= ");
    add_piece(note, tokens, to.saturating_add(1), last)?;
    begin_step(note, tokens, name)?;
    if parts(tokens, last) {
        let step = last.saturating_add(1);
        add_piece(note, tokens, step, operand_end(tokens, step)?)?;
    } else {
        note.push('1');
    }
    note.add("; }");
    Some(())
}

/// Reports whether the token of an index parts the values of a `for`.
fn parts(tokens: &[Located], index: usize) -> bool {
    let is_comma = token_at(tokens, index) == Token::Punctuator(Punctuator::Comma);
    let is_word = match name_at(tokens, index) {
        Some(name) => {
            let bytes = name.as_bytes();
            crate::spelling::is_same_but_for_case(bytes, b"to")
                || crate::spelling::is_same_but_for_case(bytes, b"step")
        }
        None => false,
    };
    is_comma || is_word
}
