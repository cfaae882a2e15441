//! Heads of functions, and calls at which a head may have been meant.

use crate::indices::{follows, is_called, name_at, token_at};
use crate::notes::Note;
use crate::spelling::is_same_but_for_case;
use derivations::Located;
use grammar::MOST_NAMES;
use std::str;
use tokens::{Keyword, Punctuator, Token};

/// Returns the index after the bracket that closes the one right after a token. It isn't inlined, since the page's
/// module is to be small.
#[inline(never)]
pub fn behind_brackets(tokens: &[Located], before: usize) -> Option<usize> {
    let open = before.saturating_add(1);
    let mut depth = 0usize;
    for (number, located) in from(tokens, open).iter().enumerate() {
        match located.token {
            Token::Punctuator(Punctuator::OpenRound) => depth = depth.saturating_add(1),
            _ if number == 0 => return None,
            Token::Punctuator(Punctuator::CloseRound) => depth = depth.saturating_sub(1),
            _ => {}
        }
        if depth == 0 {
            return Some(open.saturating_add(number).saturating_add(1));
        }
    }
    None
}

/// Reports whether a function's head begins at an index: type words, a name and brackets, and after them its block, or
/// the types of its parameters and then its block.
pub fn is_head(tokens: &[Located], index: usize) -> bool {
    let name = behind_types(tokens, index);
    match (token_at(tokens, name), behind_brackets(tokens, name)) {
        (Token::Name(_), Some(behind)) => begins_block(tokens, behind),
        _ => false,
    }
}

/// Returns the index after the type words that begin at an index.
fn behind_types(tokens: &[Located], index: usize) -> usize {
    let mut behind = index;
    for located in from(tokens, index) {
        if located.token != Token::Keyword(Keyword::Type) {
            return behind;
        }
        behind = behind.saturating_add(1);
    }
    behind
}

/// Reports whether a block begins at an index, or declarations do with a block after them.
fn begins_block(tokens: &[Located], index: usize) -> bool {
    let open = Token::Punctuator(Punctuator::OpenCurly);
    let first = token_at(tokens, index);
    first == open
        || first == Token::Keyword(Keyword::Type) && behind_declarations(tokens, index) == open
}

/// Returns the first token from an index on that belongs to no declaration.
fn behind_declarations(tokens: &[Located], index: usize) -> Token {
    for located in from(tokens, index) {
        if !is_declaring(&located.token) {
            return located.token;
        }
    }
    Token::End
}

/// Reports whether a token may belong to a declaration.
fn is_declaring(token: &Token) -> bool {
    matches!(
        token,
        Token::Keyword(Keyword::Type)
            | Token::Name(_)
            | Token::Punctuator(Punctuator::Comma | Punctuator::Semicolon)
    )
}

/// Reports whether a name outside of functions is called rather than defined: no type word is before it, and after
/// its brackets neither a block nor a type begins.
pub fn is_call(tokens: &[Located], name: usize) -> bool {
    match behind_brackets(tokens, name) {
        Some(behind) => {
            !follows(tokens, name, &Token::Keyword(Keyword::Type))
                && !may_define(&token_at(tokens, behind))
        }
        None => false,
    }
}

/// Reports whether a token may follow the brackets of a definition.
fn may_define(token: &Token) -> bool {
    matches!(
        token,
        Token::Punctuator(Punctuator::OpenCurly)
            | Token::Keyword(Keyword::Type)
            | Token::End
            | Token::Fault(_)
    )
}

/// Returns the line of the last `}` before an index.
pub fn block_end_before(tokens: &[Located], index: usize) -> Option<u32> {
    let mut line = None;
    for located in tokens.get(..index).unwrap_or(tokens) {
        if located.token == Token::Punctuator(Punctuator::CloseCurly) {
            line = Some(located.line);
        }
    }
    line
}

/// Adds the head of the first function that is named from an index on in its line, or before it in that line, with the names
/// of its parameters alone.
pub fn add_head(note: &mut Note, source: &[u8], tokens: &[Located], index: usize) {
    let begin = match called_from(tokens, index) {
        Some(at) => at,
        None => line_start(tokens, index),
    };
    for (number, located) in line_from(tokens, begin).iter().enumerate() {
        let at = begin.saturating_add(number);
        if let Token::Name(name) = located.token
            && is_called(tokens, at)
        {
            note.add(": write `");
            note.add(name.as_str());
            note.push('(');
            if !name.has_bytes(b"main") {
                add_parameters(note, source, tokens, at);
            }
            return note.add(") {`");
        }
    }
}

/// Adds the head of the function that an arrow gives to the variable of the token of an index.
pub fn add_arrow(note: &mut Note, source: &[u8], tokens: &[Located], index: usize) {
    note.add("`=>` makes no function: one stands outside of the others: write `");
    if let Some(name) = name_at(tokens, index) {
        note.add(name.as_str());
    }
    note.push('(');
    add_parameters(note, source, tokens, index.saturating_add(1));
    note.add(") { .. }`");
}

/// Returns the index of the first name with a `(` behind it from another index on in its line.
fn called_from(tokens: &[Located], index: usize) -> Option<usize> {
    for number in 0..line_from(tokens, index).len() {
        let at = index.saturating_add(number);
        if name_at(tokens, at).is_some() && is_called(tokens, at) {
            return Some(at);
        }
    }
    None
}

/// Returns the index of the first token of the line that has the token of an index.
fn line_start(tokens: &[Located], index: usize) -> usize {
    let Some(wanted) = tokens.get(index) else {
        return index;
    };
    for (number, located) in tokens.iter().enumerate() {
        if located.line == wanted.line {
            return number;
        }
    }
    index
}

/// Adds the names of the parameters of a function whose `(` is right behind the token of an index. They are read from the
/// bytes, since no tokens are behind a `:`: types stand before a name, behind it, or behind `:`.
fn add_parameters(note: &mut Note, source: &[u8], tokens: &[Located], before: usize) {
    let Some(open) = tokens.get(before.saturating_add(1)) else {
        return;
    };
    let mut rest = source.get(open.end()..).unwrap_or(&[]);
    let mut is_first = true;
    for _ in 0..MOST_NAMES {
        let end = parameter_end(rest);
        let name = parameter_name(rest.get(..end).unwrap_or(&[]));
        if !name.is_empty() {
            if !is_first {
                note.add(", ");
            }
            note.add(str::from_utf8(name).unwrap_or(".."));
            is_first = false;
        }
        match rest.get(end).copied() {
            Some(b',' | b';') => rest = rest.get(end.saturating_add(1)..).unwrap_or(&[]),
            _ => return,
        }
    }
}

/// Returns how many bytes of a text belong to the parameter that it begins with.
fn parameter_end(text: &[u8]) -> usize {
    for (at, byte) in text.iter().enumerate() {
        if matches!(*byte, b',' | b';' | b')' | b'{') {
            return at;
        }
    }
    text.len()
}

/// Returns the name of a parameter: the last word before a `:` or a `=` that is no type of C.
fn parameter_name(text: &[u8]) -> &[u8] {
    let mut name: &[u8] = &[];
    let mut begin = 0usize;
    for (at, byte) in text.iter().enumerate() {
        if !byte.is_ascii_alphanumeric() && *byte != b'_' {
            name = later_name(name, text.get(begin..at).unwrap_or(&[]));
            begin = at.saturating_add(1);
        }
        if matches!(*byte, b':' | b'=') {
            return name;
        }
    }
    later_name(name, text.get(begin..).unwrap_or(&[]))
}

/// Returns a word, or the name before it if the word is none.
fn later_name<'a>(name: &'a [u8], word: &'a [u8]) -> &'a [u8] {
    for no_name in &TYPES {
        if no_name.as_bytes() == word {
            return name;
        }
    }
    match word {
        [] | [b'0'..=b'9', ..] => name,
        _ if !name.is_empty() && is_no_parameter(word) => name,
        _ => word,
    }
}

/// The types of C, which are no names.
static TYPES: [&str; 10] = [
    "int", "long", "auto", "register", "void", "char", "float", "double", "short", "unsigned",
];

/// Reports whether a word stands beside a parameter in another language: it is a type, or says how the value is given.
pub fn is_no_parameter(word: &[u8]) -> bool {
    for other in &WORDS {
        if is_same_but_for_case(word, other) {
            return true;
        }
    }
    false
}

/// Words beside parameters in other languages.
static WORDS: [&[u8]; 28] = [
    b"integer", b"int", b"int32", b"i32", b"i64", b"u32", b"number", b"num", b"string", b"str",
    b"boolean", b"bool", b"real", b"any", b"var", b"val", b"let", b"mut", b"in", b"out", b"inout",
    b"ref", b"const", b"final", b"byval", b"byref", b"as", b"of",
];

/// Returns the tokens of a line from an index on.
/// It isn't inlined, since the page's module is to be small.
#[inline(never)]
pub fn line_from(tokens: &[Located], index: usize) -> &[Located] {
    let rest = from(tokens, index);
    let Some(first) = rest.first() else {
        return rest;
    };
    for (number, located) in rest.iter().enumerate() {
        if located.line != first.line {
            return rest.get(..number).unwrap_or(rest);
        }
    }
    rest
}

/// Returns the tokens from an index on.
fn from(tokens: &[Located], index: usize) -> &[Located] {
    tokens.get(index..).unwrap_or(&[])
}
