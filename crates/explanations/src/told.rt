//! Tokens as texts.

use crate::letters::shown_at;
use crate::notes::Note;
use derivations::{Located, spelled};
use std::str;
use tokens::Token;

/// Adds what a token is: its kind, and how it is spelled.
pub fn add_token(note: &mut Note, source: &[u8], located: &Located) {
    match located.token {
        Token::Name(name) => {
            note.add("the name ");
            note.quote(name.as_str());
        }
        Token::Keyword(_) => {
            note.add("the word ");
            note.quote(spelling_of(source, located));
        }
        Token::Constant(value) => note.count("the number ", u64::from(value), ""),
        Token::Punctuator(punctuator) => note.quote(spelled(punctuator)),
        Token::End => note.add("the end of the file"),
        Token::Fault(_) => add_character(note, source, located.start()),
    }
}

/// Adds the character at a position of a source: one that isn't ASCII and that no terminal shows by its number in Unicode,
/// and a control or bytes that aren't UTF-8 as a byte.
fn add_character(note: &mut Note, source: &[u8], at: usize) {
    let byte = source.get(at).copied().unwrap_or(0);
    match character_at(source, at) {
        Some(character) if shown_at(source, at).is_some() => {
            note.add("the character `");
            note.push(character);
            note.push('`');
        }
        Some(character) if !character.is_ascii() => {
            note.add("the character U+");
            add_hexadecimal(note, u32::from(character));
        }
        Some(character) if byte.is_ascii_graphic() => {
            note.add("the character `");
            note.push(character);
            note.push('`');
        }
        _ => note.count("the byte ", u64::from(byte), ""),
    }
}

/// The hexadecimal digits.
static DIGITS: [char; 16] = [
    '0', '1', '2', '3', '4', '5', '6', '7', '8', '9', 'A', 'B', 'C', 'D', 'E', 'F',
];

/// Adds a number of at most 24 bits, with at least four hexadecimal digits.
fn add_hexadecimal(note: &mut Note, number: u32) {
    let mut is_begun = false;
    for part in [1_048_576u32, 65_536, 4096, 256, 16, 1] {
        let digit = number.checked_div(part).unwrap_or(0) % 16;
        is_begun = is_begun || digit != 0 || part < 65_536;
        if is_begun {
            note.push(DIGITS.get(digit as usize).copied().unwrap_or('?'));
        }
    }
}

/// Returns the character that begins at a position of a source, if its bytes are one in UTF-8.
pub fn character_at(source: &[u8], at: usize) -> Option<char> {
    for size in 1..5usize {
        let bytes = source.get(at..at.saturating_add(size))?;
        if let Ok(text) = str::from_utf8(bytes) {
            return text.chars().next();
        }
    }
    None
}

/// Returns a token as the source spells it.
pub fn spelling_of<'a>(source: &'a [u8], located: &Located) -> &'a str {
    let bytes = source.get(located.start()..located.end()).unwrap_or(&[]);
    str::from_utf8(bytes).unwrap_or("?")
}
