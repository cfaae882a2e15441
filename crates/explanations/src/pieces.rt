//! Pieces of a source as they stand: ranges of its tokens, and where operands and arguments begin and end.
//!
//! A piece answers nothing if it can't be quoted: then what is said has an example in its place.

use crate::assigning::value_end;
use crate::heads::behind_brackets;
use crate::indices::{is_called, name_at, token_at};
use crate::notes::Note;
use derivations::{Located, spelled};
use tokens::{Keyword, Punctuator, Token};

/// The most tokens of a piece that is quoted.
const MOST_QUOTED: usize = 30;

/// Adds the tokens from one index on, up to another one, as they stand, with one blank for what is between two. There must be
/// some, not too many, and all on one line.
#[inline(never)]
pub fn add_piece(note: &mut Note, tokens: &[Located], first: usize, end: usize) -> Option<()> {
    let piece = tokens.get(first..end)?;
    let begin = piece.first()?;
    if piece.len() > MOST_QUOTED {
        return None;
    }
    let mut behind = begin.start();
    for located in piece {
        if located.line != begin.line {
            return None;
        }
        if located.start() > behind {
            note.push(' ');
        }
        add_spelled(note, &located.token)?;
        behind = located.end();
    }
    Some(())
}

/// Adds a token as it is written.
fn add_spelled(note: &mut Note, token: &Token) -> Option<()> {
    match token {
        Token::Name(name) => note.add(name.as_str()),
        Token::Constant(value) => note.number(u64::from(*value)),
        Token::Punctuator(punctuator) => note.add(spelled(*punctuator)),
        Token::Keyword(word) => note.add(word_of(*word)?),
        Token::End | Token::Fault(_) => return None,
    }
    Some(())
}

/// Returns a word of this language. All types are one.
pub fn word_of(word: Keyword) -> Option<&'static str> {
    match word {
        Keyword::If => Some("if"),
        Keyword::Else => Some("else"),
        Keyword::While => Some("while"),
        Keyword::Return => Some("return"),
        Keyword::Type => Some("int"),
        Keyword::Refused => None,
    }
}

/// Returns the index of the first token of the operand that ends right before an index: a name, a number, brackets or a call.
#[inline(never)]
pub fn operand_before(tokens: &[Located], index: usize) -> Option<usize> {
    let last = index.checked_sub(1)?;
    match token_at(tokens, last) {
        Token::Name(_) | Token::Constant(_) => Some(last),
        Token::Punctuator(Punctuator::CloseRound) => {
            let open = open_bracket(tokens, last)?;
            if last.saturating_sub(open) >= MOST_QUOTED {
                return None;
            }
            let before = open.saturating_sub(1);
            Some(if name_at(tokens, before).is_some() {
                before
            } else {
                open
            })
        }
        // nothing else ends an operand
        _ => None,
    }
}

/// Returns the index of the innermost bracket that is open before an index.
pub fn open_bracket(tokens: &[Located], index: usize) -> Option<usize> {
    let mut depth = 0usize;
    for number in 0..index {
        let at = index.saturating_sub(number).saturating_sub(1);
        match token_at(tokens, at) {
            Token::Punctuator(Punctuator::CloseRound) => depth = depth.saturating_add(1),
            Token::Punctuator(Punctuator::OpenRound) if depth == 0 => return Some(at),
            Token::Punctuator(Punctuator::OpenRound) => depth = depth.saturating_sub(1),
            _ => {}
        }
    }
    None
}

/// Returns the index behind the operand that begins at an index.
#[inline(never)]
pub fn operand_end(tokens: &[Located], index: usize) -> Option<usize> {
    let is_signed = matches!(
        token_at(tokens, index),
        Token::Punctuator(Punctuator::Minus | Punctuator::Not | Punctuator::Tilde)
    );
    let begin = index.saturating_add(usize::from(is_signed));
    match token_at(tokens, begin) {
        Token::Name(_) if is_called(tokens, begin) => behind_brackets(tokens, begin),
        Token::Name(_) | Token::Constant(_) => Some(begin.saturating_add(1)),
        Token::Punctuator(Punctuator::OpenRound) => behind_brackets(tokens, begin.checked_sub(1)?),
        // nothing else begins an operand
        _ => None,
    }
}

/// Returns where the argument of a number begins and ends, of the call whose name is the token of an index.
#[inline(never)]
pub fn argument(tokens: &[Located], call: usize, number: usize) -> Option<(usize, usize)> {
    let close = behind_brackets(tokens, call)?.checked_sub(1)?;
    let mut begin = call.saturating_add(2);
    for _ in 0..number {
        let comma = value_end(tokens, begin);
        if comma >= close || token_at(tokens, comma) != Token::Punctuator(Punctuator::Comma) {
            return None;
        }
        begin = comma.saturating_add(1);
    }
    let end = value_end(tokens, begin);
    let end = if end < close { end } else { close };
    (begin < end).then_some((begin, end))
}

/// Adds the argument of a number as it stands, of the call whose name is the token of an index.
pub fn add_argument(note: &mut Note, tokens: &[Located], call: usize, number: usize) -> Option<()> {
    let (begin, end) = argument(tokens, call, number)?;
    add_piece(note, tokens, begin, end)
}

/// Adds the name of the token of an index.
pub fn add_name(note: &mut Note, tokens: &[Located], index: usize) -> Option<()> {
    let name = name_at(tokens, index)?;
    note.add(name.as_str());
    Some(())
}

/// Reports whether the token of an index is this punctuator.
pub fn is_mark(tokens: &[Located], index: usize, punctuator: Punctuator) -> bool {
    token_at(tokens, index) == Token::Punctuator(punctuator)
}
