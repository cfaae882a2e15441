//! Tokens by their indices.
//!
//! What many ask isn't inlined: the page's module would have a copy for each of them.

use derivations::Located;
use tokens::{Name, Punctuator, Token};

/// Returns the token of an index: after the last one, the end.
#[inline(never)]
pub fn token_at(tokens: &[Located], index: usize) -> Token {
    match tokens.get(index) {
        Some(located) => located.token,
        None => Token::End,
    }
}

/// Returns the name of the token of an index, if it is one.
#[inline(never)]
pub fn name_at(tokens: &[Located], index: usize) -> Option<Name> {
    match token_at(tokens, index) {
        Token::Name(name) => Some(name),
        _ => None,
    }
}

/// Reports whether the token of an index is this name.
pub fn is_name(tokens: &[Located], index: usize, name: &[u8]) -> bool {
    match name_at(tokens, index) {
        Some(other) => other.has_bytes(name),
        None => false,
    }
}

/// Reports whether a `(` is right behind the token of an index.
pub fn is_called(tokens: &[Located], index: usize) -> bool {
    token_at(tokens, index.saturating_add(1)) == Token::Punctuator(Punctuator::OpenRound)
}

/// Returns the token before the one of an index, with its position.
pub fn before(tokens: &[Located], index: usize) -> Option<&Located> {
    tokens.get(index.checked_sub(1)?)
}

/// Reports whether the token before the one of an index is this one.
#[inline(never)]
pub fn follows(tokens: &[Located], index: usize, token: &Token) -> bool {
    match before(tokens, index) {
        Some(before) => before.token == *token,
        None => false,
    }
}

/// Reports whether nothing is between the token of an index and the one before it.
pub fn touches(tokens: &[Located], index: usize) -> bool {
    match (before(tokens, index), tokens.get(index)) {
        (Some(before), Some(here)) => before.end() == here.start(),
        _ => false,
    }
}
