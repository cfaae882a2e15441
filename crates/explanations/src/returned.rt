//! Hints on the last value of a block, which in other languages is what a function gives back.

use crate::heads::is_head;
use crate::hints::Hint;
use crate::indices::{is_called, is_name, name_at, token_at};
use crate::rewriting::Rewrite;
use crate::scenes::Scene;
use derivations::{Item, Located};
use grammar::{Intrinsic, intrinsic_named, store_operator};
use tokens::{Keyword, Punctuator, Token};

/// Returns the hint on a `}` behind a value without `;`, in a function that isn't `main`.
pub fn on_last_values(scene: &Scene<'_>) -> Option<Hint> {
    if !scene.is_mark(Punctuator::CloseCurly) || !scene.fits_mark(Punctuator::Semicolon) {
        return None;
    }
    let begin = scene.pending_at(Item::Exactly(Punctuator::Semicolon))?;
    let head = head_before(scene.tokens, begin)?;
    if is_name(scene.tokens, head, b"main") || !is_value(scene, begin) {
        return None;
    }
    if is_one_call(scene, begin) && !is_asked(scene.tokens, head) {
        return None;
    }
    Some(Hint::Written(
        "a function gives a value back by `return`, and not by its last line",
        Rewrite::Returned(begin, scene.index),
        "return a;",
    ))
}

/// Returns the index of the name in the last head of a function before an index.
fn head_before(tokens: &[Located], index: usize) -> Option<usize> {
    let mut found = None;
    for at in 0..index {
        if name_at(tokens, at).is_some() && is_called(tokens, at) && is_head(tokens, at) {
            found = Some(at);
        }
    }
    found
}

/// Reports whether what stands from an index on up to the token that doesn't fit is a value, and sets nothing.
fn is_value(scene: &Scene<'_>, begin: usize) -> bool {
    let mut is_first = true;
    for index in begin..scene.index {
        let token = scene.token(index);
        let is_step = matches!(
            token,
            Token::Punctuator(Punctuator::PlusPlus | Punctuator::MinusMinus)
        );
        let is_word = matches!(token, Token::Keyword(_));
        let acts = match scene.name(index) {
            Some(name) => {
                matches!(
                    intrinsic_named(&name),
                    Some(Intrinsic::Drive | Intrinsic::Cannon)
                )
            }
            None => false,
        };
        if store_operator(&token).is_some() || is_step || is_word || acts {
            return false;
        }
        is_first = false;
    }
    !is_first
}

/// Reports whether what stands from an index on up to the token that doesn't fit is a call alone.
fn is_one_call(scene: &Scene<'_>, begin: usize) -> bool {
    is_called(scene.tokens, begin)
        && crate::heads::behind_brackets(scene.tokens, begin) == Some(scene.index)
}

/// Reports whether some call of the function whose head has the name of an index uses its value: what stands before it is an
/// operator, a bracket, a `,` or `return`.
fn is_asked(tokens: &[Located], head: usize) -> bool {
    let name = name_at(tokens, head);
    for index in 1..tokens.len() {
        let uses = match token_at(tokens, index.saturating_sub(1)) {
            Token::Punctuator(punctuator) => !matches!(
                punctuator,
                Punctuator::Semicolon
                    | Punctuator::OpenCurly
                    | Punctuator::CloseCurly
                    | Punctuator::CloseRound
            ),
            Token::Keyword(word) => word == Keyword::Return,
            _ => false,
        };
        if uses && index != head && name_at(tokens, index) == name && is_called(tokens, index) {
            return true;
        }
    }
    false
}
