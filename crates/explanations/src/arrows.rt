//! Hints on arrows, which make functions in other languages.

use crate::heads::behind_brackets;
use crate::hints::Hint;
use crate::scenes::Scene;
use tokens::{Punctuator, Token};

/// What is said of an arrow that makes a function.
pub const ARROW: &str =
    "`=>` makes no function: one stands outside of the others, as `turn(degree) { .. }`";

/// Returns the hint on a function that is given to a variable by an arrow, in the line of the token that doesn't fit.
pub fn on_arrows(scene: &Scene<'_>) -> Option<Hint> {
    let line = scene.line(scene.index);
    for (index, located) in scene.tokens.iter().enumerate() {
        let equals = index.saturating_add(1);
        if located.line == line
            && scene.name(index).is_some()
            && scene.token(equals) == Token::Punctuator(Punctuator::Equals)
            && let Some(behind) = behind_brackets(scene.tokens, equals)
            && is_arrow(scene, behind)
        {
            return Some(Hint::Arrow(index));
        }
    }
    None
}

/// Reports whether a `=>` begins with the token of an index.
fn is_arrow(scene: &Scene<'_>, index: usize) -> bool {
    scene.token(index) == Token::Punctuator(Punctuator::Equals)
        && scene.token(index.saturating_add(1)) == Token::Punctuator(Punctuator::Greater)
}

/// Reports whether the arrow of a function begins at the token that doesn't fit.
pub fn begins_arrow(scene: &Scene<'_>) -> bool {
    let next = scene.index.saturating_add(1);
    scene.token(next) == Token::Punctuator(Punctuator::Greater)
        && scene.token(next.saturating_add(1)) == Token::Punctuator(Punctuator::OpenCurly)
}
