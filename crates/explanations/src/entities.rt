//! Hints on marks as web pages write them, and on assignments to the right.

use crate::hints::Hint;
use crate::indices::{is_name, touches};
use crate::operators::TURNED_ROUND;
use crate::rewriting::Rewrite;
use crate::scenes::Scene;
use derivations::Item;
use tokens::{Punctuator, Token};

/// The names of marks on a web page, what is said of each, and the sign that it is.
const ENTITIES: [(&str, &str, &str); 5] = [
    ("gt", "`&gt;` is how a web page writes `>`", ">"),
    ("lt", "`&lt;` is how a web page writes `<`", "<"),
    ("amp", "`&amp;` is how a web page writes `&`", "&"),
    (
        "quot",
        "`&quot;` is how a web page writes a quotation mark: there is no text here",
        "",
    ),
    ("nbsp", "`&nbsp;` is how a web page writes a blank", " "),
];

/// Returns the hint on a `;` that ends the name of a mark on a web page.
pub fn on_entities(scene: &Scene<'_>) -> Option<Hint> {
    let name = scene.index.checked_sub(1)?;
    let mark = name.checked_sub(1)?;
    let is_whole = scene.is_mark(Punctuator::Semicolon)
        && scene.token(mark) == Token::Punctuator(Punctuator::And)
        && scene.touches()
        && touches(scene.tokens, name);
    for (entity, words, sign) in &ENTITIES {
        if is_whole && is_name(scene.tokens, name, entity.as_bytes()) {
            let next = scene.index.saturating_add(1);
            return Some(Hint::Written(words, Rewrite::Joined(mark, next, sign), sign));
        }
    }
    None
}

/// Returns the hint on the `>` of an arrow from a value to the variable that is to have it.
pub fn on_assigning_arrows(scene: &Scene<'_>) -> Option<Hint> {
    let minus = scene.index.checked_sub(1)?;
    let next = scene.index.saturating_add(1);
    let is_arrow = scene.is_mark(Punctuator::Greater)
        && scene.token(minus) == Token::Punctuator(Punctuator::Minus)
        && scene.touches()
        && !touches(scene.tokens, minus);
    let ends = scene.name(next).is_some()
        && scene.token(next.saturating_add(1)) == Token::Punctuator(Punctuator::Semicolon);
    let begin = scene.pending_at(Item::Exactly(Punctuator::Semicolon))?;
    (is_arrow && ends).then_some(Hint::Written(
        TURNED_ROUND,
        Rewrite::Assigned(begin, minus, next),
        "r = scan(a, 10);",
    ))
}
