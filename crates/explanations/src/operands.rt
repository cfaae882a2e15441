//! Hints on values: where one lacks, and what isn't one in this language.

use crate::declaring::is_in_list;
use crate::hints::Hint;
use crate::scenes::Scene;
use tokens::{Keyword, Punctuator, Token};

/// What is said of a cast.
const CAST: &str =
    "there are no casts, as all values are whole numbers: leave the type and its brackets out";

/// Returns the hint on pointers, addresses and types of values.
pub fn on_values(scene: &Scene<'_>) -> Option<Hint> {
    let follows_type = scene.follows(&Token::Keyword(Keyword::Type));
    if scene.is_mark(Punctuator::Star) && (follows_type || scene.kinds.expression) {
        return Some(Hint::Text("there are no pointers: a name stands alone"));
    }
    if scene.is_mark(Punctuator::Greater) && scene.touches_mark(Punctuator::Minus) {
        return Some(Hint::Text("there are no structures and no pointers: a name stands alone"));
    }
    if scene.is_mark(Punctuator::Equals) && scene.is_outside() && is_in_list(scene) {
        return Some(Hint::Head(
            "a parameter has no default value: each call gives it one",
            scene.head()?,
        ));
    }
    if scene.is_mark(Punctuator::And) && scene.kinds.expression {
        return Some(Hint::Text(
            "there are no addresses: a function gives its answer back by `return`",
        ));
    }
    if scene.is_word(Keyword::Type)
        && scene.follows_mark(Punctuator::OpenRound)
        && !scene.is_outside()
    {
        return Some(Hint::Text(CAST));
    }
    None
}

/// What is said of a `,` without an argument on one of its sides.
const LONE_COMMA: &str = "an argument is missing beside this `,`, or the `,` is one too many";

/// What stands where a value lacks: a punctuator, the one that is met behind it, and what is said.
static LACKING: [(Punctuator, Punctuator, &str); 4] = [
    (
        Punctuator::OpenRound,
        Punctuator::CloseRound,
        "a condition stands in these brackets: that of `while (1)` is always true",
    ),
    (Punctuator::OpenRound, Punctuator::Comma, LONE_COMMA),
    (Punctuator::Comma, Punctuator::Comma, LONE_COMMA),
    (Punctuator::Comma, Punctuator::CloseRound, LONE_COMMA),
];

/// Punctuators that begin a value in another language, and what is said of each.
static BEGINNING: [(Punctuator, &str); 3] = [
    (
        Punctuator::Plus,
        "a value has no `+` before it: leave it out",
    ),
    (
        Punctuator::Or,
        "there is no `|a|` for an absolute value: write a function of the file that answers it",
    ),
    (
        Punctuator::OpenCurly,
        "there are no arrays and no lists: use several variables",
    ),
];

/// Returns the hint on what stands where a value lacks, or begins one in another language.
pub fn on_lacking_values(scene: &Scene<'_>) -> Option<Hint> {
    if !scene.kinds.expression {
        return None;
    }
    if scene.is_word(Keyword::If) || scene.is_word(Keyword::While) {
        return Some(Hint::Text(
            "an `if` is a statement and has no value: write `if (..) a = 1; else a = 2;`",
        ));
    }
    for (before, met, says) in &LACKING {
        if scene.follows_mark(*before) && scene.is_mark(*met) {
            return Some(Hint::Text(*says));
        }
    }
    for (met, says) in &BEGINNING {
        if scene.is_mark(*met) {
            return Some(Hint::Text(*says));
        }
    }
    scene.is_word(Keyword::Type).then_some(Hint::Text(CAST))
}
