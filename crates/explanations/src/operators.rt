//! Hints on operators: misspelled ones, and those without a right side.

use crate::arrows::{ARROW, begins_arrow};
use crate::hints::Hint;
use crate::rewriting::Rewrite;
use crate::scenes::Scene;
use derivations::Item;
use grammar::{Intrinsic, intrinsic_named, operator_from, store_operator};
use tokens::{Punctuator, Token};

/// Operators as beginners spell them: two punctuators, of which the second doesn't fit, what is said, and what is meant.
static MISSPELLED: [(Punctuator, Punctuator, &str, &str); 10] = [
    (
        Punctuator::And,
        Punctuator::And,
        "perhaps `&&` is meant",
        "&&",
    ),
    (
        Punctuator::Or,
        Punctuator::Or,
        "perhaps `||` is meant",
        "||",
    ),
    (
        Punctuator::Greater,
        Punctuator::Equals,
        "perhaps `>=` is meant",
        ">=",
    ),
    (
        Punctuator::Less,
        Punctuator::Greater,
        "perhaps `!=` is meant",
        "!=",
    ),
    (
        Punctuator::Equals,
        Punctuator::Less,
        "perhaps `<=` is meant",
        "<=",
    ),
    (
        Punctuator::Equals,
        Punctuator::Greater,
        "perhaps `>=` is meant",
        ">=",
    ),
    (
        Punctuator::Equals,
        Punctuator::Equals,
        "perhaps `==` is meant",
        "==",
    ),
    (
        Punctuator::EqualsEquals,
        Punctuator::Equals,
        "perhaps `==` is meant",
        "==",
    ),
    (
        Punctuator::NotEquals,
        Punctuator::Equals,
        "perhaps `!=` is meant",
        "!=",
    ),
    (
        Punctuator::Equals,
        Punctuator::Plus,
        "perhaps `+=` is meant",
        "+=",
    ),
];

/// The same, of a `=` that doesn't fit and the punctuator behind it.
static TURNED: [(Punctuator, &str, &str); 3] = [
    (Punctuator::Greater, "perhaps `>=` is meant", ">="),
    (Punctuator::Less, "perhaps `<=` is meant", "<="),
    (Punctuator::Not, "perhaps `!=` is meant", "!="),
];

/// Returns the hint on a `!` with a `=` behind it, and something between.
pub fn on_parted_operators(scene: &Scene<'_>) -> Option<Hint> {
    let next = scene.index.saturating_add(1);
    let is_parted = scene.is_mark(Punctuator::Not)
        && scene.token(next) == Token::Punctuator(Punctuator::Equals)
        && scene.kinds.operator;
    is_parted.then_some(Hint::Written(
        "perhaps `!=` is meant",
        Rewrite::Joined(scene.index, next.saturating_add(1), "!="),
        "",
    ))
}

/// Returns the hint on punctuators that are no operators here.
pub fn on_operators(scene: &Scene<'_>) -> Option<Hint> {
    let (before, next) = (scene.index.saturating_sub(1), scene.index.saturating_add(1));
    for (first, second, says, sign) in &MISSPELLED {
        if scene.follows_mark(*first) && scene.is_mark(*second) {
            return Some(Hint::Written(says, Rewrite::Joined(before, next, sign), ""));
        }
    }
    if scene.is_mark(Punctuator::Equals) && begins_arrow(scene) {
        return Some(Hint::Text(ARROW));
    }
    for (second, says, sign) in &TURNED {
        let is_met = scene.is_mark(Punctuator::Equals)
            && scene.token(next) == Token::Punctuator(*second)
            && (*second != Punctuator::Not || scene.kinds.operator);
        if is_met {
            let behind = next.saturating_add(1);
            return Some(Hint::Written(says, Rewrite::Joined(scene.index, behind, sign), ""));
        }
    }
    if scene.is_mark(Punctuator::Star) && scene.touches_mark(Punctuator::Star) {
        return Some(Hint::Written(
            "there is no `**`: multiply, or write a function of the file",
            Rewrite::Squared(scene.index.saturating_sub(1), scene.index.saturating_add(1)),
            "",
        ));
    }
    if store_operator(&scene.met()).is_some() && scene.kinds.operator {
        return Some(on_assigned(scene));
    }
    None
}

/// Returns what is said of an assignment to something else than a name, as to the answer of a question.
fn on_assigned(scene: &Scene<'_>) -> Hint {
    let name = scene.name(scene.index.saturating_sub(3));
    let is_called = scene.follows_mark(Punctuator::CloseRound);
    let words = match name.and_then(|name| intrinsic_named(&name)) {
        Some(Intrinsic::Speed) if is_called => "a speed is set by `drive(degree, speed)`",
        Some(Intrinsic::LocX | Intrinsic::LocY) if is_called => {
            "a robot comes to a place by `drive(degree, speed)`"
        }
        Some(Intrinsic::Damage) if is_called && scene.wants(Punctuator::Semicolon) => {
            "nothing mends damage: `damage()` only tells it"
        }
        _ => return on_turned_assignment(scene),
    };
    Hint::Text(words)
}

/// Returns the hint on a `=` with what is assigned on its left, and the variable on its right; or else on one that may compare.
fn on_turned_assignment(scene: &Scene<'_>) -> Hint {
    let (equals, name) = (scene.index, scene.index.saturating_add(1));
    let ends = scene.token(name.saturating_add(1)) == Token::Punctuator(Punctuator::Semicolon);
    match scene.pending_at(Item::Exactly(Punctuator::Semicolon)) {
        Some(begin) if ends && scene.is_mark(Punctuator::Equals) && scene.name(name).is_some() => {
            Hint::Written(
                TURNED_ROUND,
                Rewrite::Assigned(begin, equals, name),
                "r = scan(a, 10);",
            )
        }
        _ => Hint::Text("only a single name can be assigned to; to compare write `==`"),
    }
}

/// What is said of an assignment to the right.
pub const TURNED_ROUND: &str = "an assignment has its variable on the left";

/// Returns the hint on an operator without a right side.
pub fn on_operands(scene: &Scene<'_>) -> Option<Hint> {
    let before = scene.before()?.token;
    let is_operator = operator_from(&before, 1).is_some() || store_operator(&before).is_some();
    if joins(&before) && compares(&scene.met()) {
        return Some(Hint::Halved(scene.index));
    }
    if is_operator && scene.kinds.expression {
        return Some(Hint::Text("the operator before it lacks its right side"));
    }
    None
}

/// Reports whether a token joins conditions.
fn joins(token: &Token) -> bool {
    matches!(
        token,
        Token::Punctuator(Punctuator::AndAnd | Punctuator::OrOr)
    )
}

/// Reports whether a token compares.
pub fn compares(token: &Token) -> bool {
    matches!(
        token,
        Token::Punctuator(
            Punctuator::Less
                | Punctuator::Greater
                | Punctuator::LessEquals
                | Punctuator::GreaterEquals
                | Punctuator::EqualsEquals
                | Punctuator::NotEquals
        )
    )
}
