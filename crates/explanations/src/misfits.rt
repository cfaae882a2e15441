//! Hints on tokens that don't fit: which of all applies first, and those on comments, names and calls.

use crate::closings::{on_brackets, on_commas, on_ends, on_joined_conditions};
use crate::conditions::{on_conditions, on_split_conditions};
use crate::declaring::{on_declarations, on_declared_names, on_own_types};
use crate::entities::{on_assigning_arrows, on_entities};
use crate::functions::{on_heads, on_inner_functions, on_outer_calls, on_the_outside};
use crate::heads::line_from;
use crate::hints::Hint;
use crate::lookalikes::{is_in_capitals, meant_by};
use crate::numerals::{on_marked_numbers, on_numbers};
use crate::operands::{on_lacking_values, on_values};
use crate::operators::{on_operands, on_operators, on_parted_operators};
use crate::pieces::operand_end;
use crate::rewriting::Rewrite;
use crate::scenes::Scene;
use crate::told::spelling_of;
use grammar::intrinsic_named;
use tokens::{Punctuator, Token};

/// Returns the hint on a token that doesn't fit, if there is one: the first of these that apply.
pub fn hint_on(scene: &Scene<'_>) -> Option<Hint> {
    on_comments(scene)
        .or(on_entities(scene))
        .or(on_assigning_arrows(scene))
        .or(on_marked_numbers(scene))
        .or(on_numbers(scene))
        .or(on_inner_functions(scene))
        .or(on_outer_calls(scene))
        .or(on_declarations(scene))
        .or(on_declared_names(scene))
        .or(on_operators(scene))
        .or(on_parted_operators(scene))
        .or(on_split_conditions(scene))
        .or(on_values(scene))
        .or(on_names(scene))
        .or(on_calls(scene))
        .or(on_own_types(scene))
        .or(on_words_in_braces(scene))
        .or(on_heads(scene))
        .or(on_the_outside(scene))
        .or(on_conditions(scene))
        .or(on_commas(scene))
        .or(on_lacking_values(scene))
        .or(on_operands(scene))
        .or(on_joined_conditions(scene))
        .or(on_brackets(scene))
        .or(on_ends(scene))
}

/// Returns the hint on `//`, and on `*/` without a `/*`.
fn on_comments(scene: &Scene<'_>) -> Option<Hint> {
    let is_next_slash = scene.token(scene.index.saturating_add(1))
        == Token::Punctuator(Punctuator::Slash);
    if scene.is_mark(Punctuator::Star) && is_next_slash {
        return Some(Hint::Text("this `*/` closes no comment: comments don't nest"));
    }
    if scene.is_mark(Punctuator::Slash)
        && scene.token(scene.index.saturating_add(1)) == Token::Punctuator(Punctuator::Star)
    {
        return Some(Hint::Text("a comment begins with `/*`, and ends with `*/`, without a blank"));
    }
    if scene.is_mark(Punctuator::Slash) && divides(scene) {
        return Some(Hint::Written(
            "there is no `//`: a quotient is written `/`, and is a whole number",
            Rewrite::Joined(
                scene.index.saturating_sub(1),
                scene.index.saturating_add(1),
                "/",
            ),
            "a / 2",
        ));
    }
    let is_next_to_slash = is_next_slash || scene.touches_mark(Punctuator::Slash);
    if scene.is_mark(Punctuator::Slash) && is_next_to_slash {
        return Some(Hint::Text("`//` begins no comment here: write `/* .. */` around it"));
    }
    None
}

/// Reports whether a `//` divides: a value is behind it, and its statement ends in its line.
fn divides(scene: &Scene<'_>) -> bool {
    let next = scene.index.saturating_add(1);
    let ends = match line_from(scene.tokens, scene.index).last() {
        Some(last) => matches!(
            last.token,
            Token::Punctuator(
                Punctuator::Semicolon | Punctuator::OpenCurly | Punctuator::CloseRound
            )
        ),
        None => false,
    };
    let is_number = matches!(scene.token(next), Token::Constant(_));
    let is_operand = operand_end(scene.tokens, next).is_some()
        && !matches!(scene.token(next.saturating_add(1)), Token::Name(_));
    scene.touches_mark(Punctuator::Slash) && (is_number || is_operand && ends)
}

/// Returns the hint on a `:` behind the head of a function.
pub fn on_headed_colons(scene: &Scene<'_>) -> Option<Hint> {
    let met = scene.tokens.get(scene.index)?;
    let is_colon = spelling_of(scene.source, met) == ":";
    if !is_colon || !scene.is_outside() || !scene.fits_mark(Punctuator::OpenCurly) {
        return None;
    }
    Some(Hint::Head("no `:` stands behind the head of a function", scene.head()?))
}

/// Returns the hint on names alone between `{` and `}` in a line: a comment of Pascal.
fn on_words_in_braces(scene: &Scene<'_>) -> Option<Hint> {
    let first = scene.index.checked_sub(1)?;
    let (_, _) = (scene.name(first)?, scene.name(scene.index)?);
    let is_begun = scene.token(first.checked_sub(1)?) == Token::Punctuator(Punctuator::OpenCurly);
    if !is_begun {
        return None;
    }
    for located in line_from(scene.tokens, scene.index) {
        match located.token {
            Token::Name(_) => {}
            Token::Punctuator(Punctuator::CloseCurly) => {
                return Some(Hint::Text("a comment stands between `/*` and `*/`: `/* go east */`"));
            }
            _ => return None,
        }
    }
    None
}

/// Returns the hint on a name that is written for a word: the one before, the one met, or that of the statement. A name
/// that occurs several times is no misspelled word.
fn on_names(scene: &Scene<'_>) -> Option<Hint> {
    let names = [
        scene.index.saturating_sub(1),
        scene.index,
        scene.chosen_at(),
    ];
    for index in names {
        if let Some(name) = scene.name(index) {
            match meant_by(name.as_bytes()) {
                Some(word) if scene.is_lone(&name) || is_in_capitals(scene.tokens, index) => {
                    return Some(Hint::Meant(word));
                }
                _ => {}
            }
        }
    }
    None
}

/// Returns the hint on an intrinsic function that is called without brackets.
fn on_calls(scene: &Scene<'_>) -> Option<Hint> {
    let name = scene.name(scene.index.checked_sub(1)?)?;
    let is_argument = begins_value(&scene.met()) || scene.is_mark(Punctuator::OpenCurly);
    if is_argument && intrinsic_named(&name).is_some() {
        return Some(Hint::Written(
            "the arguments of a call stand in brackets",
            Rewrite::Called(scene.index.saturating_sub(1)),
            "",
        ));
    }
    None
}

/// Reports whether a token is a name or a number.
pub fn begins_value(token: &Token) -> bool {
    matches!(token, Token::Name(_) | Token::Constant(_))
}
