//! Hints on conditions, and on the branches behind them.

use crate::heads::behind_brackets;
use crate::hints::{Hint, by_layout};
use crate::indices::{is_called, token_at};
use crate::pieces::operand_end;
use crate::rewriting::Rewrite;
use crate::scenes::Scene;
use crate::told::spelling_of;
use derivations::Located;
use grammar::{operator_from, store_operator};
use tokens::{Keyword, Punctuator, Token};

/// The most operands of a condition that is quoted.
const MOST_OPERANDS: usize = 12;

/// Returns the hint on a `do` behind a condition.
pub fn on_ended_conditions(scene: &Scene<'_>) -> Option<Hint> {
    let met = scene.tokens.get(scene.index)?;
    let is_do = spelling_of(scene.source, met) == "do";
    (is_do && scene.follows_mark(Punctuator::CloseRound)).then_some(Hint::Text(
        "no `do` stands behind a condition",
    ))
}

/// Returns the hint on conditions and branches.
pub fn on_conditions(scene: &Scene<'_>) -> Option<Hint> {
    let follows_word = scene.follows(&Token::Keyword(Keyword::If))
        || scene.follows(&Token::Keyword(Keyword::While));
    if follows_word {
        return Some(Hint::Written(
            "the condition of an `if` or a `while` stands in brackets",
            Rewrite::Surrounded(scene.index.saturating_sub(1)),
            "if (a > 1)",
        ));
    }
    let is_tested = scene.token(scene.chosen_at().saturating_sub(1))
        == Token::Keyword(Keyword::Else);
    if is_tested && scene.wants(Punctuator::Semicolon) && begins_brackets(scene) {
        return Some(Hint::Written(
            "an `else` has no condition",
            Rewrite::Otherwise(scene.chosen_at(), scene.index),
            "else if (..)",
        ));
    }
    if scene.is_word(Keyword::Else) && ends_block(scene) {
        return Some(Hint::Text("no `;` stands between a `}` and its `else`"));
    }
    if scene.is_word(Keyword::Else) && scene.kinds.statement {
        let words =
            "an `else` follows the one statement of its `if`: put several into braces, and no `;` behind the condition";
        return Some(by_layout(scene.so_far(), true, "", Hint::Text(words)));
    }
    None
}

/// Returns the hint on an operator right behind the brackets of a condition.
pub fn on_split_conditions(scene: &Scene<'_>) -> Option<Hint> {
    let is_operator = operator_from(&scene.met(), 1).is_some() && !scene.is_mark(Punctuator::Star);
    if !is_operator || !scene.follows_mark(Punctuator::CloseRound) {
        return None;
    }
    for (index, located) in scene.so_far().iter().enumerate() {
        if matches!(located.token, Token::Keyword(Keyword::If | Keyword::While))
            && behind_brackets(scene.tokens, index) == Some(scene.index)
        {
            return Some(Hint::Written(
                "the brackets stand around the whole condition",
                Rewrite::Surrounded(index),
                "if (a > 1 && b > 1)",
            ));
        }
    }
    None
}

/// Returns where the condition ends that begins at an index, with or without brackets: at what surely is no part of it.
pub fn condition_end(tokens: &[Located], begin: usize) -> Option<usize> {
    let mut end = operand_end(tokens, begin)?;
    for _ in 0..MOST_OPERANDS {
        if operator_from(&token_at(tokens, end), 1).is_none() {
            return ends_condition(tokens, end).then_some(end);
        }
        end = operand_end(tokens, end.saturating_add(1))?;
    }
    None
}

/// Reports whether the token of an index ends a condition: of names one that is called or set, and a word of other languages.
fn ends_condition(tokens: &[Located], end: usize) -> bool {
    let is_set = store_operator(&token_at(tokens, end.saturating_add(1))).is_some();
    match token_at(tokens, end) {
        Token::Name(name) => { is_set || is_called(tokens, end) || name.has_bytes(b"then") }
        Token::Punctuator(punctuator) => punctuator == Punctuator::OpenCurly,
        Token::Keyword(_) | Token::Fault(_) => true,
        Token::Constant(_) | Token::End => false,
    }
}

/// Reports whether the statement begins with brackets, and something stands behind them.
fn begins_brackets(scene: &Scene<'_>) -> bool {
    let open = scene.chosen_at();
    behind_brackets(scene.tokens, open.saturating_sub(1)) == Some(scene.index)
}

/// Reports whether a `}` and a `;` are right before the token that doesn't fit.
fn ends_block(scene: &Scene<'_>) -> bool {
    let before = scene.token(scene.index.saturating_sub(2));
    scene.follows_mark(Punctuator::Semicolon) && before == Token::Punctuator(Punctuator::CloseCurly)
}
