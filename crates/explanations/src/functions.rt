//! Hints on functions: one that begins inside another one, their heads, and what is outside of them.

use crate::foreign::is_foreign;
use crate::heads::{block_end_before, is_call, is_head, line_from};
use crate::hints::{Hint, by_layout};
use crate::indices::is_called;
use crate::lookalikes::{is_in_capitals, meant_by};
use crate::scenes::Scene;
use derivations::{Item, Located, Symbol};
use grammar::store_operator;
use tokens::{Keyword, Punctuator, Token};

/// Returns the hint on a function that begins while a block is still open.
pub fn on_inner_functions(scene: &Scene<'_>) -> Option<Hint> {
    let begin = scene.pending_at(Item::Exactly(Punctuator::Semicolon))?;
    if scene.is_outside() || is_misspelled(scene, begin) || !is_head(scene.tokens, begin) {
        return None;
    }
    let words = "a function can't begin inside another one: ";
    let open = scene.pending_at(Item::Exactly(Punctuator::CloseCurly))?;
    let unclosed = Hint::Unclosed(words, scene.line(open));
    Some(by_layout(scene.so_far(), true, words, unclosed))
}

/// Reports whether the token of an index is a name that is written for a word, and is nowhere else.
fn is_misspelled(scene: &Scene<'_>, index: usize) -> bool {
    match scene.name(index) {
        Some(name) => {
            let is_meant = meant_by(name.as_bytes()).is_some() || is_foreign(&name);
            scene.is_lone(&name) && is_meant || is_in_capitals(scene.tokens, index)
        }
        None => false,
    }
}

/// Returns the hint on a call after the last function.
pub fn on_outer_calls(scene: &Scene<'_>) -> Option<Hint> {
    let name = scene.pending_at(Item::Part(Symbol::FunctionBlock))?;
    let lacks_block = scene.is_behind_head() && !scene.is_mark(Punctuator::Semicolon);
    if lacks_block || !is_call(scene.tokens, name) {
        return None;
    }
    on_stray_call(scene.tokens, name)
}

/// Returns the hint on a call outside of functions, by the index of its name, if a function is above it.
pub fn on_stray_call(tokens: &[Located], name: usize) -> Option<Hint> {
    on_early_end(tokens, name, "a call stands inside of a function: ")
}

/// Returns the hint on what stands behind the end of a function, which may be too early, if one is above an index.
fn on_early_end(tokens: &[Located], index: usize, words: &'static str) -> Option<Hint> {
    let line = block_end_before(tokens, index)?;
    let ended = Hint::Ended(words, line);
    let so_far = tokens.get(..index).unwrap_or(tokens);
    Some(by_layout(so_far, false, words, ended))
}

/// Returns the hint on the heads of functions.
pub fn on_heads(scene: &Scene<'_>) -> Option<Hint> {
    if scene.is_mark(Punctuator::OpenCurly)
        && scene.is_outside()
        && scene.wants(Punctuator::OpenRound)
    {
        return Some(Hint::Text("a function has brackets behind its name: `main() {`"));
    }
    if scene.is_mark(Punctuator::Semicolon) && scene.is_behind_head() {
        return Some(Hint::Text(
            "no `;` stands behind the head of a function; one that is defined further down needs no declaration, no prototype: leave out the line",
        ));
    }
    let is_named = scene.is_outside()
        && scene.wants(Punctuator::OpenRound)
        && scene.name(scene.index).is_some()
        && !is_called(scene.tokens, scene.index);
    match line_from(scene.tokens, scene.index).last() {
        Some(last) if is_named && last.token == Token::Punctuator(Punctuator::OpenCurly) => Some(
            Hint::Text("a function has brackets behind its name: `main() {`"),
        ),
        _ => None,
    }
}

/// Returns the hint on a sign or a word between the head of a function and its block, in one line.
pub fn on_head_ends(scene: &Scene<'_>) -> Option<Hint> {
    let next = scene.token(scene.index.saturating_add(1));
    let is_word = scene.is_word(Keyword::Refused)
        || match scene.name(scene.index) {
            Some(name) => !name.has_bytes(b"begin"),
            None => false,
        };
    let goes_on = next == Token::Punctuator(Punctuator::OpenRound)
        || store_operator(&next).is_some()
        || scene.before()?.line != scene.line(scene.index);
    let is_between = is_sign(&scene.met()) || is_word && !goes_on;
    (scene.is_behind_head() && is_between).then_some(Hint::Head(
        "nothing stands between the head of a function and its `{`",
        scene.head()?,
    ))
}

/// Reports whether a token is the sign by which another language gives a function its block or its type.
fn is_sign(token: &Token) -> bool {
    matches!(
        token,
        Token::Punctuator(Punctuator::Equals | Punctuator::Minus | Punctuator::Greater)
    )
}

/// Returns the hint on what is outside functions.
pub fn on_the_outside(scene: &Scene<'_>) -> Option<Hint> {
    if !scene.is_outside() {
        return None;
    }
    if scene.is_mark(Punctuator::CloseCurly) {
        return Some(on_last_brace(scene));
    }
    if scene.is_mark(Punctuator::Semicolon) && scene.follows_mark(Punctuator::CloseCurly) {
        return Some(Hint::Text("no `;` stands behind the `}` of a function"));
    }
    if scene.wants(Punctuator::OpenRound) || scene.fits(&Token::End) {
        return Some(on_outside(scene));
    }
    None
}

/// Returns the hint on a `}` outside of functions.
fn on_last_brace(scene: &Scene<'_>) -> Hint {
    let words = "this `}` closes nothing: ";
    let ended = match block_end_before(scene.tokens, scene.index) {
        Some(line) => Hint::Closed(line, scene.line(scene.index)),
        None => Hint::Text("this `}` closes nothing: no `{` is above it"),
    };
    by_layout(scene.so_far(), false, words, ended)
}

/// Returns the hint on what stands outside functions, and is none.
fn on_outside(scene: &Scene<'_>) -> Hint {
    let words = "outside functions stand declarations and functions alone: ";
    on_early_end(scene.tokens, scene.index, words).unwrap_or(Hint::Text(
        "outside functions stand declarations and functions alone: what is done stands in `main() { .. }`",
    ))
}
