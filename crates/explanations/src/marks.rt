//! Hints on characters that begin no token.

use crate::explaining::Found;
use crate::indices::before;
use crate::letters::meant_by_sign;
use crate::scenes::Scene;
use crate::told::character_at;
use grammar::intrinsic_named;
use tokens::{Keyword, Punctuator, Token};

/// Returns the hint on a byte that begins no token, by those around it.
pub fn on_character(found: &Found<'_>, scene: &Scene<'_>) -> Option<&'static str> {
    let (source, met) = (found.source, &found.met);
    match source.get(met.start()).copied().unwrap_or(0) {
        b'`' if source.get(met.start()..).unwrap_or(&[]).starts_with(b"```") => Some(
            "three backquotes are the marks of a chat around code, and no part of it: leave the line out",
        ),
        b'"' | b'\'' if scene.kinds.statement || scene.is_outside() => Some(
            "there is no text and no string: a comment stands between `/*` and `*/`",
        ),
        b'"' | b'\'' | b'`' => Some(
            "there is no text and there are no characters: all values are whole numbers",
        ),
        b'[' if follows_test(found) => Some(
            "the condition of an `if` or a `while` stands in brackets: write `(` and `)`",
        ),
        b'[' if follows_intrinsic(scene) => Some(
            "the arguments of a call stand in brackets: write `(` and `)`",
        ),
        b'[' | b']' => Some("there are no arrays and no lists: use several variables"),
        b'?' => Some("there is no `?:`: write `if (..) a = ..; else a = ..;`"),
        b':' if ends_label(scene) => Some(
            "there are no labels: what is repeated for ever stands in `while (1) { .. }`",
        ),
        b':' if scene.fits_mark(Punctuator::Semicolon) && !scene.kinds.statement => {
            Some("a statement ends with `;`, and not with `:`")
        }
        b':' => Some("no `:` stands behind a condition or a head: a block stands in `{` and `}`"),
        b'.' if touches_number(found) => {
            Some("there are no fractions: all values are whole numbers")
        }
        b'.' => Some("there are no structures and no methods: a name stands alone"),
        b'\\' => Some(on_backslash(source, met.start())),
        0 | 128.. => Some(on_foreign_byte(source, met.start())),
        b'$' => Some("a name has letters, digits and `_` alone: leave the `$` out"),
        _ => Some("this sign says nothing here: leave it out"),
    }
}

/// Returns the hint on a `\`: at the end of a line, or as a sign of division.
fn on_backslash(source: &[u8], at: usize) -> &'static str {
    match source.get(at.saturating_add(1)) {
        None | Some(b'\n' | b'\r') => "a line needs no sign to go on in the next one",
        Some(_) => "a quotient is written `/`, and is a whole number",
    }
}

/// Reports whether the name of an intrinsic function is right before the token that doesn't fit.
fn follows_intrinsic(scene: &Scene<'_>) -> bool {
    match scene.name(scene.index.saturating_sub(1)) {
        Some(name) => intrinsic_named(&name).is_some(),
        None => false,
    }
}

/// Returns the hint on a byte that is no letter of ASCII.
fn on_foreign_byte(source: &[u8], at: usize) -> &'static str {
    let is_wide = matches!(source, [255, 254, ..] | [254, 255, ..]) || source.get(at) == Some(&0);
    if is_wide {
        return "the file seems to be UTF-16: save it as UTF-8, without a byte order mark";
    }
    match character_at(source, at) {
        Some('\u{feff}') => "the file begins with a byte order mark: save it as UTF-8 without one",
        Some('\u{a0}') => "this is no usual space, but one that doesn't break: type it anew",
        Some(character) => meant_by_sign(character).unwrap_or(COPIED),
        None => COPIED,
    }
}

/// What is said of a character that probably was copied.
const COPIED: &str =
    "outside comments only ASCII is read: retype what was copied from a text, as curly quotes or a long dash";

/// Reports whether `if` or `while` is right before a fault's token.
fn follows_test(found: &Found<'_>) -> bool {
    match before(found.tokens, found.index) {
        Some(before) => matches!(before.token, Token::Keyword(Keyword::If | Keyword::While)),
        None => false,
    }
}

/// Reports whether a name that begins a statement is right before the token that doesn't fit.
fn ends_label(scene: &Scene<'_>) -> bool {
    let before = scene.index.saturating_sub(1);
    scene.name(before).is_some() && scene.chosen_at() == before
}

/// Reports whether a number is right before the first byte of a fault's token, or a digit right behind it.
fn touches_number(found: &Found<'_>) -> bool {
    let is_behind = match before(found.tokens, found.index) {
        Some(before) => {
            before.end() == found.met.start() && matches!(before.token, Token::Constant(_))
        }
        None => false,
    };
    let is_before = match found.source.get(found.met.start().saturating_add(1)) {
        Some(after) => after.is_ascii_digit(),
        None => false,
    };
    is_behind || is_before
}
