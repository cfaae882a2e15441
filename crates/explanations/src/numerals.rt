//! Hints on numbers: marks and letters that don't belong to one.

use crate::hints::Hint;
use crate::indices::touches;
use crate::scenes::Scene;
use crate::told::spelling_of;
use tokens::{MOST_CONSTANT_VALUE, Punctuator, Token};

/// The most groups of a constant with a `,` between thousands: it has ten digits at most.
const MOST_GROUPS: usize = 4;

/// The digits of each such group but the first.
const DIGITS_OF_A_GROUP: usize = 3;

/// Returns the hint on a number with a `%` behind it, or with a `,` in it.
pub fn on_marked_numbers(scene: &Scene<'_>) -> Option<Hint> {
    let number = scene.index.checked_sub(1)?;
    let ends_argument = scene.is_mark(Punctuator::CloseRound) || scene.is_mark(Punctuator::Comma);
    let is_percent = scene.follows_mark(Punctuator::Percent)
        && (touches(scene.tokens, number) || ends_argument)
        && matches!(scene.token(number.saturating_sub(1)), Token::Constant(_));
    if is_percent && scene.kinds.expression {
        return Some(Hint::Text(
            "`%` is the remainder of a division, and no percent sign: a speed and a damage are in percent as they are, so leave it out",
        ));
    }
    if matches!(scene.token(number), Token::Constant(_)) && parts_thousands(scene, scene.index) {
        return Some(Hint::Thousands(in_thousands(scene, number)));
    }
    None
}

/// Returns the value of a number with a `,` before each three digits, of which the first are the token of an index; none if
/// it is no such number, or too large.
fn in_thousands(scene: &Scene<'_>, first: usize) -> Option<u32> {
    let mut value: u32 = 0;
    let mut at = first;
    for _ in 0..MOST_GROUPS {
        let Token::Constant(group) = scene.token(at) else {
            return None;
        };
        let digits = spelling_of(scene.source, scene.tokens.get(at)?).len();
        if at > first && digits != DIGITS_OF_A_GROUP {
            return None;
        }
        value = value.checked_mul(1000)?.checked_add(group)?;
        let comma = at.saturating_add(1);
        at = at.saturating_add(2);
        if !parts_thousands(scene, comma) {
            return (value <= MOST_CONSTANT_VALUE).then_some(value);
        }
    }
    None
}

/// Reports whether the token of an index is a `,` with a number on each side and no blank between.
fn parts_thousands(scene: &Scene<'_>, comma: usize) -> bool {
    let next = comma.saturating_add(1);
    scene.token(comma) == Token::Punctuator(Punctuator::Comma)
        && touches(scene.tokens, comma)
        && touches(scene.tokens, next)
        && matches!(scene.token(next), Token::Constant(_))
}

/// Returns the hint on letters that follow a number.
pub fn on_numbers(scene: &Scene<'_>) -> Option<Hint> {
    let name = scene.name(scene.index)?;
    let before = scene.before()?;
    if !matches!(before.token, Token::Constant(_)) || !scene.touches() {
        return None;
    }
    let digits = spelling_of(scene.source, before);
    match name.as_bytes() {
        [b'x' | b'X', digits_after @ ..] if digits == "0" => {
            Some(Hint::Hexadecimal(hexadecimal(digits_after)))
        }
        [b'e' | b'E', ..] => Some(Hint::Text("numbers are whole, and written in digits alone")),
        [b'l' | b'L' | b'u' | b'U'] => Some(Hint::Text("a number has no letter behind it")),
        [b'_', b'0'..=b'9', ..] => Some(Hint::Text("a number has digits alone: leave the `_` out")),
        unit if has_unit(unit) => Some(Hint::Text(
            "a number has no unit behind it: a direction is in degrees, a distance in metres, a speed in percent as it is",
        )),
        _ => Some(Hint::Text(
            "a name begins with a letter or `_`, not with a digit; a product is written with `*`: `2 * a`",
        )),
    }
}

/// Units, as they stand behind a number.
static UNITS: [&[u8]; 14] = [
    b"m", b"metres", b"meters", b"metre", b"meter", b"km", b"cm", b"deg", b"degrees", b"degree",
    b"s", b"sec", b"percent", b"rad",
];

/// Reports whether a name is a unit.
fn has_unit(name: &[u8]) -> bool {
    for unit in &UNITS {
        if *unit == name {
            return true;
        }
    }
    false
}

/// Returns the value of hexadecimal digits, if they are some and it is a constant's.
fn hexadecimal(digits: &[u8]) -> Option<u32> {
    let mut value: Option<u32> = None;
    for byte in digits {
        let digit = char::from(*byte).to_digit(16)?;
        let sum = value.unwrap_or(0).saturating_mul(16).saturating_add(digit);
        if sum > MOST_CONSTANT_VALUE {
            return None;
        }
        value = Some(sum);
    }
    value
}
