//! Characters that aren't ASCII: which a terminal shows, how wide they are, and names that are written with them.

use crate::told::character_at;

/// Returns the character that begins at a byte of a text, if it isn't ASCII and a terminal shows it.
pub fn shown_at(text: &[u8], at: usize) -> Option<char> {
    match character_at(text, at) {
        Some(character) if is_shown(u32::from(character)) => Some(character),
        _ => None,
    }
}

/// Reports whether a terminal shows the character of a number over 127 alone: no control, no space, none that changes the
/// direction, and none that joins others.
fn is_shown(number: u32) -> bool {
    matches!(
        number,
        0xA1..=0xAC
            | 0xAE..=0x2FF
            | 0x370..=0x5FF
            | 0x900..=0x1FFF
            | 0x2010..=0x2027
            | 0x2030..=0x205E
            | 0x2070..=0x20CF
            | 0x2100..=0x2FFF
            | 0x3001..=0xD7A3
            | 0xF900..=0xFAFF
            | 0xFE30..=0xFE6F
            | 0xFF01..=0xFFEF
            | 0x1F000..=0x1FAFF
            | 0x20000..=0x3FFFD
    )
}

/// Returns how many columns a character takes that is shown: those of East Asia and pictures take two.
pub fn width_of(character: char) -> usize {
    match u32::from(character) {
        0x1100..=0x115F
        | 0x2E80..=0xA4CF
        | 0xAC00..=0xD7A3
        | 0xF900..=0xFAFF
        | 0xFE30..=0xFE6F
        | 0xFF01..=0xFF60
        | 0x1F000..=0x1FAFF
        | 0x20000..=0x3FFFD => 2,
        _ => 1,
    }
}

/// Returns how many bytes a character has in UTF-8.
pub fn size_of(character: char) -> usize {
    match u32::from(character) {
        0..=0x7F => 1,
        0x80..=0x7FF => 2,
        0x800..=0xFFFF => 3,
        _ => 4,
    }
}

/// Returns what is said of a sign of other texts that has another one here.
pub fn meant_by_sign(character: char) -> Option<&'static str> {
    match u32::from(character) {
        0x2010..=0x2015 | 0x2212 => Some("write `-`, and not the dash of a text"),
        0xD7 | 0xB7 | 0x22C5 => Some("a product is written with `*`"),
        0xF7 | 0x2215 => Some("a quotient is written with `/`"),
        0x2264 => Some("write `<=`"),
        0x2265 => Some("write `>=`"),
        0x2260 => Some("write `!=`"),
        0x2227 => Some("write `&&`"),
        0x2228 => Some("write `||`"),
        0xAC => Some("write `!`"),
        0xB0 | 0xBA => Some("a degree is a number alone, without a sign"),
        0xB2 | 0xB3 => Some("a power is written as a product: `a * a`"),
        0x221A => Some("a root is written `sqrt(a)`"),
        0x2190 => Some("an assignment is written with `=` alone"),
        0x2000..=0x200D | 0x202F | 0x205F | 0x2060 | 0x3000 => {
            Some("this is no usual space: type it anew, or delete it")
        }
        _ => None,
    }
}

/// Reports whether a character of a number over 127 may be a letter.
fn is_letter(number: u32) -> bool {
    matches!(
        number,
        0xC0..=0xD6
            | 0xD8..=0xF6
            | 0xF8..=0x2FF
            | 0x370..=0x5FF
            | 0x900..=0x1FFF
            | 0x3041..=0xD7A3
            | 0xF900..=0xFAFF
            | 0x20000..=0x3FFFD
    )
}

/// Returns where the name begins and ends that has a byte which isn't ASCII, if a letter begins at it.
pub fn name_around(source: &[u8], at: usize) -> Option<(usize, usize)> {
    let character = character_at(source, at)?;
    if !is_letter(u32::from(character)) {
        return None;
    }
    let mut begin = at;
    for byte in source.get(..at).unwrap_or(&[]).iter().rev() {
        if !is_of_name(*byte) {
            break;
        }
        begin = begin.saturating_sub(1);
    }
    let mut end = at.saturating_add(size_of(character));
    for byte in source.get(end..).unwrap_or(&[]) {
        if !is_of_name(*byte) {
            break;
        }
        end = end.saturating_add(1);
    }
    Some((begin, end))
}

/// Reports whether a byte is one of a letter, of a digit or `_`.
fn is_of_name(byte: u8) -> bool {
    byte.is_ascii_alphanumeric() || byte == b'_' || byte > 127
}
