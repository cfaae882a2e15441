//! Where a token of a list is, by the place of its bytes or by its position.

use derivations::Located;

/// Returns the index of the first token that begins at an offset or behind it.
pub fn token_from(tokens: &[Located], offset: usize) -> usize {
    for (index, located) in tokens.iter().enumerate() {
        if located.start() >= offset {
            return index;
        }
    }
    tokens.len()
}

/// Returns the index of the token at the position that a note begins with, which is that of an index or behind it: 1 and
/// further where there is none.
pub fn token_of_note(tokens: &[Located], from: usize, note: &str) -> usize {
    let mut parts = note.split(':');
    let line = number_of(parts.next().unwrap_or(""));
    let column = number_of(parts.next().unwrap_or(""));
    for (index, located) in tokens.iter().enumerate().skip(from) {
        if located.line == line && located.column == column {
            return index;
        }
    }
    from
}

/// Returns the number of decimal digits, of which those are read that come first.
fn number_of(digits: &str) -> u32 {
    let mut number: u32 = 0;
    for character in digits.chars() {
        match character.to_digit(10) {
            Some(digit) => number = number.saturating_mul(10).saturating_add(digit),
            None => return number,
        }
    }
    number
}
