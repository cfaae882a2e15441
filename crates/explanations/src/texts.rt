//! Tables as texts: a row in each line, with words before a tabulator, and what is said of them behind it.

use crate::spelling::has_letters;
use std::str;

/// The most rows of a text, and the most words of a row: more than each has.
pub const MOST_PARTS: usize = 100;

/// Returns what a text has before the first byte that is a mark, and what behind it: all and nothing, if it has none.
#[inline(never)]
pub fn parted(text: &'static [u8], mark: u8) -> (&'static [u8], &'static [u8]) {
    for (at, byte) in text.iter().enumerate() {
        if *byte == mark {
            let behind = text.get(at.saturating_add(1)..).unwrap_or(&[]);
            return (text.get(..at).unwrap_or(text), behind);
        }
    }
    (text, &[])
}

/// Returns what a table says of a name that one of its rows has, in small letters and without `_`.
#[inline(never)]
pub fn said_of(table: &'static str, name: &[u8]) -> Option<&'static str> {
    let mut text = table.as_bytes();
    for _ in 0..MOST_PARTS {
        let (row, rest) = parted(text, b'\n');
        let (words, says) = parted(row, b'\t');
        if has_word(words, name) {
            return str::from_utf8(says).ok();
        }
        text = rest;
    }
    None
}

/// Reports whether some words have a name.
fn has_word(words: &'static [u8], name: &[u8]) -> bool {
    let mut text = words;
    for _ in 0..MOST_PARTS {
        let (word, rest) = parted(text, b' ');
        if word.is_empty() {
            return false;
        }
        if has_letters(name, word) {
            return true;
        }
        text = rest;
    }
    false
}
