//! Comments as other languages write them: a mark at the beginning of a line or behind a statement, and words behind it.

use crate::hints::Hint;
use crate::notes::Note;
use crate::spelling::is_same_but_for_case;
use std::str;

/// Marks that begin a comment. A longer one comes before one that it begins with.
static MARKS: [&[u8]; 9] = [b"--", b"//", b";;", b"rem ", b"#", b"'", b"%", b"!", b";"];

/// Words that begin no comment right behind a `#`, since a line of C begins so.
static DIRECTIVES: [&[u8]; 10] = [
    b"define", b"include", b"if", b"ifdef", b"ifndef", b"elif", b"else", b"endif", b"undef",
    b"pragma",
];

/// Words that begin a statement or a declaration of this language.
static STARTS: [&[u8]; 8] = [
    b"if",
    b"else",
    b"while",
    b"return",
    b"int",
    b"long",
    b"auto",
    b"register",
];

/// The most bytes of a comment that is quoted.
const MOST_QUOTED: usize = 60;

/// Returns the hint on a comment of another language that has a position of a source in its line, if two words in a row begin it.
pub fn on_remarks(source: &[u8], at: usize) -> Option<Hint> {
    let begin = line_start(source, at);
    let mut last = b';';
    for (index, byte) in source.get(begin..).unwrap_or(&[]).iter().enumerate() {
        let place = begin.saturating_add(index);
        if place > at {
            return None;
        }
        if matches!(last, b';' | b'{' | b'}')
            && let Some(mark) = mark_at(source.get(place..)?)
            && (mark != 1 || *byte != b';' || place == behind_blanks(source, begin))
        {
            return Some(Hint::Remark(place, mark));
        }
        if !matches!(*byte, b' ' | b'\t') {
            last = *byte;
        }
    }
    None
}

/// Returns where the line begins that has a position of a source.
fn line_start(source: &[u8], at: usize) -> usize {
    let mut start = 0usize;
    for (index, byte) in source.get(..at).unwrap_or(source).iter().enumerate() {
        if matches!(*byte, b'\n' | b'\r') {
            start = index.saturating_add(1);
        }
    }
    start
}

/// Returns the position of the first byte from a position on that is no blank.
fn behind_blanks(source: &[u8], begin: usize) -> usize {
    let mut at = begin;
    for byte in source.get(begin..).unwrap_or(&[]) {
        if !matches!(*byte, b' ' | b'\t') {
            return at;
        }
        at = at.saturating_add(1);
    }
    at
}

/// Returns how many bytes the mark has that a text begins with, if a comment of two words or more begins so.
fn mark_at(text: &[u8]) -> Option<usize> {
    for mark in &MARKS {
        let size = mark.len();
        let begin = text.get(..size).unwrap_or(&[]);
        if is_same_but_for_case(begin, mark) && has_words(mark, text.get(size..)?) {
            return Some(size);
        }
    }
    None
}

/// Reports whether two words in a row stand behind a mark, as in a comment.
fn has_words(mark: &[u8], text: &[u8]) -> bool {
    let blanks = behind_blanks(text, 0);
    let words = text.get(blanks..).unwrap_or(&[]);
    let first = word_in(words);
    let second = words.get(first.len()..).unwrap_or(&[]);
    let gap = behind_blanks(second, 0);
    let follows = word_in(second.get(gap..).unwrap_or(&[]));
    let is_directive = mark.first() == Some(&b'#') && blanks == 0 && is_among(&DIRECTIVES, first);
    let is_code = matches!(mark.first(), Some(b';' | b'!')) && is_among(&STARTS, first);
    !first.is_empty() && gap > 0 && !follows.is_empty() && !is_directive && !is_code
}

/// Returns the word that a text begins with.
fn word_in(text: &[u8]) -> &[u8] {
    for (at, byte) in text.iter().enumerate() {
        if !byte.is_ascii_alphabetic() {
            return text.get(..at).unwrap_or(&[]);
        }
    }
    text
}

/// Reports whether a word is one of these.
fn is_among(words: &[&[u8]], word: &[u8]) -> bool {
    for other in words {
        if *other == word {
            return true;
        }
    }
    false
}

/// Adds how a comment is written whose mark of some bytes begins at a position of a source.
pub fn add_remark(note: &mut Note, source: &[u8], at: usize, mark: usize) {
    let rest = source.get(at..).unwrap_or(&[]);
    note.add(if rest.starts_with(b"//") {
        "`//` begins no comment here: one stands between `/*` and `*/`: write `/* "
    } else {
        "a comment stands between `/*` and `*/`: write `/* "
    });
    note.add(words_in(rest.get(mark..).unwrap_or(&[])));
    note.add(" */`");
}

/// Returns the rest of a line without the blanks around it: dots if it is long, or can't stand in a comment.
fn words_in(text: &[u8]) -> &str {
    let (mut end, begin) = (0usize, behind_blanks(text, 0));
    for (at, byte) in text.iter().enumerate() {
        match *byte {
            b'\n' | b'\r' => break,
            b' ' | b'\t' => {}
            b'*' | b'`' => return "..",
            b'!'..=b'~' if at < MOST_QUOTED => end = at.saturating_add(1),
            _ => return "..",
        }
    }
    str::from_utf8(text.get(begin..end).unwrap_or(&[])).unwrap_or("..")
}
