//! A line of a source with a caret below it.

ghost use Rattle.std.specs.Prelude.{◌≡◌, ◌+◌, ◌<◌, ◌≤◌};

use crate::letters::{shown_at, size_of, width_of};
use crate::notes::Note;

/// The most bytes of a line that are shown before the byte above the caret.
const MOST_BEFORE: usize = 70;

/// The most bytes of a line that are shown.
const MOST_SHOWN: usize = 110;

/// Adds the line of a source that has the byte of an index, and a caret below that byte. A long line is cut. A line of
/// spaces alone is left out.
pub fn add_marked(note: &mut Note, source: &[u8], at: usize) {
    let start = line_start(source, at);
    let line = line_from(source.get(start..).unwrap_or(&[]));
    if is_blank(line) {
        return;
    }
    let marked = at.saturating_sub(start);
    let shown = line.get(first_shown(marked)..).unwrap_or(&[]);
    let shown = shown.get(..MOST_SHOWN).unwrap_or(shown);
    let before = marked.saturating_sub(first_shown(marked));
    note.add("    ");
    add_shown(note, shown);
    note.add("\n    ");
    add_spaces(note, shown, before);
    note.add("^\n");
}

/// Adds bytes as a terminal shows them: those of a character that it doesn't show as question marks.
pub fn add_shown(note: &mut Note, shown: &[u8]) {
    let mut left = 0usize;
    for (index, byte) in shown.iter().enumerate() {
        if left > 0 {
            left = left.saturating_sub(1);
            continue;
        }
        match shown_at(shown, index) {
            Some(character) => {
                note.push(character);
                left = size_of(character).saturating_sub(1);
            }
            None => note.push(char::from(printable(*byte))),
        }
    }
}

/// Adds the spaces that are as wide as the first bytes of those that are shown.
fn add_spaces(note: &mut Note, shown: &[u8], before: usize) {
    let mut left = 0usize;
    for number in 0..before {
        let above = shown.get(number).copied().unwrap_or(b' ');
        if left > 0 {
            left = left.saturating_sub(1);
            continue;
        }
        match shown_at(shown, number) {
            Some(character) => {
                note.add(if width_of(character) == 2 { "  " } else { " " });
                left = size_of(character).saturating_sub(1);
            }
            None => note.push(char::from(space_below(above))),
        }
    }
}

/// Returns where the line begins that has the byte of an index.
fn line_start(source: &[u8], at: usize) -> usize {
    let before = source.get(..at).unwrap_or(source);
    let mut start = 0usize;
    for (index, byte) in before.iter().enumerate() {
        if matches!(*byte, b'\n' | b'\r') {
            start = index.saturating_add(1);
        }
    }
    start
}

/// Returns the line that some bytes begin with: byte 26 ends the source, and so the line.
fn line_from(bytes: &[u8]) -> &[u8] {
    for (end, byte) in bytes.iter().enumerate() {
        if matches!(byte, b'\n' | b'\r' | 26) {
            return bytes.get(..end).unwrap_or(bytes);
        }
    }
    bytes
}

/// Returns how many bytes of a line are cut off at its beginning, by how many are before the byte above the caret.
fn first_shown(marked: usize) -> usize
    ensures within { result ≤ marked }
    ensures near { marked ≤ result + MOST_BEFORE }
    ensures whole { marked ≤ MOST_BEFORE → result ≡ 0 }
{
    marked.saturating_sub(MOST_BEFORE)
}

/// Reports whether a line has spaces alone.
fn is_blank(line: &[u8]) -> bool {
    for byte in line {
        if !is_space(*byte) {
            return false;
        }
    }
    true
}

/// Reports whether a byte separates tokens.
fn is_space(byte: u8) -> bool {
    matches!(byte, b' ' | 9..=13)
}

/// Returns a byte as it is shown: one that no terminal shows as one column is a question mark.
fn printable(byte: u8) -> u8
    ensures ascii { result < 127 }
    ensures shown { 32 ≤ byte → byte < 127 → result ≡ byte }
{
    match byte {
        b'\t' | 32..127 => byte,
        _ => b'?',
    }
}

/// Returns the space that is as wide as a byte above it.
fn space_below(byte: u8) -> u8
    ensures tabulator { byte ≡ 9 → result ≡ 9 }
    ensures space { byte ≡ 9 → ⊥ → result ≡ 32 }
{
    match byte {
        b'\t' => b'\t',
        _ => b' ',
    }
}
