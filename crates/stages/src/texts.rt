//! Texts of sources, as they are shown.

ghost use Rattle.std.specs.Prelude.{◌≡◌, ◌≢◌, ◌<◌, ◌≤◌};

use std::alloc::{AllocError, Global};
use std::str;

/// The byte that ends a source.
const END_BYTE: u8 = 26;

/// What is shown in place of a character that isn't printed.
const REPLACEMENT: char = '\u{fffd}';

/// Returns the lines of a source, without their LF. What follows the first byte 26 is no source.
pub fn lines_of(alloc: Global, source: &[u8]) -> Result<Vec<&[u8]>, AllocError> {
    let mut lines = Vec::new(alloc);
    let before_end = source.split(|byte| *byte == END_BYTE).next().unwrap_or(&[]);
    for line in before_end.split(|byte| *byte == b'\n') {
        lines.push(line)?;
    }
    Ok(lines)
}

/// Returns a line of a source as text: bytes that are no UTF-8, and control characters other than the tab, are
/// replaced. A CR at its end is dropped.
pub fn shown(alloc: Global, line: &[u8]) -> Result<String, AllocError> {
    let line = line.strip_suffix(b"\r").unwrap_or(line);
    let mut text = String::new(alloc);
    for character in String::from_utf8_lossy(alloc, line)?.chars() {
        text.push(printed(character))?;
    }
    Ok(text)
}

/// Returns what is printed for a character: itself, or for a control character other than the tab U+FFFD.
fn printed(character: char) -> char
    ensures plain { 32 ≤ character → character < 127 → result ≡ character }
    ensures wide { 160 ≤ character → result ≡ character }
    ensures tab { character ≡ 9 → result ≡ character }
    ensures low { character < 32 → character ≢ 9 → result ≡ 65533 }
    ensures high { 127 ≤ character → character < 160 → result ≡ 65533 }
{
    match character {
        '\0'..='\x08' | '\x0a'..='\x1f' | '\x7f'..='\u{9f}' => REPLACEMENT,
        _ => character,
    }
}

/// Returns bytes of ASCII as text.
pub fn ascii(bytes: &[u8]) -> &str {
    str::from_utf8(bytes).unwrap_or("?")
}
