//! Comments that go further than they were meant to, or less far.

use crate::notes::Note;
use crate::warnings::{Said, Warnings};
use derivations::Located;

/// A comment.
#[derive(Clone, Copy)]
struct Comment<'a> {
    /// The line on which it begins.
    line: u32,
    /// What follows its `/*`, up to its end.
    inside: &'a [u8],
    /// What follows it.
    behind: &'a [u8],
}

impl<'a> Comment<'a> {
    /// Returns the first comment of a text that begins on this line.
    fn first(text: &'a [u8], line: u32) -> Option<Comment<'a>> {
        let open = after(text, b"/*")?;
        let behind = after(open, b"*/").unwrap_or(&[]);
        Some(Comment {
            line: line.saturating_add(line_ends(before(text, open))),
            inside: before(open, behind),
            behind,
        })
    }

    /// Returns the one after it.
    fn next(&self) -> Option<Comment<'a>> {
        Comment::first(
            self.behind,
            self.line.saturating_add(line_ends(self.inside)),
        )
    }
}

/// Returns the line on which a comment begins that has a name in it, and after the name the beginning of another
/// comment: it probably wasn't meant to go so far.
pub fn swallowed(source: &[u8], name: &[u8]) -> Option<u32> {
    let mut comment = Comment::first(source, 1)?;
    for _ in 0..source.len() {
        if begins_behind(comment.inside, name) {
            return Some(comment.line);
        }
        comment = comment.next()?;
    }
    None
}

/// Reports whether a text has a name in it, and after that the beginning of a comment.
fn begins_behind(text: &[u8], name: &[u8]) -> bool {
    match after(text, name) {
        Some(behind) => after(behind, b"/*").is_some(),
        None => false,
    }
}

/// Returns the line on which a comment begins that has the beginning of another one in it, if a position is between the
/// end of that comment and a further `*/`: it probably wasn't meant to end so early.
pub fn nested(source: &[u8], at: usize) -> Option<u32> {
    let mut comment = Comment::first(source, 1)?;
    for _ in 0..source.len() {
        if at < source.len().saturating_sub(comment.behind.len()) {
            return None;
        }
        if after(comment.inside, b"/*").is_some() && is_before_end(source, &comment, at) {
            return Some(comment.line);
        }
        comment = comment.next()?;
    }
    None
}

/// Returns the line on which a comment begins that would end by the `*/` of a position, if comments nested.
pub fn nested_end(source: &[u8], at: usize) -> Option<u32> {
    if source.get(at) != Some(&b'*') {
        return None;
    }
    let (mut depth, mut line, mut begin, mut last) = (0u32, 1u32, 0u32, b' ');
    let mut ended = None;
    for byte in source.get(..at.saturating_add(2))? {
        ended = None;
        match (last, *byte) {
            (b'/', b'*') => {
                begin = if depth == 0 { line } else { begin };
                depth = depth.saturating_add(1);
                last = b' ';
            }
            (b'*', b'/') if depth > 0 => {
                depth = depth.saturating_sub(1);
                ended = (depth == 0).then_some(begin);
                last = b' ';
            }
            (_, b'\n') => {
                line = line.saturating_add(1);
                last = b' ';
            }
            _ => last = *byte,
        }
    }
    ended
}

/// Reports whether a position is in a comment whose `/*` is missing: a `*/` follows, and from the beginning of the line up to
/// it there is no `/*`, and no code if it is on a later line.
pub fn is_unbegun(source: &[u8], at: usize) -> bool {
    let text = from_line_start(source, at);
    let Some(behind) = after(text, b"*/") else {
        return false;
    };
    let between = before(text, behind);
    let is_on_line = after(between, b"\n").is_none();
    let end = source.len().saturating_sub(behind.len());
    at.saturating_add(2) < end
        && after(between, b"/*").is_none()
        && (is_on_line || after(between, b"{").or(after(between, b";")).is_none())
}

/// Returns what follows the last line end before a position.
fn from_line_start(source: &[u8], at: usize) -> &[u8] {
    let mut text = source;
    let mut begin = 0usize;
    for byte in source.get(..at).unwrap_or(&[]) {
        begin = begin.saturating_add(1);
        if *byte == b'\n' {
            text = source.get(begin..).unwrap_or(&[]);
        }
    }
    text
}

/// Returns the line on which a comment begins before a position that has lines of code in it, and behind them the beginning
/// of another one: it probably wasn't meant to go so far.
pub fn swallowing(source: &[u8], at: usize) -> Option<u32> {
    with_code(source.get(..at)?, 1)
}

/// Returns the line of the first such comment of a text that begins on this line.
fn with_code(text: &[u8], line: u32) -> Option<u32> {
    let mut comment = Comment::first(text, line)?;
    for _ in 0..text.len() {
        if has_code(comment.inside) {
            return Some(comment.line);
        }
        comment = comment.next()?;
    }
    None
}

/// Warns of each such comment, at the token behind it.
pub fn warn_of_comments(out: &mut Warnings, source: &[u8], tokens: &[Located]) {
    let (mut end, mut line) = (0usize, 1u32);
    for (index, located) in tokens.iter().enumerate() {
        let between = source.get(end..located.start()).unwrap_or(&[]);
        if let Some(begin) = with_code(between, line) {
            out.warn(index, Said::Swallowing(begin));
        }
        end = located.end();
        line = located.line;
    }
}

/// Adds that the comment that begins on a line goes further than was meant.
pub fn add_swallowing(note: &mut Note, line: u32) {
    note.count(
        "the comment that begins on line ",
        u64::from(line),
        " goes on up to the end of another one: its `*/` is missing",
    );
}

/// Reports whether a text has a line end, behind it a `{` or a `;`, and behind that the beginning of a comment; or a line
/// that has something else before that beginning.
fn has_code(text: &[u8]) -> bool {
    let Some(lines) = after(text, b"\n") else {
        return false;
    };
    if begins_in_line(lines) {
        return true;
    }
    match after(lines, b"{").or(after(lines, b";")) {
        Some(behind) => after(behind, b"/*").is_some(),
        None => false,
    }
}

/// Reports whether one of these lines has the beginning of a comment, and before it anything but blanks and `*`.
fn begins_in_line(lines: &[u8]) -> bool {
    let (mut has_text, mut last) = (false, b' ');
    for byte in lines {
        match *byte {
            b'\n' => has_text = false,
            b'*' if last == b'/' && has_text => return true,
            b' ' | b'\t' | b'\r' | b'*' | b'/' => {}
            _ => has_text = true,
        }
        last = *byte;
    }
    false
}

/// Reports whether a `*/` follows a comment without a `/*` between, and a position is before the end of that `*/`.
fn is_before_end(source: &[u8], comment: &Comment<'_>, at: usize) -> bool {
    let Some(rest) = after(comment.behind, b"*/") else {
        return false;
    };
    let between = before(comment.behind, rest);
    after(between, b"/*").is_none() && at < source.len().saturating_sub(rest.len())
}

/// Returns what follows the first occurrence of some bytes. It isn't inlined, since the page's module is to be small.
#[inline(never)]
fn after<'a>(text: &'a [u8], wanted: &[u8]) -> Option<&'a [u8]> {
    for at in 0..text.len() {
        let here = text.get(at..).unwrap_or(&[]);
        if let Some(behind) = here.strip_prefix(wanted) {
            return Some(behind);
        }
    }
    None
}

/// Returns a text without its last part.
fn before<'a>(text: &'a [u8], part: &[u8]) -> &'a [u8] {
    text.get(..text.len().saturating_sub(part.len()))
        .unwrap_or(&[])
}

/// Counts the line ends of a text.
fn line_ends(text: &[u8]) -> u32 {
    let mut count: u32 = 0;
    for byte in text {
        if *byte == b'\n' {
            count = count.saturating_add(1);
        }
    }
    count
}
