//! What a note says, part by part: its lines have marks in front.

/// What is in front of the lines of a note.
pub const MET: &str = "  met: ";

pub const FITS: &str = "  fits: ";

pub const HINT: &str = "  hint: ";

/// Returns what a line of a note says that has this mark in front, if there is one.
pub fn said<'a>(note: &'a str, mark: &str) -> Option<&'a str> {
    for line in note.split('\n') {
        if let Some(words) = line.strip_prefix(mark) {
            return Some(words);
        }
    }
    None
}

/// Returns the words of the first line of a note, behind its position.
pub fn first_words(note: &str) -> &str {
    let line = note.split('\n').next().unwrap_or("");
    let words = behind(line, ": ").unwrap_or(line);
    words.strip_prefix("warning: ").unwrap_or(words)
}

/// Returns what is behind a mark in a text, if it has that.
pub fn behind<'a>(text: &'a str, mark: &str) -> Option<&'a str> {
    match text.split_once(mark) {
        Some((_, words)) => Some(words),
        None => None,
    }
}

/// Returns what stands between backquotes behind a mark in a text.
pub fn quoted<'a>(text: &'a str, mark: &str) -> Option<&'a str> {
    let rest = behind(text, mark)?;
    let inside = rest.strip_prefix('`')?;
    match inside.split_once('`') {
        Some((words, _)) => Some(words),
        None => None,
    }
}
