//! A note on a file as an object of JSON on a line.

use recovery::Lines;
use tools::{Draft, Object, Text};

/// What stands before the lines of a note that have a name.
const NAMED: &str = "  ";

/// What stands before those that are of the source.
const SHOWN: &str = "    ";

/// Adds a note on a file: its position, whether it is a fault or a warning, its words, what its further lines have, by
/// their names, and which lines were left out.
pub fn add_note_object(text: &mut Draft, path: &str, note: &str, left_out: Option<Lines>) {
    let mut object = Object::begin(text);
    object.words("file", path);
    let mut lines = note.split('\n');
    add_head(&mut object, lines.next().unwrap_or(""));
    for line in lines {
        add_named(&mut object, line);
    }
    if let Some((first, last)) = left_out {
        object.numbers("without", &[u64::from(first), u64::from(last)]);
    }
    object.end();
    text.add("\n");
}

/// Adds what the first line of a note says: a position, unless it is on the whole file, and words.
fn add_head(object: &mut Object<'_>, head: &str) {
    let words = match position_of(head) {
        Some((line, column, words)) => {
            object.field("line").add(line);
            object.field("column").add(column);
            words
        }
        None => head,
    };
    let (kind, words) = match words.strip_prefix("warning: ") {
        Some(words) => ("warning", words),
        None => ("fault", words),
    };
    object.words("kind", kind);
    object.words("text", words);
}

/// Returns the line and the column that a text begins with, and what follows them, if it does.
fn position_of(head: &str) -> Option<(&str, &str, &str)> {
    let (line, rest) = head.split_once(':')?;
    let (column, words) = rest.split_once(": ")?;
    Some((line, column, words))
}

/// Adds what a further line of a note says, by its name. One of the source has none.
fn add_named(object: &mut Object<'_>, line: &str) {
    if line.starts_with(SHOWN) {
        return;
    }
    if let Some((name, words)) = line.strip_prefix(NAMED).and_then(|it| it.split_once(": ")) {
        object.words(name, words);
    }
}
