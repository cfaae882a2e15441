//! A file that is explained, and how a note on it is written.

use crate::note_objects::add_note_object;
use grammar::Profile;
use recovery::Lines;
use tools::{Draft, Text};

/// A file that is explained.
#[derive(Clone, Copy)]
pub struct SourceFile<'a> {
    /// Its name, as it is printed.
    pub path: &'a str,
    /// Its bytes.
    pub source: &'a [u8],
    /// The language profile.
    pub profile: Profile,
    /// Whether notes on it are objects of JSON.
    pub as_json: bool,
}

impl SourceFile<'_> {
    /// Adds a note on the file. Of a fault that recovery found it has the lines that were left out, the first and the last.
    pub fn add_note(&self, text: &mut Draft, note: &str, left_out: Option<Lines>) {
        if self.as_json {
            add_note_object(text, self.path, note, left_out);
            return;
        }
        text.add(self.path);
        text.add(":");
        text.add(note);
        if let Some(lines) = left_out {
            add_lines(text, lines);
        }
    }

    /// Adds that the source is too large for anything more to be looked for.
    pub fn add_limit(&self, text: &mut Draft) {
        let words = "over 262144 bytes: no later fault is looked for";
        if self.as_json {
            add_note_object(text, self.path, words, None);
            return;
        }
        text.add(self.path);
        text.add(": ");
        text.add(words);
        text.add("\n");
    }
}

/// Adds how a fault was found.
fn add_lines(text: &mut Draft, (first, last): Lines) {
    text.add("  found: by recovery, without line");
    text.add(if first == last { " " } else { "s " });
    text.number(u64::from(first));
    if first != last {
        text.add(" to ");
        text.number(u64::from(last));
    }
    text.add("\n");
}
