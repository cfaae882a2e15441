//! Hints, what they say, and which one the layout gives.

use crate::assigning::{add_assignments, add_declaration};
use crate::comments::add_swallowing;
use crate::declaring::add_types;
use crate::foreign::Foreign;
use crate::heads::{add_arrow, add_head};
use crate::indices::name_at;
use crate::layout::{Disagreement, first_disagreement};
use crate::members::add_method;
use crate::notes::Note;
use crate::remarks::add_remark;
use crate::rewriting::{Rewrite, add_written};
use crate::told::spelling_of;
use derivations::Located;
use grammar::Intrinsic;

/// A hint.
#[derive(Clone, Copy)]
pub enum Hint {
    /// This text.
    Text(&'static str),
    /// A line lacks a semicolon at its end.
    LacksSemicolon(u32),
    /// This text, and that the block that begins on a line isn't closed.
    Unclosed(&'static str, u32),
    /// This text, and that the function above ends on a line.
    Ended(&'static str, u32),
    /// The lines of the `}` that ends the function above, and of one that closes nothing.
    Closed(u32, u32),
    /// This text, and where braces and indentation disagree first.
    Layout(&'static str, Disagreement),
    /// The comment that begins on a line ended earlier than was meant.
    Nested(u32),
    /// The comment that begins on a line goes further than was meant.
    Swallowing(u32),
    /// A hexadecimal number, with its value if it isn't too large.
    Hexadecimal(Option<u32>),
    /// A number with a `,` between thousands, with its value if it isn't too large.
    Thousands(Option<u32>),
    /// The comparison that lacks its left side, by the index of its operator: behind one that has both.
    Halved(usize),
    /// What is perhaps meant.
    Meant(&'static str),
    /// This intrinsic function is called as one of an object, with the position of its name in the source.
    Method(Intrinsic, usize),
    /// There are no objects, and this is said of what one is asked for.
    Member(&'static str),
    /// A comment of another language, with the position of its mark and how many bytes that has.
    Remark(usize, usize),
    /// This text, how it is written, and an example of that.
    Written(&'static str, Rewrite, &'static str),
    /// A construct of another language.
    Foreign(Foreign),
    /// This text, and the head of the first function that is named from the token of an index on in its line.
    Head(&'static str, usize),
    /// This text, and the declaration of the first name from the token of an index on in its line.
    Declaration(&'static str, usize),
    /// The head of the function that an arrow gives to the variable of the token of an index.
    Arrow(usize),
    /// The type of the token of an index, which stands again in a list of names.
    Types(usize),
    /// The assignments that are meant where several variables are set at once, from the token of an index on.
    Assignments(usize),
}

impl Hint {
    /// Adds the hint in words; the tokens are the source's.
    pub fn add(self, note: &mut Note, source: &[u8], tokens: &[Located]) {
        match self {
            Hint::Text(words) => note.add(words),
            Hint::LacksSemicolon(line) => {
                note.count("line ", u64::from(line), " may lack a `;` at its end");
            }
            Hint::Meant(word) => {
                note.add("perhaps ");
                note.add(word);
            }
            Hint::Method(intrinsic, at) => add_method(note, source, intrinsic, at),
            Hint::Member(words) => {
                note.add("there are no objects; ");
                note.add(words);
            }
            Hint::Remark(at, mark) => add_remark(note, source, at, mark),
            Hint::Written(words, rewrite, example) => {
                note.add(words);
                add_written(note, source, tokens, rewrite, example);
            }
            Hint::Hexadecimal(value) => add_hexadecimal(note, value),
            Hint::Thousands(value) => add_thousands(note, value),
            Hint::Halved(index) => add_halved(note, source, tokens, index),
            Hint::Foreign(foreign) => foreign.add(note, source, tokens),
            Hint::Head(words, index) => {
                note.add(words);
                add_head(note, source, tokens, index);
            }
            Hint::Declaration(words, index) => {
                note.add(words);
                add_declaration(note, source, tokens, index);
            }
            Hint::Arrow(index) => add_arrow(note, source, tokens, index),
            Hint::Assignments(index) => add_assignments(note, source, tokens, index),
            _ => self.add_place(note, tokens),
        }
    }

    /// Adds a hint on where a block or a comment ends, or should, and on a list of names.
    fn add_place(self, note: &mut Note, tokens: &[Located]) {
        match self {
            Hint::Unclosed(words, line) => {
                note.add(words);
                add_unclosed(note, line);
                note.add(": a `}` is missing, here or above");
            }
            Hint::Ended(words, line) => {
                note.add(words);
                add_end(note, line, ", where a `}` may be one too many");
            }
            Hint::Closed(end, line) => {
                note.add("this `}` closes nothing: ");
                add_end(note, end, ", and there is one too many");
                note.count(", there or on line ", u64::from(line), "");
            }
            Hint::Layout(words, disagreement) => {
                note.add(words);
                add_disagreement(note, disagreement);
            }
            Hint::Nested(line) => note.count(
                "comments don't nest: the one that begins on line ",
                u64::from(line),
                " ends at its first `*/`",
            ),
            Hint::Swallowing(line) => add_swallowing(note, line),
            Hint::Types(index) => add_types(note, tokens, index),
            // `add` has the words of all others
            _ => {}
        }
    }
}

/// Adds that numbers are decimal, and the value of one that is hexadecimal.
fn add_hexadecimal(note: &mut Note, value: Option<u32>) {
    note.add("numbers are decimal: hexadecimal ones aren't known");
    if let Some(value) = value {
        note.count("; write ", u64::from(value), "");
    }
}

/// Adds that a number has digits alone, and the value of one that has more.
fn add_thousands(note: &mut Note, value: Option<u32>) {
    note.add("a number has digits alone, and no `,` between thousands");
    if let Some(value) = value {
        note.count(": write `", u64::from(value), "`");
    }
}

/// Adds how the comparison is written whose operator is the token of an index, and that lacks its left side: with the name that
/// the one before it compares.
fn add_halved(note: &mut Note, source: &[u8], tokens: &[Located], index: usize) {
    note.add("a comparison has a value on both sides: ");
    let name = name_at(tokens, index.saturating_sub(4));
    match (name, tokens.get(index), tokens.get(index.saturating_add(1))) {
        (Some(name), Some(operator), Some(value)) => {
            note.add("write `");
            note.add(name.as_str());
            note.push(' ');
            note.add(spelling_of(source, operator));
            note.push(' ');
            note.add(spelling_of(source, value));
            note.push('`');
        }
        _ => note.add("`a > 1 && a < 9`"),
    }
}

/// Adds that the block that begins on a line isn't closed.
fn add_unclosed(note: &mut Note, line: u32) {
    note.count(
        "the block that begins on line ",
        u64::from(line),
        " isn't closed",
    );
}

/// Adds on which line the function above ends, and a further text.
fn add_end(note: &mut Note, line: u32, more: &str) {
    note.count("the function above ends on line ", u64::from(line), more);
}

/// Adds where braces and indentation disagree.
fn add_disagreement(note: &mut Note, disagreement: Disagreement) {
    match disagreement {
        Disagreement::Unclosed(begin, line) => {
            add_unclosed(note, begin);
            note.count(
                ": by the indentation a `}` is missing before line ",
                u64::from(line),
                "",
            );
        }
        Disagreement::Early(line) => {
            note.count(
                "by the indentation the `}` on line ",
                u64::from(line),
                " is one too many",
            );
        }
        Disagreement::Unopened(head, line) => {
            note.count("line ", u64::from(head), " may lack a `{` at its end, or ");
            note.count("the `}` on line ", u64::from(line), " is one too many");
        }
    }
}

/// Returns the hint on braces: by the indentation, or else another one.
pub fn by_layout(
    tokens: &[Located],
    is_unclosed: bool,
    words: &'static str,
    otherwise: Hint,
) -> Hint {
    match first_disagreement(tokens, is_unclosed) {
        Some(found) => Hint::Layout(words, found),
        None => otherwise,
    }
}
