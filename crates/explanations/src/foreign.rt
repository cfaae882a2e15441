//! Constructs of other languages in a source: where one begins, and what a robot writes instead.

use crate::assigning::add_declaration;
use crate::constructs::LANGUAGES;
use crate::heads::add_head;
use crate::notes::Note;
use crate::rewriting::{Rewrite, add_written};
use crate::scenes::Scene;
use crate::spelling::is_same_but_for_case;
use crate::texts::{MOST_PARTS, parted};
use crate::told::spelling_of;
use derivations::{Item, Located};
use grammar::store_operator;
use std::str;
use tokens::{Name, Punctuator, Token};

/// A loop that counts turns.
const COUNTED: &str = "n = 0; while (n < 10) { n = n + 1; .. }";

/// A loop for a `for`.
const STEPPED: &str = "i = 0; while (i < 9) { ..; i = i + 1; }";

/// A construct that a source has: what is said of it, the number of its language, and the index of its token.
#[derive(Clone, Copy)]
pub struct Foreign {
    says: &'static str,
    language: u8,
    index: u32,
}

impl Foreign {
    /// Adds in words what it is, if it is another language's than C, and what a robot writes.
    pub fn add(self, note: &mut Note, source: &[u8], tokens: &[Located]) {
        let index = self.index as usize;
        if let Some((language, _)) = LANGUAGES.get(usize::from(self.language))
            && let Some(located) = tokens.get(index)
            && *language != "C"
        {
            note.quote(spelling_of(source, located));
            note.add(" is ");
            note.add(language);
            note.add(": ");
        }
        let behind = index.saturating_add(1);
        if let Some(words) = self.says.strip_prefix('^') {
            note.add(words);
            add_head(note, source, tokens, behind);
        } else if let Some(words) = self.says.strip_prefix(';') {
            note.add(words);
            add_declaration(note, source, tokens, behind);
        } else if let Some(words) = self.says.strip_prefix('*') {
            note.add(words);
            add_written(note, source, tokens, Rewrite::Counted(index), COUNTED);
        } else if let Some(words) = self.says.strip_prefix('+') {
            note.add(words);
            add_written(note, source, tokens, Rewrite::For(index), STEPPED);
        } else {
            note.add(self.says);
        }
    }
}

/// Returns the construct of another language at a token that doesn't fit, or right before it, or where the statement
/// begins.
pub fn foreign_at(scene: &Scene<'_>) -> Option<Foreign> {
    let before = scene.index.saturating_sub(1);
    let called = if scene.follows_mark(Punctuator::OpenRound) {
        before.saturating_sub(1)
    } else if scene.token(before.saturating_sub(1)) == Token::Punctuator(Punctuator::OpenRound) {
        before.saturating_sub(2)
    } else {
        before
    };
    let semicolon = Item::Exactly(Punctuator::Semicolon);
    let begin = scene.pending_at(semicolon).unwrap_or(scene.index);
    for index in [called, before, scene.index, scene.chosen_at(), begin] {
        if let Some(foreign) = foreign_name(scene.source, scene.tokens, index) {
            return Some(foreign);
        }
    }
    on_objects(scene)
}

/// Returns the construct by which an object is made, further on in the line of a token that doesn't fit.
fn on_objects(scene: &Scene<'_>) -> Option<Foreign> {
    let index = scene.index.saturating_add(2);
    match scene.name(index) {
        Some(name) if name.has_bytes(b"new") => { foreign_name(scene.source, scene.tokens, index) }
        _ => None,
    }
}

/// Returns the construct that begins with the token of an index: a variable that the file sets begins none. One that is
/// spelled so comes before one that is but for capital letters.
pub fn foreign_name(source: &[u8], tokens: &[Located], index: usize) -> Option<Foreign> {
    let located = tokens.get(index)?;
    if is_set(tokens, located) {
        return None;
    }
    let begin = spelling_of(source, located).as_bytes();
    let rest = source.get(located.end()..).unwrap_or(&[]);
    let exact = construct_of(begin, Some(rest), true);
    let (language, says) = exact.or(construct_of(begin, Some(rest), false))?;
    Some(Foreign {
        says: str::from_utf8(says).ok()?,
        language,
        index: u32::try_from(index).ok()?,
    })
}

/// Reports whether a construct begins with this name.
pub fn is_foreign(name: &Name) -> bool {
    construct_of(name.as_bytes(), None, false).is_some()
}

/// Returns the number of the language of the first construct that begins so, and what is said of it. What follows is as its
/// row says, or anything if it isn't known.
#[inline(never)]
fn construct_of(begin: &[u8], rest: Option<&[u8]>, is_exact: bool) -> Option<(u8, &'static [u8])> {
    let mut number = 0u8;
    for (_, table) in &LANGUAGES {
        if let Some(says) = row_in(table.as_bytes(), begin, rest, is_exact) {
            return Some((number, says));
        }
        number = number.saturating_add(1);
    }
    None
}

/// Returns what a table says of its first construct that begins so, and has behind it what follows.
fn row_in(
    table: &'static [u8],
    begin: &[u8],
    rest: Option<&[u8]>,
    is_exact: bool,
) -> Option<&'static [u8]> {
    let mut text = table;
    for _ in 0..MOST_PARTS {
        let (row, below) = parted(text, b'\n');
        let (constructs, says) = parted(row, b'\t');
        if have_construct(constructs, begin, rest, is_exact) {
            return Some(says);
        }
        text = below;
    }
    None
}

/// Reports whether one of some constructs begins so, and has behind it what follows.
fn have_construct(
    constructs: &'static [u8],
    begin: &[u8],
    rest: Option<&[u8]>,
    is_exact: bool,
) -> bool {
    let mut text = constructs;
    for _ in 0..MOST_PARTS {
        let (construct, further) = parted(text, b' ');
        let (looks, behind) = parted(construct, b'\'');
        if looks.is_empty() {
            return false;
        }
        let is_meant = if is_exact {
            begin == looks
        } else {
            is_same_but_for_case(begin, looks)
        };
        if is_meant && may_follow(rest, behind) {
            return true;
        }
        text = further;
    }
    false
}

/// Reports whether some assignment sets the name that a token is.
pub fn is_set(tokens: &[Located], wanted: &Located) -> bool {
    let mut follows_name = false;
    for located in tokens {
        if follows_name && store_operator(&located.token).is_some() {
            return true;
        }
        follows_name = matches!(located.token, Token::Name(_)) && located.token == wanted.token;
    }
    false
}

/// Reports whether what follows the beginning of a construct is what its row says.
fn may_follow(rest: Option<&[u8]>, wanted: &[u8]) -> bool {
    match (rest, wanted) {
        (None, _) | (_, []) => true,
        (Some([b' ' | b'\t', ..]), [b'&', ..]) => true,
        (Some(rest), _) => begins_so(behind_blanks(rest), wanted),
    }
}

/// Reports whether a text begins as a row says.
/// It isn't inlined, since the page's module is to be small.
#[inline(never)]
fn begins_so(text: &[u8], wanted: &[u8]) -> bool {
    for (number, mark) in wanted.iter().enumerate() {
        let Some(byte) = text.get(number) else {
            return false;
        };
        match mark {
            b'@' => return byte.is_ascii_alphabetic() || *byte == b'_',
            b'9' => return byte.is_ascii_digit(),
            b'&' if matches!(byte, b' ' | b'\t') => {}
            _ if byte == mark => {}
            _ => return false,
        }
    }
    true
}

/// Returns a text without the spaces and tabulators that it begins with.
fn behind_blanks(text: &[u8]) -> &[u8] {
    for (number, byte) in text.iter().enumerate() {
        if !matches!(byte, b' ' | b'\t') {
            return text.get(number..).unwrap_or(&[]);
        }
    }
    &[]
}
