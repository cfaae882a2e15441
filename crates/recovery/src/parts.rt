//! The part of a source that is left out after a fault in it: panic-mode recovery, by closing braces and by heads of
//! functions.

use derivations::Located;
use explanations::is_head;
use tokens::{Keyword, Punctuator, Token};

/// The most tokens of a head of a function: its parameters twice, each with a comma, and type words.
const MOST_OF_HEAD: usize = 300;

/// A part of a source, by the indices of its tokens: at least one.
#[derive(Clone, Copy)]
pub struct Part {
    /// The index of its first token.
    pub first: usize,
    /// The index of the first token after it.
    pub end: usize,
    /// What it is.
    pub kind: PartKind,
}

/// What a part is.
#[derive(Clone, Copy, PartialEq, Eq)]
pub enum PartKind {
    /// What is between the braces of a function.
    Body,
    /// What is behind the opening brace of a function up to the head of the next one: a closing brace is missing.
    Unclosed,
    /// What is outside functions, up to the head of the next function: there may be a head in it.
    Outside,
}

/// Returns the part with a fault, which is at the token of an index, if something follows it. In a function the part is
/// up to the brace that closes it, or to a head in the column in which the function begins. Outside it is up to the next
/// head.
pub fn part_at(tokens: &[Located], at: usize) -> Option<Part> {
    let place = Place::at(tokens, at);
    let part = if place.depth == 0 {
        part_outside(tokens, at, place.item)?
    } else {
        part_inside(tokens, &place)?
    };
    (part.first < part.end).then_some(part)
}

/// Returns the part inside of a function.
fn part_inside(tokens: &[Located], place: &Place) -> Option<Part> {
    let first = place.open.saturating_add(1);
    let column = tokens.get(place.item)?.column;
    let mut depth = 1;
    for (index, located) in tokens.iter().enumerate().skip(first) {
        depth = depth_behind(depth, &located.token);
        let kind = if depth == 0 {
            PartKind::Body
        } else if located.column == column && is_head_at(tokens, index) {
            PartKind::Unclosed
        } else {
            continue;
        };
        return Some(Part {
            first,
            end: index,
            kind,
        });
    }
    None
}

/// Returns the part outside of functions that begins with the token of one index, and has a fault at that of another. A
/// head whose own name is the fault, or is before it, is a part of it.
fn part_outside(tokens: &[Located], at: usize, first: usize) -> Option<Part> {
    let own = first.saturating_add(types_at(tokens, first));
    let mut depth = 0;
    for (index, located) in tokens.iter().enumerate().skip(at) {
        if depth == 0 && index > own && is_head_at(tokens, index) {
            return Some(Part {
                first,
                end: index,
                kind: PartKind::Outside,
            });
        }
        depth = depth_behind(depth, &located.token);
    }
    None
}

/// Returns how many type words begin at an index.
fn types_at(tokens: &[Located], index: usize) -> usize {
    let mut types: usize = 0;
    for located in tokens.get(index..).unwrap_or(&[]) {
        if located.token != Token::Keyword(Keyword::Type) {
            return types;
        }
        types = types.saturating_add(1);
    }
    types
}

/// Reports whether the head of a function begins at an index.
pub fn is_head_at(tokens: &[Located], index: usize) -> bool {
    let end = index.saturating_add(MOST_OF_HEAD);
    is_head(tokens.get(..end).unwrap_or(tokens), index)
}

/// Returns how many braces are open behind a token: one that closes none counts as none.
fn depth_behind(depth: usize, token: &Token) -> usize {
    match token {
        Token::Punctuator(Punctuator::OpenCurly) => depth.saturating_add(1),
        Token::Punctuator(Punctuator::CloseCurly) => depth.saturating_sub(1),
        _ => depth,
    }
}

/// Where in a file a token is.
#[derive(Clone, Copy, Default)]
struct Place {
    /// The index of the first token of its function or declaration.
    item: usize,
    /// Whether a bracket opened in that.
    has_brackets: bool,
    /// How many braces are open.
    depth: usize,
    /// The index of the first of them.
    open: usize,
}

impl Place {
    /// Returns the place of the token of an index.
    fn at(tokens: &[Located], index: usize) -> Place {
        let mut place = Place::default();
        for (before, located) in tokens.get(..index).unwrap_or(tokens).iter().enumerate() {
            place.pass(before, &located.token);
        }
        place
    }

    /// Passes the token of an index.
    fn pass(&mut self, index: usize, token: &Token) {
        let before = self.depth;
        self.depth = depth_behind(before, token);
        match token {
            Token::Punctuator(Punctuator::OpenCurly) if before == 0 => self.open = index,
            Token::Punctuator(Punctuator::OpenRound) => self.has_brackets = true,
            Token::Punctuator(Punctuator::CloseCurly) if self.depth == 0 => self.end_item(index),
            // (behind brackets it ends the types of parameters)
            Token::Punctuator(Punctuator::Semicolon) if self.depth == 0 && !self.has_brackets => {
                self.end_item(index);
            }
            _ => {}
        }
    }

    /// Ends a function or declaration with the token of an index.
    fn end_item(&mut self, index: usize) {
        self.item = index.saturating_add(1);
        self.has_brackets = false;
    }
}
