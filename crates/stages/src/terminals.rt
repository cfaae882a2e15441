//! The tokens that productions are made of, and sets of them.

ghost use Rattle.std.specs.Prelude.{◌≡◌, ◌≤◌, ◌<◌, IfSome, false};

use derivations::{Item, Located, Role, Symbol, locate};
use std::alloc::{AllocError, Global};
use tokens::{Keyword, Token};

/// A source of all tokens that a production may have: each once, in the order in which they are shown. Its end is one,
/// too.
const ALL: &[u8] =
    b"int a 1 ( ) { } ; , if else while return = += -= *= /= %= <<= >>= &= ^= |= || && | ^ & == != < > <= >= << >> + - * / % ! ~ ++ --";

/// The most tokens that a set has room for.
const MOST_TERMINALS: usize = 63;

/// Finds all tokens that a production may have.
pub fn terminals(alloc: Global) -> Result<Vec<Located>, AllocError> {
    locate(alloc, ALL)
}

/// Returns what a production has for a token.
pub fn terminal_of(token: &Token) -> Option<Item> {
    match *token {
        Token::Punctuator(punctuator) => Some(Item::Exactly(punctuator)),
        Token::Keyword(Keyword::Refused) => None,
        Token::Keyword(word) => Some(Item::AKeyword(word)),
        Token::Name(_) => Some(Item::Naming(Role::Mentioned)),
        Token::Constant(_) => Some(Item::Number),
        Token::End => Some(Item::Ending),
        Token::Fault(_) => None,
    }
}

/// Returns an item as it counts for what a source may look like: all names are one, and so are all lists of further
/// names. What is made of a source doesn't count.
pub fn plain(item: Item) -> Option<Item> {
    match item {
        Item::Naming(_) => Some(Item::Naming(Role::Mentioned)),
        Item::Part(Symbol::More(_)) => Some(Item::Part(Symbol::More(Role::Mentioned))),
        Item::Make(_) | Item::Close => None,
        Item::Exactly(_) | Item::AKeyword(_) | Item::Number | Item::Ending | Item::Part(_) => {
            Some(item)
        }
    }
}

/// A set of tokens, by their numbers, and maybe of nothing: that no token at all comes.
#[derive(Clone, Copy, PartialEq, Eq)]
pub struct TerminalSet {
    tokens: u64,
    /// Whether nothing is among them.
    pub has_nothing: bool,
}

impl TerminalSet {
    /// Returns the set of no token.
    pub fn none() -> TerminalSet {
        TerminalSet {
            tokens: 0,
            has_nothing: false,
        }
    }

    /// Returns the set of nothing alone.
    pub fn nothing() -> TerminalSet {
        TerminalSet {
            tokens: 0,
            has_nothing: true,
        }
    }

    /// Returns the set of the token of a number.
    pub fn of(number: usize) -> TerminalSet {
        TerminalSet {
            tokens: if number < MOST_TERMINALS {
                1 << number
            } else {
                0
            },
            has_nothing: false,
        }
    }

    /// Reports whether the token of a number is in it.
    pub fn has(&self, number: usize) -> bool {
        self.tokens & TerminalSet::of(number).tokens != 0
    }

    /// Reports whether nothing at all is in it.
    pub fn is_empty(&self) -> bool {
        *self == TerminalSet::none()
    }

    /// Returns its tokens, without nothing.
    pub fn tokens(&self) -> TerminalSet
        ensures tokens { result.tokens ≡ self.now.tokens }
        ensures nothing { result.has_nothing ≡ false }
    {
        TerminalSet {
            tokens: self.tokens,
            has_nothing: false,
        }
    }

    /// Adds all of another set, and reports whether one of these was new.
    pub fn add(&mut self, other: &TerminalSet) -> bool
        ensures still { result ≡ false → self.new ≡ self.old }
    {
        let before = *self;
        self.tokens |= other.tokens;
        self.has_nothing = self.has_nothing || other.has_nothing;
        *self != before
    }
}
