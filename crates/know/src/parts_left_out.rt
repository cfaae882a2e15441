//! What of a source is left out as its names are found: the parts with faults.

use crate::places::token_from;
use derivations::Located;
use std::alloc::{AllocError, Global};
use tokens::{Punctuator, Token};

/// What is left out of a source.
#[derive(Drop)]
pub struct LeftOut {
    /// The source's bytes, of which those of the parts that are left out are blank, or a `}` that was put there.
    bytes: Vec<u8>,
    /// The place of a fault of what is left, if there is one: all from its function on is left out.
    fault: Option<usize>,
}

/// What becomes of a token.
#[derive(Clone, Copy, PartialEq, Eq)]
pub enum Fate {
    /// It stays.
    Stays,
    /// It is left out.
    Goes,
    /// It is left out, and a `}` is put behind it.
    GoesBeforeBrace,
}

impl LeftOut {
    /// Leaves out nothing of a source.
    pub fn nothing(alloc: Global, source: &[u8]) -> Result<LeftOut, AllocError> {
        LeftOut::of(alloc, source, None)
    }

    /// Leaves out what these bytes of a source haven't any more, and all from the function with a fault on, whose place
    /// is given.
    pub fn of(alloc: Global, bytes: &[u8], fault: Option<usize>) -> Result<LeftOut, AllocError> {
        Ok(LeftOut {
            bytes: Vec::from_slice(alloc, bytes)?,
            fault,
        })
    }

    /// Returns what becomes of a token of the source.
    pub fn fate(&self, source: &[u8], located: &Located) -> Fate {
        let (before, now) = (source.get(located.start()), self.bytes.get(located.start()));
        if before == now {
            return Fate::Stays;
        }
        if now == Some(&b'}') {
            Fate::GoesBeforeBrace
        } else {
            Fate::Goes
        }
    }

    /// Returns the index of the first of a source's tokens from which on all are left out.
    pub fn end(&self, source: &[u8], tokens: &[Located]) -> usize {
        let Some(fault) = self.fault else {
            return tokens.len();
        };
        let at = token_from(tokens, fault);
        let mut safe = Safe::default();
        for (index, located) in tokens.get(..at).unwrap_or(tokens).iter().enumerate() {
            if self.fate(source, located) == Fate::Stays {
                safe.pass(index, &located.token);
            }
        }
        safe.index
    }
}

/// The last place at which nothing is open but a function.
#[derive(Clone, Copy, Default)]
struct Safe {
    /// The index of the token behind it.
    index: usize,
    /// How many braces are open.
    depth: usize,
    /// Whether a bracket opened since.
    has_brackets: bool,
}

impl Safe {
    /// Passes the token of an index.
    fn pass(&mut self, index: usize, token: &Token) {
        let next = index.saturating_add(1);
        match token {
            Token::Punctuator(Punctuator::OpenCurly) => {
                if self.depth == 0 {
                    self.index = next;
                }
                self.depth = self.depth.saturating_add(1);
            }
            Token::Punctuator(Punctuator::CloseCurly) => {
                self.depth = self.depth.saturating_sub(1);
                if self.depth == 0 {
                    self.index = next;
                    self.has_brackets = false;
                }
            }
            Token::Punctuator(Punctuator::OpenRound) => self.has_brackets = true,
            // (behind brackets it ends the types of parameters)
            Token::Punctuator(Punctuator::Semicolon) if self.depth == 0 && !self.has_brackets => {
                self.index = next;
            }
            _ => {}
        }
    }
}
