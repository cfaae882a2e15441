//! What a source declares: the variables of its file, and those of functions that hide one of them.

use crate::indices::name_at;
use arrayvec::ArrayVec;
use derivations::{Located, Meaning};
use grammar::MOST_NAMES;

/// The declared variables of a source, by the indices of their names' tokens.
#[derive(Drop)]
pub struct Declarations {
    externals: ArrayVec<usize, MOST_NAMES>,
    hiding: ArrayVec<usize, MOST_NAMES>,
}

impl Declarations {
    /// Begins without one.
    pub(crate) fn new() -> Declarations {
        Declarations {
            externals: ArrayVec::new(),
            hiding: ArrayVec::new(),
        }
    }

    /// Returns the variables of the file.
    pub fn externals(&self) -> &[usize] {
        self.externals.as_slice()
    }

    /// Returns the declared variables of functions that hide one of the file.
    pub fn hiding(&self) -> &[usize] {
        self.hiding.as_slice()
    }

    /// Notes what a name declares.
    pub(crate) fn note(&mut self, tokens: &[Located], token: usize, meaning: Meaning) {
        match meaning {
            Meaning::External => {
                let _ = self.externals.try_push(token);
            }
            Meaning::Declares if self.hides(tokens, token) => {
                let _ = self.hiding.try_push(token);
            }
            // no other meaning is asked for
            _ => {}
        }
    }

    /// Reports whether a variable of the file has the name of a token.
    pub fn hides(&self, tokens: &[Located], token: usize) -> bool {
        let name = name_at(tokens, token);
        for external in self.externals() {
            if name_at(tokens, *external) == name {
                return true;
            }
        }
        false
    }
}
