//! What a hint goes by: a fault's token, those around it, and what the derivation wanted there.
//!
//! What many hints ask isn't inlined: the page's module would have a copy for each of them.

use crate::indices::{before, follows, is_called, name_at, token_at, touches};
use crate::wanted::{Kinds, has};
use derivations::{Derivation, Item, Located, Pending, Symbol};
use tokens::{Keyword, Name, Punctuator, Token};

/// A position at which a token doesn't fit.
#[derive(Clone, Copy)]
pub struct Scene<'a> {
    /// The source's bytes.
    pub source: &'a [u8],
    /// Its tokens.
    pub tokens: &'a [Located],
    /// The index of the token that doesn't fit.
    pub index: usize,
    /// What the derivation still had to match.
    pub stack: &'a [Pending],
    /// How many levels were open.
    pub levels: usize,
    /// The tokens that fit there.
    pub fitting: &'a [Located],
    /// Their large kinds.
    pub kinds: Kinds,
}

impl<'a> Scene<'a> {
    /// Returns the scene at a token that doesn't fit, where a derivation has stopped.
    pub fn at(
        source: &'a [u8],
        tokens: &'a [Located],
        derivation: &'a Derivation<'a>,
        fitting: &'a [Located],
    ) -> Scene<'a> {
        Scene {
            source,
            tokens,
            index: derivation.place(),
            stack: derivation.stack(),
            levels: derivation.levels(),
            fitting,
            kinds: Kinds::of(fitting),
        }
    }

    /// Returns the tokens up to the one that doesn't fit.
    pub fn so_far(&self) -> &'a [Located] {
        self.tokens
            .get(..self.index.saturating_add(1))
            .unwrap_or(self.tokens)
    }

    /// Returns the token that doesn't fit.
    pub fn met(&self) -> Token {
        self.token(self.index)
    }

    /// Returns the token of an index: after the last one, the end.
    pub fn token(&self, index: usize) -> Token {
        token_at(self.tokens, index)
    }

    /// Returns the token before the one that doesn't fit, with its position.
    pub fn before(&self) -> Option<&'a Located> {
        before(self.tokens, self.index)
    }

    /// Reports whether the token before is this one.
    pub fn follows(&self, token: &Token) -> bool {
        follows(self.tokens, self.index, token)
    }

    /// Reports whether the token before is this punctuator.
    pub fn follows_mark(&self, punctuator: Punctuator) -> bool {
        self.follows(&Token::Punctuator(punctuator))
    }

    /// Reports whether the token before is this punctuator, and nothing is between.
    pub fn touches_mark(&self, punctuator: Punctuator) -> bool {
        self.follows_mark(punctuator) && self.touches()
    }

    /// Reports whether nothing is between the token before and the one that doesn't fit.
    pub fn touches(&self) -> bool {
        touches(self.tokens, self.index)
    }

    /// Reports whether the token that doesn't fit is this punctuator.
    #[inline(never)]
    pub fn is_mark(&self, punctuator: Punctuator) -> bool {
        self.met() == Token::Punctuator(punctuator)
    }

    /// Reports whether the token that doesn't fit is this word.
    pub fn is_word(&self, word: Keyword) -> bool {
        self.met() == Token::Keyword(word)
    }

    /// Reports whether a token fits.
    #[inline(never)]
    pub fn fits(&self, token: &Token) -> bool {
        has(self.fitting, token)
    }

    /// Reports whether this punctuator fits.
    pub fn fits_mark(&self, punctuator: Punctuator) -> bool {
        self.fits(&Token::Punctuator(punctuator))
    }

    /// Returns what the derivation wanted first.
    pub fn wanted(&self) -> Option<Pending> {
        self.stack.last().copied()
    }

    /// Reports whether the derivation wanted this punctuator first.
    pub fn wants(&self, punctuator: Punctuator) -> bool {
        self.wants_item(Item::Exactly(punctuator))
    }

    /// Reports whether the derivation wanted this item first.
    #[inline(never)]
    pub fn wants_item(&self, item: Item) -> bool {
        match self.wanted() {
            Some(pending) => pending.item == item,
            None => false,
        }
    }

    /// Returns the index of the token at which that was chosen.
    pub fn chosen_at(&self) -> usize {
        match self.wanted() {
            Some(pending) => pending.chosen_at,
            None => self.index,
        }
    }

    /// Reports whether no function is open.
    pub fn is_outside(&self) -> bool {
        self.levels == 0
    }

    /// Returns the index of the name with a `(` behind it that the token that doesn't fit belongs to, or that comes next in
    /// its line.
    #[inline(never)]
    pub fn head(&self) -> Option<usize> {
        let line = self.line(self.index);
        for (index, located) in self.tokens.iter().enumerate() {
            if located.line == line
                && matches!(located.token, Token::Name(_))
                && is_called(self.tokens, index)
            {
                return Some(index);
            }
        }
        None
    }

    /// Returns the name of the token of an index, if it is one.
    pub fn name(&self, index: usize) -> Option<Name> {
        name_at(self.tokens, index)
    }

    /// Reports whether a name occurs at most once.
    #[inline(never)]
    pub fn is_lone(&self, name: &Name) -> bool {
        let mut count: usize = 0;
        for located in self.tokens {
            if located.token == Token::Name(*name) {
                count = count.saturating_add(1);
            }
        }
        count < 2
    }

    /// Returns the line of the token of an index.
    #[inline(never)]
    pub fn line(&self, index: usize) -> u32 {
        match self.tokens.get(index) {
            Some(located) => located.line,
            None => 1,
        }
    }

    /// Returns the index of the token at which the innermost item of a kind was chosen, of those still to match.
    #[inline(never)]
    pub fn pending_at(&self, item: Item) -> Option<usize> {
        for pending in self.stack.iter().rev() {
            if pending.item == item {
                return Some(pending.chosen_at);
            }
        }
        None
    }

    /// Reports whether the head of a function was just derived.
    pub fn is_behind_head(&self) -> bool {
        self.wants_item(Item::Part(Symbol::FunctionBlock))
    }
}
