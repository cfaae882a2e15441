//! What may come at a position, in few words, by the tokens that fit there.

use crate::notes::Note;
use arrayvec::ArrayVec;
use derivations::{Located, MOST_FITTING, spelled};
use grammar::{operator_from, store_operator};
use tokens::{Keyword, Punctuator, Token};

/// A kind of what may come at a position.
#[derive(Clone, Copy, PartialEq, Eq)]
enum Wanted {
    /// This punctuator.
    Exactly(Punctuator),
    /// A name alone.
    Name,
    /// A type word.
    Type,
    /// The word `else`.
    Else,
    /// The end of the file.
    End,
    /// A statement.
    Statement,
    /// An expression.
    Expression,
    /// The operator of an assignment.
    Assignment,
    /// A binary operator.
    Operator,
}

impl Default for Wanted {
    fn default() -> Wanted {
        Wanted::Name
    }
}

/// Which large kinds fit at a position: a token of theirs isn't named alone.
#[derive(Clone, Copy)]
pub struct Kinds {
    /// A statement may begin there.
    pub statement: bool,
    /// An expression may begin there.
    pub expression: bool,
    /// A binary operator may come there.
    pub operator: bool,
}

impl Kinds {
    /// Finds the kinds, by the tokens that fit.
    pub fn of(fitting: &[Located]) -> Kinds {
        Kinds {
            statement: has(fitting, &Token::Keyword(Keyword::While)),
            expression: has(fitting, &Token::Constant(0)),
            operator: has(fitting, &Token::Punctuator(Punctuator::Star)),
        }
    }

    /// Returns the kind of a token that fits.
    fn kind(self, token: &Token) -> Wanted {
        match *token {
            Token::Keyword(Keyword::Type) => Wanted::Type,
            Token::Keyword(Keyword::Else) => Wanted::Else,
            Token::End => Wanted::End,
            Token::Name(_) => self.operand(Wanted::Name),
            Token::Punctuator(punctuator) => self.mark(punctuator),
            Token::Keyword(_) | Token::Constant(_) | Token::Fault(_) => self.operand(
                Wanted::Expression,
            ),
        }
    }

    /// Returns the kind of what begins an expression: this one, if none may come there.
    fn operand(self, alone: Wanted) -> Wanted {
        if self.statement {
            Wanted::Statement
        } else if self.expression {
            Wanted::Expression
        } else {
            alone
        }
    }

    /// Returns the kind of a punctuator.
    fn mark(self, punctuator: Punctuator) -> Wanted {
        let token = Token::Punctuator(punctuator);
        match punctuator {
            Punctuator::OpenCurly | Punctuator::Semicolon if self.statement => Wanted::Statement,
            Punctuator::Minus if self.operator => Wanted::Operator,
            Punctuator::OpenRound
            | Punctuator::Minus
            | Punctuator::Not
            | Punctuator::Tilde
            | Punctuator::PlusPlus
            | Punctuator::MinusMinus => self.operand(Wanted::Exactly(punctuator)),
            _ if store_operator(&token).is_some() => Wanted::Assignment,
            _ if operator_from(&token, 1).is_some() => Wanted::Operator,
            _ => Wanted::Exactly(punctuator),
        }
    }
}

impl Wanted {
    /// Reports whether it is named before the large kinds.
    fn is_small(self) -> bool {
        !matches!(
            self,
            Wanted::Statement | Wanted::Expression | Wanted::Assignment | Wanted::Operator
        )
    }

    /// Adds it in words.
    fn add(self, note: &mut Note) {
        match self {
            Wanted::Exactly(punctuator) => note.quote(spelled(punctuator)),
            Wanted::Name => note.add("a name"),
            Wanted::Type => note.add("a declaration"),
            Wanted::Else => note.add("`else`"),
            Wanted::End => note.add("the end of the file"),
            Wanted::Statement => note.add("a statement"),
            Wanted::Expression => note.add("an expression"),
            Wanted::Assignment => note.add("an assignment such as `=`"),
            Wanted::Operator => note.add("an operator such as `+`"),
        }
    }
}

/// Reports whether a token is among those that fit.
/// It isn't inlined, since the page's module is to be small.
#[inline(never)]
pub fn has(fitting: &[Located], token: &Token) -> bool {
    for located in fitting {
        if located.token == *token {
            return true;
        }
    }
    false
}

/// Adds what may come at a position, by the tokens that fit there: punctuators and names first.
pub fn add_wanted(note: &mut Note, fitting: &[Located]) {
    let kinds = Kinds::of(fitting);
    let mut wanted: ArrayVec<Wanted, MOST_FITTING> = ArrayVec::new();
    for is_small in [true, false] {
        for located in fitting {
            let kind = kinds.kind(&located.token);
            if kind.is_small() == is_small && !wanted.as_slice().contains(&kind) {
                let _ = wanted.try_push(kind);
            }
        }
    }
    add_list(note, wanted.as_slice());
}

/// Adds a list in words.
fn add_list(note: &mut Note, wanted: &[Wanted]) {
    let last = wanted.len().saturating_sub(1);
    for (number, kind) in wanted.iter().enumerate() {
        match number {
            0 => {}
            _ if number == last => note.add(" or "),
            _ => note.add(", "),
        }
        kind.add(note);
    }
}
