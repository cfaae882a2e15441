//! The tokens that fit at a position, as the grammar's table has them.

use crate::locations::Located;
use crate::steps::Derivation;
use arrayvec::ArrayVec;
use tokens::{Keyword, Name, Punctuator, Token};

/// The most tokens that fit at a position: all.
pub const MOST_FITTING: usize = PUNCTUATORS.len() + WORDS.len() + 3;

/// All punctuators, in the order of their enum.
static PUNCTUATORS: [Punctuator; 39] = [
    Punctuator::Plus,
    Punctuator::Minus,
    Punctuator::Star,
    Punctuator::Slash,
    Punctuator::Percent,
    Punctuator::And,
    Punctuator::Or,
    Punctuator::Xor,
    Punctuator::Tilde,
    Punctuator::Not,
    Punctuator::Less,
    Punctuator::Greater,
    Punctuator::Equals,
    Punctuator::ShiftLeft,
    Punctuator::ShiftRight,
    Punctuator::LessEquals,
    Punctuator::GreaterEquals,
    Punctuator::EqualsEquals,
    Punctuator::NotEquals,
    Punctuator::AndAnd,
    Punctuator::OrOr,
    Punctuator::PlusPlus,
    Punctuator::MinusMinus,
    Punctuator::PlusEquals,
    Punctuator::MinusEquals,
    Punctuator::StarEquals,
    Punctuator::SlashEquals,
    Punctuator::PercentEquals,
    Punctuator::ShiftLeftEquals,
    Punctuator::ShiftRightEquals,
    Punctuator::AndEquals,
    Punctuator::XorEquals,
    Punctuator::OrEquals,
    Punctuator::OpenRound,
    Punctuator::CloseRound,
    Punctuator::OpenCurly,
    Punctuator::CloseCurly,
    Punctuator::Comma,
    Punctuator::Semicolon,
];

/// The texts of the punctuators, in the order of their enum.
static SPELLINGS: [&str; 39] = [
    "+", "-", "*", "/", "%", "&", "|", "^", "~", "!", "<", ">", "=", "<<", ">>", "<=", ">=", "==",
    "!=", "&&", "||", "++", "--", "+=", "-=", "*=", "/=", "%=", "<<=", ">>=", "&=", "^=", "|=",
    "(", ")", "{", "}", ",", ";",
];

/// The words that fit anywhere.
static WORDS: [Keyword; 5] = [
    Keyword::If,
    Keyword::Else,
    Keyword::While,
    Keyword::Return,
    Keyword::Type,
];

/// Returns the text of a punctuator.
pub fn spelled(punctuator: Punctuator) -> &'static str {
    SPELLINGS[punctuator as usize]
}

/// The tokens that fit at a position, each without a position of its own.
pub type Fitting = ArrayVec<Located, MOST_FITTING>;

/// Finds the tokens that may replace the one of an index, if those before it fit: punctuators, words, a name, a
/// constant, the end. The table is asked for each of them. The token before decides anew what it begins, as it may be
/// the token after it that chooses its production.
pub fn fitting(tokens: &[Located], index: usize) -> Fitting {
    let gap = Gap::before(tokens, index);
    let mut found = ArrayVec::new();
    for punctuator in &PUNCTUATORS {
        gap.add(&mut found, Token::Punctuator(*punctuator));
    }
    for word in &WORDS {
        gap.add(&mut found, Token::Keyword(*word));
    }
    for token in [Token::Name(Name::new()), Token::Constant(0), Token::End] {
        gap.add(&mut found, token);
    }
    found
}

/// A position between two tokens.
#[derive(Drop)]
struct Gap<'a> {
    /// The derivation before the token that precedes the position.
    before: Derivation<'a>,
    /// That token, if there is one.
    kept: &'a [Located],
}

impl<'a> Gap<'a> {
    /// Returns the position before the token of an index.
    fn before(tokens: &'a [Located], index: usize) -> Gap<'a> {
        let kept = index.saturating_sub(1);
        Gap {
            before: Derivation::reached(tokens, kept),
            kept: tokens.get(kept..index).unwrap_or(&[]),
        }
    }

    /// Adds a token to those found, if it fits here.
    fn add(&self, found: &mut Fitting, token: Token) {
        let mut tokens: ArrayVec<Located, 2> = ArrayVec::new();
        let _ = tokens.try_extend_from_slice(self.kept);
        let _ = tokens.try_push(placeless(&token));
        if self.before.matches_all(tokens.as_slice()) {
            let _ = found.try_push(placeless(&token));
        }
    }
}

/// Returns a token without a position of its own.
fn placeless(token: &Token) -> Located {
    Located {
        token: *token,
        line: 1,
        column: 1,
        start: 0,
        end: 0,
    }
}
