//! The punctuators by their bytes.

ghost use Rattle.std.specs.Prelude.{◌≡◌, ℕ, [], ◌∷◌, ◌++◌, IfSome, None, true, false};
ghost use Rattle.std.specs.Option.{option_and_then};
ghost use Rattle.tokens.specs.Punctuators.{punctuator_of, spelling};
ghost use Rattle.tokens.specs.Lexing.{EndsBefore, IsOfSingleByte};

use crate::characters::{
    AND, CLOSE_CURLY, CLOSE_ROUND, COMMA, EQUALS, GREATER, KINDS, LESS, MINUS, NOT, OPEN_CURLY,
    OPEN_ROUND, OR, OTHER, PERCENT, PLUS, SEMICOLON, SLASH, STAR, TILDE, XOR,
};
use crate::located_tokens::Punctuator;

impl Punctuator {
    /// Returns the punctuator of one byte.
    #[inline(always)]
    pub(crate) fn of_byte(b: u8) -> Option<Punctuator>
        ensures { result ≡ punctuator_of (b ∷ []) }
    {
        Some(match KINDS[usize::from(b)] {
            OPEN_ROUND => Punctuator::OpenRound,
            CLOSE_ROUND => Punctuator::CloseRound,
            OPEN_CURLY => Punctuator::OpenCurly,
            CLOSE_CURLY => Punctuator::CloseCurly,
            COMMA => Punctuator::Comma,
            SEMICOLON => Punctuator::Semicolon,
            PLUS => Punctuator::Plus,
            MINUS => Punctuator::Minus,
            STAR => Punctuator::Star,
            SLASH => Punctuator::Slash,
            PERCENT => Punctuator::Percent,
            AND => Punctuator::And,
            OR => Punctuator::Or,
            XOR => Punctuator::Xor,
            TILDE => Punctuator::Tilde,
            NOT => Punctuator::Not,
            LESS => Punctuator::Less,
            GREATER => Punctuator::Greater,
            EQUALS => Punctuator::Equals,
            _ => return None,
        })
    }

    /// Reports whether the next byte, if it is at hand, shows that it ends here.
    #[inline(always)]
    pub(crate) fn ends_before(self, next: Option<u8>) -> bool
        ensures { result ≡ true → EndsBefore self next }
    {
        match next {
            Some(b) => !self.may_extend_by(b),
            None => false,
        }
    }

    /// Reports whether the byte is the last of a punctuator of more than one byte.
    #[inline(always)]
    #[tactic(auto, unfolding(crate::specs::Punctuators::punctuator_of))]
    fn may_extend_by(self, b: u8) -> bool
        ensures { result ≡ false → punctuator_of (spelling self ++ b ∷ []) ≡ None }
    {
        matches!(b, b'=' | b'+' | b'-' | b'&' | b'|' | b'<' | b'>')
    }

    /// Returns the punctuator of a byte that no longer one begins with, so that the next byte doesn't matter.
    #[inline(always)]
    pub(crate) fn of_single_byte(b: u8) -> Option<Punctuator>
        ensures { IfSome result (IsOfSingleByte b) }
    {
        let kind = KINDS[usize::from(b)];
        if kind <= OTHER {
            return None;
        }
        match kind {
            OPEN_ROUND => Some(Punctuator::OpenRound),
            CLOSE_ROUND => Some(Punctuator::CloseRound),
            OPEN_CURLY => Some(Punctuator::OpenCurly),
            CLOSE_CURLY => Some(Punctuator::CloseCurly),
            COMMA => Some(Punctuator::Comma),
            SEMICOLON => Some(Punctuator::Semicolon),
            _ => None,
        }
    }

    /// Returns the punctuator that this one and the next byte spell, if there is one.
    #[inline(always)]
    pub(crate) fn extended(self, next: Option<u8>) -> Option<Punctuator>
        ensures { result ≡ option_and_then (λ b. punctuator_of (spelling self ++ b ∷ [])) next }
    {
        self.extended_by(next?)
    }

    /// Returns the punctuator that this one and then the byte spell.
    #[inline(always)]
    #[tactic(auto, unfolding(crate::specs::Punctuators::punctuator_of))]
    fn extended_by(self, b: u8) -> Option<Punctuator>
        ensures { result ≡ punctuator_of (spelling self ++ b ∷ []) }
    {
        match b {
            b'=' => self.extended_by_equals(),
            b'+' if self == Punctuator::Plus => Some(Punctuator::PlusPlus),
            b'-' if self == Punctuator::Minus => Some(Punctuator::MinusMinus),
            b'&' if self == Punctuator::And => Some(Punctuator::AndAnd),
            b'|' if self == Punctuator::Or => Some(Punctuator::OrOr),
            b'<' if self == Punctuator::Less => Some(Punctuator::ShiftLeft),
            b'>' if self == Punctuator::Greater => Some(Punctuator::ShiftRight),
            _ => None,
        }
    }

    /// Returns the punctuator that this one and then `=` spell.
    #[tactic(auto, unfolding(crate::specs::Punctuators::punctuator_of))]
    fn extended_by_equals(self) -> Option<Punctuator>
        ensures { result ≡ punctuator_of (spelling self ++ 61 ∷ []) }
    {
        Some(match self {
            Punctuator::Less => Punctuator::LessEquals,
            Punctuator::Greater => Punctuator::GreaterEquals,
            Punctuator::Equals => Punctuator::EqualsEquals,
            Punctuator::Not => Punctuator::NotEquals,
            Punctuator::Plus => Punctuator::PlusEquals,
            Punctuator::Minus => Punctuator::MinusEquals,
            Punctuator::Star => Punctuator::StarEquals,
            Punctuator::Slash => Punctuator::SlashEquals,
            Punctuator::Percent => Punctuator::PercentEquals,
            Punctuator::ShiftLeft => Punctuator::ShiftLeftEquals,
            Punctuator::ShiftRight => Punctuator::ShiftRightEquals,
            Punctuator::And => Punctuator::AndEquals,
            Punctuator::Xor => Punctuator::XorEquals,
            Punctuator::Or => Punctuator::OrEquals,
            _ => return None,
        })
    }
}
