//! The eighteen binary operators and the eleven assignment operators, with the punctuators that spell them.

ghost use Rattle.std.specs.Prelude.{◌≡◌, ◌≤◌, length};
ghost use Rattle.tokens.specs.Punctuators.{spelling};
ghost use Rattle.grammar.specs.Operators.{binary_of, binary_punctuator, op_of, store_of, store_punctuator};
ghost use Rattle.grammar.specs.Laws.OperatorTokens.{store_operator};
ghost use Rattle.grammar.specs.Laws.Climbing.{operator_from};

use arith::Op;
use tokens::{Punctuator, Token};

/// What a store does to a variable: it sets it to the word, or to the operator's result of the variable and the word.
#[derive(Clone, Copy, Debug, PartialEq, Eq)]
pub enum StoreOp {
    /// `=`
    Set,
    /// `+=`
    Add,
    /// `-=`
    Subtract,
    /// `*=`
    Multiply,
    /// `/=`
    Divide,
    /// `%=`
    Remainder,
    /// `<<=`
    ShiftLeft,
    /// `>>=`
    ShiftRight,
    /// `&=`
    BitAnd,
    /// `^=`
    BitXor,
    /// `|=`
    BitOr,
}

/// The level of unary operators, past those of binary ones.
pub const UNARY_LEVEL: u8 = 11;

/// A binary operator with its level: 1 binds loosest, 10 tightest.
#[derive(Clone, Copy, PartialEq, Eq)]
pub struct BinaryOperator {
    /// The level, from 1 to 10.
    pub level: u8,
    /// The operator.
    pub op: Op,
}

impl StoreOp {
    /// Returns the binary operator that makes the new value of the variable's and the right side: none for `=`.
    #[inline(always)]
    pub fn op(self) -> Option<Op>
        ensures { result ≡ op_of self }
    {
        match self {
            StoreOp::Set => None,
            StoreOp::Add => Some(Op::Add),
            StoreOp::Subtract => Some(Op::Subtract),
            StoreOp::Multiply => Some(Op::Multiply),
            StoreOp::Divide => Some(Op::Divide),
            StoreOp::Remainder => Some(Op::Remainder),
            StoreOp::ShiftLeft => Some(Op::ShiftLeft),
            StoreOp::ShiftRight => Some(Op::ShiftRight),
            StoreOp::BitAnd => Some(Op::BitAnd),
            StoreOp::BitXor => Some(Op::BitXor),
            StoreOp::BitOr => Some(Op::BitOr),
        }
    }
}

/// Returns the operator that a token spells, with its level, if that is this level or a tighter one.
#[inline(always)]
pub fn operator_from(token: &Token, level: u8) -> Option<BinaryOperator>
    ensures { result ≡ operator_from level token.now }
{
    let Token::Punctuator(punctuator) = *token else {
        return None;
    };
    match binary_of(punctuator) {
        Some(binary) if binary.level >= level => Some(binary),
        _ => None,
    }
}

/// Returns the binary operator that a punctuator spells.
#[inline(always)]
fn binary_of(punctuator: Punctuator) -> Option<BinaryOperator>
    ensures { result ≡ binary_of punctuator }
{
    let (level, op) = match punctuator {
        Punctuator::OrOr => (1, Op::Or),
        Punctuator::AndAnd => (2, Op::And),
        Punctuator::Or => (3, Op::BitOr),
        Punctuator::Xor => (4, Op::BitXor),
        Punctuator::And => (5, Op::BitAnd),
        Punctuator::EqualsEquals => (6, Op::Equal),
        Punctuator::NotEquals => (6, Op::NotEqual),
        Punctuator::Less => (7, Op::Less),
        Punctuator::Greater => (7, Op::Greater),
        Punctuator::LessEquals => (7, Op::LessOrEqual),
        Punctuator::GreaterEquals => (7, Op::GreaterOrEqual),
        Punctuator::ShiftLeft => (8, Op::ShiftLeft),
        Punctuator::ShiftRight => (8, Op::ShiftRight),
        Punctuator::Plus => (9, Op::Add),
        Punctuator::Minus => (9, Op::Subtract),
        Punctuator::Star => (10, Op::Multiply),
        Punctuator::Slash => (10, Op::Divide),
        Punctuator::Percent => (10, Op::Remainder),
        _ => return None,
    };
    Some(BinaryOperator { level, op })
}

/// Returns the operator of an assignment that the token spells.
pub fn store_operator(token: &Token) -> Option<StoreOp>
    ensures { result ≡ store_operator token.now }
{
    match *token {
        Token::Punctuator(punctuator) => store_of(punctuator),
        _ => None,
    }
}

/// Returns the operator of an assignment that a punctuator spells.
fn store_of(punctuator: Punctuator) -> Option<StoreOp>
    ensures { result ≡ store_of punctuator }
{
    match punctuator {
        Punctuator::Equals => Some(StoreOp::Set),
        Punctuator::PlusEquals => Some(StoreOp::Add),
        Punctuator::MinusEquals => Some(StoreOp::Subtract),
        Punctuator::StarEquals => Some(StoreOp::Multiply),
        Punctuator::SlashEquals => Some(StoreOp::Divide),
        Punctuator::PercentEquals => Some(StoreOp::Remainder),
        Punctuator::ShiftLeftEquals => Some(StoreOp::ShiftLeft),
        Punctuator::ShiftRightEquals => Some(StoreOp::ShiftRight),
        Punctuator::AndEquals => Some(StoreOp::BitAnd),
        Punctuator::XorEquals => Some(StoreOp::BitXor),
        Punctuator::OrEquals => Some(StoreOp::BitOr),
        _ => None,
    }
}

/// Returns the punctuator that spells an operator.
pub fn operator_punctuator(op: Op) -> &'static str
    ensures punctuator { result.now ≡ spelling (binary_punctuator op) }
    ensures short { length result.now ≤ 2 }
{
    match op {
        Op::Or => "||",
        Op::And => "&&",
        Op::BitOr => "|",
        Op::BitXor => "^",
        Op::BitAnd => "&",
        Op::Equal => "==",
        Op::NotEqual => "!=",
        Op::Less => "<",
        Op::Greater => ">",
        Op::LessOrEqual => "<=",
        Op::GreaterOrEqual => ">=",
        Op::ShiftLeft => "<<",
        Op::ShiftRight => ">>",
        Op::Add => "+",
        Op::Subtract => "-",
        Op::Multiply => "*",
        Op::Divide => "/",
        Op::Remainder => "%",
    }
}

/// Returns the punctuator that spells an assignment's operator.
pub fn store_punctuator(op: StoreOp) -> &'static str
    ensures punctuator { result.now ≡ spelling (store_punctuator op) }
    ensures short { length result.now ≤ 3 }
{
    match op {
        StoreOp::Set => "=",
        StoreOp::Add => "+=",
        StoreOp::Subtract => "-=",
        StoreOp::Multiply => "*=",
        StoreOp::Divide => "/=",
        StoreOp::Remainder => "%=",
        StoreOp::ShiftLeft => "<<=",
        StoreOp::ShiftRight => ">>=",
        StoreOp::BitAnd => "&=",
        StoreOp::BitXor => "^=",
        StoreOp::BitOr => "|=",
    }
}
