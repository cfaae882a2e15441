//! The eighteen binary operators on numbers of 32 bits.

ghost use Rattle.std.specs.Prelude.{◌≡◌};
ghost use Rattle.std.specs.Int.{w32, int_wrap};
ghost use Rattle.arith.specs.Op.{is_logic, value_of, quotient, remainder};

/// A binary operator on two numbers `a` and `b` (docs/numbers.md, "Operators"). In the language each group binds
/// tighter than those before it: `||`, `&&`, `|`, `^`, `&`, equality, order, shifts, sums, products.
#[derive(Clone, Copy, Debug, PartialEq, Eq)]
pub enum Op {
    /// `||`: 1 if `a` or `b` is not 0, else 0.
    Or,
    /// `&&`: 1 if neither is 0, else 0.
    And,
    /// `|`: the bits that are in one of the two.
    BitOr,
    /// `^`: the bits that are in exactly one.
    BitXor,
    /// `&`: the bits that are in both.
    BitAnd,
    /// `==`: 1 or 0, as all comparisons.
    Equal,
    /// `!=`
    NotEqual,
    /// `<`
    Less,
    /// `>`
    Greater,
    /// `<=`
    LessOrEqual,
    /// `>=`
    GreaterOrEqual,
    /// `<<`: by the low five bits of `b`; what leaves 32 bits is lost.
    ShiftLeft,
    /// `>>`: by the low five bits of `b`; the sign is kept.
    ShiftRight,
    /// `+`: wraps round at 32 bits.
    Add,
    /// `-`: wraps round at 32 bits.
    Subtract,
    /// `*`: wraps round at 32 bits.
    Multiply,
    /// `/`: rounded towards 0; by 0 it is 0.
    Divide,
    /// `%`: what `/` leaves, with the sign of `a`; by 0 it is 0.
    Remainder,
}

impl Op {
    /// Reports whether the operator is `||` or `&&`, which take each side as a truth value.
    pub fn is_logic(self) -> bool
        ensures { result ≡ is_logic self }
    {
        matches!(self, Op::Or | Op::And)
    }
}

/// Returns what an operator makes of any two numbers. Both have been evaluated before, also for `&&` and `||`
/// (docs/numbers.md, "Operators").
#[inline(always)]
#[tactic(auto, using(crate::proofs::OpLemmas::op_steps))]
pub fn binop(op: Op, a: i32, b: i32) -> i32
    ensures { result ≡ value_of op a b }
{
    match op {
        Op::Or => i32::from(a != 0 || b != 0),
        Op::And => i32::from(a != 0 && b != 0),
        Op::BitOr => a | b,
        Op::BitXor => a ^ b,
        Op::BitAnd => a & b,
        Op::Equal => i32::from(a == b),
        Op::NotEqual => i32::from(a != b),
        Op::Less => i32::from(a < b),
        Op::Greater => i32::from(a > b),
        Op::LessOrEqual => i32::from(a <= b),
        Op::GreaterOrEqual => i32::from(a >= b),
        Op::ShiftLeft => a.wrapping_shl(b.cast_unsigned()),
        Op::ShiftRight => a.wrapping_shr(b.cast_unsigned()),
        Op::Add => a.wrapping_add(b),
        Op::Subtract => a.wrapping_sub(b),
        Op::Multiply => a.wrapping_mul(b),
        Op::Divide => quotient(a, b),
        Op::Remainder => remainder(a, b),
    }
}

/// Returns the quotient, rounded towards 0; by 0 it is 0. The least number by -1 wraps round to itself.
#[inline(always)]
#[tactic(auto, using(crate::proofs::OpLemmas::op_steps))]
fn quotient(a: i32, b: i32) -> i32
    ensures { result ≡ int_wrap w32 (quotient a b) }
{
    if b == 0 { 0 } else { a.wrapping_div(b) }
}

/// Returns the remainder of the quotient, with the sign of `a`; by 0 it is 0.
#[inline(always)]
fn remainder(a: i32, b: i32) -> i32
    ensures { result ≡ int_wrap w32 (remainder a b) }
{
    if b == 0 { 0 } else { a.wrapping_rem(b) }
}
