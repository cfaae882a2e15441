//! Operators between other operands, or with brackets around what they join.

use crate::chosen::end_from;
use crate::indices::token_at;
use crate::notes::Note;
use crate::pieces::{add_name, add_piece, operand_before, operand_end};
use derivations::Located;
use tokens::Token;

/// Adds the operands beside some tokens, with a sign between them.
pub fn add_joined(
    note: &mut Note,
    tokens: &[Located],
    from: usize,
    to: usize,
    sign: &str,
) -> Option<()> {
    add_piece(note, tokens, operand_before(tokens, from)?, from)?;
    note.push(' ');
    note.add(sign);
    note.push(' ');
    add_piece(note, tokens, to, operand_end(tokens, to)?)
}

/// Adds the operand before a sign, times itself, if a 2 stands behind the sign.
pub fn add_squared(note: &mut Note, tokens: &[Located], from: usize, to: usize) -> Option<()> {
    let begin = operand_before(tokens, from)?;
    if token_at(tokens, to) != Token::Constant(2) {
        return None;
    }
    add_piece(note, tokens, begin, from)?;
    note.add(" * ");
    add_piece(note, tokens, begin, from)
}

/// Adds two comparisons of what stands between them.
pub fn add_compared(note: &mut Note, tokens: &[Located], second: usize) -> Option<()> {
    let middle = operand_before(tokens, second)?;
    // (a call isn't made twice)
    if middle.saturating_add(1) != second {
        return None;
    }
    let first = middle.checked_sub(1)?;
    add_piece(note, tokens, operand_before(tokens, first)?, second)?;
    note.add(" && ");
    add_piece(
        note,
        tokens,
        middle,
        operand_end(tokens, second.saturating_add(1))?,
    )
}

/// Adds two comparisons of the left side of the first one.
pub fn add_either(note: &mut Note, tokens: &[Located], sign: usize) -> Option<()> {
    let value = operand_before(tokens, sign)?;
    let begin = operand_before(tokens, value.checked_sub(1)?)?;
    add_piece(note, tokens, begin, sign)?;
    note.add(" || ");
    add_piece(note, tokens, begin, value)?;
    note.push(' ');
    let other = sign.saturating_add(1);
    add_piece(note, tokens, other, operand_end(tokens, other)?)
}

/// Adds a comparison in brackets behind a `!`.
pub fn add_negated(note: &mut Note, tokens: &[Located], sign: usize) -> Option<()> {
    note.add("!(");
    let begin = operand_before(tokens, sign)?;
    add_piece(
        note,
        tokens,
        begin,
        operand_end(tokens, sign.saturating_add(1))?,
    )?;
    note.push(')');
    Some(())
}

/// Adds how a variable is set to a sum with it.
pub fn add_grown(note: &mut Note, tokens: &[Located], sign: usize) -> Option<()> {
    let begin = operand_before(tokens, sign)?;
    add_name(note, tokens, begin)?;
    note.add(" = ");
    add_piece(note, tokens, begin, end_from(tokens, begin)?)
}

/// Adds two comparisons with another sign between them.
pub fn add_both(note: &mut Note, tokens: &[Located], sign: usize, other: &str) -> Option<()> {
    let value = operand_before(tokens, sign)?;
    let begin = operand_before(tokens, value.checked_sub(1)?)?;
    let next = sign.saturating_add(1);
    let middle = operand_end(tokens, next)?;
    add_piece(note, tokens, begin, sign)?;
    note.push(' ');
    note.add(other);
    note.push(' ');
    add_piece(
        note,
        tokens,
        next,
        operand_end(tokens, middle.saturating_add(1))?,
    )
}

/// Adds what stands from an index on up to another one in brackets, and behind it how that is compared.
pub fn add_compared_group(
    note: &mut Note,
    tokens: &[Located],
    begin: usize,
    middle: usize,
) -> Option<()> {
    note.push('(');
    add_piece(note, tokens, begin, middle)?;
    note.add(") ");
    add_piece(
        note,
        tokens,
        middle,
        operand_end(tokens, middle.saturating_add(1))?,
    )
}
