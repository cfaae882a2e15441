//! What a beginner wrote, as it should be written: a rewriting of its tokens, which a hint or a warning ends with.
//!
//! A rewriting that can't be made, as of a piece on several lines or a long one, leaves an example in its place.

use crate::assigning::value_end;
use crate::chosen::{add_chosen, add_decided, end_from};
use crate::conditions::condition_end;
use crate::counted::{add_counted, add_for};
use crate::heads::behind_brackets;
use crate::indices::token_at;
use crate::named::{add_exchanged_names, add_unnamed};
use crate::notes::Note;
use crate::pieces::{add_argument, add_name, add_piece, operand_before, operand_end, word_of};
use crate::recalled::{add_aimed, add_backwards, add_filled, add_words, begin_call};
use crate::regrouped::{
    add_both, add_compared, add_compared_group, add_either, add_grown, add_joined, add_negated,
    add_squared,
};
use derivations::Located;
use tokens::Token;

/// The most bytes of a rewriting.
pub const MOST_WRITTEN: usize = 100;

/// A rewriting, by the indices of tokens.
#[derive(Clone, Copy)]
pub enum Rewrite {
    /// The operands beside the tokens from one index on, up to another one, with this sign between them.
    Joined(usize, usize, &'static str),
    /// The operand before a sign, times itself: the sign's first token, and the one behind it.
    Squared(usize, usize),
    /// Two comparisons of what stands between them, by the second one's operator.
    Compared(usize),
    /// Two comparisons of the left side of the first one, by the `||` behind it.
    Either(usize),
    /// Two comparisons with this sign between them, by the index of the sign that they have.
    Both(usize, &'static str),
    /// What a sign on bits joins in brackets, and the comparison of it.
    Masked(usize),
    /// A comparison in brackets behind a `!`, by the index of its sign.
    Negated(usize),
    /// A name with `++` or `--` behind it.
    Stepped(usize, &'static str),
    /// An assignment in brackets, and the comparison of it, by the index of its name.
    Kept(usize),
    /// A variable that is set to a sum with it, by the index of the sum's sign.
    Grown(usize),
    /// A variable that is set to what the call of an index answers.
    Answered(usize),
    /// An `else if` with the condition from an index on, up to another one.
    Otherwise(usize, usize),
    /// A comparison of a name with what stands behind its `=`, up to an index.
    Equal(usize, usize),
    /// A call with its first two arguments exchanged.
    Exchanged(usize),
    /// A call with this as its second argument.
    Limited(usize, &'static str),
    /// A call with 180 degrees more, and its second argument without its sign.
    Backwards(usize),
    /// A call of a function with the degree of a scan, and the range that it answered.
    Aimed(usize, usize),
    /// A call with as many arguments as the function takes: those that are given, and names or examples for others.
    Filled(usize, usize, usize),
    /// A call whose arguments have no names, with the bytes behind its bracket.
    Unnamed(usize),
    /// The same, of arguments that are assignments.
    Unassigned(usize),
    /// A statement that begins at an index, with the condition behind the `if` of another one.
    Chosen(usize, usize),
    /// The same, by the `?` of an index.
    Decided(usize, usize),
    /// A `return` of what stands from an index on, up to another one.
    Returned(usize, usize),
    /// The `if` or `while` of an index, with brackets around its whole condition.
    Surrounded(usize),
    /// A condition from an index on, up to another one, and that the variable of a name is greater than 0.
    Positive(usize, usize, usize),
    /// A name that is set to what the call of an index answers.
    Renewed(usize, usize),
    /// A loop that counts up to what stands behind a word.
    Counted(usize),
    /// A loop for a `for`.
    For(usize),
    /// A call with brackets around what stands behind its name, up to the end of the statement.
    Called(usize),
    /// An assignment of what stands from an index on, up to another one, to the name of a third one.
    Assigned(usize, usize, usize),
    /// A call of `atan` with its argument multiplied.
    Multiplied(usize),
    /// An `if` or a `while` whose statements stand in its brackets.
    Listed(usize),
    /// A remainder by the index of its sign, of what is added in place of what is taken away.
    Raised(usize),
}

/// Adds how something is to be written: its rewriting, or an example where there is one.
#[inline(never)]
pub fn add_written(
    note: &mut Note,
    source: &[u8],
    tokens: &[Located],
    rewrite: Rewrite,
    example: &str,
) {
    let mut own = Note::new();
    let is_made = rewrite.add(&mut own, source, tokens).is_some();
    let text = if is_made && own.as_str().len() <= MOST_WRITTEN {
        own.as_str()
    } else {
        example
    };
    if !text.is_empty() {
        note.add(": write ");
        note.quote(text);
    }
}

impl Rewrite {
    /// Adds the rewriting. Answers nothing if it can't be made.
    fn add(self, note: &mut Note, source: &[u8], tokens: &[Located]) -> Option<()> {
        match self {
            Rewrite::Unnamed(call) => add_unnamed(note, source, tokens, call),
            Rewrite::Unassigned(call) => add_exchanged_names(note, tokens, call),
            Rewrite::Chosen(begin, test) => add_chosen(note, tokens, begin, test),
            Rewrite::Decided(begin, mark) => add_decided(note, source, tokens, begin, mark),
            Rewrite::Returned(begin, end) => {
                note.add("return ");
                add_piece(note, tokens, begin, end)?;
                note.push(';');
                Some(())
            }
            Rewrite::Surrounded(word) => add_surrounded(note, tokens, word),
            Rewrite::Listed(word) => add_listed(note, tokens, word),
            Rewrite::Raised(sign) => add_raised(note, tokens, sign),
            Rewrite::Counted(word) => add_counted(note, tokens, word),
            Rewrite::For(word) => add_for(note, tokens, word),
            Rewrite::Assigned(begin, end, name) => add_assigned(note, tokens, begin, end, name),
            Rewrite::Exchanged(_)
            | Rewrite::Limited(..)
            | Rewrite::Backwards(_)
            | Rewrite::Aimed(..)
            | Rewrite::Filled(..)
            | Rewrite::Called(_)
            | Rewrite::Renewed(..)
            | Rewrite::Multiplied(_) => self.add_call(note, tokens),
            Rewrite::Joined(..)
            | Rewrite::Squared(..)
            | Rewrite::Compared(_)
            | Rewrite::Either(_)
            | Rewrite::Equal(..)
            | Rewrite::Positive(..) => self.add_operation(note, tokens),
            Rewrite::Both(..)
            | Rewrite::Masked(_)
            | Rewrite::Negated(_)
            | Rewrite::Stepped(..)
            | Rewrite::Kept(_)
            | Rewrite::Grown(_)
            | Rewrite::Answered(_)
            | Rewrite::Otherwise(..) => self.add_grouped(note, tokens),
        }
    }

    /// Adds the rewriting of an operator.
    fn add_operation(self, note: &mut Note, tokens: &[Located]) -> Option<()> {
        match self {
            Rewrite::Joined(from, to, sign) => add_joined(note, tokens, from, to, sign),
            Rewrite::Squared(from, to) => add_squared(note, tokens, from, to),
            Rewrite::Compared(second) => add_compared(note, tokens, second),
            Rewrite::Either(sign) => add_either(note, tokens, sign),
            Rewrite::Equal(equals, end) => {
                add_name(note, tokens, equals.checked_sub(1)?)?;
                note.add(" == ");
                add_piece(note, tokens, equals.saturating_add(1), end)
            }
            Rewrite::Positive(begin, end, name) => {
                note.add("if (");
                add_name(note, tokens, name)?;
                note.add(" > 0 && ");
                add_piece(note, tokens, begin, end)?;
                note.push(')');
                Some(())
            }
            // `add` asks for no other one
            _ => None,
        }
    }

    /// Adds the rewriting of what is grouped in another way.
    fn add_grouped(self, note: &mut Note, tokens: &[Located]) -> Option<()> {
        match self {
            Rewrite::Both(sign, other) => add_both(note, tokens, sign, other),
            Rewrite::Masked(sign) => {
                let begin = operand_before(tokens, sign)?;
                let middle = operand_end(tokens, sign.saturating_add(1))?;
                add_compared_group(note, tokens, begin, middle)
            }
            Rewrite::Kept(name) => {
                let middle = operand_end(tokens, name.saturating_add(2))?;
                add_compared_group(note, tokens, name, middle)
            }
            Rewrite::Negated(sign) => add_negated(note, tokens, sign),
            Rewrite::Stepped(name, step) => {
                add_name(note, tokens, name)?;
                note.add(step);
                Some(())
            }
            Rewrite::Grown(sign) => add_grown(note, tokens, sign),
            Rewrite::Answered(call) => {
                note.add("r = ");
                add_piece(
                    note,
                    tokens,
                    call,
                    end_from(tokens, call)?.saturating_add(1),
                )
            }
            Rewrite::Otherwise(begin, end) => {
                note.add("else if ");
                add_piece(note, tokens, begin, end)
            }
            // `add` asks for no other one
            _ => None,
        }
    }

    /// Adds the rewriting of a call.
    fn add_call(self, note: &mut Note, tokens: &[Located]) -> Option<()> {
        match self {
            Rewrite::Exchanged(call) => {
                begin_call(note, tokens, call)?;
                add_argument(note, tokens, call, 1)?;
                note.add(", ");
                add_argument(note, tokens, call, 0)?;
            }
            Rewrite::Limited(call, most) => {
                begin_call(note, tokens, call)?;
                add_argument(note, tokens, call, 0)?;
                note.add(", ");
                note.add(most);
            }
            Rewrite::Backwards(call) => add_backwards(note, tokens, call)?,
            Rewrite::Aimed(call, scan) => add_aimed(note, tokens, call, scan)?,
            Rewrite::Filled(call, wanted, given) => add_filled(note, tokens, call, wanted, given)?,
            Rewrite::Called(call) => {
                begin_call(note, tokens, call)?;
                add_words(note, tokens, call.saturating_add(1))?;
            }
            Rewrite::Renewed(name, call) => {
                add_name(note, tokens, name)?;
                note.add(" = ");
                begin_call(note, tokens, call)?;
            }
            Rewrite::Multiplied(call) => {
                begin_call(note, tokens, call)?;
                note.add("100000 * ");
                add_argument(note, tokens, call, 0)?;
            }
            // `add` asks for no other one
            _ => return None,
        }
        note.push(')');
        Some(())
    }
}

/// Adds an `if` or a `while` with brackets around its whole condition.
fn add_surrounded(note: &mut Note, tokens: &[Located], word: usize) -> Option<()> {
    let Token::Keyword(test) = token_at(tokens, word) else {
        return None;
    };
    let begin = word.saturating_add(1);
    let end = condition_end(tokens, begin)?;
    note.add(word_of(test)?);
    note.add(" (");
    add_piece(note, tokens, begin, end)?;
    note.push(')');
    Some(())
}

/// Adds an `if` or a `while` whose statements stand in its brackets.
fn add_listed(note: &mut Note, tokens: &[Located], word: usize) -> Option<()> {
    let Token::Keyword(test) = token_at(tokens, word) else {
        return None;
    };
    let close = behind_brackets(tokens, word)?.checked_sub(1)?;
    let begin = word.saturating_add(2);
    let first = value_end(tokens, begin);
    let statement = first.saturating_add(1);
    let end = value_end(tokens, statement);
    let second = if end < close { end } else { close };
    note.add(word_of(test)?);
    note.add(" (");
    add_piece(note, tokens, begin, first)?;
    note.add(") ");
    add_piece(note, tokens, statement, second)?;
    note.push(';');
    if second < close {
        note.add(" else ");
        add_piece(note, tokens, second.saturating_add(1), close)?;
        note.push(';');
    }
    Some(())
}

/// Adds a remainder by the index of its sign, of a name in brackets to which something is added in place of what is taken away.
fn add_raised(note: &mut Note, tokens: &[Located], sign: usize) -> Option<()> {
    let step = token_at(tokens, sign.checked_sub(2)?);
    let (Token::Constant(less), Token::Constant(whole)) = (
        step,
        token_at(tokens, sign.saturating_add(1)),
    ) else {
        return None;
    };
    note.push('(');
    add_name(note, tokens, sign.checked_sub(4)?)?;
    note.count(" + ", u64::from(whole.checked_sub(less)?), ")");
    note.count(" % ", u64::from(whole), "");
    Some(())
}

/// Adds an assignment to a name of what stands from an index on, up to another one.
fn add_assigned(
    note: &mut Note,
    tokens: &[Located],
    begin: usize,
    end: usize,
    name: usize,
) -> Option<()> {
    add_name(note, tokens, name)?;
    note.add(" = ");
    add_piece(note, tokens, begin, end)?;
    note.push(';');
    Some(())
}
