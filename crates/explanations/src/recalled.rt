//! Calls with other arguments than they have.

use crate::heads::is_head;
use crate::indices::{name_at, token_at};
use crate::notes::Note;
use crate::pieces::{add_argument, add_name, add_piece, argument, is_mark, operand_end};
use derivations::Located;
use tokens::{Punctuator, Token};

/// Examples of the arguments that a call of an intrinsic function lacks, from the first on.
static LACKING: [(&[u8], &[&str]); 4] = [
    (b"scan", &["degree", "10"]),
    (b"cannon", &["degree", "range"]),
    (b"drive", &["degree", "50"]),
    (b"rand", &["360"]),
];

/// Adds a call with as many arguments as its function takes.
pub fn add_filled(
    note: &mut Note,
    tokens: &[Located],
    call: usize,
    wanted: usize,
    given: usize,
) -> Option<()> {
    begin_call(note, tokens, call)?;
    for number in 0..wanted {
        if number > 0 {
            note.add(", ");
        }
        if number < given {
            add_argument(note, tokens, call, number)?;
        } else {
            add_lacking(note, tokens, call, number)?;
        }
    }
    Some(())
}

/// Adds an argument that a call lacks: of `rand` what a remainder is taken by, of another intrinsic function an example, and of
/// one of the file the parameter's name.
fn add_lacking(note: &mut Note, tokens: &[Located], call: usize, number: usize) -> Option<()> {
    let name = name_at(tokens, call)?;
    let whole = call.saturating_add(4);
    if name.has_bytes(b"rand")
        && is_mark(tokens, whole.saturating_sub(1), Punctuator::Percent)
        && matches!(token_at(tokens, whole), Token::Constant(_))
    {
        return add_piece(note, tokens, whole, whole.saturating_add(1));
    }
    for (intrinsic, examples) in &LACKING {
        if name.has_bytes(intrinsic) {
            note.add(examples.get(number)?);
            return Some(());
        }
    }
    let head = head_of(tokens, call)?;
    add_argument(note, tokens, head, number)
}

/// Returns the index of the name in the head of the function that the token of an index names.
fn head_of(tokens: &[Located], call: usize) -> Option<usize> {
    let name = name_at(tokens, call)?;
    for index in 0..tokens.len() {
        if name_at(tokens, index) == Some(name) && is_head(tokens, index) {
            return Some(index);
        }
    }
    None
}

/// Adds a call with a degree that is turned, and its speed without a sign. What binds less than a sum isn't turned.
pub fn add_backwards(note: &mut Note, tokens: &[Located], call: usize) -> Option<()> {
    let (degree, comma) = argument(tokens, call, 0)?;
    let (minus, end) = argument(tokens, call, 1)?;
    if operand_end(tokens, degree)? != comma || !is_mark(tokens, minus, Punctuator::Minus) {
        return None;
    }
    begin_call(note, tokens, call)?;
    add_piece(note, tokens, degree, comma)?;
    note.add(" + 180, ");
    add_piece(note, tokens, minus.saturating_add(1), end)
}

/// Adds a call with the degree of a scan, and as its second argument the variable that has what the scan answered: of a shot,
/// and else its own one.
pub fn add_aimed(note: &mut Note, tokens: &[Located], call: usize, scan: usize) -> Option<()> {
    begin_call(note, tokens, call)?;
    add_argument(note, tokens, scan, 0)?;
    note.add(", ");
    let is_shot = match name_at(tokens, call) {
        Some(name) => name.has_bytes(b"cannon"),
        None => false,
    };
    if is_shot {
        add_name(note, tokens, scan.checked_sub(2)?)
    } else {
        add_argument(note, tokens, call, 1)
    }
}

/// Adds the name of a call and its bracket.
pub fn begin_call(note: &mut Note, tokens: &[Located], call: usize) -> Option<()> {
    add_name(note, tokens, call)?;
    note.push('(');
    Some(())
}

/// Adds what stands from an index on, up to the `;` or the `}` of its line.
pub fn add_words(note: &mut Note, tokens: &[Located], begin: usize) -> Option<()> {
    let first = begin.saturating_add(usize::from(is_mark(tokens, begin, Punctuator::OpenCurly)));
    for end in first..tokens.len() {
        if is_mark(tokens, end, Punctuator::Semicolon)
            || is_mark(tokens, end, Punctuator::CloseCurly)
        {
            return add_piece(note, tokens, first, end);
        }
    }
    None
}
