//! Fixes: changes of a source that a hint or a warning suggests, and that were tried.

ghost use Rattle.std.specs.Prelude.{IfOk, IfSome};
ghost use Rattle.know.specs.Repairs.{Repairs, StillCompiles};

use crate::notes_read::{behind, quoted};
use crate::repairs::{Faulty, compiles, edited, gets_further};
use crate::rows::Subject;
use derivations::Located;
use grammar::{Code, Diagnostic, Profile};
use std::alloc::{AllocError, Global};
use std::str;
use tokens::{Punctuator, Token};
use tools::{Draft, Text};

/// A change of a source: bytes that go, and what comes in their place.
#[derive(Drop)]
pub struct Fix {
    /// How many bytes are before those that go.
    pub start: usize,
    /// How many there are up to the last one of them.
    pub end: usize,
    /// What comes in their place.
    pub text: String,
}

/// A suggestion: the place, and the words that are to stand there.
#[derive(Clone, Copy)]
struct Suggestion<'a> {
    start: usize,
    end: usize,
    words: &'a str,
}

/// How many suggestions a fault may have, beside another word in the place of a name.
const MOST_SUGGESTIONS: usize = 9;

/// How many tokens a misspelled word may stand before the token that doesn't fit.
const MOST_BACK: usize = 64;

/// Where the token of a fault is in a source, and what its hint says.
#[derive(Clone, Copy)]
pub struct Trouble<'a> {
    /// The source's tokens.
    pub tokens: &'a [Located],
    /// The index of the fault's token.
    pub index: usize,
    /// What the hint says, if there is one.
    pub hint: &'a str,
}

/// Returns the first suggestion with which a source gets further than to its first fault, if there is such a one. The only
/// error is that memory is refused.
pub fn fix_of_fault<'a>(
    alloc: Global,
    source: &'a [u8],
    profile: Profile,
    fault: &'a Diagnostic,
    trouble: &Trouble<'a>,
) -> Result<Option<Fix>, AllocError>
    ensures { IfOk result (λ found. IfSome found (Repairs profile source.now fault.now)) }
{
    // (what can be put in or left out makes no code short enough)
    if fault.code == Code::TooMuchCode {
        return Ok(None);
    }
    let faulty = Faulty {
        source,
        profile,
        fault,
        left: source.len().saturating_sub(end_of(trouble)),
    };
    for back in 0..MOST_BACK {
        if let Some(fix) = tried(alloc, &faulty, respelled(trouble, back))? {
            return Ok(Some(fix));
        }
    }
    for suggestion in &suggestions(source, trouble) {
        if let Some(fix) = tried(alloc, &faulty, *suggestion)? {
            return Ok(Some(fix));
        }
    }
    Ok(None)
}

/// Returns a suggestion as a fix if with it the source gets further.
fn tried(
    alloc: Global,
    faulty: &Faulty<'_>,
    suggestion: Option<Suggestion<'_>>,
) -> Result<Option<Fix>, AllocError>
    ensures { IfOk result (λ found.
        IfSome found (Repairs faulty.now.profile faulty.now.source.now faulty.now.fault.now)) }
{
    let Some(suggestion) = suggestion else {
        return Ok(None);
    };
    let fix = made(alloc, &suggestion)?;
    let edited = edited(alloc, faulty.source, &fix)?;
    if gets_further(alloc, faulty, edited.as_slice())? {
        Ok(Some(fix))
    } else {
        Ok(None)
    }
}

/// Returns how many bytes there are up to the last one of the token of a fault.
fn end_of(trouble: &Trouble<'_>) -> usize {
    match trouble.tokens.get(trouble.index) {
        Some(located) => located.end(),
        None => 0,
    }
}

/// Suggests the word that a hint says is meant in the place of a name, which is some tokens before the one that doesn't
/// fit.
fn respelled<'a>(trouble: &Trouble<'a>, back: usize) -> Option<Suggestion<'a>> {
    let words = quoted(trouble.hint, "perhaps ")?;
    let index = trouble.index.checked_sub(back)?;
    let located = trouble.tokens.get(index)?;
    match located.token {
        Token::Name(name) if is_as_long(name.as_bytes().len(), words.len()) => {
            replacing(trouble.tokens, index, Some(words))
        }
        _ => None,
    }
}

/// Reports whether a name may be a word that is a letter off, by their lengths.
fn is_as_long(name: usize, word: usize) -> bool {
    name <= word.saturating_add(1) && word <= name.saturating_add(1)
}

/// Returns what else may mend a fault.
fn suggestions<'a>(
    source: &'a [u8],
    trouble: &Trouble<'a>,
) -> [Option<Suggestion<'a>>; MOST_SUGGESTIONS] {
    let Trouble {
        tokens,
        index,
        hint,
    } = *trouble;
    let bracket = has_bracket(tokens, index);
    [
        hexadecimal(tokens, index, hint),
        comparing(tokens, index),
        missing(tokens, index, true, ";"),
        missing(tokens, index, bracket, ")"),
        missing(tokens, index, bracket, "))"),
        missing(tokens, index, bracket, ")))"),
        missing(tokens, index, bracket, "))))"),
        missing(tokens, index, bracket, ");"),
        superfluous(source, tokens, index, hint),
    ]
}

/// Suggests that a word stands in the place of the token of an index.
fn replacing<'a>(
    tokens: &[Located],
    index: usize,
    words: Option<&'a str>,
) -> Option<Suggestion<'a>> {
    let met = tokens.get(index)?;
    Some(Suggestion {
        start: met.start(),
        end: met.end(),
        words: words?,
    })
}

/// Suggests the decimal number that a hint has for a hexadecimal one, of which the token of an index is the end.
fn hexadecimal<'a>(tokens: &[Located], index: usize, hint: &'a str) -> Option<Suggestion<'a>> {
    let words = behind(hint, "aren't known; write ")?;
    Some(Suggestion {
        start: tokens.get(index.checked_sub(1)?)?.start(),
        end: tokens.get(index)?.end(),
        words,
    })
}

/// Suggests `==` for a `=`.
fn comparing<'a>(tokens: &[Located], index: usize) -> Option<Suggestion<'a>> {
    let met = tokens.get(index)?;
    let words = (met.token == Token::Punctuator(Punctuator::Equals)).then_some("==");
    replacing(tokens, index, words)
}

/// Reports whether a bracket is open before the token of an index, in the statement in which it stands.
fn has_bracket(tokens: &[Located], index: usize) -> bool {
    let mut closed: usize = 0;
    for located in tokens.get(..index).unwrap_or(tokens).iter().rev() {
        match located.token {
            Token::Punctuator(Punctuator::CloseRound) => closed = closed.saturating_add(1),
            Token::Punctuator(Punctuator::OpenRound) if closed == 0 => return true,
            Token::Punctuator(Punctuator::OpenRound) => closed = closed.saturating_sub(1),
            Token::Punctuator(
                Punctuator::Semicolon | Punctuator::OpenCurly | Punctuator::CloseCurly,
            ) => return false,
            _ => {}
        }
    }
    false
}

/// Suggests words right behind the token before the one of an index, if that makes sense. Where they don't fit, the source
/// gets no further with them.
fn missing<'a>(
    tokens: &[Located],
    index: usize,
    makes_sense: bool,
    words: &'a str,
) -> Option<Suggestion<'a>> {
    let before = tokens.get(index.checked_sub(1)?)?;
    makes_sense.then_some(Suggestion {
        start: before.end(),
        end: before.end(),
        words,
    })
}

/// Suggests to leave out a brace or a semicolon that a hint says is one too many.
fn superfluous<'a>(
    source: &'a [u8],
    tokens: &[Located],
    index: usize,
    hint: &str,
) -> Option<Suggestion<'a>> {
    let is_said = hint.starts_with("this `}` closes nothing") || hint.starts_with("no `;` stands");
    let nothing = str::from_utf8(source.get(..0)?).unwrap_or("");
    if is_said {
        replacing(tokens, index, Some(nothing))
    } else {
        None
    }
}

/// Returns a suggestion as a fix.
fn made(alloc: Global, suggestion: &Suggestion<'_>) -> Result<Fix, AllocError> {
    let mut text = Draft::new(alloc);
    text.add(suggestion.words);
    Ok(Fix {
        start: suggestion.start,
        end: suggestion.end,
        text: text.finish()?,
    })
}

/// Returns the change that a warning about the token of an index suggests, if there is one and the source compiles with it.
/// The only error is that memory is refused.
pub fn fix_of_warning(
    subject: &Subject<'_>,
    index: usize,
    words: &str,
) -> Result<Option<Fix>, AllocError>
    ensures { IfOk result (λ found. IfSome found (StillCompiles subject.now.profile subject.now.source.now)) }
{
    let Some(fix) = suggested(subject, index, words)? else {
        return Ok(None);
    };
    let edited = edited(subject.alloc, subject.source, &fix)?;
    if compiles(subject.profile, edited.as_slice()) {
        Ok(Some(fix))
    } else {
        Ok(None)
    }
}

/// Returns what a warning suggests.
fn suggested(subject: &Subject<'_>, index: usize, words: &str) -> Result<Option<Fix>, AllocError> {
    let tokens = subject.tokens;
    if words.contains("the degree comes first") {
        return swapping(subject, index);
    }
    let suggestion = if words.starts_with("`=` sets the variable") {
        comparing(tokens, index)
    } else {
        replacing(tokens, index, quoted(words, "; perhaps "))
    };
    match suggestion {
        Some(suggestion) => Ok(Some(made(subject.alloc, &suggestion)?)),
        None => Ok(None),
    }
}

/// Swaps the two arguments of the call of the name of an index.
fn swapping(subject: &Subject<'_>, index: usize) -> Result<Option<Fix>, AllocError> {
    let Some((open, comma, close)) = arguments(subject.tokens, index) else {
        return Ok(None);
    };
    let first = between(subject, open, comma);
    let second = between(subject, comma, close);
    let mut text = Draft::new(subject.alloc);
    text.add(subject.words(second));
    text.add(", ");
    text.add(subject.words(first));
    Ok(Some(Fix {
        start: first.0,
        end: second.1,
        text: text.finish()?,
    }))
}

/// Returns where the bytes between two tokens begin and end, without the spaces beside these.
fn between(subject: &Subject<'_>, before: usize, behind: usize) -> (usize, usize) {
    let start = subject.tokens.get(before.saturating_add(1));
    let end = subject.tokens.get(behind.saturating_sub(1));
    match (start, end) {
        (Some(start), Some(end)) => (start.start(), end.end()),
        _ => (0, 0),
    }
}

/// Returns the indices of the `(`, the only `,` and the `)` of a call with two arguments, by the index of its name.
fn arguments(tokens: &[Located], name: usize) -> Option<(usize, usize, usize)> {
    let open = name.saturating_add(1);
    let mut depth: usize = 0;
    let mut comma = None;
    for (index, located) in tokens.iter().enumerate().skip(open) {
        match located.token {
            Token::Punctuator(Punctuator::OpenRound) => depth = depth.saturating_add(1),
            Token::Punctuator(Punctuator::CloseRound) => depth = depth.saturating_sub(1),
            Token::Punctuator(Punctuator::Comma) if depth == 1 && comma.is_none() => {
                comma = Some(index);
            }
            _ => {}
        }
        if depth == 0 {
            return Some((open, comma?, index));
        }
    }
    None
}
