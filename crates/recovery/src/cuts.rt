//! The tokens of a source past its lexical errors: behind each one the reading begins anew.

use crate::rests::is_foreign;
use derivations::{Located, locate};
use std::alloc::{AllocError, Global};
use tokens::{LexicalError, Token};

/// The most errors past which tokens are looked for: the next one ends the list.
const MOST_CUTS: usize = 4096;

/// Finds the tokens of a source, its lexical errors among them, and those behind each error too. The last one is the end.
/// The only error is that memory is refused.
pub fn located_past_faults(alloc: Global, source: &[u8]) -> Result<Vec<Located>, AllocError> {
    let mut all = Vec::new(alloc);
    let mut base = Base::default();
    for _ in 0..MOST_CUTS {
        let rest = source.get(base.offset..).unwrap_or(&[]);
        let mut next = None;
        for located in &locate(alloc, rest)? {
            let placed = base.placed(located);
            all.push(placed)?;
            next = past_fault(source, &placed);
        }
        match next {
            Some(offset) => base = base.moved(source, offset),
            None => break,
        }
    }
    Ok(all)
}

/// Returns where the reading goes on behind a lexical error: behind the bytes that begin no token, the letters of a name
/// or a number, or the line of a comment that isn't closed. None if the token is no error.
pub fn past_fault(source: &[u8], met: &Located) -> Option<usize> {
    let Token::Fault(error) = met.token else {
        return None;
    };
    let first = met.start().saturating_add(1);
    for (passed, byte) in source.get(first..)?.iter().enumerate() {
        if !goes_on(error, *byte) {
            return Some(first.saturating_add(passed));
        }
    }
    Some(source.len())
}

/// Reports whether a byte belongs to what is wrong.
fn goes_on(error: LexicalError, byte: u8) -> bool {
    match error {
        LexicalError::BadCharacter => is_foreign(byte),
        LexicalError::NameTooLong | LexicalError::ConstantTooLarge => {
            byte.is_ascii_alphanumeric() || byte == b'_'
        }
        LexicalError::CommentNotClosed => byte != b'\n',
        LexicalError::SourceTooLong => true,
    }
}

/// Where the reading of a rest of a source begins.
#[derive(Clone, Copy, Default)]
struct Base {
    /// How many bytes are before it.
    offset: usize,
    /// How many lines end before it.
    lines: u32,
    /// How many bytes of its line are before it.
    columns: u32,
}

impl Base {
    /// Returns the place in the source of a token of the rest.
    fn placed(&self, located: &Located) -> Located {
        let mut placed = *located;
        if placed.line == 1 {
            placed.column = placed.column.saturating_add(self.columns);
        }
        placed.line = placed.line.saturating_add(self.lines);
        let offset = u32::try_from(self.offset).unwrap_or(u32::MAX);
        placed.start = placed.start.saturating_add(offset);
        placed.end = placed.end.saturating_add(offset);
        placed
    }

    /// Returns the beginning of a rest that is further behind.
    fn moved(self, source: &[u8], offset: usize) -> Base {
        let mut base = self;
        for byte in source.get(self.offset..offset).unwrap_or(&[]) {
            if *byte == b'\n' {
                base.lines = base.lines.saturating_add(1);
                base.columns = 0;
            } else {
                base.columns = base.columns.saturating_add(1);
            }
        }
        base.offset = offset;
        base
    }
}
