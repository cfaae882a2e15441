//! Where the token of a source's first fault is.

use derivations::{Located, compile};
use explanations::fault_token;
use grammar::{Diagnostic, ParseFault, Profile};
use std::alloc::{AllocError, Global};
use tokens::{MemoryFeed, WINDOW_BYTES};

/// Returns the index of the token of a source's first fault. It is on the fault's line: if that has several, the source is
/// compiled once more, with each of these on a line of its own. That is much faster than a walk along all tokens.
pub fn fault_index(
    alloc: Global,
    source: &[u8],
    tokens: &[Located],
    profile: Profile,
    fault: &Diagnostic,
) -> Result<usize, AllocError> {
    let first = first_of_line(tokens, fault.line);
    let end = first_of_line(tokens, fault.line.saturating_add(1));
    if end == first.saturating_add(1) {
        return Ok(first);
    }
    let apart = set_apart(alloc, source, tokens.get(first..end).unwrap_or(&[]))?;
    match compile(
        profile,
        &mut MemoryFeed::new(apart.as_slice(), WINDOW_BYTES),
    ) {
        Err(ParseFault::Source(next)) if next.code == fault.code => {
            Ok(first.saturating_add(next.line.saturating_sub(fault.line) as usize))
        }
        Ok(_) | Err(_) => Ok(fault_token(tokens, profile, fault)),
    }
}

/// Returns the index of the first token on a line or behind it.
fn first_of_line(tokens: &[Located], line: u32) -> usize {
    for (index, located) in tokens.iter().enumerate() {
        if located.line >= line {
            return index;
        }
    }
    tokens.len()
}

/// Returns a source with the end of a line before each of some tokens that follow one another, but for the first one.
fn set_apart(alloc: Global, source: &[u8], tokens: &[Located]) -> Result<Vec<u8>, AllocError> {
    let mut bytes = Vec::new(alloc);
    let mut begin = 0;
    for located in tokens.iter().skip(1) {
        bytes.extend_from_slice(source.get(begin..located.start()).unwrap_or(&[]))?;
        bytes.push(b'\n')?;
        begin = located.start();
    }
    bytes.extend_from_slice(source.get(begin..).unwrap_or(&[]))?;
    Ok(bytes)
}
