//! The faults of a source after its first one: what has a fault is left out, and the rest is compiled again.

use crate::parts::{PartKind, part_at};
use derivations::{Located, compile, locate};
use explanations::fault_token;
use grammar::{Code, Diagnostic, ParseFault, Profile};
use std::alloc::{AllocError, Global};
use tokens::{MemoryFeed, Token, WINDOW_BYTES};

/// The most faults of a file that are explained.
pub const MOST_FAULTS: usize = 20;

/// The most bytes of a source of which later faults are looked for: each token takes 64 bytes of memory, in three lists.
pub const MOST_BYTES: usize = 262_144;

/// The first and the last line of a part.
pub type Lines = (u32, u32);

/// What is left of a source without the parts with faults: these are blank.
#[derive(Drop)]
pub struct Rest {
    alloc: Global,
    bytes: Vec<u8>,
    profile: Profile,
    lacks_heads: bool,
}

impl Rest {
    /// Begins with all of a source.
    pub fn of(alloc: Global, source: &[u8], profile: Profile) -> Result<Rest, AllocError> {
        Ok(Rest {
            alloc,
            bytes: Vec::from_slice(alloc, source)?,
            profile,
            lacks_heads: false,
        })
    }

    /// Returns its bytes.
    pub fn bytes(&self) -> &[u8] {
        self.bytes.as_slice()
    }

    /// Leaves out the part with a fault, the first one of what is left, and returns its lines, if something follows it.
    pub fn leave_out(&mut self, fault: &Diagnostic) -> Result<Option<Lines>, AllocError> {
        let tokens = locate(self.alloc, self.bytes.as_slice())?;
        let at = fault_token(tokens.as_slice(), self.profile, fault);
        self.leave_out_at(tokens.as_slice(), at)
    }

    /// Leaves out the part with a fault, as `leave_out` does, by the tokens of what is left and the index of the fault's
    /// token.
    pub fn leave_out_at(
        &mut self,
        tokens: &[Located],
        at: usize,
    ) -> Result<Option<Lines>, AllocError> {
        let (Some(met), Some(last)) = (tokens.get(at), tokens.last()) else {
            return Ok(None);
        };
        if last.token == Token::End {
            return Ok(self.blank_part(tokens, at));
        }
        // of what follows a lexical error no tokens are known yet
        let clean = self.cleaned(met)?;
        let tokens = locate(self.alloc, clean.as_slice())?;
        Ok(self.blank_part(tokens.as_slice(), at))
    }

    /// Returns what is left, with a `;` for each byte that begins no token, from a fault's token on, and for that token if
    /// it is a lexical error.
    fn cleaned(&self, met: &Located) -> Result<Vec<u8>, AllocError> {
        let mut clean = Vec::from_slice(self.alloc, self.bytes.as_slice())?;
        let is_error = matches!(met.token, Token::Fault(_));
        for (index, byte) in clean.iter_mut().enumerate().skip(met.start()) {
            if is_foreign(*byte) || is_error && index == met.start() {
                *byte = b';';
            } else if is_error && index < met.end() {
                *byte = b' ';
            }
        }
        Ok(clean)
    }

    /// Makes the part with the token of an index blank, and returns its lines.
    fn blank_part(&mut self, tokens: &[Located], at: usize) -> Option<Lines> {
        let part = part_at(tokens, at)?;
        let (first, behind) = (tokens.get(part.first)?, tokens.get(part.end)?);
        let last = tokens.get(part.end.saturating_sub(1))?;
        self.blank(first.start(), behind.start());
        match part.kind {
            PartKind::Body => {}
            PartKind::Unclosed => self.close_at(last.start()),
            PartKind::Outside => self.lacks_heads = true,
        }
        Some((first.line, last.line))
    }

    /// Makes the bytes from one index on up to another one blank, but for ends of lines.
    fn blank(&mut self, start: usize, end: usize) {
        for (index, byte) in self.bytes.iter_mut().enumerate().skip(start) {
            if index < end && *byte != b'\n' {
                *byte = b' ';
            }
        }
    }

    /// Puts a closing brace at an index.
    fn close_at(&mut self, index: usize) {
        if let Some(byte) = self.bytes.as_mut_slice().get_mut(index) {
            *byte = b'}';
        }
    }

    /// Returns the first fault of what is left, if there is one: a function that isn't there may be one that was left
    /// out.
    pub fn fault(&self) -> Option<Diagnostic> {
        let mut feed = MemoryFeed::new(self.bytes.as_slice(), WINDOW_BYTES);
        match compile(self.profile, &mut feed) {
            Err(ParseFault::Source(fault)) if !self.lacks_heads || !is_absence(fault.code) => {
                Some(fault)
            }
            _ => None,
        }
    }
}

/// Reports whether a fault is that a function isn't there.
fn is_absence(code: Code) -> bool {
    matches!(code, Code::FunctionNotDefined | Code::NoMainFunction)
}

/// Reports whether a byte begins no token, and is neither a space nor the end of a source.
pub fn is_foreign(byte: u8) -> bool {
    matches!(
        byte,
        0..=8 | 14..=25 | 27..=31 | b'"'..=b'$' | b'\'' | b'.' | b':' | b'?'..=b'@' | b'['..=b']' | b'`' | 127..=255
    )
}
