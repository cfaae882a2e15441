//! All punctuators, as the lexer knows them.

use std::alloc::{AllocError, Global};
use tokens::{Cursor, MemoryFeed, Token, WINDOW_BYTES};

/// The most bytes of a punctuator.
const MOST_BYTES: usize = 3;

/// The bytes of a punctuator.
#[derive(Clone, Copy)]
pub struct Spelling {
    bytes: [u8; MOST_BYTES],
    length: usize,
}

impl Spelling {
    /// Returns the bytes.
    pub fn bytes(&self) -> &[u8] {
        self.bytes.get(..self.length).unwrap_or(&[])
    }

    /// Returns this one with a byte more, if there is room for it.
    fn with(&self, byte: u8) -> Option<Spelling> {
        let mut longer = *self;
        *longer.bytes.get_mut(self.length)? = byte;
        longer.length = self.length.saturating_add(1);
        Some(longer)
    }
}

/// Finds all punctuators, the shortest first: what a byte more makes of a punctuator, or of nothing, and the lexer takes as
/// one. The only error is that memory is refused.
pub fn punctuators(alloc: Global) -> Result<Vec<Spelling>, AllocError> {
    let mut found = Vec::new(alloc);
    let nothing = Spelling {
        bytes: [0; MOST_BYTES],
        length: 0,
    };
    add_longer(&mut found, &nothing)?;
    for at in 0..usize::MAX {
        let Some(known) = found.get(at).copied() else {
            break;
        };
        add_longer(&mut found, &known)?;
    }
    Ok(found)
}

/// Adds the punctuators that are a spelling and a byte of ASCII more. The only error is that memory is refused.
fn add_longer(found: &mut Vec<Spelling>, known: &Spelling) -> Result<(), AllocError> {
    for byte in 0..128 {
        if let Some(longer) = known.with(byte)
            && matches!(token_of(longer.bytes()), Token::Punctuator(_))
        {
            found.push(longer)?;
        }
    }
    Ok(())
}

/// Returns the token that a text is, from its first byte to its last: the end, if it is none.
pub fn token_of(text: &[u8]) -> Token {
    let mut feed = MemoryFeed::new(text, WINDOW_BYTES);
    match Cursor::open(&mut feed) {
        Ok(cursor) if cursor.peek().end as usize == text.len() => cursor.peek().token,
        _ => Token::End,
    }
}
