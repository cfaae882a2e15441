//! The code of a source with too much of it, up to the limit.

use crate::code_rows::add_listing;
use crate::robots::Robot;
use derivations::{Derivation, Item, Located, Pending, Symbol, Walk, compile_source, locate};
use grammar::Profile;
use std::alloc::{AllocError, Global};
use tokens::{Punctuator, Token};

/// A statement before which a source may be cut off.
#[derive(Clone, Copy)]
struct Cut {
    /// The index of its first token.
    token: usize,
    /// How many blocks are open there.
    blocks: usize,
    /// How many instructions there are up to it.
    instructions: usize,
}

/// Adds each line of a source with too much code, and below it the instructions that come from it, up to the statement
/// with which it has too much. What would follow is left out, so a branch that leads there leads to where the code ends.
/// Adds nothing if there is no such statement.
pub fn add_listing_to_limit(
    text: &mut String,
    source: &[u8],
    profile: Profile,
) -> Result<(), AllocError> {
    let alloc = *text.allocator();
    let tokens = locate(alloc, source)?;
    let tokens = tokens.as_slice();
    for cut in cuts_of(alloc, tokens, profile)?.iter().rev() {
        let Some(statement) = tokens.get(cut.token) else {
            continue;
        };
        let shown = source.get(..statement.start()).unwrap_or(source);
        let ended = ended(alloc, shown, tokens, cut)?;
        if let Ok(made) = compile_source(profile, ended.as_slice()) {
            let robot = Robot::new(alloc, made, cut.instructions)?;
            add_listing(text, shown.trim_ascii_end(), &robot)?;
            return text.push_str("      | what follows is too much code\n");
        }
    }
    Ok(())
}

/// Returns the statements up to which a source has no more code than a profile takes, in order.
fn cuts_of(alloc: Global, tokens: &[Located], profile: Profile) -> Result<Vec<Cut>, AllocError> {
    let mut cuts = Vec::new(alloc);
    let mut walk = Walk::start(tokens, profile);
    for _ in 0..u64::MAX {
        let derivation = walk.derivation();
        if let Some(pending) = derivation.front()
            && pending.item == Item::Part(Symbol::Statement)
        {
            cuts.push(Cut {
                token: derivation.place(),
                blocks: blocks_in(derivation),
                // without the NOP
                instructions: walk.instructions().saturating_sub(1),
            })?;
        }
        walk.step();
        if walk.is_over() || walk.instructions() > usize::from(profile.instructions()) {
            break;
        }
    }
    Ok(cuts)
}

/// Counts the blocks that are open in a derivation.
fn blocks_in(derivation: &Derivation<'_>) -> usize {
    let is_end = |pending: &&Pending| pending.item == Item::Exactly(Punctuator::CloseCurly);
    derivation.stack().iter().filter(is_end).count()
}

/// Returns a source that begins with these bytes, up to a cut: each open block ends there, and each function that
/// follows is empty.
fn ended(
    alloc: Global,
    shown: &[u8],
    tokens: &[Located],
    cut: &Cut,
) -> Result<Vec<u8>, AllocError> {
    let mut text = Vec::new(alloc);
    text.extend_from_slice(shown)?;
    text.extend_from_slice(b"\n;")?;
    for _ in 0..cut.blocks {
        text.push(b'}')?;
    }
    let (mut depth, mut before) = (cut.blocks, Token::End);
    for located in tokens.get(cut.token..).unwrap_or(&[]) {
        match (located.token, before) {
            (Token::Punctuator(Punctuator::OpenCurly), _) => depth = depth.saturating_add(1),
            (Token::Punctuator(Punctuator::CloseCurly), _) => depth = depth.saturating_sub(1),
            (Token::Punctuator(Punctuator::OpenRound), Token::Name(name)) if depth == 0 => {
                text.push(b' ')?;
                text.extend_from_slice(name.as_bytes())?;
                text.extend_from_slice(b"(){}")?;
            }
            // no other token begins or ends a block or a function
            _ => {}
        }
        before = located.token;
    }
    Ok(text)
}
