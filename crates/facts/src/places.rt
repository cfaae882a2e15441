//! Where the functions of a source begin.

use crate::facts::KINDS;
use derivations::{Event, Located, Meaning, Walk};
use grammar::{Intrinsic, Profile};
use std::alloc::{AllocError, Global};
use tokens::Token;

/// Where functions begin, in the order of the source: the line and the column of the name. And which intrinsic functions
/// are named.
#[derive(Drop)]
pub struct Places {
    functions: Vec<(u32, u32)>,
    named: [bool; KINDS],
}

impl Places {
    /// Finds those of a source that compiles by this profile. The only error is that memory is refused.
    pub fn of(alloc: Global, tokens: &[Located], profile: Profile) -> Result<Places, AllocError> {
        let mut places = Places {
            functions: Vec::new(alloc),
            named: [false; KINDS],
        };
        let mut walk = Walk::start(tokens, profile);
        for _ in 0..u64::MAX {
            match walk.step() {
                Event::Named { token, meaning } => places.name(tokens.get(token), meaning)?,
                _ if walk.is_over() => break,
                _ => {}
            }
        }
        Ok(places)
    }

    /// Notes a name with its meaning.
    fn name(&mut self, located: Option<&Located>, meaning: Meaning) -> Result<(), AllocError> {
        if let Some(located) = located
            && let Token::Name(name) = located.token
        {
            if matches!(meaning, Meaning::Begins(_)) {
                self.functions.push((located.line, located.column))?;
            }
            for (intrinsic, is_named) in Intrinsic::ALL.iter().zip(&mut self.named) {
                *is_named |= name.has_bytes(intrinsic.name().as_bytes());
            }
        }
        Ok(())
    }

    /// Returns which intrinsic functions are named, in the order of `Intrinsic::ALL`.
    pub fn named(&self) -> [bool; KINDS] {
        self.named
    }

    /// Returns the line and the column of a function, by how many begin before it; 0 if there is none.
    pub fn function(&self, index: usize) -> (u32, u32) {
        self.functions.get(index).copied().unwrap_or((0, 0))
    }
}
