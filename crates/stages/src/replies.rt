//! What intrinsic functions reply in a run.

use grammar::Intrinsic;
use std::alloc::Global;
use tools::{Fault, Wrong};

/// What is wrong with a word that lists no replies.
const NO_LIST: Fault = Fault::Wrong(Wrong::Unlike("replies", "scan=500,0"));

/// A reply of a function, or of all that have no replies of their own.
#[derive(Clone, Copy)]
struct Reply {
    of: Option<Intrinsic>,
    value: i32,
    is_taken: bool,
}

/// The replies of intrinsic functions, in order: those of one, and those of all others together.
#[derive(Drop)]
pub struct Replies {
    listed: Vec<Reply>,
}

impl Replies {
    /// Makes replies of which none is listed.
    pub fn new(alloc: Global) -> Replies {
        Replies {
            listed: Vec::new(alloc),
        }
    }

    /// Lists the replies of a word, with commas or blanks between them: after `NAME=` those of the function of this
    /// name, before it those of all others.
    pub fn add(&mut self, word: &str) -> Result<(), Fault> {
        let mut of = None;
        for part in word.split(|c| c == ',' || c == ' ') {
            let mut number = part;
            if let Some((name, behind)) = part.split_once('=') {
                of = Some(named(name).ok_or(NO_LIST)?);
                number = behind;
            }
            let reply = Reply {
                of,
                value: value_of(number).ok_or(NO_LIST)?,
                is_taken: false,
            };
            if self.listed.push(reply).is_err() {
                return Err(Fault::Memory);
            }
        }
        Ok(())
    }

    /// Takes the next reply of a function: 0 after the last one.
    pub fn next(&mut self, intrinsic: Intrinsic) -> i32 {
        let own = Some(intrinsic);
        let has_own = self.listed.iter().any(|reply| reply.of == own);
        let of = if has_own { own } else { None };
        for reply in &mut self.listed {
            if reply.of == of && !reply.is_taken {
                reply.is_taken = true;
                return reply.value;
            }
        }
        0
    }
}

/// Reports whether a word begins as the replies of an intrinsic function do.
pub fn begins_replies(word: &str) -> bool {
    match word.split_once('=') {
        Some((name, _)) => named(name).is_some(),
        None => false,
    }
}

/// Returns the intrinsic function of a name.
fn named(name: &str) -> Option<Intrinsic> {
    Intrinsic::ALL
        .into_iter()
        .find(|intrinsic| intrinsic.name() == name)
}

/// Reads a reply: one or more digits, maybe with a `-` before them.
fn value_of(word: &str) -> Option<i32> {
    if word.starts_with('+') {
        return None;
    }
    word.parse().ok()
}
