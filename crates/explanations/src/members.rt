//! Hints on objects of other languages: what stands behind the `.` is what helps.

use crate::hints::Hint;
use crate::misnamed::on_used_bytes;
use crate::notes::Note;
use crate::scenes::Scene;
use grammar::Intrinsic;
use std::str;
use tokens::Token;

/// The most bytes of a call that is quoted.
const MOST_QUOTED: usize = 60;

/// How many members are looked at, each in the brackets of the one before.
const MOST_INNER: usize = 4;

/// Returns the hint on a `.` before the name of an intrinsic function that is called, or behind an object and before a name
/// that beginners use, by the bytes behind it.
pub fn on_members(scene: &Scene<'_>) -> Option<Hint> {
    let met = scene.tokens.get(scene.index)?;
    let [b'.', outer @ ..] = scene.source.get(met.start()..)? else {
        return None;
    };
    let member = innermost(outer);
    let name = name_in(member);
    let is_called = member.get(name.len()) == Some(&b'(');
    for intrinsic in &Intrinsic::ALL {
        if intrinsic.name().as_bytes() == name && is_called {
            let at = scene.source.len().saturating_sub(member.len());
            return Some(Hint::Method(*intrinsic, at));
        }
    }
    let is_object = scene.name(scene.index.checked_sub(1)?).is_some();
    if !is_object || is_own(scene, name) {
        return None;
    }
    Some(Hint::Member(on_used_bytes(name)?))
}

/// Returns what a text has from the member on that is asked for first: in the brackets of the one that it begins with there may be
/// another one.
fn innermost(text: &[u8]) -> &[u8] {
    let mut member = text;
    for _ in 0..MOST_INNER {
        let behind = member.get(name_in(member).len()..).unwrap_or(&[]);
        let [b'(', inside @ ..] = behind else {
            return member;
        };
        match inside.get(name_in(inside).len()..) {
            Some([b'.', further @ ..]) if !name_in(inside).is_empty() => member = further,
            _ => return member,
        }
    }
    member
}

/// Returns the name that a text begins with.
fn name_in(text: &[u8]) -> &[u8] {
    for (at, byte) in text.iter().enumerate() {
        if !byte.is_ascii_alphanumeric() && *byte != b'_' {
            return text.get(..at).unwrap_or(&[]);
        }
    }
    text
}

/// Reports whether the source has a name elsewhere, before the token that doesn't fit.
fn is_own(scene: &Scene<'_>, wanted: &[u8]) -> bool {
    for located in scene.tokens {
        if let Token::Name(name) = located.token
            && name.has_bytes(wanted)
        {
            return true;
        }
    }
    false
}

/// Adds that a function stands alone, with its arguments as they stand from a position of the source on.
pub fn add_method(note: &mut Note, source: &[u8], intrinsic: Intrinsic, at: usize) {
    note.add("there are no objects: write `");
    note.add(match call_in(source.get(at..).unwrap_or(&[])) {
        Some(call) => call,
        None => intrinsic.name(),
    });
    note.add("` alone");
}

/// Returns the call that a text begins with, if it ends on its line.
fn call_in(text: &[u8]) -> Option<&str> {
    let mut depth = 0usize;
    for (at, byte) in text.iter().enumerate() {
        match *byte {
            b'(' => depth = depth.saturating_add(1),
            b')' => depth = depth.saturating_sub(1),
            b' '..=b'~' if at < MOST_QUOTED && *byte != b'`' => {}
            _ => return None,
        }
        if depth == 0 && *byte == b')' {
            return str::from_utf8(text.get(..at.saturating_add(1))?).ok();
        }
    }
    None
}
