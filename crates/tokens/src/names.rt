//! Names, in arrays of fixed size.

ghost use Rattle.std.specs.Prelude.{◌≡◌, ◌∷◌, [], ◌++◌, ◌<◌, ◌≤◌, ◌↔◌, IsTrue, IsUtf8, true, length};
ghost use Rattle.std.specs.Str.{bytes_eq};
ghost use Rattle.tokens.specs.TokenLimits.{most_name_bytes};
ghost use Rattle.tokens.specs.Lexing.{BeginsName};

use crate::characters::is_name_byte;
use crate::token_limits::MOST_NAME_BYTES;
use std::marker::Model;

/// A name of at most `MOST_NAME_BYTES` bytes. Its value is the list of its bytes.
#[derive(Clone, Copy, Debug, PartialEq, Eq)]
pub struct Name {
    bytes: [u8; MOST_NAME_BYTES],
    len: u8,
}

impl Model for Name {
    ghost use Rattle.std.specs.Prelude.{List, ℕ, take, length};
    ghost use Rattle.tokens.specs.Name.{padded, IsPadded, length-kept, padded-kept};

    ghost Value = { List ℕ };

    ghost view = { λ n. take n.len n.bytes };

    ghost invariant = { λ n. IsPadded n.bytes n.len };

    ghost inverse = { λ name. record { bytes = padded name; len = length name } };

    ghost inverse_ok = { λ a h. let e = padded-kept h in let d = length-kept h in Prim.rw (e, d) };
}

impl Default for Name {
    ghost is_default = { λ name. name ≡ [] };

    fn default() -> Name {
        Name::new()
    }
}

impl Name {
    /// Makes the name of no bytes.
    pub fn new() -> Self
        ensures { result ≡ [] }
    {
        Name {
            bytes: [0; MOST_NAME_BYTES],
            len: 0,
        }
    }

    /// Makes the name of this byte.
    #[inline(always)]
    pub(crate) fn from_byte(byte: u8) -> Self
        ensures { result ≡ byte ∷ [] }
    {
        let mut bytes = [0; MOST_NAME_BYTES];
        bytes[0] = byte;
        Name { bytes, len: 1 }
    }

    /// Takes the bytes of a name that begins with this one and goes on with the rest, as far as there is room. Answers
    /// whether it ends within the rest.
    #[inline(always)]
    pub(crate) fn take_bytes(&mut self, first: u8, rest: &[u8]) -> bool
        requires { self.old ≡ [] }
        ensures { result ≡ true → BeginsName first rest.now self.new }
    {
        self.bytes[0] = first;
        let most = rest.len().min(MOST_NAME_BYTES - 1);
        for i in 0..most {
            if !is_name_byte(rest[i]) {
                self.len = i as u8 + 1;
                return true;
            }
            self.bytes[i + 1] = rest[i];
        }
        self.len = most as u8 + 1;
        false
    }

    /// Returns how many bytes it has.
    pub fn len(&self) -> usize
        ensures value { result ≡ length self.now }
        ensures bounded { result ≤ most_name_bytes }
    {
        self.len as usize
    }

    /// Reports whether it has no bytes.
    pub fn is_empty(&self) -> bool
        ensures { IsTrue result ↔ (length self.now ≡ 0) }
    {
        self.len == 0
    }

    /// Reports whether it can take no further byte.
    pub fn is_full(&self) -> bool
        ensures { IsTrue result ↔ (most_name_bytes ≤ length self.now) }
    {
        self.len() == MOST_NAME_BYTES
    }

    /// Adds a byte at its end.
    pub fn push(&mut self, byte: u8)
        requires { length self.old < most_name_bytes }
        ensures { self.new ≡ self.old ++ byte ∷ [] }
    {
        self.bytes[self.len as usize] = byte;
        self.len += 1;
    }

    /// Returns its bytes.
    pub fn as_bytes(&self) -> &[u8]
        ensures value { result.now ≡ self.now }
        ensures bounded { length result.now ≤ most_name_bytes }
    {
        &self.bytes[..self.len as usize]
    }

    /// Returns its text. The names of a source are ASCII; one of bytes that are no text is '?'.
    pub fn as_str(&self) -> &str
        ensures { IsUtf8 self.now → result.now ≡ self.now }
    {
        str::from_utf8(self.as_bytes()).unwrap_or("?")
    }

    /// Reports whether it is this name. Most others differ in their length or in one of their first bytes.
    #[inline(always)]
    #[tactic(auto, using(crate::proofs::NameLemmas::other_name))]
    pub fn is_same(&self, other: &Name) -> bool
        ensures { result ≡ bytes_eq self.now other.now }
    {
        self.has_same_prefix(other) && self.as_bytes() == other.as_bytes()
    }

    /// Reports whether the length and the first two bytes are those of a name: a short name has zeros there.
    #[inline(always)]
    #[tactic(auto, using(crate::proofs::NameLemmas::same_kept))]
    fn has_same_prefix(&self, other: &Name) -> bool
        ensures { self.now ≡ other.now → result ≡ true }
    {
        self.len == other.len && self.bytes[0] == other.bytes[0] && self.bytes[1] == other.bytes[1]
    }

    /// Reports whether it has these bytes.
    pub fn has_bytes(&self, bytes: &[u8]) -> bool
        ensures { result ≡ bytes_eq self.now bytes.now }
    {
        self.as_bytes() == bytes
    }
}
