//! The position in a source that each instruction of its program comes from.

ghost use Rattle.std.specs.Prelude.{◌≡◌, ◌≢◌, ◌≤◌, ◌<◌, ◌+◌, ◌==◌, ◌++◌, ◌∷◌, [], true, false, None, Some, length, slice_get, IfSome};
ghost use Rattle.grammar.specs.Grammar.{is_lexical_error};
ghost use Rattle.tokens.specs.Tokens.{is_last, tokens};
ghost use Rattle.derivations.specs.Columns.{position_in, token_positions};
ghost use Rattle.derivations.specs.Positions.{ArePositions};
ghost use Rattle.derivations.specs.Room.{HasRoom, RunsShort, most_places};
ghost use Rattle.derivations.specs.Walks.{IsLocated, Passes, positions_next};
ghost use Rattle.derivations.specs.declared.addresses.SourcePosition.{SourcePosition};

use crate::feeds::SourceFeed;
use crate::locations::{Finder, Located};
use crate::steps::{Automaton, StepEnd, place_of};
use arrayvec::ArrayVec;
use grammar::Profile;
use std::marker::Model;
use tokens::{Cursor, MOST_SOURCE_BYTES};

/// The most instructions of a program in any profile, with the NOP that ends it.
pub const MOST_PLACES: usize = 4000;

/// A position in a source.
#[derive(Clone, Copy, Debug, Default, PartialEq, Eq)]
pub struct SourcePosition {
    /// The line, from 1.
    pub line: u32,
    /// The column, in bytes, from 1.
    pub column: u32,
}

/// The positions of a program's instructions, by their addresses. Its value is the list of them.
#[derive(Drop)]
pub struct SourcePositions {
    places: ArrayVec<SourcePosition, MOST_PLACES>,
}

impl Model for SourcePositions {
    ghost use Rattle.std.specs.Prelude.{List};
    ghost use Rattle.derivations.specs.declared.addresses.SourcePosition.{SourcePosition};

    ghost Value = { List SourcePosition };

    ghost view = { λ p. p.places.items };
}

impl SourcePositions {
    /// Returns how many instructions there are, the final NOP among them.
    pub fn len(&self) -> usize
        ensures { result ≡ length self.now }
    {
        self.places.len()
    }

    /// Reports whether there is none, which a program never has.
    pub fn is_empty(&self) -> bool
        ensures { result ≡ (length self.now == 0) }
    {
        self.places.is_empty()
    }

    /// Returns the position of the token that made the instruction of this address: an operator's or assignment's own
    /// token, a call's name, the word `if`, `else`, `while` or `return`, a statement's semicolon, the closing brace
    /// of a function for its last return, and the end of the source for the final NOP. `None` past the last
    /// instruction.
    pub fn place(&self, address: usize) -> Option<SourcePosition>
        ensures { result ≡ slice_get self.now address }
    {
        self.places.as_slice().get(address).copied()
    }

    /// Returns the line of the position of an address, 0 past the last instruction.
    pub fn line(&self, address: usize) -> u32
        ensures some { (p : SourcePosition) → slice_get self.now address ≡ Some p → result ≡ p.line }
        ensures none { slice_get self.now address ≡ None → result ≡ 0 }
    {
        match self.place(address) {
            Some(position) => position.line,
            None => 0,
        }
    }

    /// Returns the column of the position of an address, 0 past the last instruction.
    pub fn column(&self, address: usize) -> u32
        ensures some { (p : SourcePosition) → slice_get self.now address ≡ Some p → result ≡ p.column }
        ensures none { slice_get self.now address ≡ None → result ≡ 0 }
    {
        match self.place(address) {
            Some(position) => position.column,
            None => 0,
        }
    }

    /// Returns the positions, by the addresses.
    pub fn places(&self) -> &[SourcePosition]
        ensures value { result.now ≡ self.now }
        ensures most { length result.now ≤ MOST_PLACES }
    {
        self.places.as_slice()
    }

    /// Does all steps of a derivation up to the one that passes the next token, and keeps the position of each
    /// instruction that they make. Answers whether that token fits, and there is room.
    fn pass(
        &mut self,
        automaton: &mut Automaton,
        profile: Profile,
        next: &Located,
        after: &Located,
    ) -> bool
        ensures passes { result ≡ true
            → Passes profile automaton.old self.old next.now after.now automaton.new self.new }
        ensures short { result ≡ false → RunsShort profile automaton.old self.old next.now after.now }
    {
        let place = automaton.place();
        for _step in 0..u64::MAX {
            if !self.keep(automaton, profile, next) {
                return false;
            }
            let StepEnd::Stepped = automaton.step(next, after) else {
                return false;
            };
            if automaton.place() > place {
                return true;
            }
        }
        false
    }

    /// Keeps the position of each instruction that the next step makes. Answers whether there was room.
    fn keep(&mut self, automaton: &Automaton, profile: Profile, next: &Located) -> bool
        ensures keeps { result ≡ true → is_lexical_error next.now.token ≡ false
            → self.new ≡ self.old ++ positions_next profile automaton.now next.now }
        ensures full { result ≡ false
            → most_places < length self.old + length (positions_next profile automaton.now next.now) }
    {
        let emission = automaton.emission(&next.token);
        let place = automaton.origin(emission.origin(), next);
        for _made in 0..emission.instructions(profile) {
            if !self.push(place) {
                return false;
            }
        }
        true
    }

    /// Keeps the position of one more instruction. Answers whether there was room.
    fn push(&mut self, place: SourcePosition) -> bool
        ensures pushed { result ≡ true → self.new ≡ self.old ++ place ∷ [] }
        ensures full { result ≡ false → length self.old ≡ most_places }
    {
        self.places.try_push(place).is_ok()
    }
}

/// Finds the position of each instruction of a source's program in a profile, for a source that compiles: that of the
/// token that its action comes from. `None` only if a token doesn't fit, or there is no room: for the items that are
/// pending, or the positions. Faults of names and levels are passed over. No memory is asked for.
#[inline(never)]
pub fn lines(source: &[u8], profile: Profile) -> Option<SourcePositions>
    ensures positions { IfSome result
        (λ positions. ArePositions profile (tokens source.now) (token_positions source.now) positions) }
    ensures some { HasRoom profile (tokens source.now) (token_positions source.now) → result ≢ None }
{
    let mut feed = SourceFeed::new(source);
    let Ok(mut cursor) = Cursor::open(&mut feed) else {
        return None;
    };
    let mut finder = Finder::new(source);
    let mut automaton = Automaton::start();
    let mut found = SourcePositions {
        places: ArrayVec::new(),
    };
    let mut next = finder.place(cursor.peek());
    // a source has at most one token more than a cursor goes past
    for _token in 0..MOST_SOURCE_BYTES + 3 {
        let is_last = cursor.peek().token.is_last();
        let after = token_after(&cursor, &mut finder, &next);
        if !found.pass(&mut automaton, profile, &next, &after) {
            return None;
        }
        if is_last {
            // the final NOP comes from the end
            return if found.push(place_of(&next)) {
                Some(found)
            } else {
                None
            };
        }
        let Ok(()) = cursor.advance(&mut feed) else {
            return None;
        };
        next = after;
    }
    None
}

/// Returns the token after the next one: the next one itself, if it is the last.
fn token_after(cursor: &Cursor, finder: &mut Finder<'_>, next: &Located) -> Located
    ensures last { is_last cursor.now.next.token ≡ true → result ≡ next.now }
    ensures other { is_last cursor.now.next.token ≡ false → IsLocated result cursor.now.after
        (position_in finder.old.source.now finder.old.end cursor.now.after) }
    ensures source { finder.new.source ≡ finder.old.source }
    ensures end { is_last cursor.now.next.token ≡ false → finder.new.end ≡ cursor.now.after.end }
{
    if cursor.peek().token.is_last() {
        return *next;
    }
    finder.place(cursor.after())
}
