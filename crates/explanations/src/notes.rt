//! Texts of fixed size, which ask for no memory.
//!
//! What adds to them isn't inlined: the page's module would have a copy for each piece of each text.

ghost use Rattle.std.specs.Prelude.{◌≡◌, ◌+◌, ◌<◌, ◌≤◌, ◌++◌, ◌∷◌, [], ℕ, List, decimal, length};
ghost use Rattle.explanations.specs.Faults.{position};

use arrayvec::ArrayString;
use std::fmt::Write;

/// The most bytes of a note, more than an explanation or a warning has.
const NOTE_BYTES: usize = 2048;

/// What is said of a fault, or a warning: lines, each with its end. What finds no room is left out.
#[derive(Drop)]
pub struct Note {
    text: ArrayString<NOTE_BYTES>,
}

impl Note {
    /// Makes a note without words.
    pub(crate) fn new() -> Note
        ensures { result.text.bytes ≡ [] }
    {
        Note {
            text: ArrayString::new(),
        }
    }

    /// Returns the text.
    pub fn as_str(&self) -> &str
        ensures { result.now ≡ self.now.text.bytes }
    {
        self.text.as_str()
    }

    /// Adds words.
    #[inline(never)]
    pub(crate) fn add(&mut self, words: &str)
        ensures room { length self.old.text.bytes + length words.now ≤ NOTE_BYTES
            → self.new.text.bytes ≡ self.old.text.bytes ++ words.now }
        ensures kept { (rest : List ℕ) × (self.new.text.bytes ≡ self.old.text.bytes ++ rest) }
    {
        let _ = self.text.try_push_str(words);
    }

    /// Adds a character.
    #[inline(never)]
    pub(crate) fn push(&mut self, character: char)
        ensures { character < 128 → length self.old.text.bytes < NOTE_BYTES
            → self.new.text.bytes ≡ self.old.text.bytes ++ character ∷ [] }
    {
        let _ = self.text.try_push(character);
    }

    /// Adds a number.
    #[inline(never)]
    pub(crate) fn number(&mut self, number: u64) {
        let _ = write!(self.text, "{number}");
    }

    /// Adds a number between words.
    #[inline(never)]
    pub(crate) fn count(&mut self, before: &str, number: u64, behind: &str) {
        self.add(before);
        self.number(number);
        self.add(behind);
    }

    /// Adds words as the source has them, between backquotes.
    #[inline(never)]
    pub(crate) fn quote(&mut self, words: &str) {
        self.push('`');
        self.add(words);
        self.push('`');
    }

    /// Adds a number digit by digit.
    fn add_digits(&mut self, number: u32)
        ensures digits { length self.old.text.bytes + length (decimal number) ≤ NOTE_BYTES
            → self.new.text.bytes ≡ self.old.text.bytes ++ decimal number }
    {
        if number >= 10 {
            self.add_digits(number / 10);
        }
        self.push(char::from(b'0' + (number % 10) as u8));
    }

    /// Adds a position, as a line and a column.
    pub(crate) fn position(&mut self, line: u32, column: u32)
        ensures { length self.old.text.bytes + length (position line column) ≤ NOTE_BYTES
            → self.new.text.bytes ≡ self.old.text.bytes ++ position line column }
    {
        self.add_digits(line);
        self.push(':');
        self.add_digits(column);
        self.add(": ");
    }
}
