//! Texts to which adding can't fail: want of memory is noted, and reported once at the end.

use std::alloc::{AllocError, Global};
use std::fmt::Display;

/// A text that words are added to. If memory is refused for some of them, the text notes it, and takes nothing more: so
/// adding can't fail.
pub trait Text {
    /// Adds words.
    fn add(&mut self, words: &str);

    /// Adds a character.
    fn push(&mut self, character: char);

    /// Adds a number.
    fn number(&mut self, number: u64);
}

/// A text in memory.
#[derive(Drop)]
pub struct Draft {
    kept: String,
    is_whole: bool,
}

impl Draft {
    /// Makes a text without words.
    pub fn new(alloc: Global) -> Draft {
        Draft {
            kept: String::new(alloc),
            is_whole: true,
        }
    }

    /// Returns what its memory is taken from.
    pub fn alloc(&self) -> Global {
        *self.kept.allocator()
    }

    /// Reports whether nothing was added.
    pub fn is_empty(&self) -> bool {
        self.kept.is_empty()
    }

    /// Adds what a format shows. `write!` and `writeln!` call it, and have nothing to answer.
    pub fn write_fmt<D: Display + Drop>(&mut self, shown: D) {
        self.is_whole = self.is_whole && self.kept.write_fmt(shown).is_ok();
    }

    /// Appends what was added to a text, and begins anew. The only error is that memory was refused, now or before.
    pub fn move_behind(&mut self, text: &mut String) -> Result<(), AllocError> {
        let moved = text.push_str(self.kept.as_str());
        self.kept.clear();
        if self.is_whole {
            moved
        } else {
            Err(AllocError)
        }
    }

    /// Returns the text. The only error is that memory was refused as something was added.
    pub fn finish(self) -> Result<String, AllocError> {
        if self.is_whole {
            Ok(self.kept)
        } else {
            Err(AllocError)
        }
    }
}

impl Text for Draft {
    fn add(&mut self, words: &str) {
        self.is_whole = self.is_whole && self.kept.push_str(words).is_ok();
    }

    fn push(&mut self, character: char) {
        self.is_whole = self.is_whole && self.kept.push(character).is_ok();
    }

    fn number(&mut self, number: u64) {
        write!(self, "{number}");
    }
}

/// Adds a number, with blanks before it up to this width. A longer one has all its digits.
pub fn add_right(text: &mut impl Text, number: u64, width: usize) {
    for _ in digits_of(number)..width {
        text.push(' ');
    }
    text.number(number);
}

/// Adds words of ASCII, with blanks after them up to this width. Longer ones are all added.
pub fn add_left(text: &mut impl Text, words: &str, width: usize) {
    text.add(words);
    for _ in words.len()..width {
        text.push(' ');
    }
}

/// Adds a number that may be negative.
pub fn add_signed(text: &mut impl Text, number: i64) {
    if number < 0 {
        text.push('-');
    }
    text.number(number.unsigned_abs());
}

/// Returns how many digits a number has.
fn digits_of(number: u64) -> usize {
    let mut least: u64 = 10;
    for digits in 1..20 {
        if number < least {
            return digits;
        }
        least = least.saturating_mul(10);
    }
    20
}
