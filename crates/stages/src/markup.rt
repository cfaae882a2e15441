//! Parts of a page's markup.

ghost use Rattle.std.specs.Prelude.{◌<◌};

use std::fmt;

/// How many colours there are.
pub const COLOURS: usize = 12;

/// Returns the hue of a colour, in degrees: the next colour is five twelfths of the circle away.
pub fn hue(colour: usize) -> usize
    ensures { result < 360 }
{
    colour % COLOURS * 150 % 360
}

/// A text, with the characters that mean something in HTML replaced.
#[derive(Clone, Copy)]
pub struct Escaped<'a>(pub &'a str);

impl<'a> fmt::Display for Escaped<'a> {
    fn fmt<W: fmt::Write>(&self, f: &mut fmt::Formatter<W>) -> fmt::Result {
        for character in self.0.chars() {
            match character {
                '&' => f.write_str("&amp;")?,
                '<' => f.write_str("&lt;")?,
                '>' => f.write_str("&gt;")?,
                _ => f.write_char(character)?,
            }
        }
        Ok(())
    }
}
