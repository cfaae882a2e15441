//! Words of the command line as lines show them.

ghost use Rattle.std.specs.Prelude.{◌≡◌};
ghost use Rattle.tools.specs.Shown.{visible};

use std::fmt;

/// A word on a line: each control character of it is shown as a question mark.
#[derive(Clone, Copy)]
pub struct Plain<'a>(pub &'a str);

impl<'a> fmt::Display for Plain<'a> {
    fn fmt<W: fmt::Write>(&self, f: &mut fmt::Formatter<W>) -> fmt::Result {
        for c in self.0.chars() {
            f.write_char(visible(c))?;
        }
        Ok(())
    }
}

/// The word of a file on a line: one without a letter is two quotes.
#[derive(Clone, Copy)]
pub struct FileWord<'a>(pub &'a str);

impl<'a> fmt::Display for FileWord<'a> {
    fn fmt<W: fmt::Write>(&self, f: &mut fmt::Formatter<W>) -> fmt::Result {
        match self.0 {
            "" => write!(f, "''"),
            word => write!(f, "{}", Plain(word)),
        }
    }
}

/// The bytes of a word on a line: those that are no text by their codes, as `\xff`.
#[derive(Clone, Copy)]
pub struct Coded<'a>(pub &'a [u8]);

impl<'a> fmt::Display for Coded<'a> {
    fn fmt<W: fmt::Write>(&self, f: &mut fmt::Formatter<W>) -> fmt::Result {
        for chunk in self.0.utf8_chunks() {
            write!(f, "{}", Plain(chunk.valid()))?;
            for byte in chunk.invalid() {
                write!(f, "\\x{byte:02x}")?;
            }
        }
        Ok(())
    }
}

/// Returns a character as a line shows it: a control character is a question mark.
pub fn visible(c: char) -> char
    ensures { result ≡ visible c }
{
    match c {
        '\0'..='\x1f' | '\x7f'..='\u{9f}' => '?',
        _ => c,
    }
}

/// An option's name on a line: `-k` if it is one letter, else `--name`.
#[derive(Clone, Copy)]
pub struct Dashed(pub &'static str);

impl Dashed {
    /// Returns what stands before the name.
    pub fn dashes(self) -> &'static str {
        if self.0.len() == 1 { "-" } else { "--" }
    }
}

impl fmt::Display for Dashed {
    fn fmt<W: fmt::Write>(&self, f: &mut fmt::Formatter<W>) -> fmt::Result {
        let (dashes, name) = (self.dashes(), self.0);
        write!(f, "{dashes}{name}")
    }
}
