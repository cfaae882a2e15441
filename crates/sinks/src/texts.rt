//! Numbers and columns of text, and the name of a file in it.

ghost use Rattle.std.specs.Prelude.{◌≡◌, ℕ, ◌+◌, ◌-◌, ◌^◌, ◌<◌, ◌≤◌, List, [], ◌∷◌, ◌++◌, length, OnOk, OnErr, decimal, replicate};
ghost use Rattle.sinks.specs.Pens.{Pen, MayFail, Adds};
ghost use Rattle.sinks.specs.Texts.{file_name, column};

use crate::pen::Pen;
use crate::sink::Sink;

impl Pen {
    /// Adds a number in decimal.
    pub fn add_number<S: Sink>(&mut self, sink: &mut S, n: u32)
        requires { MayFail self.old (S.written sink.old) }
        ensures countable { MayFail self.new (S.written sink.new) }
        ensures text { Adds (S.written sink.old) self.old (S.written sink.new) self.new (decimal n) }
    {
        if n >= 10 {
            self.add_number(sink, n / 10);
        }
        self.add_byte(sink, b'0' + (n % 10) as u8);
    }

    /// Adds a number in decimal, with spaces before it up to the width.
    pub fn add_column<S: Sink>(&mut self, sink: &mut S, width: usize, n: u32)
        requires { MayFail self.old (S.written sink.old) }
        ensures countable { MayFail self.new (S.written sink.new) }
        ensures text { Adds (S.written sink.old) self.old (S.written sink.new) self.new (column width n) }
    {
        if n >= 10 {
            self.add_column(sink, width.saturating_sub(1), n / 10);
        } else {
            self.add_spaces(sink, width.saturating_sub(1));
        }
        self.add_byte(sink, b'0' + (n % 10) as u8);
    }

    /// Adds `count` spaces.
    fn add_spaces<S: Sink>(&mut self, sink: &mut S, count: usize)
        requires { MayFail self.old (S.written sink.old) }
        ensures countable { MayFail self.new (S.written sink.new) }
        ensures text { Adds (S.written sink.old) self.old (S.written sink.new) self.new (replicate count 32) }
    {
        for _ in 0..count {
            self.add_byte(sink, b' ');
        }
    }
}

/// Returns the name that texts give the file of this word: the part after its last `/`.
pub fn file_name(word: &[u8]) -> &[u8]
    ensures { result.now ≡ file_name word.now }
{
    let mut start = word.len();
    while start > 0 && word[start - 1] != b'/' {
        start -= 1;
    }
    &word[start..]
}
