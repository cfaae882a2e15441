//! How the program ends: its status, and the line that it puts.

ghost use Rattle.std.specs.Prelude.{◌≡◌, ℕ, ◌+◌, ◌-◌, ◌^◌, ◌<◌, ◌≤◌, List, [], ◌∷◌, ◌++◌};
ghost use Rattle.sinks.specs.Puts.{CanFail, Puts};
ghost use Rattle.command.specs.Endings.{exit_status, ending_line, PutsLine};

use series::{Pen, Sink, put_all};
use tokens::DeviceFault;

/// The line of wrong usage.
const USAGE: &str =
    "usage: crobots (-c | -mMATCHES) [-lCYCLES] [-sSEED] [-pPROFILE] [-fFIRST] FILE...\n";

/// How the program ends.
#[derive(Clone, Copy, PartialEq, Eq)]
pub enum Ending<'a> {
    /// Each file was good.
    Done,
    /// A file had a fault.
    Faulty,
    /// The words of the command line were wrong.
    WrongUsage,
    /// The file of this word was not opened.
    CannotOpen(&'a str),
    /// The file of this word was not read.
    CannotRead(&'a str),
    /// Writing failed.
    CannotWrite,
    /// Memory was refused.
    OutOfMemory,
}

impl Ending<'_> {
    /// Puts the ending's line, and answers the status, which a failure to put the line leaves as it is.
    pub fn conclude<E: Sink>(self, err: &mut E) -> u8
        requires { CanFail (E.written err.old) }
        ensures status { result ≡ exit_status self.entry }
        ensures line { PutsLine (E.written err.old) (E.written err.new)
            (ending_line self.entry) }
        ensures quiet { ending_line self.entry ≡ [] → (E.written err.new).failures ≡ (E.written err.old).failures }
    {
        let _ = self.put_line(err);
        self.status()
    }

    /// Returns the exit status.
    fn status(self) -> u8
        ensures { result ≡ exit_status self.entry }
    {
        match self {
            Ending::Done => 0,
            Ending::Faulty => 1,
            Ending::WrongUsage => 2,
            Ending::CannotOpen(_) | Ending::CannotRead(_) => 3,
            Ending::CannotWrite => 4,
            Ending::OutOfMemory => 5,
        }
    }

    /// Puts the program's own line, if this ending has one.
    #[tactic(auto, unfolding(crate::specs::Endings::usage_line))]
    fn put_line<E: Sink>(self, err: &mut E) -> Result<(), DeviceFault>
        requires { CanFail (E.written err.old) }
        ensures line { Puts result (E.written err.old) (E.written err.new)
            (ending_line self.entry) }
        ensures quiet { ending_line self.entry ≡ [] → (E.written err.new).failures ≡ (E.written err.old).failures }
    {
        match self {
            Ending::Done | Ending::Faulty => Ok(()),
            Ending::WrongUsage => put_all(err, USAGE.as_bytes()),
            Ending::CannotOpen(word) => put_about(err, b"crobots: cannot open ", word),
            Ending::CannotRead(word) => put_about(err, b"crobots: cannot read ", word),
            Ending::CannotWrite => put_all(err, b"crobots: cannot write\n"),
            Ending::OutOfMemory => put_all(err, b"crobots: out of memory\n"),
        }
    }
}

/// Puts the line that says this about a file.
fn put_about<E: Sink>(err: &mut E, what: &[u8], word: &str) -> Result<(), DeviceFault>
    requires { CanFail (E.written err.old) }
    ensures { Puts result (E.written err.old) (E.written err.new)
        (what.now ++ word.now ++ 10 ∷ []) }
{
    let mut pen = Pen::new();
    pen.add(err, what);
    pen.add(err, word.as_bytes());
    pen.add(err, b"\n");
    pen.finish(err)
}
