//! How a call of the module ends.

ghost use Rattle.std.specs.Prelude.{◌≡◌};
ghost use Rattle.page.specs.Endings.{code_of};

/// How a call ends.
#[derive(Clone, Copy, PartialEq, Eq)]
pub enum Ending {
    /// Each source is good, and a sheet has all that was asked for.
    Done,
    /// A source has a fault, which a sheet has.
    Faulty,
    /// A number of the order is not within its limits, a name is no text, or there is no robot or over four.
    Refused,
    /// There was no room: a sheet is full, or a source that is explained has over `derivations::MOST_TOKENS` tokens.
    Full,
    /// The match goes on after the windows that were asked for.
    GoesOn,
}

impl Ending {
    /// Returns the number that stands for it: the exit status of the program crobots, if that ends so.
    pub fn code(self) -> u32
        ensures { result ≡ code_of self }
    {
        match self {
            Ending::Done => 0,
            Ending::Faulty => 1,
            Ending::Refused => 2,
            Ending::Full => 4,
            Ending::GoesOn => 6,
        }
    }
}
