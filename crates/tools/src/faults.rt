//! Why a program has no result, and the status that it ends with.

ghost use Rattle.std.specs.Prelude.{◌≡◌};

use std::alloc::AllocError;

/// Why a program has no result. The statuses are those of crobots.
#[derive(Clone, Copy, Debug, PartialEq, Eq)]
pub enum Fault {
    /// A file has a fault, and the lines about it were written. Status 1.
    Source,
    /// The words of the command line are wrong as the line of usage shows, or the line about one was written. Status 2.
    Usage,
    /// The value of an option is wrong, or the number of files. Status 2.
    Wrong(Wrong),
    /// A file can't be opened or read, and the line about it was written. Status 3.
    Read,
    /// The output can't be written. Status 4.
    Write,
    /// Nobody reads the output any more, which needs no line. The status is the one that a shell gives a program that
    /// the signal of a closed pipe ended: 141.
    Closed,
    /// Memory was refused. Status 5.
    Memory,
}

/// What is wrong with the values of options, which are read one by one, or with the files.
#[derive(Clone, Copy, Debug, PartialEq, Eq)]
pub enum Wrong {
    /// The value of this option is no number from the least to the most.
    Number(&'static str, u64, u64),
    /// The value of `--robot` is none of this many robots.
    Robot(usize),
    /// The cycle of `--to` is before that of `--from`.
    Order,
    /// Only one of these two options may be given.
    Both(&'static str, &'static str),
    /// The first of these two options may only be given with the other.
    Alone(&'static str, &'static str),
    /// The value of this option is a file that is read.
    Over(&'static str),
    /// There are more files than this.
    Files(usize),
    /// The value of this option is none as this one is.
    Unlike(&'static str, &'static str),
}

impl Fault {
    /// Returns the status that the program ends with, 1 to 5, or 141.
    pub fn status(self) -> u8
        ensures source { self ≡ Fault.Source → result ≡ 1 }
        ensures usage { self ≡ Fault.Usage → result ≡ 2 }
        ensures wrong { (wrong : Wrong) → self ≡ Fault.Wrong wrong → result ≡ 2 }
        ensures read { self ≡ Fault.Read → result ≡ 3 }
        ensures write { self ≡ Fault.Write → result ≡ 4 }
        ensures closed { self ≡ Fault.Closed → result ≡ 141 }
        ensures memory { self ≡ Fault.Memory → result ≡ 5 }
    {
        match self {
            Fault::Source => 1,
            Fault::Usage | Fault::Wrong(_) => 2,
            Fault::Read => 3,
            Fault::Write => 4,
            Fault::Closed => 141,
            Fault::Memory => 5,
        }
    }
}

impl From<AllocError> for Fault {
    ghost use Rattle.std.specs.Prelude.{◌≡◌};
    ghost use Rattle.tools.specs.declared.faults.Fault.TheVariants.{Memory};

    ghost from_gives = { λ _ e. e ≡ Memory };

    fn from(_fault: AllocError) -> Fault {
        Fault::Memory
    }
}
