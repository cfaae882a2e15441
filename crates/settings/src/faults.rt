//! Why the words of the command line are refused.

use thiserror::Error;

/// Why the words of the command line ask for nothing that the program does.
#[derive(Clone, Copy, Debug, PartialEq, Eq, Error)]
pub enum UseFault {
    /// They aren't a use of the command's options and files.
    #[error("wrong usage")]
    Usage,
    /// A value is no number within its limits.
    #[error("a value is no number within its limits")]
    Number,
    /// There are over four files.
    #[error("too many files")]
    TooMany,
    /// Neither listings nor matches are asked for.
    #[error("no mode")]
    NoMode,
    /// Memory was refused.
    #[error("out of memory")]
    Memory,
}
