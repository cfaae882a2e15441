//! Why a machine wants a restart.

/// The reason why a machine wants a restart.
#[derive(Clone, Copy, Debug, PartialEq, Eq)]
pub enum Cause {
    /// The next instruction takes more words than the stack has.
    Words,
    /// The next instruction opens one frame too many.
    Frames,
    /// `main` returned.
    Returned,
}
