//! What a machine wants.

use grammar::Intrinsic;

/// What a machine wants next.
#[derive(Clone, Copy, Debug, PartialEq, Eq)]
pub enum Want {
    /// Nothing: the next instruction touches the machine alone.
    Quiet,
    /// The reply of an intrinsic, with these arguments: 0 if one is missing or not used.
    Ask(Intrinsic, [i32; 2]),
    /// A restart: the next instruction doesn't fit.
    Restart,
}
