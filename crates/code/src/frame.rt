//! The frames of a machine.

/// An open frame: the stack's depth at its opening, and the address and the variables to which its function returns.
#[derive(Clone, Copy, Default, PartialEq, Eq)]
pub struct Frame {
    /// The stack's depth when the frame was opened.
    pub base: u16,
    /// The address after the call.
    pub back: u16,
    /// Where the caller's variables begin.
    pub home: u16,
}
