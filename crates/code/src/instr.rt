//! The instructions of the stack machine.

use grammar::{Callee, Op, StoreOp, Var};

/// An instruction of the stack machine.
///
/// If an instruction doesn't fit, the robot is restarted.
#[derive(Clone, Copy, Debug, PartialEq, Eq)]
pub enum Instr {
    /// `FETCH variable`: pushes the variable's value. It doesn't fit if the stack is full.
    Fetch(Var),
    /// `STORE variable operator`: takes a word, computes the new value from the variable as it is and the word, stores
    /// it and pushes it.
    Store(Var, StoreOp),
    /// `CONST value`: pushes the value. It doesn't fit if the stack is full.
    Const(i32),
    /// `BINOP operator`: takes two words, the right side on top, and pushes the operator's value.
    Binop(Op),
    /// `FCALL function`: a function of the file keeps its parameters of the words above the frame's base, drops the
    /// others, fills with zeros up to its variables and goes to its address. It doesn't fit if that is past the
    /// stack. An intrinsic asks with its arguments, closes the frame and leaves the reply alone above the base. It
    /// doesn't fit, and doesn't ask, if that is past the stack.
    Fcall(Callee),
    /// `RETSUB`: takes the top word, closes the frame, cuts the stack to the frame's base, pushes the word and goes on
    /// after the call. It doesn't fit in main's first frame.
    Retsub,
    /// `BRANCH address`: takes one word and goes to the address if it is 0.
    Branch(u16),
    /// `CHOP`: takes one word.
    Chop,
    /// `FRAME`: opens a frame, whose base is the stack's depth. It doesn't fit if all frames are open.
    Frame,
    /// `TRUTH`: takes a word and pushes 1 if it isn't 0, else 0. Only the second profile has it.
    Truth,
    /// `NOP`: ends the code.
    Nop,
}

impl Default for Instr {
    /// Makes an instruction of which blank code consists. It is all zeros, so blank code is cheap to make and never
    /// moved.
    fn default() -> Instr {
        Instr::Fetch(Var::External(0))
    }
}
