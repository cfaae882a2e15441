//! Files as programs that watch matches need them: their programs, and beside each its name, its text, its names and
//! the line of each instruction. And how instructions, calls and moments are written.
#![tactic(auto)]

mod moment_rows;
mod notes;
mod spelling;
mod variables;

pub use moment_rows::add_moment;
pub use notes::{Note, NotedProgram, Sources, compiled, plain};
pub use spelling::{add_call, add_instruction, add_words};
pub use variables::{Variable, variables_named};
