//! The code of a robot program: instructions, the builder that makes them, and the machine.
#![tactic(auto)]

mod cause;
mod code_limits;
mod counts;
mod cycles;
mod frame;
mod instr;
mod laws;
mod machine;
mod maker;
mod program;
mod stepping;
mod storage;
mod values;
mod want;
mod worked_programs;

pub use cause::Cause;
pub use code_limits::{MOST_FRAMES, MOST_INSTRUCTIONS, MOST_WORDS};
pub use counts::FunctionCounts;
pub use frame::Frame;
pub use grammar::{Intrinsic, Profile};
pub use instr::Instr;
pub use laws::{always_ready, code_means_trees, length_of_code, more_iterations};
pub use machine::Machine;
pub use maker::{Maker, main_number};
pub use program::Program;
pub use want::Want;
pub use worked_programs::known_programs;
