//! How many cycles a robot program's functions and turns take, and how many questions they ask, at least and at most.
#![tactic(auto)]

mod counted;
mod ends;
mod expressions;
mod known;
mod laws;
mod loops;
mod runs;
mod sources;
mod spans;
mod statements;

pub use counted::Counted;
pub use grammar::{Intrinsic, Profile};
pub use known::known_spans;
pub use laws::{
    cycles_are_replies, expressions_take, loops_are_turns, runs_take, statements_take, turns_take,
};
pub use loops::{Turn, turns};
pub use runs::{Run, Runs, all_runs};
pub use sources::{SourceSpans, source_spans};
pub use spans::{Ends, Span};
