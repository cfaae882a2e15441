//! Parses a robot program in one pass: reads the bytes of a device, reports to a builder, and returns the names of
//! the file or the first diagnostic.
#![tactic(auto)]

mod automaton;
mod expressions;
mod frame_steps;
mod frames;
mod function_headers;
mod functions;
mod name_lists;
mod operands;
mod roles;
mod scoped_cursor;
mod sources;
mod statements;
mod token_predicates;
mod unary_ops;

pub use sources::{parse, parse_into};
