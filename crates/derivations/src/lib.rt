//! The derivation of a source as a value, step by step, for tools that explain sources: the grammar's table as code,
//! the tokens with their columns, what each step emits, the walk that says what each step comes upon, the tree and the
//! sums that are made along it, and the position that each instruction comes from. Beside it, the call by which all
//! tools compile a source.
#![tactic(auto)]

mod addresses;
mod candidates;
mod choices;
mod compiling;
mod emissions;
mod feeds;
pub mod known;
mod locations;
mod named_programs;
mod scheme;
mod source_tree;
mod steps;
mod sums;
mod symbols;
mod tree_growth;
mod walks;

pub use addresses::{MOST_PLACES, SourcePosition, SourcePositions, lines};
pub use candidates::{Fitting, MOST_FITTING, fitting, spelled};
pub use choices::{choice, enters};
pub use compiling::{Compiled, CompiledSource, compile, compile_source, positions_of};
pub use emissions::{Emission, MOST_ACTIONS, Origin};
pub use locations::{Located, MOST_TOKENS, Tokens, locate, locate_in};
pub use named_programs::{NamedProgram, function_at};
pub use source_tree::{Body, MOST_NODES, Node, NodeKind, SourceTree};
pub use steps::{Derivation, Pending, StepEnd};
pub use sums::{Loop, Sum, Sums};
pub use symbols::{Item, MOST_ITEMS, Production, Role, SemanticAction, Symbol};
pub use walks::{Event, Meaning, Walk};
