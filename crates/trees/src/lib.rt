//! Makes the trees of robot programs from what a parser reports, and reports trees to another builder.
#![tactic(auto)]

mod allocation;
mod laws;
mod making;
mod replay;
mod tree;
mod tree_maker;
mod tree_stack;

pub use grammar::Profile;
pub use laws::actions_determine_trees;
pub use tree::{Expr, Function, Statement};
pub use tree_maker::TreeMaker;
