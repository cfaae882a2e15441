//! The language's public interface: the parser, the trees of programs with their builder, the round-trip law, and what
//! callers need of the crates below.
#![tactic(auto)]

pub use grammar::{
    Action, Build, BuildFault, Callee, Code, Diagnostic, FunctionNames, Intrinsic, MOST_NAMES,
    MOST_NESTED, Op, ParseFault, Pools, Profile, StoreOp, Var, Watch, Watched,
};
pub use grammar_laws::{known, laws};
pub use parser::parse;
pub use tokens::{DeviceFault, Feed, Name};
pub use trees::{Expr, Function as FunctionTree, Statement, TreeMaker};
