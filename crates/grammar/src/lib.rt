//! Defines the language of robot programs: its grammar, its names, its diagnostics, and the trait by which a parser
//! reports to a builder.
#![tactic(auto)]

mod actions;
mod build;
mod diagnostics;
mod index;
pub mod laws;
mod name_limits;
mod operators;
mod pools;
mod profiles;
mod resolved_names;
mod scope;
mod watching;

pub use actions::Action;
pub use arith::Op;
pub use build::{Build, BuildFault};
pub use diagnostics::{Code, Diagnostic, ParseFault, lexical_error_code};
pub use name_limits::{MOST_NAMES, MOST_NESTED};
pub use operators::{
    BinaryOperator, StoreOp, UNARY_LEVEL, operator_from, operator_punctuator, store_operator,
    store_punctuator,
};
pub use pools::{FunctionNames, Pools};
pub use profiles::{MOST_PROFILE, Profile};
pub use resolved_names::{Callee, Intrinsic, Var};
pub use scope::{Scope, intrinsic_named, name_number};
pub use tokens::{DeviceFault, Feed, Name};
pub use watching::{Watch, Watched};
