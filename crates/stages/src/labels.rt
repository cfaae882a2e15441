//! What the nodes of a tree are called: names stand beside their numbers.

use crate::robots::Robot;
use derivations::NodeKind;
use grammar::{Callee, StoreOp, Var, operator_punctuator, store_punctuator};
use std::fmt;

/// Words, a number, and the name of what has it.
#[derive(Clone, Copy)]
pub struct Named<'a> {
    words: &'a str,
    number: usize,
    name: &'a str,
}

impl<'a> Named<'a> {
    /// Makes the label of words, a number and a name.
    pub fn of(words: &'a str, number: usize, name: &'a str) -> Named<'a> {
        Named {
            words,
            number,
            name,
        }
    }
}

impl<'a> fmt::Display for Named<'a> {
    fn fmt<W: fmt::Write>(&self, f: &mut fmt::Formatter<W>) -> fmt::Result {
        write!(f, "{}{} ({})", self.words, self.number, self.name)
    }
}

/// The label of a node of this kind in the function of this number.
#[derive(Clone, Copy)]
pub struct Label<'a> {
    robot: &'a Robot,
    function: usize,
    kind: NodeKind,
}

impl<'a> Label<'a> {
    /// Makes the label of a node of this kind in the function of this number of a robot.
    pub fn of(robot: &'a Robot, function: usize, kind: NodeKind) -> Label<'a> {
        Label {
            robot,
            function,
            kind,
        }
    }

    /// Returns a variable with its name.
    fn variable(&self, variable: Var) -> Named<'a> {
        let name = self.robot.named().variable_name(self.function, variable);
        match variable {
            Var::External(number) => Named::of("E", usize::from(number), name),
            Var::Local(number) => Named::of("L", usize::from(number), name),
        }
    }
}

impl<'a> fmt::Display for Label<'a> {
    fn fmt<W: fmt::Write>(&self, f: &mut fmt::Formatter<W>) -> fmt::Result {
        match self.kind {
            NodeKind::Constant(value) => write!(f, "constant {value}"),
            NodeKind::Fetch(variable) => write!(f, "variable {}", self.variable(variable)),
            NodeKind::Store(variable, op) | NodeKind::PrefixIncrement(variable, op) => {
                let variable = self.variable(variable);
                write!(f, "assign {variable} {}", store_punctuator(op))
            }
            NodeKind::PostfixIncrement(variable, op) => {
                let variable = self.variable(variable);
                write!(f, "postfix {variable} {}", step_punctuator(op))
            }
            NodeKind::Negate => f.write_str("operator -"),
            NodeKind::Not => f.write_str("operator =="),
            NodeKind::Complement => f.write_str("operator ^"),
            NodeKind::Binary(op) => write!(f, "operator {}", operator_punctuator(op)),
            NodeKind::Call(Callee::Function(number), _) => {
                let name = self.robot.named().function_name(usize::from(number));
                write!(f, "call {number} ({name})")
            }
            NodeKind::Call(Callee::Intrinsic(intrinsic), _) => {
                write!(f, "call {}", intrinsic.name())
            }
            NodeKind::Evaluate => f.write_str("expression"),
            NodeKind::If | NodeKind::IfElse => f.write_str("if"),
            NodeKind::While => f.write_str("while"),
            NodeKind::Return => f.write_str("return"),
        }
    }
}

/// Returns the punctuator of a variable's increment or decrement, by the operator of its store.
fn step_punctuator(operator: StoreOp) -> &'static str {
    match operator {
        StoreOp::Add => "++",
        // an increment adds 1, a decrement subtracts 1
        _ => "--",
    }
}
