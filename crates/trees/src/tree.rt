//! The trees: expressions, statements and functions, with names by number.

use grammar::{Callee, Op, StoreOp, Var};

/// An expression.
///
/// A tree that a builder made has at most 2,000 nodes, since building stops at the most instructions of a file.
/// So its depth is bounded too, and recursion over it is.
#[derive(Debug, Drop)]
pub enum Expr {
    /// A constant.
    Constant(i32),
    /// The value of a variable.
    Variable(Var),
    /// A binary operator with its left and its right side.
    Binary(Op, Box<Expr>, Box<Expr>),
    /// An assignment with its right side. Its value is the variable's new one.
    Assign(StoreOp, Var, Box<Expr>),
    /// `v++` or `v--`, by the operator that changes the variable by one. Its value is the variable's old one.
    Postfix(StoreOp, Var),
    /// A call with its arguments in order.
    Call(Callee, Vec<Expr>),
}

/// A statement. A block adds its statements to those around it, and `;` adds none.
#[derive(Debug, Drop)]
pub enum Statement {
    /// An expression whose value is dropped.
    ExpressionStatement(Expr),
    /// An `if` without `else`: its condition and its branch.
    IfStatement(Expr, Vec<Statement>),
    /// An `if` with `else`: its condition and both branches.
    IfElseStatement(Expr, Vec<Statement>, Vec<Statement>),
    /// A `while`: its condition and its body.
    While(Expr, Vec<Statement>),
    /// A `return` with its value.
    Return(Expr),
}

/// A function.
#[derive(Debug, Drop)]
pub struct Function {
    /// Its number.
    pub number: u8,
    /// How many parameters it has.
    pub parameters: u8,
    /// How many variables it has, parameters among them.
    pub variables: u8,
    /// Its statements, without the `return 0;` that each function ends with.
    pub body: Vec<Statement>,
}
