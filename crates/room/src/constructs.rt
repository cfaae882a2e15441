//! What each construct needs, by what the functions need that it calls.

ghost use Rattle.std.specs.Prelude.{◌≡◌};
ghost use Rattle.grammar.specs.Tree.{Body};
ghost use Rattle.trees.specs.Laws.{without_names};
ghost use Rattle.trees.specs.Trees.{arguments, body_tree, expr_tree, function_tree, statement_tree};
ghost use Rattle.room.specs.Constructs.{args_need, binary_need as need_of_sides, body_need as need_of_body};
ghost use Rattle.room.specs.Constructs.{callee_need as need_of_callee, expr_need as need_of_expr};
ghost use Rattle.room.specs.Counting.{CountsAs, counted};
ghost use Rattle.room.specs.Tables.{needs_in, told_need};
ghost use Rattle.std.specs.Prelude.{map};

use crate::room::{Room, above, both, words};
use grammar::{Callee, Op};
use trees::{Expr, Function, Statement};

/// How many numbers a function can have.
pub const NUMBERS: usize = 256;

/// What functions need, by number, in a profile that leaves out right sides or doesn't.
#[derive(Drop)]
pub struct Calls {
    /// Whether `&&` and `||` leave out their right side.
    pub short: bool,
    /// What each function needs.
    pub needs: [Option<Room>; NUMBERS],
}

/// Returns what a function needs, with its variables and its frame.
pub fn function_need(function: &Function, calls: &Calls) -> Option<Room>
    ensures { result ≡ told_need calls.now.short (needs_in calls.now.needs)
        (without_names function.now.number (function_tree function.now)) }
{
    let body = body_need(&function.body, calls);
    above(u16::from(function.variables), 1, both(words(1), body))
}

/// Returns what statements need.
#[cycle(statements)]
fn body_need(statements: &[Statement], calls: &Calls) -> Option<Room>
    ensures { CountsAs result
        (need_of_body calls.now.short (needs_in calls.now.needs) (body_tree statements.now)) }
{
    let mut need = words(0);
    let mut left = statements.len();
    while left > 0 {
        left -= 1;
        need = statement_need(&statements[left], need, calls);
    }
    need
}

/// Returns what a statement needs, with what those after it need.
#[cycle(statements)]
fn statement_need(statement: &Statement, rest: Option<Room>, calls: &Calls) -> Option<Room>
    ensures { (behind : Body) → CountsAs rest (need_of_body calls.now.short (needs_in calls.now.needs) behind)
        → CountsAs result
        (need_of_body calls.now.short (needs_in calls.now.needs) (statement_tree statement.now behind)) }
{
    match statement {
        Statement::ExpressionStatement(expr) => both(expr_need(expr, calls), rest),
        Statement::IfStatement(condition, branch) => {
            let branch = body_need(branch, calls);
            both(expr_need(condition, calls), both(branch, rest))
        }
        Statement::IfElseStatement(condition, first, second) => {
            let first = both(body_need(first, calls), words(1));
            let second = body_need(second, calls);
            both(expr_need(condition, calls), both(first, both(second, rest)))
        }
        Statement::While(condition, body) => {
            let turn = both(body_need(body, calls), words(1));
            both(expr_need(condition, calls), both(turn, rest))
        }
        Statement::Return(expr) => expr_need(expr, calls),
    }
}

/// Returns what an expression needs.
#[cycle(expressions)]
fn expr_need(expr: &Expr, calls: &Calls) -> Option<Room>
    ensures { CountsAs result (need_of_expr calls.now.short (needs_in calls.now.needs) (expr_tree expr.now)) }
{
    match expr {
        Expr::Constant(_) | Expr::Variable(_) => words(1),
        Expr::Binary(op, left, right) => {
            let left = expr_need(left, calls);
            let right = expr_need(right, calls);
            binary_need(calls.short, *op, left, right)
        }
        Expr::Assign(_, _, right) => expr_need(right, calls),
        Expr::Postfix(_, _) => words(2),
        Expr::Call(callee, arguments) => {
            let inside = arguments_need(arguments, calls);
            both(above(0, 1, inside), callee_need(*callee, calls))
        }
    }
}

/// Returns what arguments need, each on those before it.
#[cycle(expressions)]
fn arguments_need(exprs: &[Expr], calls: &Calls) -> Option<Room>
    ensures { CountsAs result
        (args_need calls.now.short (needs_in calls.now.needs) (arguments (map expr_tree exprs.now))) }
{
    let mut need = words(0);
    let mut left = exprs.len();
    while left > 0 {
        left -= 1;
        need = both(expr_need(&exprs[left], calls), above(1, 0, need));
    }
    need
}

/// Returns what an operator needs with its sides.
fn binary_need(short: bool, op: Op, left: Option<Room>, right: Option<Room>) -> Option<Room>
    ensures { CountsAs result (need_of_sides short op left right) }
{
    if short && op.is_logic() {
        return both(left, both(right, words(2)));
    }
    both(left, above(1, 0, right))
}

/// Returns what is needed after the arguments of a call.
pub fn callee_need(callee: Callee, calls: &Calls) -> Option<Room>
    ensures { result ≡ need_of_callee (needs_in calls.now.needs) callee }
{
    match callee {
        Callee::Function(number) => calls.needs[number as usize],
        Callee::Intrinsic(_) => words(1),
    }
}
