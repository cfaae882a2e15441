//! Reports the trees to a builder, action by action.

ghost use Rattle.std.specs.Prelude.{pos, [], ◌∷◌, ◌++◌, IsErrOf, OnOk, map};
ghost use Rattle.grammar.specs.declared.actions.Action.TheVariants.{BeginWhile, Chop, FetchVariable, IfTest};
ghost use Rattle.grammar.specs.declared.actions.Action.TheVariants.{PushConstant, StoreVariable, WhileTest};
ghost use Rattle.grammar.specs.Actions.{args_actions, body_actions, expr_actions, function_actions, last_return};
ghost use Rattle.grammar.specs.Actions.{middle};
ghost use Rattle.grammar.specs.Building.{AppendsAll, MayFollowAll, Refuses, LeavesOpen};
ghost use Rattle.trees.specs.Replaying.{AppendsThose, IsOverWith, IsOverWithThose, RepresentsNoActions};
ghost use Rattle.trees.specs.TreeMakers.{TreeMakerRepresents};
ghost use Rattle.trees.specs.Trees.{arguments, body_tree, expr_tree, function_tree, statement_actions};

use crate::tree::{Expr, Function, Statement};
use crate::tree_maker::TreeMaker;
use grammar::{Action, Build, BuildFault, Op, StoreOp, Var};

impl TreeMaker {
    /// Reports to the builder the actions that were reported to the maker.
    ///
    /// # Errors
    ///
    /// The builder's refusal. What the builder then represents is unknown.
    pub fn replay<B: Build>(&self, build: &mut B) -> Result<(), BuildFault>
        requires closed { LeavesOpen (λ p acts. TreeMakerRepresents self.now p acts) [] }
        requires told_nothing { RepresentsNoActions (B.stands build.old) }
        ensures ok { OnOk result (AppendsThose self.now (B.stands build.old) (B.stands build.new)) }
        ensures full { IsErrOf result BuildFault.Full → IsOverWithThose self.now (B.stands build.old) }
        ensures memory { IsErrOf result BuildFault.Memory → B.denied }
    {
        for function in self.functions() {
            report_function(function, build)?;
        }
        Ok(())
    }
}

/// Reports a function, with the `return 0;` at its end.
fn report_function<B: Build>(function: &Function, build: &mut B) -> Result<(), BuildFault>
    requires { MayFollowAll (B.stands build.old) (function_actions function.now.number (function_tree function.now)) }
    ensures ok { OnOk result (AppendsAll (B.stands build.old) (B.stands build.new)
        (function_actions function.now.number (function_tree function.now))) }
    ensures full { IsErrOf result BuildFault.Full
        → IsOverWith (B.stands build.old) (function_actions function.now.number (function_tree function.now)) }
    ensures memory { IsErrOf result BuildFault.Memory → B.denied }
{
    build.act(Action::BeginFunction(function.number, function.parameters))?;
    tell_statements(&function.body, build)?;
    tell_last_return(build)?;
    build.act(Action::EndFunction(function.variables))
}

#[tactic(auto, using(crate::proofs::ReplayLaws::may_return))]
/// Reports `return 0;`.
fn tell_last_return<B: Build>(build: &mut B) -> Result<(), BuildFault>
    requires { MayFollowAll (B.stands build.old) last_return }
    ensures ok { OnOk result (AppendsAll (B.stands build.old) (B.stands build.new) last_return) }
    ensures memory { Refuses result B.denied }
{
    build.act(Action::PushConstant(0))?;
    build.act(Action::GiveBack)
}

/// Reports statements in their order.
#[cycle(statements)]
fn tell_statements<B: Build>(statements: &[Statement], build: &mut B) -> Result<(), BuildFault>
    requires { MayFollowAll (B.stands build.old) (body_actions (body_tree statements.now)) }
    ensures ok { OnOk result (AppendsAll (B.stands build.old) (B.stands build.new)
        (body_actions (body_tree statements.now))) }
    ensures memory { Refuses result B.denied }
{
    for statement in statements {
        report_statement(statement, build)?;
    }
    Ok(())
}

/// Reports a statement.
#[cycle(statements)]
fn report_statement<B: Build>(statement: &Statement, build: &mut B) -> Result<(), BuildFault>
    requires { MayFollowAll (B.stands build.old) (statement_actions statement.now) }
    ensures ok { OnOk result (AppendsAll (B.stands build.old) (B.stands build.new) (statement_actions statement.now)) }
    ensures memory { Refuses result B.denied }
{
    match statement {
        Statement::IfStatement(condition, branch) => {
            tell_test(condition, build)?;
            tell_statements(branch, build)?;
            build.act(Action::EndIf)
        }
        Statement::IfElseStatement(condition, first, second) => {
            tell_test(condition, build)?;
            tell_statements(first, build)?;
            build.act(Action::ElsePart)?;
            tell_statements(second, build)?;
            build.act(Action::EndIf)
        }
        Statement::While(condition, body) => {
            tell_loop_test(condition, build)?;
            tell_statements(body, build)?;
            build.act(Action::EndWhile)
        }
        Statement::ExpressionStatement(expr) => {
            report_expr(expr, build)?;
            build.act(Action::Chop)
        }
        Statement::Return(expr) => {
            report_expr(expr, build)?;
            build.act(Action::GiveBack)
        }
    }
}

/// Reports the condition of an `if`.
fn tell_test<B: Build>(condition: &Expr, build: &mut B) -> Result<(), BuildFault>
    requires { MayFollowAll (B.stands build.old) (expr_actions (expr_tree condition.now) ++ IfTest ∷ []) }
    ensures ok { OnOk result (AppendsAll (B.stands build.old) (B.stands build.new)
        (expr_actions (expr_tree condition.now) ++ IfTest ∷ [])) }
    ensures memory { Refuses result B.denied }
{
    report_expr(condition, build)?;
    build.act(Action::IfTest)
}

/// Reports the condition of a `while`.
fn tell_loop_test<B: Build>(condition: &Expr, build: &mut B) -> Result<(), BuildFault>
    requires { MayFollowAll (B.stands build.old)
        (BeginWhile ∷ (expr_actions (expr_tree condition.now) ++ WhileTest ∷ [])) }
    ensures ok { OnOk result (AppendsAll (B.stands build.old) (B.stands build.new)
        (BeginWhile ∷ (expr_actions (expr_tree condition.now) ++ WhileTest ∷ []))) }
    ensures memory { Refuses result B.denied }
{
    build.act(Action::BeginWhile)?;
    report_expr(condition, build)?;
    build.act(Action::WhileTest)
}

/// Reports an expression.
#[cycle(expressions)]
fn report_expr<B: Build>(expr: &Expr, build: &mut B) -> Result<(), BuildFault>
    requires { MayFollowAll (B.stands build.old) (expr_actions (expr_tree expr.now)) }
    ensures ok { OnOk result (AppendsAll (B.stands build.old) (B.stands build.new)
        (expr_actions (expr_tree expr.now))) }
    ensures memory { Refuses result B.denied }
{
    match expr {
        Expr::Constant(value) => build.act(Action::PushConstant(*value)),
        Expr::Variable(var) => build.act(Action::FetchVariable(*var)),
        Expr::Binary(op, left, right) => {
            report_expr(left, build)?;
            report_middle(*op, build)?;
            report_expr(right, build)?;
            build.act(Action::ApplyBinop(*op))
        }
        Expr::Assign(op, var, right) => {
            report_expr(right, build)?;
            build.act(Action::StoreVariable(*var, *op))
        }
        Expr::Postfix(op, var) => tell_step(*op, *var, build),
        Expr::Call(callee, arguments) => {
            build.act(Action::BeginCall)?;
            tell_arguments(arguments, build)?;
            build.act(Action::EndCall(*callee))
        }
    }
}

/// Reports the arguments of a call.
#[cycle(expressions)]
fn tell_arguments<B: Build>(exprs: &[Expr], build: &mut B) -> Result<(), BuildFault>
    requires { MayFollowAll (B.stands build.old) (args_actions (arguments (map expr_tree exprs.now))) }
    ensures ok { OnOk result (AppendsAll (B.stands build.old) (B.stands build.new)
        (args_actions (arguments (map expr_tree exprs.now)))) }
    ensures memory { Refuses result B.denied }
{
    for expr in exprs {
        report_expr(expr, build)?;
    }
    Ok(())
}

/// Reports what is between the sides of an operator.
fn report_middle<B: Build>(op: Op, build: &mut B) -> Result<(), BuildFault>
    requires { MayFollowAll (B.stands build.old) (middle op) }
    ensures ok { OnOk result (AppendsAll (B.stands build.old) (B.stands build.new) (middle op)) }
    ensures memory { Refuses result B.denied }
{
    if !op.is_logic() {
        return Ok(());
    }
    build.act(Action::LogicMiddle(op))
}

/// Reports `v++` or `v--`, by the operator that changes the variable by one.
fn tell_step<B: Build>(op: StoreOp, var: Var, build: &mut B) -> Result<(), BuildFault>
    requires { MayFollowAll (B.stands build.old)
        (FetchVariable var ∷ PushConstant (pos 1) ∷ StoreVariable var op ∷ Chop ∷ []) }
    ensures ok { OnOk result (AppendsAll (B.stands build.old) (B.stands build.new)
        (FetchVariable var ∷ PushConstant (pos 1) ∷ StoreVariable var op ∷ Chop ∷ [])) }
    ensures memory { Refuses result B.denied }
{
    build.act(Action::FetchVariable(var))?;
    build.act(Action::PushConstant(1))?;
    build.act(Action::StoreVariable(var, op))?;
    build.act(Action::Chop)
}
