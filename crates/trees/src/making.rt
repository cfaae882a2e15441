//! The trees that each action makes of what is open.

ghost use Rattle.std.specs.Prelude.{◌≡◌, OnOk, false, ⊤};
ghost use Rattle.grammar.specs.declared.actions.Action.TheVariants.{PushConstant, FetchVariable, StoreVariable};
ghost use Rattle.grammar.specs.declared.actions.Action.TheVariants.{ApplyBinop, LogicMiddle, BeginCall, EndCall};
ghost use Rattle.grammar.specs.declared.actions.Action.TheVariants.{IfTest, ElsePart, EndIf, BeginWhile, WhileTest};
ghost use Rattle.grammar.specs.declared.actions.Action.TheVariants.{EndWhile, GiveBack, Chop, BeginFunction};
ghost use Rattle.grammar.specs.declared.actions.Action.TheVariants.{EndFunction};
ghost use Rattle.grammar.specs.Actions.{ends_function};
ghost use Rattle.grammar.specs.Building.{Refuses};
ghost use Rattle.trees.specs.Opened.{Continues, EndsFunctionTree, IsAllowed};
ghost use Rattle.trees.specs.TreeStacks.{without_last};

use crate::allocation::boxed;
use crate::tree::{Expr, Function, Statement};
use crate::tree_stack::{BodyOwner, OpenItem, TreeStack};
use grammar::{Action, BuildFault, Callee, Op, StoreOp, Var};

impl TreeStack {
    /// Does an action that ends no function.
    pub fn act(&mut self, action: Action) -> Result<(), BuildFault>
        requires allowed { IsAllowed action self.old }
        requires inside { ends_function action ≡ false }
        ensures ok { OnOk result (Continues action self.old self.new) }
        ensures memory { Refuses result ⊤ }
    {
        match action {
            Action::PushConstant(value) => self.constant(value),
            Action::FetchVariable(var) => self.fetch(var),
            Action::StoreVariable(var, op) => self.store(var, op),
            Action::ApplyBinop(op) => self.binop(op),
            Action::LogicMiddle(op) => self.logic_middle(op),
            Action::BeginCall => self.begin_call(),
            Action::EndCall(callee) => self.end_call(callee),
            Action::IfTest => self.if_test(),
            Action::ElsePart => self.else_part(),
            Action::EndIf => self.end_if(),
            Action::BeginWhile => self.begin_while(),
            Action::WhileTest => self.while_test(),
            Action::EndWhile => self.end_while(),
            Action::GiveBack => self.give_back(),
            Action::Chop => self.chop(),
            Action::BeginFunction(number, parameters) => self.begin_function(number, parameters),
            Action::EndFunction(_) => unreachable!(),
        }
    }

    /// Takes a constant as the next value.
    fn constant(&mut self, value: i32) -> Result<(), BuildFault>
        requires { IsAllowed (PushConstant value) self.old }
        ensures ok { OnOk result (Continues (PushConstant value) self.old self.new) }
        ensures memory { Refuses result ⊤ }
    {
        self.open_item(OpenItem::Value(Expr::Constant(value)))
    }

    /// Takes the value of a variable as the next value.
    fn fetch(&mut self, var: Var) -> Result<(), BuildFault>
        requires { IsAllowed (FetchVariable var) self.old }
        ensures ok { OnOk result (Continues (FetchVariable var) self.old self.new) }
        ensures memory { Refuses result ⊤ }
    {
        self.open_item(OpenItem::Value(Expr::Variable(var)))
    }

    /// Stores the last value in a variable.
    fn store(&mut self, var: Var, op: StoreOp) -> Result<(), BuildFault>
        requires { IsAllowed (StoreVariable var op) self.old }
        ensures ok { OnOk result (Continues (StoreVariable var op) self.old self.new) }
        ensures memory { Refuses result ⊤ }
    {
        let right = self.take_value();
        let right = boxed(self.allocator(), right)?;
        self.open_item(OpenItem::Value(Expr::Assign(op, var, right)))
    }

    /// Makes the last two values the sides of an operator.
    fn binop(&mut self, op: Op) -> Result<(), BuildFault>
        requires { IsAllowed (ApplyBinop op) self.old }
        ensures ok { OnOk result (Continues (ApplyBinop op) self.old self.new) }
        ensures memory { Refuses result ⊤ }
    {
        let right = self.take_value();
        let left = self.take_left_side();
        let left = boxed(self.allocator(), left)?;
        let right = boxed(self.allocator(), right)?;
        self.open_item(OpenItem::Value(Expr::Binary(op, left, right)))
    }

    /// Begins the right side of `&&` or `||`.
    fn logic_middle(&mut self, op: Op) -> Result<(), BuildFault>
        requires { IsAllowed (LogicMiddle op) self.old }
        ensures ok { OnOk result (Continues (LogicMiddle op) self.old self.new) }
        ensures memory { Refuses result ⊤ }
    {
        self.open_item(OpenItem::RightSide(op))
    }

    /// Begins a call.
    fn begin_call(&mut self) -> Result<(), BuildFault>
        requires { IsAllowed BeginCall self.old }
        ensures ok { OnOk result (Continues BeginCall self.old self.new) }
        ensures memory { Refuses result ⊤ }
    {
        self.open_item(OpenItem::Call)
    }

    /// Ends the call's arguments.
    fn end_call(&mut self, callee: Callee) -> Result<(), BuildFault>
        requires { IsAllowed (EndCall callee) self.old }
        ensures ok { OnOk result (Continues (EndCall callee) self.old self.new) }
        ensures memory { Refuses result ⊤ }
    {
        let arguments = self.take_arguments()?;
        self.open_item(OpenItem::Value(Expr::Call(callee, arguments)))
    }

    /// Ends the condition of an `if`.
    fn if_test(&mut self) -> Result<(), BuildFault>
        requires { IsAllowed IfTest self.old }
        ensures ok { OnOk result (Continues IfTest self.old self.new) }
        ensures memory { Refuses result ⊤ }
    {
        let condition = self.take_value();
        self.begin_body(BodyOwner::First(condition))
    }

    /// Ends the first branch, and begins a second one.
    fn else_part(&mut self) -> Result<(), BuildFault>
        requires { IsAllowed ElsePart self.old }
        ensures ok { OnOk result (Continues ElsePart self.old self.new) }
        ensures memory { Refuses result ⊤ }
    {
        let (heading, statements) = self.take_body();
        let BodyOwner::First(condition) = heading else {
            unreachable!()
        };
        self.begin_body(BodyOwner::Second(condition, statements))
    }

    /// Ends an `if`.
    fn end_if(&mut self) -> Result<(), BuildFault>
        requires { IsAllowed EndIf self.old }
        ensures ok { OnOk result (Continues EndIf self.old self.new) }
        ensures memory { Refuses result ⊤ }
    {
        let (heading, statements) = self.take_body();
        match heading {
            BodyOwner::First(condition) => self.add_statement(Statement::IfStatement(
                condition, statements,
            )),
            BodyOwner::Second(condition, first) => {
                self.add_statement(Statement::IfElseStatement(condition, first, statements))
            }
            _ => unreachable!(),
        }
    }

    /// Begins a `while`.
    fn begin_while(&mut self) -> Result<(), BuildFault>
        requires { IsAllowed BeginWhile self.old }
        ensures ok { OnOk result (Continues BeginWhile self.old self.new) }
        ensures memory { Refuses result ⊤ }
    {
        self.open_item(OpenItem::Test)
    }

    /// Ends the condition of a `while`.
    fn while_test(&mut self) -> Result<(), BuildFault>
        requires { IsAllowed WhileTest self.old }
        ensures ok { OnOk result (Continues WhileTest self.old self.new) }
        ensures memory { Refuses result ⊤ }
    {
        let condition = self.take_value();
        self.drop_innermost();
        self.begin_body(BodyOwner::Loop(condition))
    }

    /// Ends a `while`.
    fn end_while(&mut self) -> Result<(), BuildFault>
        requires { IsAllowed EndWhile self.old }
        ensures ok { OnOk result (Continues EndWhile self.old self.new) }
        ensures memory { Refuses result ⊤ }
    {
        let (heading, statements) = self.take_body();
        let BodyOwner::Loop(condition) = heading else {
            unreachable!()
        };
        self.add_statement(Statement::While(condition, statements))
    }

    /// Lets the function return the last value.
    fn give_back(&mut self) -> Result<(), BuildFault>
        requires { IsAllowed GiveBack self.old }
        ensures ok { OnOk result (Continues GiveBack self.old self.new) }
        ensures memory { Refuses result ⊤ }
    {
        let value = self.take_value();
        self.add_statement(Statement::Return(value))
    }

    /// Drops the last value: that of a statement, or, if two values are open side by side, the new one of `v++` or
    /// `v--`.
    fn chop(&mut self) -> Result<(), BuildFault>
        requires { IsAllowed Chop self.old }
        ensures ok { OnOk result (Continues Chop self.old self.new) }
        ensures memory { Refuses result ⊤ }
    {
        let value = self.take_value();
        if !self.ends_in_value() {
            return self.add_statement(Statement::ExpressionStatement(value));
        }
        let Expr::Assign(op, var, _) = value else {
            unreachable!()
        };
        self.drop_innermost();
        self.open_item(OpenItem::Value(Expr::Postfix(op, var)))
    }

    /// Begins a function.
    fn begin_function(&mut self, number: u8, parameters: u8) -> Result<(), BuildFault>
        requires { IsAllowed (BeginFunction number parameters) self.old }
        ensures ok { OnOk result (Continues (BeginFunction number parameters) self.old self.new) }
        ensures memory { Refuses result ⊤ }
    {
        self.begin_body(BodyOwner::Function(number, parameters))
    }

    /// Ends the function, and returns it without its last `return 0;`.
    pub fn end_function(&mut self, variables: u8) -> Function
        requires { IsAllowed (EndFunction variables) self.old }
        ensures { EndsFunctionTree variables self.old self.new result }
    {
        let (heading, mut body) = self.take_body();
        let BodyOwner::Function(number, parameters) = heading else {
            unreachable!()
        };
        leave_last(&mut body);
        Function {
            number,
            parameters,
            variables,
            body,
        }
    }
}

/// Drops the last statement.
fn leave_last(statements: &mut Vec<Statement>)
    ensures { statements.new.items ≡ without_last statements.old.items }
{
    statements.pop();
}
