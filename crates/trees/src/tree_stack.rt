//! The stack of what is open in a function while its tree is made.

ghost use Rattle.std.specs.Prelude.{◌≡◌, ◌≢◌, List, [], ◌∷◌, IfOk, OnOk, true, ⊤};
ghost use Rattle.grammar.specs.Building.{Refuses};
ghost use Rattle.trees.specs.declared.tree_stack.OpenItem.TheVariants.{Value, Body as the_body};
ghost use Rattle.trees.specs.TreeStacks.{AddsStatement, BeginsBody, above_call, below_innermost, below_call, ends_in_body, ends_in_value};
ghost use Rattle.trees.specs.TreeStacks.{past_middle};

use crate::allocation::push_or_refuse;
use crate::tree::{Expr, Statement};
use grammar::{BuildFault, Op};
use std::alloc::Global;
use std::marker::Model;

/// What a list of statements is the body of.
#[derive(Drop)]
pub enum BodyOwner {
    /// A function, by its number and how many parameters it has.
    Function(u8, u8),
    /// The first branch of an `if`, with its condition.
    First(Expr),
    /// The second branch of an `if`, with its condition and its first branch.
    Second(Expr, Vec<Statement>),
    /// A `while`, with its condition.
    Loop(Expr),
}

/// A body whose statements are still being made.
#[derive(Drop)]
pub struct OpenBody {
    /// What it is the body of.
    pub heading: BodyOwner,
    /// The statements so far.
    pub statements: Vec<Statement>,
}

/// What is open.
#[derive(Drop)]
pub enum OpenItem {
    /// A finished value that is still to be used.
    Value(Expr),
    /// `&&` or `||`, whose right side is to come.
    RightSide(Op),
    /// A call, whose arguments are the values above.
    Call,
    /// A `while`, whose condition is to come.
    Test,
    /// A body, which takes statements.
    Body(OpenBody),
}

/// What is open, the innermost last. It keeps the allocator that it asks for memory.
#[derive(Drop)]
pub struct TreeStack {
    alloc: Global,
    items: Vec<OpenItem>,
}

impl Model for TreeStack {
    ghost use Rattle.std.specs.Prelude.{List, reverse};
    ghost use Rattle.trees.specs.declared.tree_stack.OpenItem.{OpenItem};
    ghost use Rattle.std.specs.Coded.{codes};
    ghost use Rattle.trees.specs.contracts.tree.Expr as expr;
    ghost use Rattle.trees.specs.contracts.tree.Statement as statement;

    ghost Value = { List OpenItem };

    ghost coded = { Prim.hlevel (codes, expr.the_row.coded, statement.the_row.coded) };

    ghost view = { λ a. reverse a.items.items };
}

impl TreeStack {
    /// Makes a stack on which nothing is open.
    pub fn new(alloc: Global) -> TreeStack
        ensures { result ≡ [] }
    {
        TreeStack {
            alloc,
            items: Vec::new(alloc),
        }
    }

    /// Returns the allocator.
    pub fn allocator(&self) -> Global {
        self.alloc
    }

    /// Opens one more item.
    pub fn open_item(&mut self, item: OpenItem) -> Result<(), BuildFault>
        ensures ok { OnOk result (self.new ≡ item ∷ self.old) }
        ensures memory { Refuses result ⊤ }
    {
        push_or_refuse(&mut self.items, item)
    }

    /// Takes the innermost, whatever it is.
    pub fn take_innermost(&mut self) -> OpenItem
        requires { self.old ≢ [] }
        ensures { self.old ≡ result ∷ self.new }
    {
        self.items.pop().unwrap()
    }

    /// Drops the innermost, if there is one.
    pub fn drop_innermost(&mut self)
        ensures { self.new ≡ below_innermost self.old }
    {
        self.items.pop();
    }

    /// Reports whether the innermost is a value.
    pub fn ends_in_value(&self) -> bool
        ensures { result ≡ ends_in_value self.now }
    {
        matches!(self.items.last(), Some(OpenItem::Value(_)))
    }

    /// Takes the innermost, which is a value.
    pub fn take_value(&mut self) -> Expr
        requires { ends_in_value self.old ≡ true }
        ensures { self.old ≡ Value result ∷ self.new }
    {
        let OpenItem::Value(expr) = self.take_innermost() else {
            unreachable!()
        };
        expr
    }

    #[tactic(auto, using(crate::proofs::MakingLaws::left_is, crate::proofs::MakingLaws::value_is_left))]
    /// Takes the innermost value, from below the middle of `&&` or `||` if that is open.
    pub fn take_left_side(&mut self) -> Expr
        requires { ends_in_value (past_middle self.old) ≡ true }
        ensures { past_middle self.old ≡ Value result ∷ self.new }
    {
        if self.ends_in_value() {
            return self.take_value();
        }
        self.drop_innermost();
        self.take_value()
    }

    /// Takes the innermost, which is a body: what it is the body of, and its statements.
    pub fn take_body(&mut self) -> (BodyOwner, Vec<Statement>)
        requires { ends_in_body self.old ≡ true }
        ensures { self.old ≡ the_body (record { heading = result.0; statements = result.1 }) ∷ self.new }
    {
        let OpenItem::Body(
            OpenBody {
                heading,
                statements,
            },
        ) = self.take_innermost()
        else {
            unreachable!()
        };
        (heading, statements)
    }

    /// Adds a statement to the innermost, which is a body.
    pub fn add_statement(&mut self, statement: Statement) -> Result<(), BuildFault>
        requires { ends_in_body self.old ≡ true }
        ensures ok { OnOk result (AddsStatement statement self.old self.new) }
        ensures memory { Refuses result ⊤ }
    {
        let (heading, mut statements) = self.take_body();
        push_or_refuse(&mut statements, statement)?;
        self.open_item(OpenItem::Body(OpenBody {
            heading,
            statements,
        }))
    }

    /// Opens a body without statements.
    pub fn begin_body(&mut self, heading: BodyOwner) -> Result<(), BuildFault>
        ensures ok { OnOk result (BeginsBody heading self.old self.new) }
        ensures memory { Refuses result ⊤ }
    {
        let statements = Vec::new(self.alloc);
        self.open_item(OpenItem::Body(OpenBody {
            heading,
            statements,
        }))
    }

    /// Takes the innermost call with its arguments, and returns these in order.
    pub fn take_arguments(&mut self) -> Result<Vec<Expr>, BuildFault>
        ensures arguments { IfOk result (λ es. es.items ≡ above_call self.old) }
        ensures below { OnOk result (self.new ≡ below_call self.old) }
        ensures memory { Refuses result ⊤ }
    {
        let mut arguments = Vec::new(self.alloc);
        while self.ends_in_value() {
            let argument = self.take_value();
            push_or_refuse(&mut arguments, argument)?;
        }
        self.drop_innermost();
        arguments.reverse();
        Ok(arguments)
    }
}
