//! How a source's tree grows along a walk: semantic actions make its nodes from the leaves up.

use crate::locations::Located;
use crate::source_tree::{Body, MOST_NODES, Node, NodeKind, SourceTree};
use crate::symbols::SemanticAction;
use crate::walks::{Event, Meaning, Walk};
use arrayvec::ArrayVec;
use grammar::{Callee, MOST_NESTED, Profile, Var};

/// The most roots: each is a node, or begins a body.
const MOST_ROOTS: usize = MOST_NODES + MOST_OPEN;

/// The most variables and calls that are open at once: more than levels.
const MOST_OPEN: usize = 2 * MOST_NESTED as usize;

/// What still has no node above it: a node by its index, or the beginning of a body, with the index of the token that
/// its `if`, `while` or function is named by.
#[derive(Clone, Copy)]
enum Root {
    Node(usize),
    Mark(usize),
}

impl Default for Root {
    fn default() -> Root {
        Root::Mark(0)
    }
}

/// A call whose arguments aren't all there.
#[derive(Clone, Copy, Default)]
struct Open {
    callee: Option<Callee>,
    arguments: usize,
}

/// A body's statements, taken off the roots: the token that their statement is named by, and the index of the first of
/// their nodes.
#[derive(Clone, Copy)]
struct Taken {
    mark: usize,
    first: usize,
}

/// A tree that grows, and what is open in it.
#[derive(Drop)]
pub(crate) struct Growth<'a> {
    tree: &'a mut SourceTree,
    roots: ArrayVec<Root, MOST_ROOTS>,
    variables: ArrayVec<Option<Var>, MOST_OPEN>,
    calls: ArrayVec<Open, MOST_OPEN>,
    begun: Body,
}

impl<'a> Growth<'a> {
    /// Begins on a tree without nodes.
    pub(crate) fn on(tree: &'a mut SourceTree) -> Growth<'a> {
        Growth {
            tree,
            roots: ArrayVec::new(),
            variables: ArrayVec::new(),
            calls: ArrayVec::new(),
            begun: Body::default(),
        }
    }

    /// Goes along a source, to its end or its first fault.
    pub(crate) fn run(&mut self, tokens: &[Located], profile: Profile) {
        let mut walk = Walk::start(tokens, profile);
        for _ in 0..u64::MAX {
            match walk.step() {
                // a source that compiles has fewer nodes
                _ if self.tree.is_full() => break,
                Event::Passed => {}
                Event::Named { token, meaning } => self.name(token, meaning),
                Event::Number { token, value } => self.leaf(NodeKind::Constant(value), token),
                Event::Made {
                    action,
                    chosen_at,
                    token,
                } => self.make(action, chosen_at, token),
                Event::Refused { .. } | Event::Done => break,
            }
        }
    }

    /// Notes what a name means: a variable or a call for a later node, a function, or a parameter.
    fn name(&mut self, token: usize, meaning: Meaning) {
        match meaning {
            Meaning::Mentions(var) => {
                let _ = self.variables.try_push(Some(var));
            }
            Meaning::Calls(callee) => {
                let _ = self.calls.try_push(Open {
                    callee: Some(callee),
                    arguments: 0,
                });
            }
            Meaning::Begins(number) => self.begin(number, token),
            Meaning::Parameter => {
                self.begun.parameters = self.begun.parameters.saturating_add(1);
            }
            Meaning::External | Meaning::Declares => {}
        }
    }

    /// Begins a function.
    fn begin(&mut self, number: u8, token: usize) {
        let first = self.tree.all().len();
        self.begun = Body {
            number,
            token,
            closing: token,
            parameters: 0,
            first,
            end: first,
        };
    }

    /// Adds the node of a semantic action. Most take the last roots below it.
    fn make(&mut self, action: SemanticAction, chosen_at: usize, token: usize) {
        match action {
            SemanticAction::Operate(op) => self.binary(NodeKind::Binary(op), chosen_at),
            SemanticAction::Negate => self.above(NodeKind::Negate, chosen_at),
            SemanticAction::Not => self.above(NodeKind::Not, chosen_at),
            SemanticAction::Complement => self.above(NodeKind::Complement, chosen_at),
            SemanticAction::Fetch => {
                let var = self.variable();
                self.leaf(NodeKind::Fetch(var), chosen_at);
            }
            SemanticAction::Store(op) => {
                let var = self.variable();
                self.above(NodeKind::Store(var, op), chosen_at);
            }
            SemanticAction::PrefixIncrement(op) => {
                let var = self.variable();
                self.leaf(
                    NodeKind::PrefixIncrement(var, op),
                    chosen_at.saturating_add(1),
                );
            }
            SemanticAction::PostfixIncrement(op) => {
                let var = self.variable();
                self.leaf(NodeKind::PostfixIncrement(var, op), chosen_at);
            }
            SemanticAction::Pass => self.pass(),
            SemanticAction::Invoke => self.invoke(chosen_at),
            SemanticAction::Empty => self.root(Root::Mark(chosen_at)),
            SemanticAction::Evaluate => self.above(NodeKind::Evaluate, chosen_at),
            SemanticAction::Decide => self.add_tested(NodeKind::If),
            SemanticAction::DecideElse => self.decide_else(),
            SemanticAction::Repeat => self.add_tested(NodeKind::While),
            SemanticAction::Zero => self.leaf(NodeKind::Constant(0), token),
            SemanticAction::GiveBack => self.above(NodeKind::Return, chosen_at),
            SemanticAction::Define => self.define(token),
        }
    }

    /// Adds a node, whose nodes below begin at `first`, those of its second part at `second`, those of its third part at
    /// `third`; and makes it a root.
    fn add(&mut self, kind: NodeKind, token: usize, first: usize, second: usize, third: usize) {
        let index = self.tree.add(Node {
            kind,
            token,
            first,
            second,
            third,
            above: None,
        });
        self.root(Root::Node(index));
    }

    /// Adds a root.
    fn root(&mut self, root: Root) {
        let _ = self.roots.try_push(root);
    }

    /// Returns the index of the next node.
    fn here(&self) -> usize {
        self.tree.all().len()
    }

    /// Adds a node without others below it.
    fn leaf(&mut self, kind: NodeKind, token: usize) {
        let here = self.here();
        self.add(kind, token, here, here, here);
    }

    /// Adds a node above the last root.
    fn above(&mut self, kind: NodeKind, token: usize) {
        let below = self.take_node();
        let first = self.tree.first_of(below);
        self.add(kind, token, first, first, self.here());
    }

    /// Adds a node above the last two roots.
    fn binary(&mut self, kind: NodeKind, token: usize) {
        let right = self.take_node();
        let left = self.take_node();
        let (first, second) = (self.tree.first_of(left), self.tree.first_of(right));
        self.add(kind, token, first, second, self.here());
    }

    /// Counts an argument of the innermost call.
    fn pass(&mut self) {
        if let Some(open) = self.calls.as_mut_slice().last_mut() {
            open.arguments = open.arguments.saturating_add(1);
        }
    }

    /// Adds the node of the innermost call, above its arguments.
    fn invoke(&mut self, token: usize) {
        let Some(
            Open {
                callee: Some(callee),
                arguments,
            },
        ) = self.calls.pop()
        else {
            return;
        };
        let mut first = self.here();
        for _ in 0..arguments {
            let below = self.take_node();
            first = self.tree.first_of(below);
        }
        self.add(
            NodeKind::Call(callee, arguments),
            token,
            first,
            first,
            self.here(),
        );
    }

    /// Adds the node of an `if` without `else`, or of a `while`.
    fn add_tested(&mut self, kind: NodeKind) {
        let body = self.take_body();
        self.add_branch(kind, body.mark, self.here());
    }

    /// Adds the node of an `if` with `else`.
    fn decide_else(&mut self) {
        let second = self.take_body();
        let first = self.take_body();
        self.add_branch(NodeKind::IfElse, first.mark, second.first);
    }

    /// Adds the node of an `if` or a `while`, above its condition and what was taken.
    fn add_branch(&mut self, kind: NodeKind, token: usize, third: usize) {
        let condition = self.take_node();
        let first = self.tree.first_of(condition);
        self.add(kind, token, first, condition.saturating_add(1), third);
    }

    /// Ends the function that was begun.
    fn define(&mut self, closing: usize) {
        let _ = self.take_body();
        self.begun.closing = closing;
        self.begun.end = self.here();
        self.tree.add_body(self.begun);
    }

    /// Takes the statements of the innermost body off the roots, up to its mark.
    fn take_body(&mut self) -> Taken {
        let mut first = self.here();
        for _ in 0..self.roots.len() {
            match self.roots.pop() {
                Some(Root::Node(index)) => first = self.tree.first_of(index),
                Some(Root::Mark(mark)) => return Taken { mark, first },
                None => break,
            }
        }
        Taken { mark: 0, first }
    }

    /// Takes the last root, which is a node, and returns its index.
    fn take_node(&mut self) -> usize {
        match self.roots.pop() {
            Some(Root::Node(index)) => index,
            _ => 0,
        }
    }

    /// Takes the variable that was mentioned last.
    fn variable(&mut self) -> Var {
        match self.variables.pop() {
            Some(Some(var)) => var,
            _ => Var::Local(0),
        }
    }
}
