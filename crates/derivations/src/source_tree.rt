//! A source's trees as one list of nodes, each with its token. A node comes after all below it, and these are next to
//! each other.

use crate::locations::Located;
use crate::tree_growth::Growth;
use arrayvec::ArrayVec;
use grammar::{Callee, MOST_NAMES, Op, Profile, StoreOp, Var};

/// The most nodes of a source that compiles: each makes at least one instruction.
pub const MOST_NODES: usize = 4000;

/// What a node is.
#[derive(Clone, Copy, PartialEq, Eq)]
pub enum NodeKind {
    /// A constant.
    Constant(u32),
    /// The value of a variable.
    Fetch(Var),
    /// An assignment. Below it is its right side.
    Store(Var, StoreOp),
    /// `++v` or `--v`.
    PrefixIncrement(Var, StoreOp),
    /// `v++` or `v--`.
    PostfixIncrement(Var, StoreOp),
    /// `-e`
    Negate,
    /// `!e`
    Not,
    /// `~e`
    Complement,
    /// A binary operator. Below it are its two sides.
    Binary(Op),
    /// A call with this many arguments, which are below it.
    Call(Callee, usize),
    /// An expression that is a statement.
    Evaluate,
    /// An `if` without `else`. Below it are its condition and its branch.
    If,
    /// An `if` with `else`. Below it are its condition and both branches.
    IfElse,
    /// A `while`. Below it are its condition and its body.
    While,
    /// A `return`. Below it is its value, which is the constant 0 where the source has none.
    Return,
}

impl NodeKind {
    /// Reports whether a node of this kind is a statement.
    pub fn is_statement(self) -> bool {
        matches!(
            self,
            NodeKind::Evaluate
                | NodeKind::If
                | NodeKind::IfElse
                | NodeKind::While
                | NodeKind::Return
        )
    }
}

/// A node. Those below it are before it, from `first` on.
#[derive(Clone, Copy)]
pub struct Node {
    /// What it is.
    pub kind: NodeKind,
    /// The index of the token that it is named by: an operator's own, a name, a constant, the word of a statement, or the
    /// first token of an expression that is one.
    pub token: usize,
    /// The index of the first node below it, or its own if there is none.
    pub first: usize,
    /// The index after its first part: that of an operator's left side, or of the condition of an `if` or a `while`. Of
    /// any other node it is `first`.
    pub second: usize,
    /// The index after the first branch of an `if` with `else`. Of any other node it is its own.
    pub third: usize,
    /// The index of the node that it is right below, if there is one.
    pub above: Option<usize>,
}

impl Default for Node {
    fn default() -> Node {
        Node {
            kind: NodeKind::Constant(0),
            token: 0,
            first: 0,
            second: 0,
            third: 0,
            above: None,
        }
    }
}

/// A function of the file, with the nodes of its body.
#[derive(Clone, Copy, Default)]
pub struct Body {
    /// Its number.
    pub number: u8,
    /// The index of its name's token.
    pub token: usize,
    /// The index of its closing brace's token.
    pub closing: usize,
    /// How many parameters it has.
    pub parameters: usize,
    /// The index of its first node.
    pub first: usize,
    /// The index after its last node.
    pub end: usize,
}

/// The nodes of a source, and its functions.
#[derive(Drop)]
pub struct SourceTree {
    nodes: ArrayVec<Node, MOST_NODES>,
    bodies: ArrayVec<Body, MOST_NAMES>,
}

impl SourceTree {
    /// Makes the tree of a source, up to its first fault if it has one. Of the function with the fault it has the
    /// statements that end before it, and the function itself is none of the bodies. No memory is asked for.
    pub fn of(tokens: &[Located], profile: Profile) -> SourceTree {
        let mut tree = SourceTree {
            nodes: ArrayVec::new(),
            bodies: ArrayVec::new(),
        };
        Growth::on(&mut tree).run(tokens, profile);
        tree.drop_open();
        tree
    }

    /// Drops the nodes after the last statement: those of one that a fault cut off.
    fn drop_open(&mut self) {
        for _ in 0..self.nodes.len() {
            match self.all().last() {
                Some(node) if !node.kind.is_statement() => {
                    let _ = self.nodes.pop();
                }
                _ => return,
            }
        }
    }

    /// Returns all nodes, in the order of their last tokens.
    pub fn all(&self) -> &[Node] {
        self.nodes.as_slice()
    }

    /// Returns the functions, in the order of the file.
    pub fn bodies(&self) -> &[Body] {
        self.bodies.as_slice()
    }

    /// Returns the nodes from an index on, up to another one.
    pub fn within(&self, first: usize, end: usize) -> &[Node] {
        self.all().get(first..end).unwrap_or(&[])
    }

    /// Returns the node of an index.
    pub fn get(&self, index: usize) -> Option<&Node> {
        self.all().get(index)
    }

    /// Returns the index of the first node below the one of an index, or its own.
    pub fn first_of(&self, index: usize) -> usize {
        match self.get(index) {
            Some(node) => node.first,
            None => index,
        }
    }

    /// Returns the index of the outermost node whose part of the list begins at one index, and that is itself before
    /// another one. So the statements of a body, or the arguments of a call, are found in their order: the next one
    /// begins after the one that was found.
    pub fn outermost(&self, begin: usize, end: usize) -> usize {
        let mut found = begin;
        for _ in 0..MOST_NODES {
            match self.get(found) {
                Some(
                    &Node {
                        above: Some(above),
                        ..
                    },
                ) if above < end => found = above,
                _ => break,
            }
        }
        found
    }

    /// Reports whether the value of the node of an index is used: that of an expression that is a statement isn't.
    pub fn is_used(&self, index: usize) -> bool {
        match self.get(index) {
            Some(
                &Node {
                    above: Some(above),
                    ..
                },
            ) => match self.get(above) {
                Some(node) => node.kind != NodeKind::Evaluate,
                None => true,
            },
            _ => true,
        }
    }

    /// Reports whether there is no room for a further node.
    pub(crate) fn is_full(&self) -> bool {
        self.nodes.is_full()
    }

    /// Adds a node above all from its first one on that have none above them yet, and returns its index.
    pub(crate) fn add(&mut self, node: Node) -> usize {
        let index = self.nodes.len();
        let mut below = index;
        for _ in node.first..index {
            let Some(child) = self.nodes.get_mut(below.saturating_sub(1)) else {
                break;
            };
            child.above = Some(index);
            below = child.first;
            if below <= node.first {
                break;
            }
        }
        let _ = self.nodes.try_push(node);
        index
    }

    /// Adds a function.
    pub(crate) fn add_body(&mut self, body: Body) {
        let _ = self.bodies.try_push(body);
    }
}
