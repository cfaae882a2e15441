//! The tree of a source as it is shown.

use crate::labels::{Label, Named};
use crate::outlines::{Outline, Standing};
use crate::robots::Robot;
use derivations::{Body, NodeKind, SourceTree, locate};
use grammar::Profile;
use std::alloc::{AllocError, Global};
use std::fmt;

/// What is still to be drawn.
#[derive(Clone, Copy)]
enum Pending {
    /// The source's nodes from one index on, up to another one, with all that is below each.
    Nodes(usize, usize),
    /// A node of this label that the source doesn't have, and below it such nodes of the source.
    Added(&'static str, usize, usize),
}

/// A tree as far as it was drawn.
#[derive(Drop)]
struct Drawing<'a> {
    tree: &'a SourceTree,
    robot: &'a Robot,
    outline: Outline,
    // each with the number of the node above it, the next one last
    pending: Vec<(usize, Pending)>,
}

/// Returns the tree of a source: its functions in the order of their definitions.
pub fn tree_of(
    alloc: Global,
    source: &[u8],
    profile: Profile,
    robot: &Robot,
) -> Result<Outline, AllocError> {
    let tokens = locate(alloc, source)?;
    let tree = SourceTree::of(tokens.as_slice(), profile);
    let mut drawing = Drawing {
        tree: &tree,
        robot,
        outline: Outline::new(alloc),
        pending: Vec::new(alloc),
    };
    drawing.add_file()?;
    Ok(drawing.outline)
}

impl<'a> Drawing<'a> {
    /// Adds a node below the one of a number.
    fn add(&mut self, above: usize, label: impl fmt::Display + Drop) -> Result<usize, AllocError> {
        self.outline.add(Some(above), Standing::Part, label)
    }

    /// Adds the file: its externals, and its functions.
    fn add_file(&mut self) -> Result<(), AllocError> {
        let root = self.outline.add(None, Standing::Part, "file")?;
        for (number, name) in self.robot.names.externals().iter().enumerate() {
            self.add(root, Named::of("external E", number, name.as_str()))?;
        }
        for body in self.tree.bodies() {
            self.add_function(root, body)?;
        }
        Ok(())
    }

    /// Adds a function with its variables and its statements.
    fn add_function(&mut self, root: usize, body: &Body) -> Result<(), AllocError> {
        let number = usize::from(body.number);
        let name = self.robot.named().function_name(number);
        let node = self.add(root, Named::of("function ", number, name))?;
        for (variable, name) in self.robot.named().variables(number).iter().enumerate() {
            let is_parameter = variable < body.parameters;
            let words = if is_parameter {
                "parameter L"
            } else {
                "local L"
            };
            self.add(node, Named::of(words, variable, name.as_str()))?;
        }
        self.push(node, &[Pending::Nodes(body.first, body.end)])?;
        self.add_pending(number)
    }

    /// Notes what is to be drawn next below a node.
    fn push(&mut self, above: usize, parts: &[Pending]) -> Result<(), AllocError> {
        for part in parts.iter().rev() {
            self.pending.push((above, *part))?;
        }
        Ok(())
    }

    /// Adds what is still to be drawn of the function of this number.
    fn add_pending(&mut self, function: usize) -> Result<(), AllocError> {
        for _ in 0..u64::MAX {
            match self.pending.pop() {
                Some((above, Pending::Nodes(begin, end))) if begin < end => {
                    let index = self.tree.outermost(begin, end);
                    self.push(above, &[Pending::Nodes(index.saturating_add(1), end)])?;
                    self.add_node(above, index, function)?;
                }
                Some((_, Pending::Nodes(..))) => {}
                Some((above, Pending::Added(label, begin, end))) => {
                    let node = self.add(above, label)?;
                    self.push(node, &[Pending::Nodes(begin, end)])?;
                }
                None => break,
            }
        }
        Ok(())
    }

    /// Adds a node of the source. What is below it is drawn next. `-e`, `!e`, `~e` and `++v` are drawn as operators and
    /// assignments of a constant.
    fn add_node(&mut self, above: usize, index: usize, function: usize) -> Result<(), AllocError> {
        let Some(&node) = self.tree.get(index) else {
            return Ok(());
        };
        let drawn = self.add(above, Label::of(self.robot, function, node.kind))?;
        let first = Pending::Nodes(node.first, node.second);
        let rest = Pending::Nodes(node.second, index);
        let then_branch = Pending::Added("then", node.second, node.third);
        let else_branch = Pending::Added("else", node.third, index);
        let body = Pending::Added("do", node.second, index);
        match node.kind {
            NodeKind::If => self.push(drawn, &[first, then_branch]),
            NodeKind::IfElse => self.push(drawn, &[first, then_branch, else_branch]),
            NodeKind::While => self.push(drawn, &[first, body]),
            NodeKind::Negate => self.push(drawn, &[leaf("constant 0"), rest]),
            NodeKind::Not => self.push(drawn, &[rest, leaf("constant 0")]),
            NodeKind::Complement => self.push(drawn, &[rest, leaf("constant -1")]),
            NodeKind::PrefixIncrement(..) => self.push(drawn, &[leaf("constant 1")]),
            // all others have only nodes of the source below them
            _ => self.push(drawn, &[first, rest]),
        }
    }
}

/// Returns a node of this label that has none below it.
fn leaf(label: &'static str) -> Pending {
    Pending::Added(label, 0, 0)
}
