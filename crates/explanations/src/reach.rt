//! What of a tree is never reached: what stands behind a `return` or an endless loop, and the branches that a known
//! condition rules out.

use crate::constants::Constants;
use derivations::{Body, MOST_NODES, Node, NodeKind, SourceTree};

/// Which nodes something is so of, by their indices.
type Marks = [bool; MOST_NODES];

/// How far a robot comes in a tree.
#[derive(Drop)]
pub struct Reach {
    /// The statements that end the body that they are in: it doesn't go on behind them.
    ending: Marks,
    /// The nodes that are never reached.
    dead: Marks,
    /// Of the statements of a body behind an ending one, the first.
    unreached: Marks,
}

impl Reach {
    /// Finds how far a robot comes in a tree, by the values that are known.
    pub fn of(tree: &SourceTree, constants: &Constants) -> Reach {
        let mut reach = Reach {
            ending: [false; MOST_NODES],
            dead: [false; MOST_NODES],
            unreached: [false; MOST_NODES],
        };
        for (index, node) in tree.all().iter().enumerate() {
            if reach.pass(tree, constants, index, node) {
                mark(&mut reach.ending, index, index.saturating_add(1));
            }
        }
        for body in tree.bodies() {
            reach.bury(tree, body.first, body.end);
        }
        reach
    }

    /// Reports whether the node of an index is never reached.
    pub fn is_dead(&self, index: usize) -> bool {
        has(&self.dead, index)
    }

    /// Reports whether the node of an index is the first statement of a part of its body that is never reached.
    pub fn is_unreached(&self, index: usize) -> bool {
        has(&self.unreached, index)
    }

    /// Reports whether the closing brace of a function is reached.
    pub fn reaches_end(&self, tree: &SourceTree, body: &Body) -> bool {
        self.ending(tree, body.first, body.end).is_none()
    }

    /// Passes a node, behind those below it: marks what of these is never reached. Reports whether it ends the body that
    /// it is in.
    fn pass(
        &mut self,
        tree: &SourceTree,
        constants: &Constants,
        index: usize,
        node: &Node,
    ) -> bool {
        let condition = match node.kind {
            NodeKind::Return => return true,
            NodeKind::If | NodeKind::IfElse | NodeKind::While => {
                constants.get(node.second.saturating_sub(1))
            }
            _ => return false,
        };
        // (without `else` the second branch is empty)
        let first_ends = self.bury(tree, node.second, node.third);
        let second_ends = self.bury(tree, node.third, index);
        match condition {
            Some(0) => {
                mark(&mut self.dead, node.second, node.third);
                second_ends
            }
            Some(_) => {
                mark(&mut self.dead, node.third, index);
                first_ends || node.kind == NodeKind::While
            }
            None => first_ends && second_ends,
        }
    }

    /// Marks what stands behind the first ending statement of a body, whose nodes are from one index on up to another
    /// one. Reports whether there is such a statement.
    fn bury(&mut self, tree: &SourceTree, begin: usize, end: usize) -> bool {
        let Some(ending) = self.ending(tree, begin, end) else {
            return false;
        };
        let behind = ending.saturating_add(1);
        if behind < end {
            let statement = tree.outermost(behind, end);
            mark(&mut self.unreached, statement, statement.saturating_add(1));
            mark(&mut self.dead, behind, end);
        }
        true
    }

    /// Returns the index of the first ending statement of a body.
    fn ending(&self, tree: &SourceTree, begin: usize, end: usize) -> Option<usize> {
        let mut statement = tree.outermost(begin, end);
        for _ in begin..end {
            if statement >= end {
                break;
            }
            if has(&self.ending, statement) {
                return Some(statement);
            }
            statement = tree.outermost(statement.saturating_add(1), end);
        }
        None
    }
}

/// Reports whether each run that comes through the node of an index comes to a later one, if it ends no body between: each branch
/// and each loop that has the first in its body has the second one in the same body.
pub fn is_straight(tree: &SourceTree, first: usize, second: usize) -> bool {
    for node in tree.within(first, second) {
        let is_test = matches!(node.kind, NodeKind::If | NodeKind::IfElse | NodeKind::While);
        if is_test && node.second <= first {
            return false;
        }
    }
    !parts(tree, first, second)
}

/// Reports whether some `if` has one node in its first branch, and a later one in its second.
fn parts(tree: &SourceTree, first: usize, second: usize) -> bool {
    for node in tree.within(second, tree.all().len()) {
        let is_between = node.second <= first && first < node.third && node.third <= second;
        if node.kind == NodeKind::IfElse && is_between {
            return true;
        }
    }
    false
}

/// Reports whether the node of an index is marked.
fn has(marks: &Marks, index: usize) -> bool {
    marks.get(index) == Some(&true)
}

/// Marks the nodes from one index on, up to another one.
fn mark(marks: &mut Marks, first: usize, end: usize) {
    if let Some(marks) = marks.get_mut(first..end) {
        marks.fill(true);
    }
}
