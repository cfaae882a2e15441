//! Values that are known before a robot runs.

use arith::binop;
use arrayvec::ArrayVec;
use derivations::{MOST_NODES, Node, NodeKind, SourceTree};
use grammar::{Op, StoreOp};

/// The values of a tree's nodes, as far as they are known.
#[derive(Drop)]
pub struct Constants {
    values: ArrayVec<Option<i32>, MOST_NODES>,
}

impl Constants {
    /// Finds the values of a tree's nodes.
    pub fn of(tree: &SourceTree) -> Constants {
        let mut constants = Constants {
            values: ArrayVec::new(),
        };
        for (index, node) in tree.all().iter().enumerate() {
            let value = constants.value(index, node);
            let _ = constants.values.try_push(value);
        }
        constants
    }

    /// Returns the value of the node of an index, if it is known.
    /// It isn't inlined, since the page's module is to be small.
    #[inline(never)]
    pub fn get(&self, index: usize) -> Option<i32> {
        *self.values.as_slice().get(index)?
    }

    /// Reports whether some node has this value.
    pub fn has(&self, value: i32) -> bool {
        self.values.as_slice().contains(&Some(value))
    }

    /// Returns the value of the node of an index by those below it, of which the last one is right before it.
    fn value(&self, index: usize, node: &Node) -> Option<i32> {
        let last = self.get(index.saturating_sub(1));
        match node.kind {
            NodeKind::Constant(value) => i32::try_from(value).ok(),
            NodeKind::Store(_, StoreOp::Set) => last,
            NodeKind::Negate => operated(Op::Subtract, Some(0), last),
            NodeKind::Not => operated(Op::Equal, last, Some(0)),
            NodeKind::Complement => operated(Op::BitXor, last, Some(-1)),
            NodeKind::Binary(op) => operated(op, self.get(node.second.saturating_sub(1)), last),
            // what a variable has and what a call answers isn't known, and a statement has no value
            _ => None,
        }
    }
}

/// Returns the value of a binary operator, if it is known: by the values of both sides, or by that of one side which
/// decides `&&` or `||` alone.
fn operated(op: Op, left: Option<i32>, right: Option<i32>) -> Option<i32> {
    match (op, left, right) {
        (_, Some(left), Some(right)) => Some(binop(op, left, right)),
        (Op::And, Some(0), None) | (Op::And, None, Some(0)) => Some(0),
        (Op::Or, Some(side), None) | (Op::Or, None, Some(side)) if side != 0 => Some(1),
        _ => None,
    }
}
