//! Conditions in the branches of others, that never hold there.

use crate::chances::{Comparison, compared};
use crate::values::holds;
use crate::warnings::Subject;
use arrayvec::ArrayVec;
use derivations::{Node, NodeKind};
use grammar::{MOST_NESTED, Op};

/// The most conditions of a chain, with the last one.
const MOST_CONDITIONS: usize = MOST_NESTED as usize + 1;

/// A comparison, and whether it holds.
#[derive(Clone, Copy)]
struct Outcome {
    comparison: Comparison,
    holds: bool,
}

impl Default for Outcome {
    fn default() -> Outcome {
        Outcome {
            comparison: Comparison {
                value: NodeKind::Return,
                op: Op::Equal,
                number: 0,
            },
            holds: false,
        }
    }
}

/// Comparisons of one value, each with its outcome.
type Chain = ArrayVec<Outcome, MOST_CONDITIONS>;

/// Returns what is said of the condition of the `if` or the `while` of a node, if it never holds where the conditions hold, or
/// don't, in whose branches it is the first: by all those of the same value.
pub fn on_chain(subject: &Subject<'_>, node: &Node) -> Option<&'static str> {
    let comparison = compared(subject, node.second.saturating_sub(1))?;
    let mut chain = Chain::new();
    let (mut below, mut has_else) = (*node, false);
    for _ in 0..MOST_NESTED {
        let Some((above, holds)) = branch_of(subject, &below) else {
            break;
        };
        if let Some(before) = compared(subject, above.second.saturating_sub(1))
            && before.value == comparison.value
        {
            has_else = has_else || !holds;
            let _ = chain.try_push(Outcome {
                comparison: before,
                holds,
            });
        }
        below = above;
    }
    if chain.as_slice().is_empty() || !has_value(&chain) {
        return None;
    }
    let _ = chain.try_push(Outcome {
        comparison,
        holds: true,
    });
    if has_value(&chain) {
        return None;
    }
    Some(if has_else {
        "this never holds here: the `if` above takes it already; ask for what is narrower first"
    } else {
        "this never holds here, by the condition above it"
    })
}

/// Returns the `if` or the `while` in one of whose branches a node is the first, and whether its condition holds there.
fn branch_of(subject: &Subject<'_>, node: &Node) -> Option<(Node, bool)> {
    let above = *subject.tree.get(node.above?)?;
    match above.kind {
        NodeKind::If | NodeKind::IfElse | NodeKind::While if node.first == above.second => {
            Some((above, true))
        }
        NodeKind::IfElse if node.first == above.third => Some((above, false)),
        // no other node has branches
        _ => None,
    }
}

/// Reports whether some value leads to these outcomes: one of the compared numbers, or one beside these.
fn has_value(chain: &Chain) -> bool {
    for outcome in chain.as_slice() {
        for step in [-1, 0, 1] {
            if leads(chain, outcome.comparison.number.saturating_add(step)) {
                return true;
            }
        }
    }
    false
}

/// Reports whether a value leads to these outcomes.
fn leads(chain: &Chain, value: i32) -> bool {
    for outcome in chain.as_slice() {
        let asked = outcome.comparison;
        if holds(asked.op, value, asked.number) != Some(outcome.holds) {
            return false;
        }
    }
    true
}
