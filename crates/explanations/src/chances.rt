//! Comparisons that always have the same answer: of a random number, and two of one value.

use crate::values::holds;
use crate::warnings::Subject;
use derivations::NodeKind;
use grammar::{Callee, Intrinsic, Op};

/// A comparison of a value with a number.
#[derive(Clone, Copy)]
pub struct Comparison {
    /// The node of the value.
    pub value: NodeKind,
    /// How it is compared.
    pub op: Op,
    /// The number.
    pub number: i32,
}

/// Returns what is said of a comparison of the random number of an index with a number, if it never holds.
pub fn on_chance(
    subject: &Subject<'_>,
    op: Op,
    index: usize,
    number: Option<i32>,
) -> Option<&'static str> {
    let call = subject.tree.get(index)?;
    let limit = subject.constants.get(index.saturating_sub(1))?;
    let most = limit.checked_sub(1)?;
    let number = number?;
    let may_hold = holds(op, 0, number)?
        || holds(op, most, number)?
        || 0 <= number && number <= most && op == Op::Equal;
    (call.kind == NodeKind::Call(Callee::Intrinsic(Intrinsic::Rand), 1)
        && limit > 1
        && !may_hold).then_some("`rand(n)` is one of 0 to n - 1: this is never so")
}

/// What is said of two comparisons of which one always holds.
pub const BOTH_ALWAYS: &str = "one of both is always so: perhaps `&&` is meant";

/// What is said of two comparisons that never hold at once.
pub const BOTH_NEVER: &str = "both are never so at once: perhaps `||` is meant";

/// Returns what is said of two comparisons of one value, on the sides of `&&` or `||`, if together they never hold, or always.
pub fn on_both(subject: &Subject<'_>, op: Op, left: usize, right: usize) -> Option<&'static str> {
    let (first, second) = (compared(subject, left)?, compared(subject, right)?);
    if first.value != second.value {
        return None;
    }
    let (mut is_always, mut is_never) = (true, true);
    for number in [first.number, second.number] {
        for step in [-1, 0, 1] {
            let value = number.saturating_add(step);
            let (one, other) = (
                holds(first.op, value, first.number)?,
                holds(second.op, value, second.number)?,
            );
            is_always = is_always && (one || other);
            is_never = is_never && !(one && other);
        }
    }
    match op {
        Op::Or if is_always => Some(BOTH_ALWAYS),
        Op::And if is_never => Some(BOTH_NEVER),
        _ => None,
    }
}

/// Returns the comparison that the node of an index is: of a variable, or of what a call without arguments answers.
/// It isn't inlined, since the page's module is to be small.
#[inline(never)]
pub fn compared(subject: &Subject<'_>, index: usize) -> Option<Comparison> {
    let node = subject.tree.get(index)?;
    let first = subject.tree.get(node.first)?;
    let number = subject.constants.get(index.saturating_sub(1))?;
    let is_value = matches!(
        first.kind,
        NodeKind::Fetch(_) | NodeKind::Call(Callee::Intrinsic(_), 0)
    );
    match node.kind {
        NodeKind::Binary(op) if is_value && node.second == node.first.saturating_add(1) => {
            Some(Comparison {
                value: first.kind,
                op,
                number,
            })
        }
        _ => None,
    }
}
