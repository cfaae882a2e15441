//! The least and the greatest values of expressions, as far as the game and their numbers tell them; and remainders below 0.

use crate::chances::compared;
use crate::rewriting::Rewrite;
use crate::steps::{body_at, own_body};
use crate::variables::set_by;
use crate::warnings::{Said, Subject};
use derivations::{Node, NodeKind};
use grammar::{Callee, Intrinsic, Op, StoreOp, Var};

/// How many operators and variables deep a value is looked at.
const MOST_DEPTH: u8 = 4;

/// A whole circle, in degrees.
const CIRCLE: i32 = 360;

/// Returns the greatest value that the node of an index may have, without its sign, if that is known.
pub fn greatest_of(subject: &Subject<'_>, index: usize) -> Option<i64> {
    let (least, greatest) = bounds_of(subject, index, MOST_DEPTH)?;
    let (below, above) = (least.saturating_abs(), greatest.saturating_abs());
    Some(if below > above { below } else { above })
}

/// Returns the least and the greatest value that the node of an index may have, if they are known.
fn bounds_of(subject: &Subject<'_>, index: usize, depth: u8) -> Option<(i64, i64)> {
    let (node, value) = subject.valued(index)?;
    if let Some(value) = value {
        return Some((i64::from(value), i64::from(value)));
    }
    if let Some((least, greatest)) = subject.meanings.get(index).bounds() {
        return Some((i64::from(least), i64::from(greatest)));
    }
    let below = depth.checked_sub(1)?;
    match node.kind {
        NodeKind::Binary(op) => {
            let left = bounds_of(subject, node.second.checked_sub(1)?, below)?;
            between(op, left, bounds_of(subject, index.checked_sub(1)?, below)?)
        }
        NodeKind::Call(Callee::Intrinsic(Intrinsic::Rand), 1) => {
            let most = subject.constants.get(index.checked_sub(1)?)?;
            Some((0, i64::from(most).saturating_sub(1)))
        }
        NodeKind::Fetch(var) => bounds_of(subject, only_set(subject, index, var)?, below),
        _ => None,
    }
}

/// Returns the bounds of a sum or a difference, by those of its sides.
fn between(op: Op, left: (i64, i64), right: (i64, i64)) -> Option<(i64, i64)> {
    match op {
        Op::Add => Some((
            left.0.saturating_add(right.0),
            left.1.saturating_add(right.1),
        )),
        Op::Subtract => Some((
            left.0.saturating_sub(right.1),
            left.1.saturating_sub(right.0),
        )),
        _ => None,
    }
}

/// Returns the index of the node of the value to which a function's own variable is set, if it is set once.
fn only_set(subject: &Subject<'_>, index: usize, var: Var) -> Option<usize> {
    let body = own_body(subject, index, var)?;
    let mut only = None;
    for at in body.first..body.end {
        let node = subject.tree.get(at)?;
        if set_by(node) == Some(var) {
            if only.is_some() || node.kind != NodeKind::Store(var, StoreOp::Set) {
                return None;
            }
            only = at.checked_sub(1);
        }
    }
    only
}

/// Returns what is said of a remainder of an index by a number: a variable that goes back by steps, and is set to it, is below 0 then. Degrees
/// that go round a whole circle are right so.
pub fn on_negative(
    subject: &Subject<'_>,
    index: usize,
    node: &Node,
    whole: Option<i32>,
) -> Option<Said> {
    let (less, _) = subject.valued(node.second.checked_sub(1)?)?;
    let step = subject.constants.get(node.second.checked_sub(2)?)?;
    let NodeKind::Fetch(var) = subject.tree.get(less.second.checked_sub(1)?)?.kind else {
        return None;
    };
    let is_kept = match subject.tree.get(index.saturating_add(1)) {
        Some(kept) => kept.kind == NodeKind::Store(var, StoreOp::Set),
        None => false,
    };
    let whole = whole?;
    let goes_back = less.kind == NodeKind::Binary(Op::Subtract) && 0 < step && step < whole;
    (goes_back && is_kept && whole % CIRCLE != 0 && !is_asked(subject, index, var)).then_some(
        Said::Written(
            "this is below 0 from 0 on, since a remainder has the sign of what is divided: add instead",
            Rewrite::Raised(node.token),
            "(a + 170) % 180",
        ),
    )
}

/// Returns what is said of a remainder to which the assignment of an index sets a variable, right behind one that takes a number from it.
pub fn on_negative_rest(
    subject: &Subject<'_>,
    index: usize,
    node: &Node,
    var: Var,
) -> Option<&'static str> {
    let whole = subject.constants.get(index.checked_sub(1)?)?;
    let before = node.first.checked_sub(2)?;
    let taken = match subject.tree.get(before)?.kind {
        NodeKind::Store(own, StoreOp::Subtract) if own == var => {
            subject.constants.get(before.checked_sub(1)?)?
        }
        NodeKind::PrefixIncrement(own, StoreOp::Subtract)
        | NodeKind::PostfixIncrement(own, StoreOp::Subtract)
            if own == var => 1,
        _ => return None,
    };
    (0 < taken && taken < whole && whole % CIRCLE != 0 && !is_asked(subject, index, var)).then_some(
        "from 0 on this is below 0, since a remainder has the sign of what is divided: add before it, and take nothing away, as in `a += 170; a %= 180;`",
    )
}

/// Reports whether the function of an index asks whether a variable is below 0.
fn is_asked(subject: &Subject<'_>, index: usize, var: Var) -> bool {
    let Some(body) = body_at(subject.tree, index) else {
        return true;
    };
    for at in body.first..body.end {
        if let Some(asked) = compared(subject, at)
            && asked.value == NodeKind::Fetch(var)
            && asked.number <= 0
        {
            return true;
        }
    }
    false
}
