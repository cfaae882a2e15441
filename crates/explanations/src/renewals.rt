//! Warnings about a reading that is compared, turn for turn, with what it was before the loop.

use crate::courses::is_endless;
use crate::indices::is_name;
use crate::rewriting::Rewrite;
use crate::steps::body_at;
use crate::variables::set_by;
use crate::warnings::{Said, Subject, Warnings};
use derivations::{Node, NodeKind};
use grammar::{Callee, Intrinsic, Op, StoreOp, Var};

/// Warns of the comparison of an index of a damage with a variable that has an earlier one, or of a coordinate for equality, if the
/// variable is set before an endless loop alone.
pub fn warn_of_old_reading(
    out: &mut Warnings,
    subject: &Subject<'_>,
    index: usize,
    node: &Node,
    op: Op,
) {
    let (left, right) = (node.second.saturating_sub(1), index.saturating_sub(1));
    for (asked, kept) in [(left, right), (right, left)] {
        if let Some(reading) = reading_at(subject, asked, op)
            && let Some(old) = subject.tree.get(kept)
            && let NodeKind::Fetch(var) = old.kind
            && is_old(subject, index, var, reading)
            && let Some(call) = subject.tree.get(asked)
        {
            out.warn(
                old.token,
                Said::Written(
                    "this was set before the loop alone, and never changes in it: set it again",
                    Rewrite::Renewed(old.token, call.token),
                    "",
                ),
            );
        }
    }
}

/// Returns the question of an index, if an operator compares it as it is compared with an earlier answer.
fn reading_at(subject: &Subject<'_>, index: usize, op: Op) -> Option<NodeKind> {
    let kind = subject.tree.get(index)?.kind;
    let NodeKind::Call(Callee::Intrinsic(intrinsic), 0) = kind else {
        return None;
    };
    let is_equality = matches!(op, Op::Equal | Op::NotEqual);
    let is_order = matches!(
        op,
        Op::Less | Op::LessOrEqual | Op::Greater | Op::GreaterOrEqual
    );
    let is_asked = match intrinsic {
        Intrinsic::Damage => is_equality || is_order,
        Intrinsic::LocX | Intrinsic::LocY | Intrinsic::Speed => is_equality,
        // no other function is a question without arguments
        _ => false,
    };
    is_asked.then_some(kind)
}

/// Reports whether the comparison of an index is in an endless loop, and only one node sets a variable, before that loop: to what
/// the same question answers.
fn is_old(subject: &Subject<'_>, index: usize, var: Var, reading: NodeKind) -> bool {
    let Some(begin) = endless_around(subject, index).or(called_from(subject, index, var)) else {
        return false;
    };
    let mut is_set = false;
    let (first, end) = body_of(subject, index, var);
    for at in first..end {
        let Some(node) = subject.tree.get(at) else {
            return false;
        };
        if set_by(node) == Some(var) {
            let is_reading = match subject.tree.get(at.saturating_sub(1)) {
                Some(value) => value.kind == reading,
                None => false,
            };
            let is_store = node.kind == NodeKind::Store(var, StoreOp::Set);
            if is_set || at >= begin || !is_reading || !is_store {
                return false;
            }
            is_set = true;
        }
    }
    is_set
}

/// Returns where the nodes begin and end that may set a variable: those of the function that the node of an index is in, or all.
fn body_of(subject: &Subject<'_>, index: usize, var: Var) -> (usize, usize) {
    match (var, body_at(subject.tree, index)) {
        (Var::Local(_), Some(body)) => (body.first, body.end),
        (Var::Local(_), None) | (Var::External(_), _) => (0, subject.tree.all().len()),
    }
}

/// Returns the index of the first node of the outermost endless loop of another function, if a node of an index is in none and asks
/// for a variable of the file.
fn called_from(subject: &Subject<'_>, index: usize, var: Var) -> Option<usize> {
    let body = body_at(subject.tree, index)?;
    if matches!(var, Var::Local(_)) || is_name(subject.tokens, body.token, b"main") {
        return None;
    }
    for other in subject.tree.bodies() {
        if is_name(subject.tokens, other.token, b"main") {
            return first_endless(subject, other.first, other.end);
        }
    }
    None
}

/// Returns the index of the first node of the first loop between two indices that is endless, and in no other statement.
fn first_endless(subject: &Subject<'_>, first: usize, end: usize) -> Option<usize> {
    for at in first..end {
        let node = subject.tree.get(at)?;
        if is_endless(subject, node) && node.above.is_none() {
            return Some(node.first);
        }
    }
    None
}

/// Returns the index of the first node of the outermost endless loop whose body has the node of an index.
fn endless_around(subject: &Subject<'_>, index: usize) -> Option<usize> {
    let mut found = None;
    let mut above = subject.tree.get(index)?.above;
    for _ in 0..usize::from(u8::MAX) {
        let Some(at) = above else {
            return found;
        };
        let node = subject.tree.get(at)?;
        if node.second <= index && is_endless(subject, node) {
            found = Some(node.first);
        }
        above = node.above;
    }
    found
}
