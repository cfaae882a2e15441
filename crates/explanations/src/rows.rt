//! Warnings about statements in a row: shots that are too many; and about loops that count too far, or never begin.

use crate::courses::warn_of_course;
use crate::indices::follows;
use crate::steps::body_at;
use crate::values::holds;
use crate::variables::set_by;
use crate::warnings::{Said, Subject, Warnings};
use derivations::{Body, Node, NodeKind, SourceTree};
use grammar::{Callee, Intrinsic, Op, Var};
use tokens::{Punctuator, Token};

/// A number that is counted to by ones in over 100,000 cycles: a turn of such a loop has at least six instructions.
const LONG_COUNT: i32 = 20_000;

/// Warns of the statement of a node's index by those right before it.
pub fn warn_of_row(out: &mut Warnings, subject: &Subject<'_>, index: usize, node: &Node) {
    if is_third_shot(subject, index) {
        out.tell(
            node.token,
            "a robot has at most two shots in the air: this third one in a row is lost",
        );
    }
    warn_of_course(out, subject, index, node);
}

/// Reports whether the statement of an index and the two right before it are shots.
fn is_third_shot(subject: &Subject<'_>, index: usize) -> bool {
    let Some(second) = shot_before(subject, index) else {
        return false;
    };
    shot_before(subject, second).is_some()
}

/// Returns the index of the statement right before that of an index, if both are shots and a `;` is between them.
fn shot_before(subject: &Subject<'_>, index: usize) -> Option<usize> {
    let node = subject.tree.get(index)?;
    let before = node.first.checked_sub(1)?;
    let is_next = follows(
        subject.tokens,
        node.token,
        &Token::Punctuator(Punctuator::Semicolon),
    );
    let are_shots = is_call_of(subject.tree, index, Intrinsic::Cannon)
        && is_call_of(subject.tree, before, Intrinsic::Cannon);
    (is_next && are_shots).then_some(before)
}

/// Reports whether the statement of an index is a call of this function.
pub fn is_call_of(tree: &SourceTree, index: usize, intrinsic: Intrinsic) -> bool {
    match tree.within(index.saturating_sub(1), index.saturating_add(1)) {
        [call, statement] => {
            statement.kind == NodeKind::Evaluate
                && matches!(call.kind, NodeKind::Call(Callee::Intrinsic(called), _) if called == intrinsic)
        }
        _ => false,
    }
}

/// Returns the degree and the speed of the statement of an index, if it is a `drive` and both are known.
pub fn driven(subject: &Subject<'_>, index: usize) -> Option<(i32, i32)> {
    let call = index.checked_sub(1)?;
    if !is_call_of(subject.tree, index, Intrinsic::Drive) {
        return None;
    }
    let first = subject.tree.first_of(call);
    let degree = subject.constants.get(subject.tree.outermost(first, call))?;
    Some((degree, subject.constants.get(call.saturating_sub(1))?))
}

/// Warns of a loop that counts for a large part of a match, and of one that never begins.
pub fn warn_of_loop(
    out: &mut Warnings,
    subject: &Subject<'_>,
    index: usize,
    node: &Node,
    condition: &Node,
) {
    let Some((var, token)) = asked(subject, node, condition) else {
        return;
    };
    if is_long(subject, index, node, condition, var) {
        out.tell(
            node.token,
            "this counts for over 100,000 cycles, a large part of a match: count less far",
        );
    } else if is_never_begun(subject, index, node, condition, var) {
        out.warn(
            token,
            Said::Named(
                " is 0 before this loop, which alone sets it, so the loop never runs: turn the condition round",
            ),
        );
    }
}

/// Returns the variable that a condition is, or compares with what is right of it, and its token.
fn asked(subject: &Subject<'_>, node: &Node, condition: &Node) -> Option<(Var, usize)> {
    let first = subject.tree.get(node.first)?;
    match (first.kind, condition.kind) {
        (NodeKind::Fetch(var), NodeKind::Fetch(_)) => Some((var, first.token)),
        (NodeKind::Fetch(var), NodeKind::Binary(_))
            if condition.second == node.first.saturating_add(1) => Some((var, first.token)),
        _ => None,
    }
}

/// Reports whether a loop calls nothing, and counts a variable by ones up to a great number.
fn is_long(subject: &Subject<'_>, index: usize, node: &Node, condition: &Node, var: Var) -> bool {
    let most = subject.constants.get(node.second.saturating_sub(2));
    let compares = matches!(
        condition.kind,
        NodeKind::Binary(Op::Less | Op::LessOrEqual | Op::NotEqual)
    );
    let mut is_counted = false;
    for below in subject.tree.within(node.second, index) {
        match below.kind {
            NodeKind::Call(..) => return false,
            NodeKind::PrefixIncrement(own, _) | NodeKind::PostfixIncrement(own, _) => {
                is_counted = is_counted || own == var;
            }
            _ => {}
        }
    }
    is_counted && compares && matches!(most, Some(number) if number >= LONG_COUNT)
}

/// Reports whether the condition of a loop doesn't hold of 0, and its variable is one that only the loop's body sets.
fn is_never_begun(
    subject: &Subject<'_>,
    index: usize,
    node: &Node,
    condition: &Node,
    var: Var,
) -> bool {
    let (Some(body), Var::Local(number)) = (body_at(subject.tree, index), var) else {
        return false;
    };
    let holds_of_zero = match condition.kind {
        NodeKind::Binary(op) => {
            match subject.constants.get(node.second.saturating_sub(2)) {
                Some(value) => holds(op, 0, value),
                None => None,
            }
        }
        _ => Some(false),
    };
    holds_of_zero == Some(false)
        && usize::from(number) >= body.parameters
        && is_set_within(subject.tree, body, node.second, index, var)
}

/// Reports whether a function sets a variable from one index on up to another one, and nowhere else.
fn is_set_within(tree: &SourceTree, body: &Body, first: usize, end: usize, var: Var) -> bool {
    let mut is_set = false;
    for at in body.first..body.end {
        if let Some(node) = tree.get(at)
            && set_by(node) == Some(var)
        {
            if at < first || at >= end {
                return false;
            }
            is_set = true;
        }
    }
    is_set
}
