//! Warnings about variables that keep too little, or too much: a function's that begin with 0 at each call, and a look that is not
//! repeated.

use crate::chances::compared;
use crate::courses::{asks, is_endless};
use crate::indices::is_name;
use crate::variables::set_by;
use crate::warnings::{Said, Subject, Warnings};
use derivations::{Body, Node, NodeKind};
use grammar::{Callee, Intrinsic, StoreOp, Var};

/// Warns of the variable of a function's number, by the index of the first node that sets it: of what it keeps from call to
/// call, or of a look before an endless loop in which it is asked for. Reports whether it warned.
pub fn warn_of_kept(
    out: &mut Warnings,
    subject: &Subject<'_>,
    body: &Body,
    number: usize,
    set: usize,
) -> bool {
    let Ok(number) = u8::try_from(number) else {
        return false;
    };
    let var = Var::Local(number);
    let (token, words) = if let Some(token) = grown(subject, body, var, set) {
        (
            token,
            " is 0 at the beginning of each call: declare it outside of the functions, and it keeps its value",
        )
    } else if let Some(token) = looked(subject, body, var, set) {
        (
            token,
            " is the answer of one question before this loop, and stays as it is: ask again in the loop",
        )
    } else {
        return false;
    };
    out.warn(token, Said::Named(words));
    true
}

/// Returns the token at which the node of an index, the first that sets a variable, changes what it was, in a function that
/// isn't `main`, outside of loops.
fn grown(subject: &Subject<'_>, body: &Body, var: Var, set: usize) -> Option<usize> {
    let node = subject.tree.get(set)?;
    let is_set_anew = matches!(node.kind, NodeKind::Store(_, StoreOp::Set));
    let is_changed = !is_set_anew || reads(subject.tree.within(node.first, set), var);
    let is_main = is_name(subject.tokens, body.token, b"main");
    let is_first = !reads(subject.tree.within(body.first, node.first), var);
    let is_returned = reads(subject.tree.within(set, body.end), var);
    (is_changed && is_first && is_returned && !is_main && !is_looped(subject, body, set)).then_some(
        node.token,
    )
}

/// Reports whether some node reads a variable.
fn reads(nodes: &[Node], var: Var) -> bool {
    for node in nodes {
        if node.kind == NodeKind::Fetch(var) {
            return true;
        }
    }
    false
}

/// Reports whether the node of an index is in a loop of its function.
fn is_looped(subject: &Subject<'_>, body: &Body, index: usize) -> bool {
    for node in subject.tree.within(index, body.end) {
        if node.kind == NodeKind::While && node.first <= index {
            return true;
        }
    }
    false
}

/// Returns the token of the first node in an endless loop that reads a variable, which only the node of an index sets, before
/// that loop, to what a look answers.
fn looked(subject: &Subject<'_>, body: &Body, var: Var, set: usize) -> Option<usize> {
    let tree = subject.tree;
    let question = tree.get(set.checked_sub(1)?)?.kind;
    let NodeKind::Call(Callee::Intrinsic(asked), _) = question else {
        return None;
    };
    let is_look = asked == Intrinsic::Scan;
    let is_asked = tree.get(set)?.kind == NodeKind::Store(var, StoreOp::Set)
        && (is_look || asked.argument_count() == 0);
    if !is_asked || is_set(tree.within(set.saturating_add(1), body.end), var) {
        return None;
    }
    for (place, node) in tree.within(set, body.end).iter().enumerate() {
        let index = set.saturating_add(place);
        if node.first > set && is_endless(subject, node) {
            return if is_look {
                first_read(tree.within(node.second, index), var)
            } else {
                first_compared(subject, node.second, index, var, asked)
            };
        }
    }
    None
}

/// Returns the token of the first node between two indices that compares a variable with a number, but for the middle of the field, if
/// none asks a question again.
fn first_compared(
    subject: &Subject<'_>,
    first: usize,
    end: usize,
    var: Var,
    asked: Intrinsic,
) -> Option<usize> {
    if asks(subject, subject.tree.within(first, end), &[asked]) {
        return None;
    }
    for at in first..end {
        if let Some(comparison) = compared(subject, at)
            && comparison.value == NodeKind::Fetch(var)
            && comparison.number != MIDDLE
        {
            return Some(subject.tree.get(subject.tree.first_of(at))?.token);
        }
    }
    None
}

/// The middle of the field, by which a robot knows the side where it began.
const MIDDLE: i32 = 500;

/// Reports whether some node sets a variable.
fn is_set(nodes: &[Node], var: Var) -> bool {
    for node in nodes {
        if set_by(node) == Some(var) {
            return true;
        }
    }
    false
}

/// Returns the token of the first of some nodes that reads a variable.
fn first_read(nodes: &[Node], var: Var) -> Option<usize> {
    for node in nodes {
        if node.kind == NodeKind::Fetch(var) {
            return Some(node.token);
        }
    }
    None
}
