//! Warnings about counters that begin anew in each turn of a loop.

use crate::chances::compared;
use crate::courses::is_endless;
use crate::values::holds;
use crate::variables::set_by;
use crate::warnings::{Said, Subject, Warnings};
use derivations::{Node, NodeKind};
use grammar::{Op, StoreOp, Var};

/// Warns of each variable that a statement of the loop of an index sets to a number, if the rest of a turn only adds to it, and
/// never as much as is asked for.
pub fn warn_of_counters(out: &mut Warnings, subject: &Subject<'_>, index: usize, node: &Node) {
    for (place, below) in subject.tree.within(node.second, index).iter().enumerate() {
        let at = node.second.saturating_add(place);
        if let NodeKind::Store(Var::Local(_), StoreOp::Set) = below.kind
            && is_statement_of(subject, at, index)
            && let Some(last) = reached(subject, at, node.second, index)
            && (asks_for_more(subject, at, index, last)
                || goes_on(subject, at, node, last)
                || is_lost(subject, at, index, node))
        {
            out.warn(
                below.token,
                Said::Named(
                    " begins anew in each turn of this loop, so it never gets to what is asked for: set it before the loop",
                ),
            );
        }
    }
}

/// Reports whether the node of an index is a statement of the block of the loop of another index.
fn is_statement_of(subject: &Subject<'_>, index: usize, whole: usize) -> bool {
    match subject.tree.get(index.saturating_add(1)) {
        Some(statement) => {
            statement.kind == NodeKind::Evaluate && statement.above == Some(whole)
        }
        None => false,
    }
}

/// Returns the most that the variable has that the node of an index sets to a number, in a turn of the loop between two
/// indices: if it isn't read before, and all others add a number to it, in no loop of their own. Nothing if none adds to it.
fn reached(subject: &Subject<'_>, set: usize, from: usize, to: usize) -> Option<i32> {
    let var = set_by(subject.tree.get(set)?)?;
    let first = subject.constants.get(set.checked_sub(1)?)?;
    let (mut most, mut changed) = (first, None);
    for index in from..to {
        let node = subject.tree.get(index)?;
        let is_looped = node.kind == NodeKind::While && changed >= Some(node.first);
        let is_early = index < set && node.kind == NodeKind::Fetch(var);
        if is_looped || is_early {
            return None;
        }
        if index != set && set_by(node) == Some(var) {
            changed = Some(index);
            most = most.checked_add(added(subject, index, node, var)?)?;
        }
    }
    (most > first).then_some(most)
}

/// Returns the number that the node of an index adds to a variable, if it adds one.
fn added(subject: &Subject<'_>, index: usize, node: &Node, var: Var) -> Option<i32> {
    let value = index.checked_sub(1)?;
    let number = match node.kind {
        NodeKind::PrefixIncrement(_, StoreOp::Add) | NodeKind::PostfixIncrement(_, StoreOp::Add) =>
            1,
        NodeKind::Store(_, StoreOp::Add) => subject.constants.get(value)?,
        NodeKind::Store(_, StoreOp::Set) if is_sum_with(subject, value, var) => {
            subject.constants.get(value.checked_sub(1)?)?
        }
        // no other node adds a number
        _ => return None,
    };
    (number > 0).then_some(number)
}

/// Reports whether the node of an index is a variable and something that is added to it.
fn is_sum_with(subject: &Subject<'_>, index: usize, var: Var) -> bool {
    let Some(sum) = subject.tree.get(index) else {
        return false;
    };
    let is_variable = match subject.tree.get(sum.first) {
        Some(left) => left.kind == NodeKind::Fetch(var),
        None => false,
    };
    sum.kind == NodeKind::Binary(Op::Add)
        && is_variable
        && sum.second == sum.first.saturating_add(1)
}

/// Reports whether a loop goes on for ever by its condition: until the variable that the node of an index sets has more than it
/// has at most.
fn goes_on(subject: &Subject<'_>, set: usize, node: &Node, most: i32) -> bool {
    let Some(var) = subject.tree.get(set).and_then(set_by) else {
        return false;
    };
    match compared(subject, node.second.saturating_sub(1)) {
        Some(asked) => {
            asked.value == NodeKind::Fetch(var)
                && matches!(asked.op, Op::Less | Op::LessOrEqual | Op::NotEqual)
                && asked.number > most
        }
        None => false,
    }
}

/// Reports whether nothing reads what an endless loop of an index adds to the variable that the node of another index sets, before that is
/// set anew.
fn is_lost(subject: &Subject<'_>, set: usize, index: usize, node: &Node) -> bool {
    let Some(var) = subject.tree.get(set).and_then(set_by) else {
        return false;
    };
    let mut last = None;
    for at in set.saturating_add(1)..index {
        if let Some(below) = subject.tree.get(at) {
            if set_by(below) == Some(var) {
                last = Some(at);
                if subject.tree.is_used(at) {
                    return false;
                }
            } else if last.is_some() && below.kind == NodeKind::Fetch(var) {
                return false;
            } else if below.kind == NodeKind::Return {
                return false;
            }
        }
    }
    last.is_some() && is_endless(subject, node)
}

/// Warns of a loop of an index in an endless one that goes on until a counter has some number, if only that loop changes the counter, and
/// what stands before the endless one: it is done once.
pub fn warn_of_once(out: &mut Warnings, subject: &Subject<'_>, index: usize, node: &Node) {
    let Some(asked) = compared(subject, node.second.saturating_sub(1)) else {
        return;
    };
    let NodeKind::Fetch(var @ Var::Local(_)) = asked.value else {
        return;
    };
    let Some(whole) = endless_above(subject, node) else {
        return;
    };
    let is_up = matches!(asked.op, Op::Less | Op::LessOrEqual);
    let mut steps = false;
    for at in whole.0..whole.1 {
        if let Some(below) = subject.tree.get(at)
            && set_by(below) == Some(var)
        {
            let is_step = node.second <= at
                && at < index
                && added(subject, at, below, var).is_some();
            if !is_step {
                return;
            }
            steps = true;
        }
    }
    if is_up && steps {
        out.warn(
            node.token,
            Said::Words(
                "this loop is done once alone: nothing in the loop around it sets its counter back; set it before this one",
            ),
        );
    }
}

/// Returns where the body of the endless loop begins and ends in which a node is a statement.
fn endless_above(subject: &Subject<'_>, node: &Node) -> Option<(usize, usize)> {
    let above = node.above?;
    let whole = subject.tree.get(above)?;
    is_endless(subject, whole).then_some((whole.second, above))
}

/// Reports whether more is asked of a variable between two indices, the first of which sets it, than it has at most.
fn asks_for_more(subject: &Subject<'_>, from: usize, to: usize, most: i32) -> bool {
    let Some(var) = subject.tree.get(from).and_then(set_by) else {
        return false;
    };
    for index in from..to {
        if let Some(asked) = compared(subject, index)
            && asked.value == NodeKind::Fetch(var)
            && matches!(asked.op, Op::Greater | Op::GreaterOrEqual | Op::Equal)
            && asked.number >= most
            && holds(asked.op, most, asked.number) == Some(false)
        {
            return true;
        }
    }
    false
}
