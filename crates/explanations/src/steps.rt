//! Degrees that go on by steps: whether a variable is one, and by how much it goes on.

use crate::constants::Constants;
use crate::variables::set_by;
use crate::warnings::Subject;
use derivations::{Body, Node, NodeKind, SourceTree};
use grammar::{Callee, Intrinsic, Op, StoreOp, Var};

/// Returns the function that the node of an index is in.
pub fn body_at(tree: &SourceTree, index: usize) -> Option<&Body> {
    for body in tree.bodies() {
        if body.first <= index && index < body.end {
            return Some(body);
        }
    }
    None
}

/// Returns the body of the function that the node of an index is in, if a variable is its own, and no parameter.
pub fn own_body<'a>(subject: &Subject<'a>, index: usize, var: Var) -> Option<&'a Body> {
    let body = body_at(subject.tree, index)?;
    let is_own = matches!(var, Var::Local(number) if usize::from(number) >= body.parameters);
    is_own.then_some(body)
}

/// Reports whether a node calls this intrinsic function.
/// It isn't inlined, since the page's module is to be small.
#[inline(never)]
pub fn asks_for(node: &Node, wanted: Intrinsic) -> bool {
    match node.kind {
        NodeKind::Call(Callee::Intrinsic(called), _) => called == wanted,
        _ => false,
    }
}

/// Reports whether a variable is somewhere the degree of a scan, a shot or a drive, in the function that the node of an
/// index is in.
pub fn is_degree(tree: &SourceTree, index: usize, var: Var) -> bool {
    let Some(body) = body_at(tree, index) else {
        return false;
    };
    for at in body.first..body.end {
        if let Some(node) = tree.get(at)
            && takes_degree(node)
            && degree_of(tree, at, node) == Some(var)
        {
            return true;
        }
    }
    false
}

/// Reports whether a node is a call that takes a degree first.
fn takes_degree(node: &Node) -> bool {
    matches!(
        node.kind,
        NodeKind::Call(
            Callee::Intrinsic(Intrinsic::Scan | Intrinsic::Cannon | Intrinsic::Drive),
            _
        )
    )
}

/// Returns the variable that is the first argument of the call of an index, if it is one alone.
pub fn degree_of(tree: &SourceTree, index: usize, node: &Node) -> Option<Var> {
    match tree.get(tree.outermost(node.first, index))?.kind {
        NodeKind::Fetch(var) => Some(var),
        _ => None,
    }
}

/// Returns the greatest resolution by which a function looks at the degree of a variable, if all are known.
fn resolution_of(tree: &SourceTree, constants: &Constants, body: &Body, var: Var) -> Option<i32> {
    let mut greatest = 0;
    for at in body.first..body.end {
        if let Some(node) = tree.get(at)
            && node.kind == NodeKind::Call(Callee::Intrinsic(Intrinsic::Scan), 2)
            && degree_of(tree, at, node) == Some(var)
        {
            let resolution = constants.get(at.saturating_sub(1))?;
            if resolution > greatest {
                greatest = resolution;
            }
        }
    }
    Some(greatest)
}

/// Returns the least step by which a function changes a variable, if all that it sets besides are numbers.
fn step_of(tree: &SourceTree, constants: &Constants, body: &Body, var: Var) -> Option<i32> {
    let mut least: Option<i32> = None;
    for at in body.first..body.end {
        let Some(node) = tree.get(at) else {
            continue;
        };
        let step = match node.kind {
            NodeKind::Store(own, StoreOp::Add | StoreOp::Subtract) if own == var => {
                constants.get(at.saturating_sub(1))?
            }
            NodeKind::Store(own, StoreOp::Set) if own == var => {
                let value = at.saturating_sub(1);
                if constants.get(value).is_some() {
                    continue;
                }
                sum_of(tree, constants, value, var)?
            }
            NodeKind::Store(own, _)
            | NodeKind::PrefixIncrement(own, _)
            | NodeKind::PostfixIncrement(own, _)
                if own == var => {
                return None;
            }
            _ => continue,
        };
        least = match least {
            Some(other) if other < step => Some(other),
            _ => Some(step),
        };
    }
    least
}

/// Returns the step by which the function that the node of an index is in changes a variable, if there is one alone.
pub fn only_step(subject: &Subject<'_>, index: usize, var: Var) -> Option<i32> {
    let body = body_at(subject.tree, index)?;
    let mut count: usize = 0;
    for node in subject.tree.within(body.first, body.end) {
        if set_by(node) == Some(var) {
            count = count.saturating_add(1);
        }
    }
    if count != 2 {
        return None;
    }
    step_of(subject.tree, subject.constants, body, var)
}

/// Reports whether the node of an index changes a variable by a number that isn't 0.
pub fn steps_on(subject: &Subject<'_>, index: usize, var: Var) -> bool {
    let Some(node) = subject.tree.get(index) else {
        return false;
    };
    let value = index.saturating_sub(1);
    let step = match node.kind {
        NodeKind::PrefixIncrement(..) | NodeKind::PostfixIncrement(..) => Some(1),
        NodeKind::Store(_, StoreOp::Add | StoreOp::Subtract) => subject.constants.get(value),
        NodeKind::Store(_, StoreOp::Set) => sum_of(subject.tree, subject.constants, value, var),
        // no other node changes it by a number
        _ => None,
    };
    !matches!(step, None | Some(0))
}

/// Returns what is added to a variable in the sum of an index, of which a remainder may be taken: then the shorter way.
fn sum_of(tree: &SourceTree, constants: &Constants, index: usize, var: Var) -> Option<i32> {
    let node = tree.get(index)?;
    let left = node.second.saturating_sub(1);
    match node.kind {
        NodeKind::Binary(Op::Remainder) => {
            let step = added(tree, constants, left, tree.get(left)?, var)?;
            match constants.get(index.saturating_sub(1)) {
                // nearly a whole turn forwards is a short way back
                Some(whole) if step > whole / 2 && step <= whole => whole.checked_sub(step),
                _ => Some(step),
            }
        }
        _ => added(tree, constants, index, node, var),
    }
}

/// Returns what the node of an index adds to a variable, or takes from it.
fn added(
    tree: &SourceTree,
    constants: &Constants,
    index: usize,
    node: &Node,
    var: Var,
) -> Option<i32> {
    let left = tree.get(node.second.saturating_sub(1))?;
    let changes = matches!(node.kind, NodeKind::Binary(Op::Add | Op::Subtract));
    if changes && left.kind == NodeKind::Fetch(var) {
        return constants.get(index.saturating_sub(1));
    }
    None
}

/// Returns the value of the node of an index, if it is known, or is a variable's that its function sets to one number alone.
/// It isn't inlined, since the page's module is to be small.
#[inline(never)]
pub fn only_value(subject: &Subject<'_>, index: usize) -> Option<i32> {
    let (node, value) = subject.valued(index)?;
    let NodeKind::Fetch(var) = node.kind else {
        return value;
    };
    let body = own_body(subject, index, var)?;
    let mut only = None;
    for at in body.first..body.end {
        if let Some(node) = subject.tree.get(at)
            && set_by(node) == Some(var)
        {
            let number = subject.constants.get(at)?;
            if only.is_some() && only != Some(number) {
                return None;
            }
            only = Some(number);
        }
    }
    only
}

/// Reports whether gaps are left between the looks of a scan of an index: its degree goes on by more than all looks see.
pub fn leaves_gaps(
    tree: &SourceTree,
    constants: &Constants,
    index: usize,
    node: &Node,
    most: i32,
) -> bool {
    let (Some(var), Some(body)) = (degree_of(tree, index, node), body_at(tree, index)) else {
        return false;
    };
    match (
        resolution_of(tree, constants, body, var),
        step_of(tree, constants, body, var),
    ) {
        (Some(resolution), Some(step)) => {
            let seen = if resolution > most { most } else { resolution };
            step > seen.saturating_mul(2).saturating_add(1)
        }
        _ => false,
    }
}
