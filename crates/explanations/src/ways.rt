//! Warnings about ways: a loop that waits for a coordinate which the robot's degree doesn't lead to, and a coordinate that is
//! compared with what it was before the field has moved.

use crate::chances::compared;
use crate::courses::{is_course, statement_before};
use crate::rows::driven;
use crate::steps::{asks_for, body_at, degree_of};
use crate::variables::set_by;
use crate::warnings::{Subject, Warnings};
use derivations::{Body, Node, NodeKind};
use grammar::{Callee, Intrinsic, Op, StoreOp, Var};

/// The most nodes between two questions that are asked too soon after each other: each takes a cycle at least, and the field
/// moves every 15 cycles.
const MOST_SOON: usize = 12;

/// Warns of the loop of an index that waits for a coordinate, and before or in which the robot drives to one known degree alone
/// that doesn't lead there.
pub fn warn_of_way(
    out: &mut Warnings,
    subject: &Subject<'_>,
    index: usize,
    node: &Node,
    condition: &Node,
) {
    let Some((asked, grows)) = waited_for(subject, index, node) else {
        return;
    };
    let Some(degree) = only_degree(subject, index, node) else {
        return;
    };
    let way = match asked {
        Intrinsic::LocX => way_east(degree),
        _ => way_east(degree.saturating_sub(90)),
    };
    if way != grows {
        out.tell(
            condition.token,
            "this never comes, as the robot's degree doesn't lead there: 0 is east, 90 north, 180 west and 270 south",
        );
    }
}

/// Warns of the `if` of an index that asks whether the robot is near a wall, and then only drives to degrees that lead there.
pub fn warn_of_led(out: &mut Warnings, subject: &Subject<'_>, index: usize, node: &Node) {
    let Some(asked) = compared(subject, node.second.saturating_sub(1)) else {
        return;
    };
    let side = match (asked.op, asked.number) {
        (Op::Greater | Op::GreaterOrEqual, 800..) => 1,
        (Op::Less | Op::LessOrEqual, ..=200) => -1,
        _ => return,
    };
    let turn = match asked.value {
        NodeKind::Call(Callee::Intrinsic(Intrinsic::LocX), 0) => 0,
        NodeKind::Call(Callee::Intrinsic(Intrinsic::LocY), 0) => 90,
        _ => return,
    };
    let mut is_led = false;
    for at in node.second..node.third {
        if let Some(degree) = set_course(subject, index, at) {
            if way_east(degree.saturating_sub(turn)) != side {
                return;
            }
            is_led = true;
        }
    }
    if is_led {
        out.tell(
            node.token,
            "this leads on to the wall that is near: x grows to the east and y to the north, and 0 is east, 90 north, 180 west and 270 south",
        );
    }
}

/// Warns of the `if` of an index that sets a course by a coordinate, if no degree of the robot changes that one.
pub fn warn_of_across(out: &mut Warnings, subject: &Subject<'_>, index: usize, node: &Node) {
    let asked = compared(subject, node.second.saturating_sub(1));
    let turn = match asked.and_then(|asked| place_asked(asked.value)) {
        Some(Intrinsic::LocX) => 0,
        Some(_) => 90,
        None => return,
    };
    let mut sets_course = false;
    for at in node.second..node.third {
        if let Some(below) = subject.tree.get(at)
            && let Some(var) = set_by(below)
        {
            sets_course = sets_course || is_course(subject.tree, index, var);
        }
    }
    if sets_course && drives_across(subject, index, turn) {
        out.tell(
            node.token,
            "no degree of this robot changes that coordinate: 0 is east and 180 west, along x; 90 is north and 270 south, along y",
        );
    }
}

/// Reports whether all that drives is in the function of an index, by variables that are set to numbers across a degree alone.
fn drives_across(subject: &Subject<'_>, index: usize, turn: i32) -> bool {
    let Some(body) = body_at(subject.tree, index) else {
        return false;
    };
    let mut only = None;
    for (at, node) in subject.tree.all().iter().enumerate() {
        if asks_for(node, Intrinsic::Drive) {
            let is_here = body.first <= at && at < body.end;
            let Some(var @ Var::Local(number)) = degree_of(subject.tree, at, node) else {
                return false;
            };
            let is_own = usize::from(number) >= body.parameters;
            if !is_here || !is_own || only.is_some() && only != Some(var) {
                return false;
            }
            only = Some(var);
        }
    }
    match only {
        Some(var) => is_across(subject, body, var, turn),
        None => false,
    }
}

/// Reports whether a function sets a variable to numbers across a degree alone, and at its beginning, if 0 isn't across it.
fn is_across(subject: &Subject<'_>, body: &Body, var: Var, turn: i32) -> bool {
    let mut is_begun = turn != 0;
    for at in body.first..body.end {
        if let Some(node) = subject.tree.get(at)
            && set_by(node) == Some(var)
        {
            let is_set = matches!(node.kind, NodeKind::Store(_, StoreOp::Set));
            let is_across = match subject.constants.get(at) {
                Some(degree) => way_east(degree.saturating_sub(turn)) == 0,
                None => false,
            };
            if !is_set || !is_across {
                return false;
            }
            is_begun = is_begun || is_first(subject, at);
        }
    }
    is_begun
}

/// Reports whether the assignment of an index is a statement that stands in no branch or loop.
fn is_first(subject: &Subject<'_>, index: usize) -> bool {
    match subject.tree.get(index.saturating_add(1)) {
        Some(statement) => statement.kind == NodeKind::Evaluate && statement.above.is_none(),
        None => false,
    }
}

/// Returns the degree to which the node of an index sets the robot's course: a `drive`, or the variable of one.
fn set_course(subject: &Subject<'_>, whole: usize, index: usize) -> Option<i32> {
    match subject.tree.get(index)?.kind {
        NodeKind::Call(Callee::Intrinsic(Intrinsic::Drive), _) => {
            let (degree, speed) = driven(subject, index.saturating_add(1))?;
            (speed > 0).then_some(degree)
        }
        NodeKind::Store(var, StoreOp::Set) if is_course(subject.tree, whole, var) => {
            subject.constants.get(index)
        }
        _ => None,
    }
}

/// Returns the coordinate that the loop of an index waits for, and whether it is to grow (1) or to become less (-1).
fn waited_for(subject: &Subject<'_>, index: usize, node: &Node) -> Option<(Intrinsic, i32)> {
    let asked = compared(subject, node.second.checked_sub(1)?)?;
    let place = match asked.value {
        NodeKind::Fetch(var) => renewed(subject, node.second, index, var)?,
        value => place_asked(value)?,
    };
    match asked.op {
        Op::Less | Op::LessOrEqual => Some((place, 1)),
        Op::Greater | Op::GreaterOrEqual => Some((place, -1)),
        // no other comparison waits for a side
        _ => None,
    }
}

/// Returns the coordinate that a node asks for, if it does.
fn place_asked(value: NodeKind) -> Option<Intrinsic> {
    match value {
        NodeKind::Call(Callee::Intrinsic(asked @ (Intrinsic::LocX | Intrinsic::LocY)), 0) => {
            Some(asked)
        }
        _ => None,
    }
}

/// Returns the coordinate to which some nodes between two indices set a variable, if they set it to one alone.
fn renewed(subject: &Subject<'_>, first: usize, end: usize, var: Var) -> Option<Intrinsic> {
    let mut only = None;
    for at in first..end {
        let node = subject.tree.get(at)?;
        if set_by(node) == Some(var) {
            let place = place_asked(subject.tree.get(at.checked_sub(1)?)?.kind)?;
            if node.kind != NodeKind::Store(var, StoreOp::Set) || only.is_some() {
                return None;
            }
            only = Some(place);
        }
    }
    only
}

/// Returns the only degree to which the robot drives in the loop of an index, or right before it if the loop calls nothing.
fn only_degree(subject: &Subject<'_>, index: usize, node: &Node) -> Option<i32> {
    let mut only = None;
    for (place, below) in subject.tree.within(node.second, index).iter().enumerate() {
        let statement = node.second.saturating_add(place).saturating_add(1);
        match below.kind {
            NodeKind::Call(Callee::Function(_), _) => return None,
            NodeKind::Call(Callee::Intrinsic(Intrinsic::Drive), _) => {
                let (degree, speed) = driven(subject, statement)?;
                if only.is_some() || speed <= 0 {
                    return None;
                }
                only = Some(degree);
            }
            // no other call changes the way
            _ => {}
        }
    }
    if only.is_some() {
        return only;
    }
    let (degree, speed) = driven(subject, statement_before(subject, index)?)?;
    (speed > 0).then_some(degree)
}

/// Returns whether a robot with a degree goes east (1), west (-1), or neither (0).
fn way_east(degree: i32) -> i32 {
    match degree.rem_euclid(360) {
        90 | 270 => 0,
        91..=269 => -1,
        _ => 1,
    }
}

/// Returns what is said of a comparison, for equality, of the coordinate that the node of an index asks for with a variable that
/// was set to it just before.
pub fn on_haste(subject: &Subject<'_>, op: Op, asked: usize, kept: usize) -> Option<&'static str> {
    let tree = subject.tree;
    let (question, answer) = (tree.get(asked)?.kind, tree.get(kept)?.kind);
    let NodeKind::Fetch(var) = answer else {
        return None;
    };
    let is_place = matches!(
        question,
        NodeKind::Call(Callee::Intrinsic(Intrinsic::LocX | Intrinsic::LocY), 0)
    );
    let is_damage = question == NodeKind::Call(Callee::Intrinsic(Intrinsic::Damage), 0);
    let mut has_shot = false;
    if !(is_place && matches!(op, Op::Equal | Op::NotEqual) || is_damage) {
        return None;
    }
    for step in 1..MOST_SOON {
        let at = asked.checked_sub(step)?;
        let node = tree.get(at)?;
        has_shot = has_shot || node.kind == NodeKind::Call(Callee::Intrinsic(Intrinsic::Cannon), 2);
        let is_set = node.kind == NodeKind::Store(var, StoreOp::Set);
        if is_set && tree.get(at.checked_sub(1)?)?.kind == question {
            return if is_damage {
                has_shot.then_some(
                    "`damage()` is the robot's own: whether a shot hits another one, nothing tells",
                )
            } else {
                Some(SOON)
            };
        }
        let is_other = is_set
            || node.kind == NodeKind::While
            || matches!(node.kind, NodeKind::Call(Callee::Function(_), _));
        if is_other {
            return None;
        }
    }
    None
}

/// What is said of a place that is asked for twice without a wait.
const SOON: &str =
    "the field moves every 15 cycles, and this is asked too soon after it was kept: wait in a loop between";
