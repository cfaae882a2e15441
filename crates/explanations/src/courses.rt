//! Warnings about where a robot drives in a row of statements: a turn at too high a speed, the same degree again and again, a way
//! that ends at a wall, and a place that is asked for too early.

use crate::calls::body_of;
use crate::chances::compared;
use crate::indices::is_name;
use crate::rows::is_call_of;
use crate::steps::{asks_for, body_at, steps_on};
use crate::variables::set_by;
use crate::warnings::{Subject, Warnings};
use derivations::{Body, Node, NodeKind, SourceTree};
use grammar::{Callee, Intrinsic, Var};

/// The greatest speed at which a robot turns, in percent.
const MOST_TURNING: i32 = 50;

/// The most statements in a row that are looked at.
const MOST_STATEMENTS: usize = 20;

/// A `drive` that is a statement: the index of the node of its degree, and its speed, if that is known.
#[derive(Clone, Copy)]
struct Course {
    degree: usize,
    speed: Option<i32>,
}

/// What stands between two statements of a row: a loop, one that counts, and a statement that sets the degree.
#[derive(Clone, Copy, Default)]
struct Between {
    waits: bool,
    counts: bool,
    turns: bool,
}

/// Warns of the `drive` that is the statement of an index, by the last one before it: in an endless loop that is one of the turn before,
/// or itself.
pub fn warn_of_course(out: &mut Warnings, subject: &Subject<'_>, index: usize, node: &Node) {
    let Some(course) = course_at(subject, index) else {
        return;
    };
    if goes_off(subject, index, course) {
        out.tell(node.token, OFF);
    }
    let Some((before, between)) = course_before(subject, index, course) else {
        return;
    };
    let Some(last) = course_at(subject, before) else {
        return;
    };
    let is_same = before == index && !between.turns;
    if is_same && between.counts && is_turn(subject, course) {
        out.tell(node.token, SAME);
    } else if !is_same
        && course.speed > Some(0)
        && last.speed > Some(MOST_TURNING)
        && turns(subject, last, course, between)
    {
        out.tell(node.token, FAST);
    }
}

/// What is said of a last `drive`.
const OFF: &str =
    "a robot stops at the wall, and doesn't bounce: there its speed is 0, and only another `drive` moves it; nothing calls `drive` again";

/// What is said of a `drive` that turns nothing.
const SAME: &str =
    "this is the same degree each time: degrees are absolute, 0 is east, 90 north, 180 west and 270 south; to turn by it, add it to a variable: `course += 90; drive(course, 50);`";

/// What is said of a turn at too high a speed.
const FAST: &str =
    "a robot above speed 50 only brakes here: slow down first, `drive(0, 50); while (speed() > 50) ;`";

/// Returns the course of the statement of an index, if it is a `drive`.
fn course_at(subject: &Subject<'_>, index: usize) -> Option<Course> {
    let call = index.checked_sub(1)?;
    if !is_call_of(subject.tree, index, Intrinsic::Drive) {
        return None;
    }
    Some(Course {
        degree: subject.tree.outermost(subject.tree.first_of(call), call),
        speed: subject.constants.get(call.saturating_sub(1)),
    })
}

/// Reports whether a course is one that is taken for a turn, and not only to the east: degrees and speed are known.
fn is_turn(subject: &Subject<'_>, course: Course) -> bool {
    match subject.constants.get(course.degree) {
        Some(degree) => degree % 360 != 0 && course.speed > Some(0),
        None => false,
    }
}

/// Reports whether two courses surely have different degrees, by what is between them.
fn turns(subject: &Subject<'_>, last: Course, course: Course, between: Between) -> bool {
    let (Some((first, from)), Some((second, to))) = (
        subject.valued(last.degree),
        subject.valued(course.degree),
    ) else {
        return false;
    };
    match (from, to) {
        (Some(from), Some(to)) => from % 360 != to % 360,
        _ => {
            second.kind == NodeKind::Call(Callee::Intrinsic(Intrinsic::Rand), 1)
                || first.kind == second.kind && between.turns
        }
    }
}

/// Returns the index of the last `drive` before the statement of an index in its row, and what is between: only what keeps the speed, and a
/// loop. In an endless loop the row goes on with the end of the turn before.
fn course_before(subject: &Subject<'_>, index: usize, course: Course) -> Option<(usize, Between)> {
    let wanted = subject.tree.get(course.degree)?.kind;
    let (mut at, mut between) = (index, Between::default());
    for _ in 0..MOST_STATEMENTS {
        at = statement_before(subject, at).or(last_of_turn(subject, at))?;
        if is_call_of(subject.tree, at, Intrinsic::Drive) {
            return between.waits.then_some((at, between));
        }
        let (first, end) = (subject.tree.first_of(at), at.saturating_add(1));
        if asks(
            subject,
            subject.tree.within(first, end),
            &[Intrinsic::Drive, Intrinsic::Speed],
        ) {
            return None;
        }
        between.waits = between.waits || loops(subject, first, end, false);
        between.counts = between.counts || loops(subject, first, end, true);
        between.turns = between.turns
            || sets(subject.tree.within(at.saturating_sub(1), end), wanted);
    }
    None
}

/// Reports whether an assignment is a statement, and sets the variable that a node reads.
fn sets(nodes: &[Node], read: NodeKind) -> bool {
    match nodes {
        [set, statement] => {
            statement.kind == NodeKind::Evaluate
                && matches!(set_by(set), Some(var) if read == NodeKind::Fetch(var))
        }
        _ => false,
    }
}

/// Returns the index of the statement right before the one of an index, in the same body.
pub fn statement_before(subject: &Subject<'_>, index: usize) -> Option<usize> {
    let node = subject.tree.get(index)?;
    let before = node.first.checked_sub(1)?;
    let other = subject.tree.get(before)?;
    let is_first = match node.above {
        Some(above) => subject.tree.get(above)?.third == node.first,
        None => body_at(subject.tree, index)?.first == node.first,
    };
    (other.kind.is_statement() && other.above == node.above && !is_first).then_some(before)
}

/// Returns the index of the last statement of an endless loop, if the statement of an index is the first one of its body.
fn last_of_turn(subject: &Subject<'_>, index: usize) -> Option<usize> {
    let node = subject.tree.get(index)?;
    let above = node.above?;
    let whole = subject.tree.get(above)?;
    (is_endless(subject, whole) && whole.second == node.first).then_some(above.checked_sub(1)?)
}

/// Reports whether a node is a loop without an end.
pub fn is_endless(subject: &Subject<'_>, node: &Node) -> bool {
    node.kind == NodeKind::While
        && !matches!(
            subject.constants.get(node.second.saturating_sub(1)),
            None | Some(0)
        )
}

/// Reports whether some nodes may call one of these functions, themselves or in a function of the file: one that calls others may.
pub fn asks(subject: &Subject<'_>, nodes: &[Node], wanted: &[Intrinsic]) -> bool {
    for node in nodes {
        let may_ask = match node.kind {
            NodeKind::Call(Callee::Intrinsic(called), _) => wanted.contains(&called),
            NodeKind::Call(Callee::Function(number), _) => {
                may_ask_in(subject.tree, number, wanted)
            }
            _ => false,
        };
        if may_ask {
            return true;
        }
    }
    false
}

/// Reports whether the function of a number may call one of these.
fn may_ask_in(tree: &SourceTree, number: u8, wanted: &[Intrinsic]) -> bool {
    let Some(body) = body_of(tree, number) else {
        return true;
    };
    for node in tree.within(body.first, body.end) {
        let may_ask = match node.kind {
            NodeKind::Call(Callee::Intrinsic(called), _) => wanted.contains(&called),
            NodeKind::Call(Callee::Function(_), _) => true,
            _ => false,
        };
        if may_ask {
            return true;
        }
    }
    false
}

/// Reports whether some nodes between two indices have a loop, or one that counts, or call a function that has one.
fn loops(subject: &Subject<'_>, first: usize, end: usize, is_counting: bool) -> bool {
    for at in first..end {
        let Some(node) = subject.tree.get(at) else {
            return false;
        };
        let has_loop = match node.kind {
            NodeKind::While => !is_counting || counts(subject, at, node),
            NodeKind::Call(Callee::Function(number), _) => match body_of(subject.tree, number) {
                Some(body) => have_loop(subject, body, is_counting),
                None => false,
            },
            _ => false,
        };
        if has_loop {
            return true;
        }
    }
    false
}

/// Reports whether a function has a loop of its own, or one that counts.
fn have_loop(subject: &Subject<'_>, body: &Body, is_counting: bool) -> bool {
    for at in body.first..body.end {
        if let Some(node) = subject.tree.get(at)
            && node.kind == NodeKind::While
            && (!is_counting || counts(subject, at, node))
        {
            return true;
        }
    }
    false
}

/// Reports whether the loop of an index compares a variable with a number, and changes it by another one.
fn counts(subject: &Subject<'_>, index: usize, node: &Node) -> bool {
    let Some(asked) = compared(subject, node.second.saturating_sub(1)) else {
        return false;
    };
    for at in node.second..index {
        if let Some(below) = subject.tree.get(at)
            && let Some(var) = set_by(below)
            && asked.value == NodeKind::Fetch(var)
            && steps_on(subject, at, var)
        {
            return true;
        }
    }
    false
}

/// Reports whether the `drive` of an index is the last one of the robot, and leads to some wall: an endless loop without another one
/// follows, in which the robot looks for others, and no other loop before that.
fn goes_off(subject: &Subject<'_>, index: usize, course: Course) -> bool {
    let tree = subject.tree;
    let (Some(node), Some(body)) = (tree.get(index), body_at(tree, index)) else {
        return false;
    };
    if node.above.is_some() || !is_slanting(subject, course) || course.speed == Some(0) {
        return false;
    }
    let behind = index.saturating_add(1);
    for (place, node) in tree.within(behind, body.end).iter().enumerate() {
        let at = behind.saturating_add(place);
        if is_endless(subject, node) && node.above.is_none() {
            let nodes = tree.within(behind, at);
            return !asks(subject, nodes, &[Intrinsic::Drive])
                && asks(subject, nodes, &[Intrinsic::Scan])
                && !loops(subject, behind, node.first, false);
        }
    }
    false
}

/// Reports whether a course leads to no wall that is surely meant: it is a random one, or a number between the four directions.
fn is_slanting(subject: &Subject<'_>, course: Course) -> bool {
    match subject.valued(course.degree) {
        Some((_, Some(degree))) => degree % 90 != 0,
        Some((node, None)) => { node.kind == NodeKind::Call(Callee::Intrinsic(Intrinsic::Rand), 1) }
        None => false,
    }
}

/// Warns of an `if` of an index that asks for a place once, right after the robot was told to drive, and drives by that.
pub fn warn_of_early(out: &mut Warnings, subject: &Subject<'_>, index: usize, node: &Node) {
    let tree = subject.tree;
    let is_main = match body_at(tree, index) {
        Some(body) => is_name(subject.tokens, body.token, b"main"),
        None => false,
    };
    let is_told = match statement_before(subject, index).and_then(|before| course_at(
        subject, before,
    )) {
        Some(course) => course.speed > Some(0),
        None => false,
    };
    if is_main
        && is_told
        && node.above.is_none()
        && asks(
            subject,
            tree.within(node.first, node.second),
            &[Intrinsic::LocX, Intrinsic::LocY],
        )
        && asks(
            subject,
            tree.within(node.second, index),
            &[Intrinsic::Drive],
        )
    {
        out.tell(
            node.token,
            "this is asked once, before the robot has moved, as `drive` doesn't wait: ask again and again, in a `while`",
        );
    }
}

/// Reports whether some `drive` of the function of an index has a variable for its degree.
pub fn is_course(tree: &SourceTree, index: usize, var: Var) -> bool {
    let Some(body) = body_at(tree, index) else {
        return false;
    };
    for at in body.first..body.end {
        if let Some(node) = tree.get(at)
            && asks_for(node, Intrinsic::Drive)
            && let Some(degree) = tree.get(tree.outermost(node.first, at))
            && degree.kind == NodeKind::Fetch(var)
        {
            return true;
        }
    }
    false
}
