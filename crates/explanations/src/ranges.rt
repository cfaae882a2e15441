//! Warnings about ranges: a look that saw nobody taken for somebody near, a look for a wall, a shot that hurts the robot itself, and one
//! at another range than that of the look.

use crate::aims::is_scan;
use crate::courses::{asks, is_course};
use crate::heads::behind_brackets;
use crate::meanings::Meaning;
use crate::reach::is_straight;
use crate::rewriting::Rewrite;
use crate::steps::{asks_for, body_at, degree_of, is_degree};
use crate::variables::set_by;
use crate::warnings::{Said, Subject, Warnings};
use derivations::{Node, NodeKind};
use grammar::{Callee, Intrinsic, Op, StoreOp, Var};

/// How near a burst hurts, in metres.
const HURTING: i32 = 40;

/// The least number that is taken for a range, and not for a power of the shot.
const LEAST_FIXED: i32 = 6;

/// A range from which on a shot goes nearly as far as it can.
const FAR: i32 = 600;

/// The greatest range that is taken for that of nobody or somebody too near, and not for the target's.
const NEAR: i32 = 100;

/// A comparison by which a range is less than a number.
#[derive(Clone, Copy)]
struct Less {
    /// The variable of the range, if it is one.
    var: Option<Var>,
    /// The token of the range.
    token: usize,
    /// The index of the comparison.
    index: usize,
    /// The number.
    most: i32,
}

/// Warns of the `if` of an index that takes a range below a number for somebody near: it is 0 if nobody is there.
pub fn warn_of_nobody(out: &mut Warnings, subject: &Subject<'_>, index: usize, node: &Node) {
    let Some(less) = less_in(subject, node) else {
        return;
    };
    let shoots = shoots_at(subject, node.second, node.third, less);
    if shoots && less.most <= HURTING.saturating_add(1) {
        out.tell(
            less.token,
            "a burst within 40 metres hurts the robot itself: shoot only if the range is greater than 40",
        );
    }
    if shoots && less.most <= HURTING.saturating_add(1) || reads_before(subject, node, less) {
        return;
    }
    if looks_for_wall(subject, index, node, less) || feels_for_wall(subject, index, node, less) {
        out.tell(less.token, WALL);
    } else if shoots || less.most > HURTING && drives_only(subject, index, node) {
        let begin = node.token.saturating_add(2);
        let end = behind_brackets(subject.tokens, node.token).unwrap_or(begin);
        let rewrite = Rewrite::Positive(begin, end.saturating_sub(1), less.token);
        let example = "range > 0 && range < 100";
        out.warn(
            less.token,
            match less.var {
                Some(_) => Said::Written(NOBODY, rewrite, example),
                None => Said::Words(NOBODY_KEPT),
            },
        );
    }
}

/// What is said of a range below a number.
const NOBODY: &str = "`scan` answers 0 if nobody is there, and 0 is less, too: leave 0 out";

/// The same, of an answer that isn't kept.
const NOBODY_KEPT: &str =
    "`scan` answers 0 if nobody is there, and 0 is less, too: keep the answer, `range = scan(angle, 10);`, and ask `range > 0 && range < 100`";

/// What is said of a look for a wall.
const WALL: &str =
    "`scan` sees other robots alone, and no walls; it answers 0 if nobody is there: where the walls are, `loc_x()` and `loc_y()` tell: 0 to 999";

/// Returns the comparison of a range with a number that is greater, in the condition of a node, if the condition has no other question
/// after the range.
fn less_in(subject: &Subject<'_>, node: &Node) -> Option<Less> {
    for at in node.first..node.second {
        let below = subject.tree.get(at)?;
        let left = below.second.saturating_sub(1);
        let most = subject.constants.get(at.saturating_sub(1));
        if let (NodeKind::Binary(Op::Less | Op::LessOrEqual), Some(most @ 2..)) = (below.kind, most)
            && subject.meanings.get(left) == Meaning::Range
        {
            let range = subject.tree.get(left)?;
            let var = match range.kind {
                NodeKind::Fetch(var) | NodeKind::Store(var, StoreOp::Set) => Some(var),
                NodeKind::Call(Callee::Intrinsic(Intrinsic::Scan), _) => None,
                _ => return None,
            };
            return Some(Less {
                var,
                token: range.token,
                index: at,
                most,
            });
        }
    }
    None
}

/// Reports whether the condition of a node is more than a comparison, or what it compares was asked before: that may leave out 0.
fn reads_before(subject: &Subject<'_>, node: &Node, less: Less) -> bool {
    let Some(body) = body_at(subject.tree, less.index) else {
        return true;
    };
    let Some(var) = less.var else {
        return looks_again(subject, node, less);
    };
    // what another function set may have been asked there
    let mut is_read = true;
    for at in body.first..node.second {
        let Some(below) = subject.tree.get(at) else {
            return true;
        };
        let is_own = below.above == Some(less.index);
        if set_by(below) == Some(var) {
            is_read = subject.tree.is_used(at) && !is_own
                || !is_scan(subject, at.saturating_sub(1));
        } else if below.kind == NodeKind::Fetch(var) {
            is_read = is_read || !is_own;
        }
    }
    is_read || is_joined(subject, node)
}

/// Reports whether the condition of a node has another look than that of a comparison.
fn looks_again(subject: &Subject<'_>, node: &Node, less: Less) -> bool {
    for below in subject.tree.within(node.first, node.second) {
        if asks_for(below, Intrinsic::Scan) && below.above != Some(less.index) {
            return true;
        }
    }
    false
}

/// Reports whether a condition has an `||`.
fn is_joined(subject: &Subject<'_>, node: &Node) -> bool {
    for below in subject.tree.within(node.first, node.second) {
        if below.kind == NodeKind::Binary(Op::Or) {
            return true;
        }
    }
    false
}

/// Reports whether some node between two indices shoots at the range of a comparison.
fn shoots_at(subject: &Subject<'_>, first: usize, end: usize, less: Less) -> bool {
    for at in first..end {
        if let Some(node) = subject.tree.get(at)
            && asks_for(node, Intrinsic::Cannon)
            && let Some(range) = subject.tree.get(at.saturating_sub(1))
            && matches!(less.var, Some(var) if range.kind == NodeKind::Fetch(var))
        {
            return true;
        }
    }
    false
}

/// Reports whether the first branch of the `if` of an index drives, and sets no degree of a look; and there is no `else`.
fn drives_only(subject: &Subject<'_>, index: usize, node: &Node) -> bool {
    let branch = subject.tree.within(node.second, node.third);
    node.third == index
        && asks(subject, branch, &[Intrinsic::Drive])
        && !sets_degree(subject, index, branch)
}

/// Reports whether one of these nodes sets the degree of a look.
fn sets_degree(subject: &Subject<'_>, index: usize, nodes: &[Node]) -> bool {
    for node in nodes {
        if let Some(var) = set_by(node)
            && is_degree(subject.tree, index, var)
        {
            return true;
        }
    }
    false
}

/// Reports whether the `if` of an index turns a course to which it looks, by more than a look goes on.
fn looks_for_wall(subject: &Subject<'_>, index: usize, node: &Node, less: Less) -> bool {
    let tree = subject.tree;
    if asks(
        subject,
        tree.within(node.second, node.third),
        &[Intrinsic::Cannon],
    ) {
        return false;
    }
    for at in node.second..node.third {
        if let Some(below) = tree.get(at)
            && let Some(var) = set_by(below)
            && is_course(tree, index, var)
            && is_looked_to(subject, node, less, var)
            && is_great(subject, at)
        {
            return true;
        }
    }
    false
}

/// Reports whether the `if` of an index only sets a course to a number, by a look to one degree whose answer isn't kept.
fn feels_for_wall(subject: &Subject<'_>, index: usize, node: &Node, less: Less) -> bool {
    let tree = subject.tree;
    let Some(look) = tree
        .get(less.index)
        .and_then(|asked| asked.second.checked_sub(1))
    else {
        return false;
    };
    let degree = tree.outermost(tree.first_of(look), look);
    let branch = tree.within(node.second, node.third);
    let wanted = [Intrinsic::Cannon, Intrinsic::Scan];
    if less.var.is_some()
        || subject.constants.get(degree).is_none()
        || asks(subject, branch, &wanted)
    {
        return false;
    }
    for at in node.second..node.third {
        if let Some(below) = tree.get(at)
            && let Some(var) = set_by(below)
            && is_course(tree, index, var)
            && subject.constants.get(at).is_some()
        {
            return true;
        }
    }
    false
}

/// Reports whether a variable is the degree of the look in the condition of a node, or of the last one before it.
fn is_looked_to(subject: &Subject<'_>, node: &Node, less: Less, var: Var) -> bool {
    let Some(body) = body_at(subject.tree, less.index) else {
        return false;
    };
    let mut found = None;
    for at in body.first..node.second {
        if let Some(below) = subject.tree.get(at)
            && asks_for(below, Intrinsic::Scan)
        {
            found = degree_of(subject.tree, at, below);
        }
    }
    found == Some(var)
}

/// Reports whether the node of an index changes a degree by more than a look goes on, or in another way than by a number.
fn is_great(subject: &Subject<'_>, index: usize) -> bool {
    let value = index.saturating_sub(1);
    let step = match subject.constants.get(value) {
        Some(step) => Some(step),
        None => subject.constants.get(value.saturating_sub(1)),
    };
    match (subject.tree.get(index), step) {
        (Some(node), Some(step)) => !matches!(step, -44..=44)
            || !matches!(node.kind, NodeKind::Store(..)),
        (Some(node), None) => matches!(node.kind, NodeKind::Store(..)),
        (None, _) => false,
    }
}

/// Warns of the `while` of an index that goes on while a look where the robot drives to answers a great range, as if it saw the wall.
pub fn warn_of_far(out: &mut Warnings, subject: &Subject<'_>, index: usize, node: &Node) {
    let tree = subject.tree;
    let last = node.second.saturating_sub(1);
    let (Some(condition), Some(2..)) = (
        tree.get(last),
        subject.constants.get(last.saturating_sub(1)),
    ) else {
        return;
    };
    let is_far = matches!(
        condition.kind,
        NodeKind::Binary(Op::Greater | Op::GreaterOrEqual)
    ) && subject.meanings.get(condition.second.saturating_sub(1)) == Meaning::Range;
    let body = tree.within(node.second, index);
    let is_idle = !asks(
        subject,
        body,
        &[Intrinsic::Cannon, Intrinsic::Scan, Intrinsic::Drive],
    );
    if is_far && is_idle && is_driven(subject, node) {
        out.tell(condition.token, WALL);
    }
}

/// Reports whether the statement right before a loop drives to the degree to which the loop's condition looks.
fn is_driven(subject: &Subject<'_>, node: &Node) -> bool {
    let tree = subject.tree;
    let call = node.first.saturating_sub(2);
    let Some(drive) = tree.get(call) else {
        return false;
    };
    let degree = tree.get(tree.first_of(call));
    let look = tree.get(node.first);
    asks_for(drive, Intrinsic::Drive)
        && matches!((degree, look), (Some(degree), Some(look)) if degree.kind == look.kind)
}

/// Warns of the shot of an index at a number, if the range of a look to the same degree is kept, and only asked whether somebody is there.
/// Reports whether it warned.
pub fn warn_of_fixed(out: &mut Warnings, subject: &Subject<'_>, index: usize, node: &Node) {
    let Some(LEAST_FIXED..) = subject.constants.get(index.saturating_sub(1)) else {
        return;
    };
    if let Some(scan) = look_of(subject, index, node) {
        out.warn(
            node.token,
            Said::Written(
                "a shot flies over everybody, and bursts where its range ends: give it the range of the look",
                Rewrite::Aimed(node.token, scan),
                "cannon(angle, range)",
            ),
        );
    }
}

/// Returns the token of the last look before the shot of an index, if it is to the same degree, its range is kept, and between both
/// that is only asked whether it is one.
fn look_of(subject: &Subject<'_>, index: usize, node: &Node) -> Option<usize> {
    let tree = subject.tree;
    let degree = degree_of(tree, index, node)?;
    let body = body_at(tree, index)?;
    let mut found = None;
    for at in body.first..index {
        let below = tree.get(at)?;
        match below.kind {
            NodeKind::Store(var, StoreOp::Set) if is_look_to(subject, at, degree) => {
                found = Some((at, var, false));
            }
            NodeKind::Call(Callee::Function(_), _) => found = None,
            NodeKind::Fetch(var) if matches!(found, Some((_, range, _)) if range == var) => {
                let (look, range, _) = found?;
                found = is_somebody(subject, below).then_some((look, range, true));
            }
            _ if set_by(below) == Some(degree) => found = None,
            _ if matches!(found, Some((_, range, _)) if set_by(below) == Some(range)) => found =
                None,
            _ => {}
        }
    }
    let (look, _, is_asked) = found?;
    (is_asked && is_straight(tree, look, index)).then_some(tree.get(look.checked_sub(1)?)?.token)
}

/// Reports whether the node of an index keeps what a look to a degree answers.
fn is_look_to(subject: &Subject<'_>, index: usize, degree: Var) -> bool {
    let scan = index.saturating_sub(1);
    match subject.tree.get(scan) {
        Some(node) => {
            is_scan(subject, scan) && degree_of(subject.tree, scan, node) == Some(degree)
        }
        None => false,
    }
}

/// Reports whether a node that reads a range only asks whether there is one: it is a condition, or is compared with a small number, or to be
/// less than a great one.
fn is_somebody(subject: &Subject<'_>, node: &Node) -> bool {
    let Some(above) = node.above else {
        return false;
    };
    let number = subject.constants.get(above.saturating_sub(1));
    match (subject.tree.get(above), number) {
        (Some(asked), Some(number)) => match asked.kind {
            NodeKind::Binary(Op::Greater | Op::GreaterOrEqual) => number <= NEAR,
            NodeKind::Binary(Op::Less | Op::LessOrEqual) => number >= FAR,
            NodeKind::Binary(Op::Equal | Op::NotEqual) => number == 0,
            _ => false,
        },
        (Some(asked), None) => matches!(
            asked.kind,
            NodeKind::If | NodeKind::IfElse | NodeKind::While
        ),
        (None, _) => false,
    }
}
