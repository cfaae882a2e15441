//! Warnings about the robot's own damage that is taken for another robot's, or for what is left of its life.

use crate::chances::compared;
use crate::courses::asks;
use crate::steps::asks_for;
use crate::warnings::{Subject, Warnings};
use derivations::{Node, NodeKind};
use grammar::{Callee, Intrinsic, Op};

/// The greatest number that is taken for a little that is left of life.
const LITTLE: i32 = 40;

/// What is said of a damage that is taken for what is left of life.
const GROWS: &str =
    "`damage()` is the robot's own: it is 0 at first and grows, and at 100 the robot is dead: if it is badly hurt, `damage() > 70` holds";

/// Warns of the `if` or the `while` of an index that asks whether the damage is more than 0, as if the robot lived by that, or whether
/// it is little, and then flees.
pub fn warn_of_damage(out: &mut Warnings, subject: &Subject<'_>, index: usize, node: &Node) {
    let last = node.second.saturating_sub(1);
    if node.kind == NodeKind::While && is_life(subject, last) && node.second < index {
        out.tell(
            node.token,
            "`damage()` is the robot's own: it is 0 at first, so this loop isn't begun, and grows: what lasts as long as the robot lives stands in `while (1)`",
        );
    }
    if node.kind != NodeKind::While
        && let Some(token) = asked_for_little(subject, node)
        && flees(subject, index, node)
    {
        out.tell(token, GROWS);
    }
}

/// Reports whether the condition of an index is whether there is some damage.
fn is_life(subject: &Subject<'_>, index: usize) -> bool {
    match compared(subject, index) {
        Some(asked) => {
            asked.value == NodeKind::Call(Callee::Intrinsic(Intrinsic::Damage), 0)
                && matches!(
                    (asked.op, asked.number),
                    (Op::Greater | Op::NotEqual, 0) | (Op::GreaterOrEqual, 1)
                )
        }
        None => false,
    }
}

/// Returns the token of the comparison, in the condition of a node, by which the damage is little.
fn asked_for_little(subject: &Subject<'_>, node: &Node) -> Option<usize> {
    for at in node.first..node.second {
        if let Some(asked) = compared(subject, at)
            && asked.value == NodeKind::Call(Callee::Intrinsic(Intrinsic::Damage), 0)
        {
            let is_little = matches!(asked.op, Op::Less | Op::LessOrEqual)
                && 0 < asked.number
                && asked.number <= LITTLE;
            return is_little.then_some(subject.tree.get(at)?.token);
        }
    }
    None
}

/// Reports whether the first branch of an `if` of an index drives and doesn't shoot, and the second one shoots, or doesn't drive.
fn flees(subject: &Subject<'_>, index: usize, node: &Node) -> bool {
    let (first, second) = (
        subject.tree.within(node.second, node.third),
        subject.tree.within(node.third, index),
    );
    moves(subject, node.second, node.third)
        && !asks(subject, first, &[Intrinsic::Cannon])
        && (asks(subject, second, &[Intrinsic::Cannon]) || !moves(subject, node.third, index))
}

/// Reports whether a node between two indices drives, at another speed than 0.
fn moves(subject: &Subject<'_>, first: usize, end: usize) -> bool {
    for at in first..end {
        if let Some(node) = subject.tree.get(at)
            && asks_for(node, Intrinsic::Drive)
            && subject.constants.get(at.saturating_sub(1)) != Some(0)
        {
            return true;
        }
    }
    false
}
