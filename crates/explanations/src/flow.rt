//! Warnings about functions: a `main` that returns, functions that call themselves, and those that nothing calls.

use crate::indices::is_name;
use crate::warnings::{Said, Subject, Warnings};
use derivations::{Body, Node, NodeKind, SourceTree};
use grammar::{Callee, MOST_NAMES};

/// Warns of a `main` that can return.
pub fn warn_of_main(out: &mut Warnings, subject: &Subject<'_>) {
    for body in subject.tree.bodies() {
        if is_name(subject.tokens, body.token, b"main")
            && let Some(token) = first_return(subject, body)
        {
            out.tell(
                token,
                "`main` can return here, and the robot then begins again with all variables 0: put what it repeats into `while (1) { .. }`",
            );
        }
    }
}

/// Returns the index of the token of the first return of a function that may be reached, or else that of its closing
/// brace, if that is reached.
fn first_return(subject: &Subject<'_>, body: &Body) -> Option<usize> {
    for index in body.first..body.end {
        if let Some(node) = subject.tree.get(index)
            && node.kind == NodeKind::Return
            && !subject.reach.is_dead(index)
        {
            return Some(node.token);
        }
    }
    subject
        .reach
        .reaches_end(subject.tree, body)
        .then_some(body.closing)
}

/// Warns of functions that may call themselves.
pub fn warn_of_recursion(out: &mut Warnings, subject: &Subject<'_>) {
    let called = all_called(subject.tree);
    for body in subject.tree.bodies() {
        if called_by(&called, body.number) & bit(body.number) != 0 {
            out.tell(
                body.token,
                "this function may call itself, and each open call takes a part of the small stack: write a `while`",
            );
        }
    }
}

/// Warns of functions that nothing calls, in a source without a fault.
pub fn warn_of_uncalled(out: &mut Warnings, subject: &Subject<'_>) {
    let called = called_in(subject.tree.all());
    for body in subject.tree.bodies() {
        if called & bit(body.number) == 0 && !is_name(subject.tokens, body.token, b"main") {
            out.warn(
                body.token,
                Said::Named(" is never called: `main` alone begins by itself, so call it there"),
            );
        }
    }
}

/// Which functions each function calls: a bit for each number.
type Called = [u64; MOST_NAMES];

/// Returns which functions are called by each function, directly or by others.
fn all_called(tree: &SourceTree) -> Called {
    let mut called = [0; MOST_NAMES];
    for body in tree.bodies() {
        if let Some(own) = called.get_mut(usize::from(body.number)) {
            *own = called_in(tree.within(body.first, body.end));
        }
    }
    for through in 0..64u8 {
        add_through(&mut called, through);
    }
    called
}

/// Returns which functions are called in some nodes.
fn called_in(nodes: &[Node]) -> u64 {
    let mut called = 0;
    for node in nodes {
        if let NodeKind::Call(Callee::Function(number), _) = node.kind {
            called |= bit(number);
        }
    }
    called
}

/// Adds what is called through a function to each function that calls it.
fn add_through(called: &mut Called, through: u8) {
    let more = called_by(called, through);
    for own in called.iter_mut() {
        if *own & bit(through) != 0 {
            *own |= more;
        }
    }
}

/// Returns which functions are called by the function of a number.
fn called_by(called: &Called, number: u8) -> u64 {
    called.get(usize::from(number)).copied().unwrap_or(0)
}

/// Returns the bit of a function's number.
fn bit(number: u8) -> u64 {
    1u64.checked_shl(u32::from(number)).unwrap_or(0)
}
