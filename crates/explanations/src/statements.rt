//! Warnings about statements that are an expression: without effect, or a `drive` that is replaced at once.

use crate::indices::{before, follows};
use crate::rewriting::Rewrite;
use crate::rows::is_call_of;
use crate::variables::set_by;
use crate::warnings::{Said, Subject, Warnings};
use derivations::{Located, Node, NodeKind, SourceTree};
use grammar::{Callee, Intrinsic, Op, Var};
use tokens::{Keyword, Punctuator, Token};

/// Warns of the statement of a node's index that sets nothing, and calls nothing that does more than answer, and of one
/// that takes back the one before it.
pub fn warn_of_statement(out: &mut Warnings, subject: &Subject<'_>, index: usize, node: &Node) {
    let tree = subject.tree;
    let below = tree.within(node.first, index);
    if !have_effect(below) {
        let said = if is_declared(subject.tokens, node.token) {
            Said::Words(
                "this statement has no effect: perhaps a `,` is meant before it, and not a `;`",
            )
        } else {
            on_no_effect(tree, index)
        };
        out.warn(node.token, said);
    } else if let Some(call) = tree.get(index.saturating_sub(1))
        && let NodeKind::Call(Callee::Function(number), _) = call.kind
        && is_asked(tree, number)
    {
        out.warn(
            node.token,
            Said::Named(" does nothing but answer, and that is dropped here"),
        );
    }
    if is_call_of(tree, node.first.saturating_sub(1), Intrinsic::Drive)
        && is_call_of(tree, index, Intrinsic::Drive)
        && calls(below) == 1
        && follows(
            subject.tokens,
            node.token,
            &Token::Punctuator(Punctuator::Semicolon),
        )
    {
        out.tell(
            node.token,
            "this `drive` replaces the one before it at once: wait between them in a loop",
        );
    }
}

/// Reports whether a statement begins right behind a declaration in one line, as if it went on.
fn is_declared(tokens: &[Located], begin: usize) -> bool {
    let (Some(semicolon), Some(first)) = (before(tokens, begin), tokens.get(begin)) else {
        return false;
    };
    semicolon.token == Token::Punctuator(Punctuator::Semicolon)
        && matches!(first.token, Token::Name(_))
        && first.line == semicolon.line
        && ends_list(tokens.get(..begin).unwrap_or(&[]), first.line)
}

/// Reports whether tokens end with a type word on this line and names behind it, with commas and semicolons between them.
fn ends_list(tokens: &[Located], line: u32) -> bool {
    for located in tokens.iter().rev() {
        match located.token {
            _ if located.line != line => return false,
            Token::Name(_) | Token::Punctuator(Punctuator::Comma | Punctuator::Semicolon) => {}
            _ => return located.token == Token::Keyword(Keyword::Type),
        }
    }
    false
}

/// Returns what is said of the statement of an index, which has no effect.
fn on_no_effect(tree: &SourceTree, index: usize) -> Said {
    let Some(node) = tree.get(index.saturating_sub(1)) else {
        return Said::Words("this statement has no effect");
    };
    let left = match tree.get(node.second.saturating_sub(1)) {
        Some(left) => left.kind,
        None => node.kind,
    };
    match (node.kind, left) {
        (NodeKind::Binary(op), NodeKind::Fetch(_)) => on_bare(op, node.token),
        (NodeKind::Call(Callee::Intrinsic(intrinsic), given), _) => {
            on_question(intrinsic, given, node.token)
        }
        _ => Said::Words("this statement has no effect"),
    }
}

/// Returns what is said of an operator on a variable that is a statement.
fn on_bare(op: Op, token: usize) -> Said {
    match op {
        Op::Equal => Said::Written(
            "this only compares, and has no effect: to set a variable write `=`",
            Rewrite::Joined(token, token.saturating_add(1), "="),
            "",
        ),
        Op::Less | Op::LessOrEqual | Op::Greater | Op::GreaterOrEqual => Said::Words(
            "this only compares, and has no effect: to set a variable write `=`",
        ),
        Op::Add => Said::Written(
            "this statement has no effect, as nothing keeps the sum",
            Rewrite::Grown(token),
            "a = a + 20",
        ),
        _ => Said::Words("this statement has no effect"),
    }
}

/// Returns what is said of a question that is a statement.
fn on_question(intrinsic: Intrinsic, given: usize, token: usize) -> Said {
    match intrinsic {
        Intrinsic::Scan => Said::Written(
            "this statement has no effect: keep the answer",
            Rewrite::Answered(token),
            "r = scan(d, 10);",
        ),
        Intrinsic::Speed if given > 0 => Said::Words(
            "this statement has no effect: a speed is set by `drive(degree, speed)`",
        ),
        Intrinsic::LocX | Intrinsic::LocY if given > 0 => Said::Words(
            "this statement has no effect: a robot comes to a place by `drive(degree, speed)`",
        ),
        _ => Said::Words("this statement has no effect"),
    }
}

/// Reports whether the function of a number answers something, and does nothing else.
pub fn is_asked(tree: &SourceTree, number: u8) -> bool {
    for body in tree.bodies() {
        if body.number == number {
            let nodes = tree.within(body.first, body.end);
            return !changes(nodes) && answers(tree, body.first, body.end);
        }
    }
    false
}

/// Reports whether some of these nodes sets a variable of the file, or calls what does more than answer.
fn changes(nodes: &[Node]) -> bool {
    for node in nodes {
        let is_own = matches!(set_by(node), Some(Var::Local(_)));
        if has_effect(node) && !is_own || matches!(node.kind, NodeKind::While) {
            return true;
        }
    }
    false
}

/// Reports whether some `return` between two indices has a value that isn't a number.
fn answers(tree: &SourceTree, first: usize, end: usize) -> bool {
    for index in first..end {
        if let (Some(node), Some(value)) = (tree.get(index), tree.get(index.saturating_sub(1)))
            && node.kind == NodeKind::Return
            && !matches!(value.kind, NodeKind::Constant(_))
        {
            return true;
        }
    }
    false
}

/// Counts the calls among some nodes.
fn calls(nodes: &[Node]) -> usize {
    let mut count: usize = 0;
    for node in nodes {
        if matches!(node.kind, NodeKind::Call(..)) {
            count = count.saturating_add(1);
        }
    }
    count
}

/// Reports whether one of these nodes sets something, or calls what does more than answer.
fn have_effect(nodes: &[Node]) -> bool {
    for node in nodes {
        if has_effect(node) {
            return true;
        }
    }
    false
}

/// Reports whether a node sets something, or calls what does more than answer.
fn has_effect(node: &Node) -> bool {
    match node.kind {
        NodeKind::Call(Callee::Function(_), _) => true,
        NodeKind::Call(Callee::Intrinsic(intrinsic), _) => acts(intrinsic),
        _ => set_by(node).is_some(),
    }
}

/// Reports whether an intrinsic function does more than answer. `rand` takes one of the random numbers, which are in a
/// row.
pub fn acts(intrinsic: Intrinsic) -> bool {
    matches!(
        intrinsic,
        Intrinsic::Cannon | Intrinsic::Drive | Intrinsic::Rand
    )
}
