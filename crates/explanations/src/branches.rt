//! Warnings about `if` and `while`: empty bodies, `=` in conditions, conditions that can't change, and indentation.

use crate::aims::warn_of_hits;
use crate::chains::on_chain;
use crate::counters::{warn_of_counters, warn_of_once};
use crate::courses::warn_of_early;
use crate::damages::warn_of_damage;
use crate::heads::behind_brackets;
use crate::indices::token_at;
use crate::meanings::Meaning;
use crate::nearest::warn_of_least;
use crate::ranges::{warn_of_far, warn_of_nobody};
use crate::rewriting::Rewrite;
use crate::rows::warn_of_loop;
use crate::steps::{asks_for, only_step};
use crate::values::{holds, is_turned};
use crate::variables::set_by;
use crate::warnings::{Said, Subject, Warnings};
use crate::ways::{warn_of_across, warn_of_led, warn_of_way};
use derivations::{Located, Node, NodeKind, SourceTree};
use grammar::{Callee, Intrinsic, Op, StoreOp, Var};
use tokens::{Keyword, Punctuator, Token};

/// The most `if`s with an `else` between them that are looked at.
const MOST_JOINED: usize = 100;

/// Warns of the `if` or `while` of a node's index.
pub fn warn_of_branch(out: &mut Warnings, subject: &Subject<'_>, index: usize, node: &Node) {
    let tokens = subject.tokens;
    if let Some(body) = behind_brackets(tokens, node.token) {
        warn_of_body(out, tokens, node, body);
        if node.kind != NodeKind::While {
            warn_of_else(out, tokens, node.token, body);
        }
    }
    let last = node.second.saturating_sub(1);
    let Some((condition, value)) = subject.valued(last) else {
        return;
    };
    let equals = condition.token.saturating_add(1);
    if is_assignment(subject.tree, last, condition)
        && !is_in_brackets(tokens, condition.token)
        && !is_turned(tokens, equals, Punctuator::Not)
    {
        out.warn(equals, on_equals(tokens, node.token, equals));
    }
    warn_of_question(out, subject, index, node, condition);
    if let Some(said) = on_bits(condition) {
        out.warn(condition.token, said);
    }
    if let Some(words) = on_chain(subject, node) {
        out.tell(condition.token, words);
    }
    if node.kind == NodeKind::While
        && let Some(said) = on_condition(subject.tree, index, node, value)
    {
        out.warn(node.token, said);
    }
    if node.kind == NodeKind::While {
        warn_of_waiting(out, subject, index, node, condition);
        warn_of_loop(out, subject, index, node, condition);
        warn_of_counters(out, subject, index, node);
        warn_of_once(out, subject, index, node);
        warn_of_way(out, subject, index, node, condition);
        warn_of_far(out, subject, index, node);
    }
}

/// Warns of the condition of the `if` or `while` of an index by what it asks of the game.
fn warn_of_question(
    out: &mut Warnings,
    subject: &Subject<'_>,
    index: usize,
    node: &Node,
    condition: &Node,
) {
    warn_of_damage(out, subject, index, node);
    if node.kind == NodeKind::While {
        return;
    }
    warn_of_least(out, subject, index, node);
    warn_of_hits(out, subject, index, node);
    warn_of_early(out, subject, index, node);
    warn_of_nobody(out, subject, index, node);
    warn_of_led(out, subject, index, node);
    warn_of_across(out, subject, index, node);
    if is_exact(subject, node.second.saturating_sub(1), condition) {
        out.tell(
            condition.token,
            "a robot moves some metres at once, and hardly ever is exactly there: write `<` or `>`",
        );
    }
}

/// Returns what is said of a `=` in the condition behind a word.
fn on_equals(tokens: &[Located], word: usize, equals: usize) -> Said {
    let end = behind_brackets(tokens, word).unwrap_or(equals);
    Said::Written(
        "`=` sets the variable; to compare write `==`, or put it into brackets of its own",
        Rewrite::Equal(equals, end.saturating_sub(1)),
        "",
    )
}

/// Returns what is said of a condition that turns or shifts bits, or divides.
fn on_bits(condition: &Node) -> Option<Said> {
    let (token, next) = (condition.token, condition.token.saturating_add(1));
    match condition.kind {
        NodeKind::Complement => Some(Said::Words(
            "`~` turns each bit: to ask whether it isn't so write `!`",
        )),
        NodeKind::Binary(Op::ShiftRight) => Some(Said::Written(
            "`>>` shifts bits: to compare write `>`",
            Rewrite::Joined(token, next, ">"),
            "",
        )),
        NodeKind::Binary(Op::ShiftLeft) => Some(Said::Written(
            "`<<` shifts bits: to compare write `<`",
            Rewrite::Joined(token, next, "<"),
            "",
        )),
        NodeKind::Store(_, StoreOp::Divide) => Some(Said::Written(
            "`/=` divides, and sets the variable: whether both are unequal asks `!=`",
            Rewrite::Joined(next, next.saturating_add(1), "!="),
            "",
        )),
        // no other operator on bits looks like one of conditions
        _ => None,
    }
}

/// Warns of a loop that may wait for ever, by its condition.
fn warn_of_waiting(
    out: &mut Warnings,
    subject: &Subject<'_>,
    index: usize,
    node: &Node,
    condition: &Node,
) {
    if is_skipped(subject, node, condition) {
        out.warn(
            condition.token,
            Said::Written(
                "the steps pass this number without having it, so the loop never ends: write `<`",
                Rewrite::Joined(condition.token, condition.token.saturating_add(1), "<"),
                "",
            ),
        );
    } else if is_missed(subject, node.second.saturating_sub(1), condition) {
        out.tell(
            condition.token,
            "perhaps the robot passes this value, and never has it exactly: write `<` or `>`",
        );
    } else if is_stuck(subject, index, node, condition) {
        out.tell(
            condition.token,
            "a robot at a wall stands still, and waits for ever: wait by its place, or by `speed() > 0`",
        );
    }
}

/// Reports whether a loop goes on until a variable has a number that its steps pass: it is set to another one right before the
/// loop, and goes on by the same number each time.
fn is_skipped(subject: &Subject<'_>, node: &Node, condition: &Node) -> bool {
    let tree = subject.tree;
    let (Some(first), Some(to)) = (
        tree.get(node.first),
        subject.constants.get(node.second.saturating_sub(2)),
    ) else {
        return false;
    };
    let (NodeKind::Fetch(var), Some(from)) = (first.kind, set_before(subject, node, first.kind))
    else {
        return false;
    };
    let is_whole = condition.second == node.first.saturating_add(1);
    match only_step(subject, node.first, var) {
        Some(step) if is_whole && condition.kind == NodeKind::Binary(Op::NotEqual) => {
            let way = to.saturating_sub(from);
            step > 0 && way > 0 && way % step != 0
        }
        _ => false,
    }
}

/// Returns the number to which the statement right before a loop sets the variable that a node reads.
fn set_before(subject: &Subject<'_>, node: &Node, read: NodeKind) -> Option<i32> {
    let store = node.first.checked_sub(2)?;
    match subject.tree.get(store)?.kind {
        NodeKind::Store(var, StoreOp::Set) if read == NodeKind::Fetch(var) => {
            subject.constants.get(store)
        }
        _ => None,
    }
}

/// Reports whether a loop waits for a speed that a robot at a wall never has, and calls nothing meanwhile.
fn is_stuck(subject: &Subject<'_>, index: usize, node: &Node, condition: &Node) -> bool {
    let last = node.second.saturating_sub(1);
    let (Some(left), Some(value), NodeKind::Binary(op)) = (
        subject.tree.get(condition.second.saturating_sub(1)),
        subject.constants.get(last.saturating_sub(1)),
        condition.kind,
    ) else {
        return false;
    };
    let asks_speed = asks_for(left, Intrinsic::Speed);
    let goes_on = op != Op::Equal && value > 0 && holds(op, 0, value) == Some(true);
    asks_speed && goes_on && !have_calls(subject.tree.within(node.second, index))
}

/// Reports whether one of these nodes is a call.
fn have_calls(nodes: &[Node]) -> bool {
    for node in nodes {
        if matches!(node.kind, NodeKind::Call(..)) {
            return true;
        }
    }
    false
}

/// Reports whether the condition of an index waits for an exact coordinate, damage or speed.
fn is_missed(subject: &Subject<'_>, index: usize, condition: &Node) -> bool {
    let value = subject.constants.get(index.saturating_sub(1));
    let meaning = subject.meanings.get(condition.second.saturating_sub(1));
    condition.kind == NodeKind::Binary(Op::NotEqual)
        && matches!(
            meaning,
            Meaning::Coordinate | Meaning::Damage | Meaning::Speed
        )
        && value.is_some()
        && value != Some(0)
}

/// Reports whether the condition of an index asks for an exact coordinate, but for that at a wall.
fn is_exact(subject: &Subject<'_>, index: usize, condition: &Node) -> bool {
    condition.kind == NodeKind::Binary(Op::Equal)
        && subject.meanings.get(condition.second.saturating_sub(1)) == Meaning::Coordinate
        && matches!(
            subject.constants.get(index.saturating_sub(1)),
            Some(1..=998)
        )
}

/// Warns of the body that begins at the token of an index: of a `;` alone, and of a statement after it that looks as if
/// it were a part of it.
fn warn_of_body(out: &mut Warnings, tokens: &[Located], node: &Node, body: usize) {
    let behind = token_at(tokens, body.saturating_add(1));
    if token_at(tokens, body) != Token::Punctuator(Punctuator::Semicolon) {
        warn_of_indentation(out, tokens, node.token, body);
    } else if node.kind == NodeKind::While {
        if behind == Token::Punctuator(Punctuator::OpenCurly) {
            out.tell(
                body,
                "the `while` ends with this `;`, and the block behind it is no part of it: leave the `;` out",
            );
        }
    } else if behind != Token::Keyword(Keyword::Else) {
        out.tell(
            body,
            "the `if` ends with this `;`, and what follows is always done: leave the `;` out",
        );
    }
}

/// Warns of the `else` of an `if` that is the branch of another one, if it stands in a line below that one's word.
fn warn_of_else(out: &mut Warnings, tokens: &[Located], outer: usize, body: usize) {
    let mut inner = body;
    for _ in 0..MOST_JOINED {
        if token_at(tokens, inner) != Token::Keyword(Keyword::If) {
            return;
        }
        let begin = behind_brackets(tokens, inner);
        let Some(at) = begin.and_then(|begin| behind_part(tokens, begin)) else {
            return;
        };
        if token_at(tokens, at) != Token::Keyword(Keyword::Else) {
            return;
        }
        if looks_outer(tokens, outer, body, at) {
            return out.tell(
                at,
                "an `else` belongs to the nearest `if` above it, and not to the one below which it stands: set braces { } round the branch of that one",
            );
        }
        inner = at.saturating_add(1);
    }
}

/// Returns the index after the statement that begins at an index, if it is an expression or a block.
fn behind_part(tokens: &[Located], begin: usize) -> Option<usize> {
    if token_at(tokens, begin) != Token::Punctuator(Punctuator::OpenCurly) {
        return behind_simple(tokens, begin);
    }
    let mut depth = 0usize;
    for (number, located) in tokens.get(begin..)?.iter().enumerate() {
        match located.token {
            Token::Punctuator(Punctuator::OpenCurly) => depth = depth.saturating_add(1),
            Token::Punctuator(Punctuator::CloseCurly) => depth = depth.saturating_sub(1),
            _ => {}
        }
        if depth == 0 {
            return Some(begin.saturating_add(number).saturating_add(1));
        }
    }
    None
}

/// Reports whether an `else` begins a line at the column of an `if`, and not at that of the `if` that is its branch, on a line between.
fn looks_outer(tokens: &[Located], outer: usize, inner: usize, at: usize) -> bool {
    let (Some(outer), Some(inner), Some(last), Some(other)) = (
        tokens.get(outer),
        tokens.get(inner),
        tokens.get(at.saturating_sub(1)),
        tokens.get(at),
    ) else {
        return false;
    };
    outer.line < inner.line
        && last.line < other.line
        && outer.column == other.column
        && inner.column != other.column
}

/// Warns of the statement after a body without braces that begins below the body's beginning.
fn warn_of_indentation(out: &mut Warnings, tokens: &[Located], head: usize, body: usize) {
    let Some(behind) = behind_simple(tokens, body) else {
        return;
    };
    let (Some(head), Some(first), Some(next)) = (
        tokens.get(head),
        tokens.get(body),
        tokens.get(behind),
    ) else {
        return;
    };
    let is_below = head.line < first.line && first.line < next.line;
    if is_below && first.column == next.column && head.column < next.column && may_begin(next) {
        out.tell(
            behind,
            "this is no part of the branch or loop above, though it looks so: put both into braces",
        );
    }
}

/// Returns the index after the statement that begins at an index, if it is an expression.
fn behind_simple(tokens: &[Located], begin: usize) -> Option<usize> {
    if !matches!(token_at(tokens, begin), Token::Name(_)) {
        return None;
    }
    for (number, located) in tokens.get(begin..)?.iter().enumerate() {
        if located.token == Token::Punctuator(Punctuator::Semicolon) {
            return Some(begin.saturating_add(number).saturating_add(1));
        }
    }
    None
}

/// Reports whether a token may begin a further statement.
fn may_begin(located: &Located) -> bool {
    !matches!(
        located.token,
        Token::Keyword(Keyword::Else) | Token::Punctuator(Punctuator::CloseCurly) | Token::End
    )
}

/// Reports whether the node of an index is an assignment: not of what a call answers, which is often meant.
fn is_assignment(tree: &SourceTree, index: usize, node: &Node) -> bool {
    let value = tree.get(index.saturating_sub(1));
    let is_call = match value {
        Some(value) => matches!(value.kind, NodeKind::Call(..)),
        None => false,
    };
    matches!(node.kind, NodeKind::Store(_, StoreOp::Set)) && !is_call
}

/// Reports whether two brackets are open before a token.
fn is_in_brackets(tokens: &[Located], token: usize) -> bool {
    let open = Token::Punctuator(Punctuator::OpenRound);
    for before in tokens.get(token.saturating_sub(2)..token).unwrap_or(&[]) {
        if before.token != open {
            return false;
        }
    }
    true
}

/// Returns what is said of the condition of the loop of a node's index, if that can't change: constants that say that
/// the loop is to go on forever are meant.
fn on_condition(tree: &SourceTree, index: usize, node: &Node, value: Option<i32>) -> Option<Said> {
    let condition = tree.within(node.first, node.second);
    let whole = tree.within(node.first, index);
    match value {
        Some(0) => Some(Said::Words(
            "the condition of this loop is always 0 (false): its body never runs",
        )),
        Some(_) if asks(condition) => Some(Said::Words(
            "the condition of this loop is never 0: it is always true, and the loop never ends",
        )),
        None => Some(Said::Unchanged(unchanged(condition, whole)?)),
        _ => None,
    }
}

/// Reports whether a condition reads a variable, or calls a function.
fn asks(condition: &[Node]) -> bool {
    for node in condition {
        if matches!(node.kind, NodeKind::Fetch(_) | NodeKind::Call(..)) {
            return true;
        }
    }
    false
}

/// Returns the token of the first variable that the condition of a loop reads, if it calls nothing, and sets none, and the
/// whole loop sets none of those that it reads.
fn unchanged(condition: &[Node], whole: &[Node]) -> Option<usize> {
    let mut read = None;
    for node in condition {
        match node.kind {
            NodeKind::Fetch(var) if may_set(whole, var) => return None,
            NodeKind::Fetch(_) => read = read.or(Some(node.token)),
            NodeKind::Call(..) => return None,
            _ if set_by(node).is_some() => return None,
            // no other node reads or sets a variable
            _ => {}
        }
    }
    read
}

/// Reports whether one of these nodes may set a variable.
fn may_set(nodes: &[Node], var: Var) -> bool {
    for node in nodes {
        if sets(node, var) {
            return true;
        }
    }
    false
}

/// Reports whether a node may set a variable: a function of the file may set each external.
fn sets(node: &Node, var: Var) -> bool {
    match node.kind {
        NodeKind::Call(Callee::Function(_), _) => matches!(var, Var::External(_)),
        _ => set_by(node) == Some(var),
    }
}
