//! Warnings about shots that don't go where a look saw somebody: to a place, to another degree than that of the look, or to a
//! range that the look didn't answer.

use crate::calls::MOST_RANGE;
use crate::heads::behind_brackets;
use crate::indices::{is_name, name_at};
use crate::meanings::Meaning;
use crate::notes::Note;
use crate::pieces::{add_argument, add_piece};
use crate::ranges::warn_of_fixed;
use crate::reach::is_straight;
use crate::rewriting::Rewrite;
use crate::steps::{asks_for, body_at, degree_of, steps_on};
use crate::variables::set_by;
use crate::warnings::{Said, Subject, Warnings};
use derivations::{Located, Node, NodeKind};
use grammar::{Callee, Intrinsic, Op, StoreOp, Var};

/// Returns the index of the last node before another one of its function that sets a variable to what a scan answers.
fn look_before(subject: &Subject<'_>, index: usize, wanted: Option<Var>) -> Option<usize> {
    let body = body_at(subject.tree, index)?;
    let mut found = None;
    for at in body.first..index {
        if let Some(node) = subject.tree.get(at)
            && let NodeKind::Store(var, StoreOp::Set) = node.kind
            && (wanted.is_none() || wanted == Some(var))
            && is_scan(subject, at.saturating_sub(1))
        {
            found = Some(at);
        }
    }
    found
}

/// Reports whether the node of an index is a scan.
pub fn is_scan(subject: &Subject<'_>, index: usize) -> bool {
    match subject.tree.get(index) {
        Some(node) => asks_for(node, Intrinsic::Scan),
        None => false,
    }
}

/// Returns the token of the scan whose answer the node of an index sets a variable to.
fn scan_token(subject: &Subject<'_>, set: usize) -> Option<usize> {
    Some(subject.tree.get(set.checked_sub(1)?)?.token)
}

/// Returns what is said of an argument that is no degree, of a call of an index with a token: with the degree of the look, if the
/// argument is a range that is known to be its answer.
pub fn on_answer(
    subject: &Subject<'_>,
    index: usize,
    call: usize,
    argument: usize,
    words: &'static str,
) -> Said {
    let look = match subject.tree.get(argument) {
        Some(node) => match node.kind {
            NodeKind::Fetch(var) => look_before(subject, index, Some(var)),
            _ => None,
        },
        None => None,
    };
    match look.and_then(|set| scan_token(subject, set)) {
        Some(scan) => Said::Written(words, Rewrite::Aimed(call, scan), ""),
        None => Said::Words(words),
    }
}

/// Warns of a shot or a drive of an index to a place, and reports whether it is one: both arguments come from coordinates.
pub fn warn_of_place(
    out: &mut Warnings,
    subject: &Subject<'_>,
    index: usize,
    node: &Node,
    intrinsic: Intrinsic,
) -> bool {
    let first = subject.tree.outermost(node.first, index);
    let is_place = subject.meanings.get(first).is_place()
        && subject.meanings.get(index.saturating_sub(1)).is_place();
    if !is_place {
        return false;
    }
    let scan = look_before(subject, index, None).and_then(|set| scan_token(subject, set));
    match (intrinsic, scan) {
        (Intrinsic::Cannon, Some(scan)) => out.warn(
            node.token,
            Said::Written(
                SHOT_PLACE,
                Rewrite::Aimed(node.token, scan),
                "cannon(degree, range)",
            ),
        ),
        (Intrinsic::Cannon, None) => out.tell(node.token, SHOT_PLACE),
        (Intrinsic::Drive, _) => out.tell(
            node.token,
            "`drive` takes no coordinates, but a degree and a speed: work the degree out by `atan`",
        ),
        _ => return false,
    }
    true
}

/// What is said of a shot to a place.
const SHOT_PLACE: &str = "`cannon` takes no coordinates, but the degree and the range of a look";

/// Warns of the shot of an index at the greatest range in the place of what a look answered, or at the range of a look to another degree.
pub fn warn_of_aim(
    out: &mut Warnings,
    subject: &Subject<'_>,
    index: usize,
    node: &Node,
    intrinsic: Intrinsic,
) {
    if intrinsic != Intrinsic::Cannon {
        return;
    }
    if let Some(step) = turned_on(subject, index, node) {
        out.warn(node.token, Said::Turned(step));
    } else if matches!(
        subject.constants.get(index.saturating_sub(1)),
        Some(MOST_RANGE..)
    )
        && let Some(scan) = asked_alone(subject, index)
    {
        out.warn(node.token, Said::Thrown(scan));
    } else {
        warn_of_fixed(out, subject, index, node);
    }
}

/// Names of what is kept of hits.
static HITS: [&[u8]; 6] = [b"hit", b"hits", b"struck", b"killed", b"kills", b"dead"];

/// What is said of a shot that is asked whether it hit.
const FIRED: &str =
    "`cannon` answers 1 if it fired, and 0 if two shots are in the air: whether one hits, nothing tells";

/// Returns what is said of the assignment of an index, if it keeps what a shot answers as a hit.
pub fn on_hit(
    subject: &Subject<'_>,
    index: usize,
    node: &Node,
    op: StoreOp,
) -> Option<&'static str> {
    let value = subject.tree.get(index.checked_sub(1)?)?;
    (op == StoreOp::Set && is_shot(value) && is_hit(subject, node)).then_some(FIRED)
}

/// Warns of the `if` of an index that counts a hit if a shot was fired.
pub fn warn_of_hits(out: &mut Warnings, subject: &Subject<'_>, index: usize, node: &Node) {
    let is_asked = match subject.tree.get(node.second.saturating_sub(1)) {
        Some(condition) => is_shot(condition),
        None => false,
    };
    if is_asked {
        for below in subject.tree.within(node.second, index) {
            if set_by(below).is_some() && is_hit(subject, below) {
                out.tell(node.token, FIRED);
            }
        }
    }
}

/// Reports whether a node is a shot.
fn is_shot(node: &Node) -> bool {
    asks_for(node, Intrinsic::Cannon)
}

/// Reports whether the variable that a node sets is named like a hit.
fn is_hit(subject: &Subject<'_>, node: &Node) -> bool {
    for name in &HITS {
        if is_name(subject.tokens, node.token, name) {
            return true;
        }
    }
    false
}

/// Returns the token at which the degree of a shot of an index goes on by a step, behind the look whose range the shot has.
fn turned_on(subject: &Subject<'_>, index: usize, node: &Node) -> Option<usize> {
    let degree = degree_of(subject.tree, index, node)?;
    let range = range_of(subject, index)?;
    let look = look_before(subject, index, Some(range))?;
    let scan = subject.tree.get(look.checked_sub(1)?)?;
    if degree_of(subject.tree, look.checked_sub(1)?, scan) != Some(degree) {
        return None;
    }
    let mut step = None;
    for at in look.saturating_add(1)..index {
        let below = subject.tree.get(at)?;
        if set_by(below) == Some(degree) {
            if step.is_some() || !steps_on(subject, at, degree) {
                return None;
            }
            step = Some(at);
        }
        if may_change(below, degree, range) {
            return None;
        }
    }
    let step = step?;
    (is_straight(subject.tree, look, step) && is_straight(subject.tree, step, index)).then_some(
        subject.tree.get(step)?.token,
    )
}

/// Reports whether a node looks again, sets a range, or calls a function that may set one of these variables.
fn may_change(node: &Node, degree: Var, range: Var) -> bool {
    match node.kind {
        NodeKind::Call(Callee::Function(_), _) => {
            matches!(degree, Var::External(_)) || matches!(range, Var::External(_))
        }
        NodeKind::Call(Callee::Intrinsic(intrinsic), _) => intrinsic == Intrinsic::Scan,
        _ => set_by(node) == Some(range),
    }
}

/// Returns the variable that is the range of a shot of an index, alone or in a sum.
fn range_of(subject: &Subject<'_>, index: usize) -> Option<Var> {
    let last = index.checked_sub(1)?;
    let node = subject.tree.get(last)?;
    let value = match node.kind {
        NodeKind::Binary(Op::Add | Op::Subtract) => node.second.checked_sub(1)?,
        _ => last,
    };
    let is_range = matches!(
        subject.meanings.get(value),
        Meaning::Range | Meaning::Farther
    );
    match subject.tree.get(value)?.kind {
        NodeKind::Fetch(var) if is_range => Some(var),
        _ => None,
    }
}

/// Returns the token of the scan of the same degree that is asked in the condition above the shot of an index, and whose answer
/// isn't kept.
fn asked_alone(subject: &Subject<'_>, index: usize) -> Option<usize> {
    let shot = subject.tree.get(index)?;
    let degree = degree_of(subject.tree, index, shot)?;
    let mut above = shot.above;
    for _ in 0..grammar::MOST_NESTED {
        let node = subject.tree.get(above?)?;
        let is_test = matches!(node.kind, NodeKind::If | NodeKind::IfElse | NodeKind::While);
        if is_test && node.second <= index {
            return only_scan(subject, node, degree, index >= node.third);
        }
        above = node.above;
    }
    None
}

/// Returns the token of the scan of a degree in the condition of a node, if that has one scan alone, which isn't kept, and asks no more
/// than whether somebody is there; or, before an `else`, whether nobody is.
fn only_scan(subject: &Subject<'_>, node: &Node, degree: Var, is_else: bool) -> Option<usize> {
    let mut found = None;
    for at in node.first..node.second {
        let below = subject.tree.get(at)?;
        if is_scan(subject, at) {
            if found.is_some() || degree_of(subject.tree, at, below) != Some(degree) {
                return None;
            }
            found = Some(below.token);
        }
        let is_refused = match below.kind {
            NodeKind::Store(..) | NodeKind::Binary(Op::Less | Op::LessOrEqual) => true,
            NodeKind::Binary(Op::Equal) | NodeKind::Not => !is_else,
            NodeKind::Binary(Op::Greater | Op::GreaterOrEqual | Op::NotEqual) => is_else,
            _ => false,
        };
        if is_refused {
            return None;
        }
    }
    found
}

/// Adds that the degree of a shot has changed at a token since the look.
pub fn add_turned(note: &mut Note, tokens: &[Located], token: usize) {
    note.add(
        "the degree has changed since the `scan` of this range, so the shot goes in another direction: change ",
    );
    if let Some(name) = name_at(tokens, token) {
        note.quote(name.as_str());
    }
    note.add(" after the shot");
}

/// Adds that a shot bursts where its range ends, and how the range is kept that a scan answers.
pub fn add_thrown(note: &mut Note, tokens: &[Located], shot: usize, scan: usize) {
    note.add(
        "a shot bursts only where its range ends, and hits nobody before: keep what `scan` answers",
    );
    let mut own = Note::new();
    if add_kept(&mut own, tokens, shot, scan).is_some() {
        note.add(": write `");
        note.add(own.as_str());
        note.push('`');
    }
}

/// Adds how the range is kept, and the shot with it.
fn add_kept(note: &mut Note, tokens: &[Located], shot: usize, scan: usize) -> Option<()> {
    note.add("(range = ");
    add_piece(note, tokens, scan, behind_brackets(tokens, scan)?)?;
    note.add(") > 0` and `cannon(");
    add_argument(note, tokens, shot, 0)?;
    note.add(", range)");
    Some(())
}
