//! Warnings about a search for the least range that takes 0, which a scan answers if nobody is there, for one.

use crate::heads::behind_brackets;
use crate::meanings::Meaning;
use crate::rewriting::Rewrite;
use crate::steps::body_at;
use crate::variables::set_by;
use crate::warnings::{Said, Subject, Warnings};
use derivations::{Node, NodeKind};
use grammar::{Op, StoreOp, Var};

/// A comparison by which a range becomes the least one: the variables of both, and the range's token.
#[derive(Clone, Copy)]
struct Search {
    range: Var,
    least: Var,
    token: usize,
}

/// Warns of the `if` of an index whose condition asks whether a range is less than the least one, if its branch keeps that and
/// nothing leaves out 0.
pub fn warn_of_least(out: &mut Warnings, subject: &Subject<'_>, index: usize, node: &Node) {
    for at in node.first..node.second {
        if let Some(search) = search_at(subject, at)
            && keeps(subject, node, search)
        {
            if !is_begun(subject, index, node, search) {
                return out.tell(
                    search.token,
                    "this never holds, as the least range begins with 0: begin with a great one, such as 2000",
                );
            }
            if leaves_out(subject, index, node, at, search) {
                return;
            }
            let begin = node.token.saturating_add(2);
            let end = behind_brackets(subject.tokens, node.token).unwrap_or(begin);
            return out.warn(
                search.token,
                Said::Written(
                    "`scan` answers 0 if nobody is there, and nothing is less: leave 0 out",
                    Rewrite::Positive(begin, end.saturating_sub(1), search.token),
                    "if (range > 0 && range < best)",
                ),
            );
        }
    }
}

/// Returns the search whose comparison is the node of an index.
fn search_at(subject: &Subject<'_>, index: usize) -> Option<Search> {
    let node = subject.tree.get(index)?;
    let (left, right) = (node.second.checked_sub(1)?, index.checked_sub(1)?);
    match node.kind {
        NodeKind::Binary(Op::Less | Op::LessOrEqual) => search_of(subject, left, right),
        NodeKind::Binary(Op::Greater | Op::GreaterOrEqual) => search_of(subject, right, left),
        // no other operator asks for the less one
        _ => None,
    }
}

/// Returns the search that asks whether the range of an index is less than the variable of another one.
fn search_of(subject: &Subject<'_>, range: usize, least: usize) -> Option<Search> {
    let node = subject.tree.get(range)?;
    let is_range = subject.meanings.get(range) == Meaning::Range;
    match (node.kind, subject.tree.get(least)?.kind) {
        (NodeKind::Fetch(range) | NodeKind::Store(range, StoreOp::Set), NodeKind::Fetch(least))
            if is_range && range != least => Some(Search {
            range,
            least,
            token: node.token,
        }),
        _ => None,
    }
}

/// Reports whether the first thing that the first branch of a node does with the range that is less is to keep it as the least one.
fn keeps(subject: &Subject<'_>, node: &Node, search: Search) -> bool {
    for at in node.second..node.third {
        let Some(below) = subject.tree.get(at) else {
            return false;
        };
        if below.kind == NodeKind::Fetch(search.range) {
            let is_kept = match subject.tree.get(at.saturating_add(1)) {
                Some(next) => next.kind == NodeKind::Store(search.least, StoreOp::Set),
                None => false,
            };
            return is_kept;
        }
    }
    false
}

/// Reports whether the least range of the search of an index may begin with another value than 0, of which none is less.
fn is_begun(subject: &Subject<'_>, index: usize, node: &Node, search: Search) -> bool {
    let (Some(body), Var::Local(number)) = (body_at(subject.tree, index), search.least) else {
        return true;
    };
    for at in body.first..body.end {
        if let Some(below) = subject.tree.get(at)
            && (at < node.second || at >= node.third)
            && set_by(below) == Some(search.least)
            && (below.kind != NodeKind::Store(search.least, StoreOp::Set)
                || subject.constants.get(at) != Some(0))
        {
            return true;
        }
    }
    usize::from(number) < body.parameters
}

/// Reports whether something else than the comparison of an index reads the range between where it is set and there, or in the
/// condition: that may leave out 0.
fn leaves_out(
    subject: &Subject<'_>,
    index: usize,
    node: &Node,
    comparison: usize,
    search: Search,
) -> bool {
    let Some(body) = body_at(subject.tree, index) else {
        return true;
    };
    let mut first = body.first;
    for at in body.first..body.end {
        let Some(below) = subject.tree.get(at) else {
            return true;
        };
        if at < node.second && set_by(below) == Some(search.range) {
            // (one that is set in a condition is asked for there)
            if subject.tree.is_used(at) && below.above != Some(comparison) {
                return true;
            }
            first = at;
        }
    }
    reads_between(subject, first, node.second, comparison, search.range)
}

/// Reports whether a node between two indices reads a variable that isn't the left or right side of a comparison.
fn reads_between(
    subject: &Subject<'_>,
    first: usize,
    end: usize,
    comparison: usize,
    range: Var,
) -> bool {
    for at in first..end {
        if let Some(node) = subject.tree.get(at)
            && node.kind == NodeKind::Fetch(range)
            && node.above != Some(comparison)
        {
            return true;
        }
    }
    false
}
