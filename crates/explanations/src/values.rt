//! Warnings about operators and assignments that probably aren't meant as they are written.

use crate::aims::on_hit;
use crate::bounds::{greatest_of, on_negative, on_negative_rest};
use crate::chances::{BOTH_ALWAYS, BOTH_NEVER, on_both, on_chance};
use crate::indices::{is_name, token_at, touches};
use crate::meanings::Meaning;
use crate::renewals::warn_of_old_reading;
use crate::rewriting::Rewrite;
use crate::steps::{asks_for, is_degree};
use crate::warnings::{Meant, Said, Subject, Warnings};
use crate::ways::on_haste;
use derivations::{Located, Node, NodeKind};
use grammar::{Callee, Intrinsic, Op, StoreOp, Var};
use tokens::{Punctuator, Token};

/// What sine, cosine and tangent are multiplied by.
const PARTS: u32 = 100_000;

/// The most factors of a product beside one that are looked at.
const MOST_FACTORS: u8 = 6;

/// Warns of the operator of a node's index.
pub fn warn_of_operator(
    out: &mut Warnings,
    subject: &Subject<'_>,
    index: usize,
    node: &Node,
    op: Op,
) {
    let (Some((left, left_value)), Some((right, right_value))) = (
        subject.valued(node.second.saturating_sub(1)),
        subject.valued(index.saturating_sub(1)),
    ) else {
        return;
    };
    warn_of_old_reading(out, subject, index, node, op);
    if let Some(said) = on_sides(op, left, right, node.token) {
        out.warn(node.token, said);
    } else if matches!(op, Op::Equal | Op::NotEqual) && is_denied_question(subject, left, right) {
        out.warn(node.token, on_denied(node.token));
    } else if let Some(words) = on_operation(subject, op, index, node) {
        out.warn(node.token, with_sign(words, node.token));
    } else if op == Op::Remainder && is_itself(left_value, right_value) {
        out.warn(node.token, Said::Grouped);
    } else if op == Op::Remainder
        && let Some(said) = on_negative(subject, index, node, right_value)
    {
        out.warn(node.token, said);
    }
    if is_masked(subject, op, node, left, right) {
        out.warn(right.token, on_masked(node.token));
    }
    if op == Op::Multiply && !subject.constants.has(PARTS as i32) {
        warn_of_parts(out, subject.tokens, left);
        warn_of_parts(out, subject.tokens, right);
    }
}

/// Returns what is said of the operator of an index by the values of its sides, or by what they mean.
fn on_operation(subject: &Subject<'_>, op: Op, index: usize, node: &Node) -> Option<&'static str> {
    let (left_index, right_index) = (node.second.checked_sub(1)?, index.checked_sub(1)?);
    let (left, left_value) = subject.valued(left_index)?;
    let (right, right_value) = subject.valued(right_index)?;
    on_values(op, left_value, right_value)
        .or(on_parts(op, left, right, left_value, right_value))
        .or(on_bounds(op, subject.meanings.get(left_index), right_value))
        .or(on_bounds(turned(op), subject.meanings.get(right_index), left_value))
        .or(on_product(subject, op, index))
        .or(on_shot(op, left, right_value))
        .or(on_quotient(subject, op, left_index, right_value))
        .or(on_rounded(subject, op, left, right_value))
        .or(on_rounded(subject, op, right, left_value))
        .or(on_circle(subject, op, node, right_value))
        .or(on_chance(subject, op, left_index, right_value))
        .or(on_both(subject, op, left_index, right_index))
        .or(on_haste(subject, op, left_index, right_index))
        .or(on_haste(subject, op, right_index, left_index))
}

/// Returns what is said of a comparison that comes before a sign on bits of a token.
fn on_masked(token: usize) -> Said {
    Said::Written(
        "this is compared first",
        Rewrite::Masked(token),
        "(a & b) == c",
    )
}

/// Returns some words on an operator of a token, with how two comparisons are joined otherwise.
fn with_sign(words: &'static str, token: usize) -> Said {
    if words == BOTH_ALWAYS {
        Said::Written(words, Rewrite::Both(token, "&&"), "")
    } else if words == BOTH_NEVER {
        Said::Written(words, Rewrite::Both(token, "||"), "")
    } else {
        Said::Words(words)
    }
}

/// Returns what is said of an operator by what its two sides are, and by its token.
fn on_sides(op: Op, left: &Node, right: &Node, token: usize) -> Option<Said> {
    match (op, left.kind, right.kind) {
        (_, NodeKind::Binary(inner), _) if is_order(op) && is_order(inner) => Some(Said::Written(
            "this compares the answer of the comparison before it, 0 or 1",
            Rewrite::Compared(token),
            "a < b && b < c",
        )),
        (_, NodeKind::Not, _) if is_order(op) => Some(on_denied(token)),
        (Op::BitXor, _, NodeKind::Constant(2..=9)) => Some(Said::Written(
            "`^` is no power: it is the exclusive or of bits; multiply instead",
            Rewrite::Squared(token, token.saturating_add(1)),
            "a * a",
        )),
        (Op::Or, NodeKind::Binary(Op::Equal), NodeKind::Constant(1..)) => Some(Said::Written(
            "the right side is always true",
            Rewrite::Either(token),
            "a == 5 || a == 10",
        )),
        // no other operator is often meant in another way
        _ => None,
    }
}

/// Returns what is said of a comparison of a token with what a `!` answers.
fn on_denied(token: usize) -> Said {
    Said::Written(
        "this compares the answer of `!`, 0 or 1",
        Rewrite::Negated(token),
        "!(a < b)",
    )
}

/// Reports whether a `!` stands before a question that answers no truth, on the left of what is none either.
fn is_denied_question(subject: &Subject<'_>, left: &Node, right: &Node) -> bool {
    let is_question = match subject.tree.get(left.first) {
        Some(question) => matches!(
            question.kind,
            NodeKind::Call(
                Callee::Intrinsic(
                    Intrinsic::Damage | Intrinsic::LocX | Intrinsic::LocY | Intrinsic::Speed
                ),
                0
            )
        ),
        None => false,
    };
    left.kind == NodeKind::Not
        && is_question
        && matches!(right.kind, NodeKind::Fetch(_) | NodeKind::Constant(2..))
}

/// Reports whether the remainder of a number by another one is that number.
fn is_itself(left: Option<i32>, right: Option<i32>) -> bool {
    match (left, right) {
        (Some(left), Some(right)) => 0 < left && left < right,
        _ => false,
    }
}

/// Returns what is said of an operator by the values of its two sides: of a quotient that is 0 though neither is, and of a
/// result that has more than 32 bits.
fn on_values(op: Op, left: Option<i32>, right: Option<i32>) -> Option<&'static str> {
    let (left, right) = (i64::from(left?), i64::from(right?));
    let whole = match op {
        Op::Divide if left != 0 && left.unsigned_abs() < right.unsigned_abs() => {
            return Some(
                "both are whole numbers, and so is the quotient: it is 0; multiply before you divide",
            );
        }
        Op::Add => left.saturating_add(right),
        Op::Subtract => left.saturating_sub(right),
        Op::Multiply => left.saturating_mul(right),
        // no other result is surprising
        _ => return None,
    };
    i32::try_from(whole).is_err().then_some(
        "this passes the greatest number, 2147483647, and goes on with the least",
    )
}

/// Returns what is said of an operator on a sine, a cosine or a tangent and a number: of a quotient that is hardly ever
/// another number than 0, and of a comparison with a small number.
fn on_parts(
    op: Op,
    left: &Node,
    right: &Node,
    left_value: Option<i32>,
    right_value: Option<i32>,
) -> Option<&'static str> {
    let least = PARTS as i32;
    match (left_value, right_value) {
        (None, Some(value)) if is_wave(left) && op == Op::Divide && value >= least => Some(
            "this quotient is hardly ever another number than 0: multiply first, and divide the product",
        ),
        (None, Some(value)) if is_wave(left) && is_small(op, value) => Some(SMALL),
        (Some(value), None) if is_wave(right) && is_small(op, value) => Some(SMALL),
        _ => None,
    }
}

/// What is said of a sine that is compared with a small number.
const SMALL: &str = "a sine, a cosine and a tangent are in 100,000ths: 1 is written 100000";

/// Reports whether a node calls sine, cosine or tangent.
fn is_wave(node: &Node) -> bool {
    matches!(
        node.kind,
        NodeKind::Call(
            Callee::Intrinsic(Intrinsic::Sin | Intrinsic::Cos | Intrinsic::Tan),
            _
        )
    )
}

/// Reports whether an operator compares with a number that is small for 100,000ths, and isn't 0.
fn is_small(op: Op, value: i32) -> bool {
    let compares = is_order(op) || matches!(op, Op::Equal | Op::NotEqual);
    compares && matches!(value, -10..=-1 | 1..=10)
}

/// Returns what is said of a comparison of what is meant so with a number, if it has always the same answer: of a damage
/// and a speed only if that is no.
/// It isn't inlined, since the page's module is to be small.
#[inline(never)]
fn on_bounds(op: Op, meaning: Meaning, value: Option<i32>) -> Option<&'static str> {
    let (least, greatest) = meaning.bounds()?;
    let value = value?;
    let (least_holds, greatest_holds) = (holds(op, least, value)?, holds(op, greatest, value)?);
    let is_within = least <= value && value <= greatest;
    if meaning == Meaning::Range
        && matches!(value, 1..=4)
        && matches!(op, Op::Equal | Op::NotEqual)
    {
        return Some(
            "`scan` answers how many metres off a robot is, and 0 if none is there: compare with 0",
        );
    }
    if least_holds != greatest_holds || is_within && matches!(op, Op::Equal | Op::NotEqual) {
        return None;
    }
    match (meaning, least_holds) {
        (Meaning::Damage, false) => Some(
            "`damage()` is the robot's own, at least 0, and at most 99 while it lives: this is never so",
        ),
        (Meaning::Speed, false) => Some("a speed is at least 0 and at most 100: this is never so"),
        (Meaning::Coordinate, false) => Some(
            "a coordinate is at least 0 and at most 999: this is never so",
        ),
        (Meaning::Range, false) => Some(
            "a range is at least 0 and at most 1414 metres: this is never so",
        ),
        (Meaning::Coordinate, true) => Some(
            "a coordinate is at least 0 and at most 999: this is always so",
        ),
        (Meaning::Range, true) => Some(
            "a range is 0 if nobody is there, and never more than 1414 metres: this is always so",
        ),
        (Meaning::Speed, true) => Some("a speed is at least 0 and at most 100: this is always so"),
        (Meaning::Damage, true) => Some(
            "`damage()` is the robot's own, at least 0, and at most 99 while it lives: this is always so; another one's is told by nothing",
        ),
        _ => None,
    }
}

/// Returns what is said of a product that may pass the greatest number, if its left side doesn't.
fn on_product(subject: &Subject<'_>, op: Op, index: usize) -> Option<&'static str> {
    let node = subject.tree.get(index)?;
    let left = most_of(subject, node.second.checked_sub(1)?, MOST_FACTORS)?;
    let whole = most_of(subject, index, MOST_FACTORS)?;
    let greatest = i64::from(i32::MAX);
    (op == Op::Multiply
        && subject.constants.get(index).is_none()
        && left <= greatest
        && whole > greatest).then_some(
        "this product may pass the greatest number, 2147483647: divide before it is multiplied further",
    )
}

/// Returns the most that the product of an index may be, if that is known, and more than any number in it.
fn most_of(subject: &Subject<'_>, index: usize, depth: u8) -> Option<i64> {
    if let Some(value) = subject.constants.get(index) {
        return Some(i64::from(value).saturating_abs());
    }
    let node = subject.tree.get(index)?;
    match (node.kind, subject.meanings.get(index)) {
        (NodeKind::Binary(Op::Multiply), _) if depth > 0 => {
            let left = most_of(subject, node.second.checked_sub(1)?, depth - 1)?;
            let right = most_of(subject, index.checked_sub(1)?, depth - 1)?;
            Some(left.saturating_mul(right))
        }
        (_, Meaning::Parts) => Some(i64::from(PARTS)),
        (_, meaning) => Some(i64::from(meaning.bounds()?.1)),
    }
}

/// Returns what is said of a comparison of what `cannon` answers with a number, if it never holds.
fn on_shot(op: Op, left: &Node, value: Option<i32>) -> Option<&'static str> {
    let is_shot = asks_for(left, Intrinsic::Cannon);
    let never = !holds(op, 0, value?)? && !holds(op, 1, value?)?;
    (is_shot && never).then_some(
        "`cannon` answers 1 if it fired, and else 0: this never holds; a hit isn't answered",
    )
}

/// Returns what is said of a quotient of the node of an index by a number, if it is always 0, or hardly ever another number.
fn on_quotient(
    subject: &Subject<'_>,
    op: Op,
    index: usize,
    value: Option<i32>,
) -> Option<&'static str> {
    let divisor = i64::from(value?);
    if op != Op::Divide || divisor < i64::from(LEAST_ROUNDED) {
        return None;
    }
    let greatest = greatest_of(subject, index)?;
    if greatest < divisor {
        Some("this quotient is always 0: multiply first, and divide the product")
    } else if greatest == divisor {
        Some(
            "this quotient is 0 but for the greatest number, since it is rounded down: multiply first, and divide the product",
        )
    } else {
        None
    }
}

/// Returns what is said of a product of a quotient and a number, if the quotient is 2 at most.
fn on_rounded(
    subject: &Subject<'_>,
    op: Op,
    quotient: &Node,
    value: Option<i32>,
) -> Option<&'static str> {
    if op != Op::Multiply || quotient.kind != NodeKind::Binary(Op::Divide) {
        return None;
    }
    let divisor = subject.constants.get(quotient.third.checked_sub(1)?)?;
    let greatest = greatest_of(subject, quotient.second.checked_sub(1)?)?;
    let divisor = i64::from(divisor);
    (value? >= LEAST_ROUNDED
        && divisor > i64::from(LEAST_ROUNDED)
        && greatest > divisor
        && greatest < divisor.saturating_mul(3)).then_some(
        "this quotient is rounded down first, to 0, 1 or 2: multiply first, and divide the product",
    )
}

/// A number by which a rounded quotient surely isn't meant to be multiplied, or something divided.
const LEAST_ROUNDED: i32 = 10;

/// Returns the comparison by which the right side of another one compares with the left one.
fn turned(op: Op) -> Op {
    match op {
        Op::Less => Op::Greater,
        Op::LessOrEqual => Op::GreaterOrEqual,
        Op::Greater => Op::Less,
        Op::GreaterOrEqual => Op::LessOrEqual,
        _ => op,
    }
}

/// Reports whether a comparison holds of two numbers, if the operator is one. It isn't inlined, since the page's module is to
/// be small.
#[inline(never)]
pub fn holds(op: Op, left: i32, right: i32) -> Option<bool> {
    match op {
        Op::Less => Some(left < right),
        Op::LessOrEqual => Some(left <= right),
        Op::Greater => Some(left > right),
        Op::GreaterOrEqual => Some(left >= right),
        Op::Equal => Some(left == right),
        Op::NotEqual => Some(left != right),
        _ => None,
    }
}

/// Returns what is said of a remainder of a degree by nearly a whole circle, and of a comparison with a little more than one.
fn on_circle(
    subject: &Subject<'_>,
    op: Op,
    node: &Node,
    value: Option<i32>,
) -> Option<&'static str> {
    let is_compared = is_order(op) || matches!(op, Op::Equal | Op::NotEqual);
    let is_near = match value? {
        300..=359 | 361 => op == Op::Remainder,
        362..=400 => is_compared || op == Op::Remainder,
        _ => false,
    };
    if !is_near {
        return None;
    }
    for below in subject.tree.within(node.first, node.second) {
        if let NodeKind::Fetch(var) = below.kind
            && is_degree(subject.tree, node.first, var)
        {
            return Some("a whole circle is 360 degrees");
        }
    }
    None
}

/// Reports whether the right side of an operator on bits is a comparison for equality without brackets, and the left
/// side none.
fn is_masked(subject: &Subject<'_>, op: Op, node: &Node, left: &Node, right: &Node) -> bool {
    let is_bare = match subject.tree.get(right.first) {
        Some(first) => first.token == node.token.saturating_add(1),
        None => false,
    };
    is_bare
        && matches!(op, Op::BitAnd | Op::BitOr | Op::BitXor)
        && matches!(right.kind, NodeKind::Binary(Op::Equal | Op::NotEqual))
        && !matches!(
            left.kind,
            NodeKind::Binary(_) | NodeKind::Negate | NodeKind::Not | NodeKind::Complement
        )
}

/// Reports whether an operator compares by order.
fn is_order(op: Op) -> bool {
    matches!(
        op,
        Op::Less | Op::LessOrEqual | Op::Greater | Op::GreaterOrEqual
    )
}

/// Warns of a factor that is a sine, a cosine or a tangent, if nothing divides.
fn warn_of_parts(out: &mut Warnings, tokens: &[Located], factor: &Node) {
    if let NodeKind::Call(
        Callee::Intrinsic(Intrinsic::Sin | Intrinsic::Cos | Intrinsic::Tan),
        _,
    ) = factor.kind
        && !may_have(tokens, PARTS)
    {
        out.warn(
            factor.token,
            Said::Named(" answers in 100,000ths: divide the product by 100000"),
        );
    }
}

/// Reports whether a number is among the tokens of a source, or may be after the last one, which is a lexical
/// error. Behind a fault there are tokens, but no nodes.
fn may_have(tokens: &[Located], number: u32) -> bool {
    let wanted = Token::Constant(number);
    for located in tokens {
        if located.token == wanted || matches!(located.token, Token::Fault(_)) {
            return true;
        }
    }
    false
}

/// Returns what is said of an assignment that sets back what a step changed.
fn on_old_value(step: StoreOp, token: usize) -> Said {
    let sign = if step == StoreOp::Add { "++" } else { "--" };
    Said::Written(
        "this sets the old value back, so it stands alone",
        Rewrite::Stepped(token, sign),
        sign,
    )
}

/// Warns of an assignment with `=-` or `=!`, and of one that sets back what `++` or `--` changed.
pub fn warn_of_store(
    out: &mut Warnings,
    subject: &Subject<'_>,
    index: usize,
    node: &Node,
    var: Var,
    op: StoreOp,
) {
    if let Some(right) = subject.tree.get(index.saturating_sub(1))
        && let NodeKind::PostfixIncrement(changed, step) = right.kind
        && changed == var
        && op == StoreOp::Set
    {
        out.warn(node.token, on_old_value(step, node.token));
    }
    if op == StoreOp::Set
        && let Some(right) = subject.tree.get(index.saturating_sub(1))
        && right.kind == NodeKind::Fetch(var)
    {
        out.tell(
            node.token,
            "this sets the variable to itself: nothing changes",
        );
    }
    if op == StoreOp::Remainder
        && let Some(words) = on_negative_rest(subject, index, node, var)
    {
        out.tell(node.token, words);
    }
    warn_of_off_course(out, subject, index, node, op);
    if op == StoreOp::Set && sets_answer(subject, index) {
        out.warn(node.token, on_set_answer(node.token));
    }
    if let Some(words) = on_hit(subject, index, node, op) {
        out.tell(node.token, words);
    }
    warn_of_turned(out, subject.tokens, node.token.saturating_add(1));
}

/// Warns of an assignment of an index of a degree to a variable that is named by another direction.
fn warn_of_off_course(
    out: &mut Warnings,
    subject: &Subject<'_>,
    index: usize,
    node: &Node,
    op: StoreOp,
) {
    if op == StoreOp::Set
        && let Some(value) = subject.constants.get(index.saturating_sub(1))
        && is_off_course(subject.tokens, node.token, value)
    {
        out.warn(
            node.token,
            Said::Variable(" is another degree", Meant::Used),
        );
    }
}

/// Warns of a `=-` or a `=!` whose `=` is the token of an index.
fn warn_of_turned(out: &mut Warnings, tokens: &[Located], equals: usize) {
    for (sign, words, meant) in &TURNED {
        if is_turned(tokens, equals, *sign) {
            let next = equals.saturating_add(2);
            out.warn(
                equals,
                Said::Written(words, Rewrite::Joined(equals, next, meant), ""),
            );
        }
    }
}

/// Signs that stand behind a `=` with nothing between, what is said, and what is meant.
static TURNED: [(Punctuator, &str, &str); 2] = [
    (
        Punctuator::Minus,
        "`=-` sets the negative; perhaps `-=` is meant",
        "-=",
    ),
    (
        Punctuator::Not,
        "`=!` sets 1 or 0; perhaps `!=` is meant",
        "!=",
    ),
];

/// Returns what is said of an assignment of a token that sets the answer of a comparison.
fn on_set_answer(token: usize) -> Said {
    Said::Written(
        "this sets the answer of the comparison, 0 or 1",
        Rewrite::Kept(token),
        "(r = scan(d, 10)) > 40",
    )
}

/// Reports whether the assignment of an index sets the answer of a comparison of what a call answers, and is itself a part
/// of an expression.
fn sets_answer(subject: &Subject<'_>, index: usize) -> bool {
    let tree = subject.tree;
    let Some(comparison) = tree.get(index.saturating_sub(1)) else {
        return false;
    };
    let is_called = match tree.get(comparison.second.saturating_sub(1)) {
        Some(left) => matches!(left.kind, NodeKind::Call(..)),
        None => false,
    };
    match comparison.kind {
        NodeKind::Binary(op) => {
            is_called
                && (is_order(op) || matches!(op, Op::Equal | Op::NotEqual))
                && tree.is_used(index)
        }
        _ => false,
    }
}

/// The directions, and their degrees.
static COURSES: [(&str, i32); 4] = [("east", 0), ("north", 90), ("west", 180), ("south", 270)];

/// Reports whether the name of a token is a direction, and a value the degree of another one.
fn is_off_course(tokens: &[Located], token: usize, value: i32) -> bool {
    for (course, degree) in &COURSES {
        if is_name(tokens, token, course.as_bytes()) {
            return value % 90 == 0 && value.saturating_sub(*degree) % 360 != 0;
        }
    }
    false
}

/// Reports whether a `=` is at an index and this punctuator right behind it, with a blank behind both.
/// It isn't inlined, since the page's module is to be small.
#[inline(never)]
pub fn is_turned(tokens: &[Located], equals: usize, punctuator: Punctuator) -> bool {
    let next = equals.saturating_add(1);
    token_at(tokens, equals) == Token::Punctuator(Punctuator::Equals)
        && token_at(tokens, next) == Token::Punctuator(punctuator)
        && touches(tokens, next)
        && !touches(tokens, next.saturating_add(1))
}
