//! Warnings about calls: their arguments, what they answer, and those on the right of `&&` and `||`.

use crate::aims::{on_answer, warn_of_aim, warn_of_place};
use crate::heads::line_from;
use crate::indices::{is_name, token_at, touches};
use crate::meanings::Meaning;
use crate::rewriting::Rewrite;
use crate::statements::{acts, is_asked};
use crate::steps::{body_at, is_degree, leaves_gaps, only_value};
use crate::warnings::{Said, Subject, Warnings};
use derivations::{Body, Located, Node, NodeKind, SourceTree};
use grammar::{Callee, Intrinsic, Op, StoreOp, Var};
use tokens::{Punctuator, Token};

/// How far a shot flies at most, in metres.
pub const MOST_RANGE: i32 = 700;

/// The greatest speed that `drive` takes, in percent.
const MOST_SPEED: i32 = 100;

/// The greatest resolution of a scan, in degrees.
const MOST_RESOLUTION: i32 = 10;

/// A number that is great enough to be one of 100,000ths.
const LEAST_PARTS: i32 = 7000;

/// The greatest number that is taken for a power of a shot, and not for its range.
const MOST_POWER: i32 = 5;

/// The degrees of a whole circle.
const CIRCLE: i32 = 360;

/// The degrees of half of a quarter of it: multiples are usual degrees.
const QUARTER: i32 = 45;

/// Warns of the call of a node's index, which has this many arguments.
pub fn warn_of_call(
    out: &mut Warnings,
    subject: &Subject<'_>,
    index: usize,
    node: &Node,
    callee: Callee,
    arguments: usize,
) {
    let tree = subject.tree;
    if let Some(wanted) = parameters(tree, callee)
        && wanted != arguments
    {
        warn_of_count(out, subject, node.token, wanted, arguments);
    } else if let Callee::Intrinsic(intrinsic) = callee {
        warn_of_named_arguments(out, subject, index, node);
        warn_of_pair(out, subject, index, node, intrinsic);
        warn_of_look(out, subject, index, node, intrinsic);
        warn_of_aim(out, subject, index, node, intrinsic);
    }
    if is_name(subject.tokens, node.token, b"main") {
        out.tell(
            node.token,
            "a robot begins in `main` by itself: what is repeated for ever stands in `while (1) { .. }`",
        );
    }
    if !subject.profile.short_circuit()
        && matters(tree, callee)
        && let Some(words) = on_right_side(tree, index)
    {
        out.warn(node.token, Said::Named(words));
    }
    if let Callee::Function(number) = callee
        && tree.is_used(index)
        && let Some(words) = on_returns(subject, number)
    {
        out.warn(node.token, Said::Named(words));
    }
}

/// Warns of a call of a token with fewer arguments than are wanted, or with more.
fn warn_of_count(
    out: &mut Warnings,
    subject: &Subject<'_>,
    token: usize,
    wanted: usize,
    given: usize,
) {
    if given > wanted && has_thousands(subject.tokens, token) {
        out.tell(
            token,
            "a number has no `,` between thousands: write `100000`, as a `,` parts two arguments",
        );
    } else {
        out.warn(token, Said::Arguments(wanted, given));
    }
}

/// Reports whether a number with a `,` between thousands stands in the line of the token of an index, behind it.
fn has_thousands(tokens: &[Located], index: usize) -> bool {
    for (number, located) in line_from(tokens, index).iter().enumerate() {
        let comma = index.saturating_add(number).saturating_add(1);
        let group = comma.saturating_add(1);
        let is_parted = matches!(located.token, Token::Constant(_))
            && token_at(tokens, comma) == Token::Punctuator(Punctuator::Comma)
            && matches!(token_at(tokens, group), Token::Constant(..=999));
        if is_parted && touches(tokens, comma) && touches(tokens, group) {
            return true;
        }
    }
    false
}

/// Warns of each argument of the call of an index that sets a variable which nothing reads, as if it were a name.
fn warn_of_named_arguments(out: &mut Warnings, subject: &Subject<'_>, index: usize, node: &Node) {
    for at in node.first..index {
        if let Some(argument) = subject.tree.get(at)
            && let NodeKind::Store(var, StoreOp::Set) = argument.kind
            && argument.above == Some(index)
            && !is_read(subject.tree, at, var)
        {
            out.warn(
                argument.token,
                Said::Written(
                    "this sets a variable, and nothing reads it: arguments go by their order, and have no names",
                    Rewrite::Unassigned(node.token),
                    "",
                ),
            );
        }
    }
}

/// Reports whether the function that the node of an index is in reads a variable.
fn is_read(tree: &SourceTree, index: usize, var: Var) -> bool {
    let Some(body) = body_at(tree, index) else {
        return true;
    };
    for node in tree.within(body.first, body.end) {
        if node.kind == NodeKind::Fetch(var) {
            return true;
        }
    }
    false
}

/// Returns how many parameters a function has. One that isn't defined before the source's fault has none that are known.
fn parameters(tree: &SourceTree, callee: Callee) -> Option<usize> {
    match callee {
        Callee::Intrinsic(intrinsic) => Some(usize::from(intrinsic.argument_count())),
        Callee::Function(number) => Some(body_of(tree, number)?.parameters),
    }
}

/// Returns the function of this number.
pub fn body_of(tree: &SourceTree, number: u8) -> Option<&Body> {
    for body in tree.bodies() {
        if body.number == number {
            return Some(body);
        }
    }
    None
}

/// Returns what is said of a function of this number whose value is used, if it has no `return`, or one without a value.
fn on_returns(subject: &Subject<'_>, number: u8) -> Option<&'static str> {
    let body = body_of(subject.tree, number)?;
    let mut found = Some(" has no `return`, so its value is always 0: end it by `return a;`");
    for node in subject.tree.within(body.first, body.end) {
        if node.kind == NodeKind::Return {
            let semicolon = Token::Punctuator(Punctuator::Semicolon);
            if token_at(subject.tokens, node.token.saturating_add(1)) == semicolon {
                return Some(" has a `return` without a value, which gives 0");
            }
            found = None;
        }
    }
    found
}

/// Reports whether it matters that a call is made: it acts, looks for other robots, or is one of the file's that does more
/// than answer. The robot's own state and numbers may be asked for at any time.
fn matters(tree: &SourceTree, callee: Callee) -> bool {
    match callee {
        Callee::Function(number) => !is_asked(tree, number),
        Callee::Intrinsic(intrinsic) => intrinsic == Intrinsic::Scan || acts(intrinsic),
    }
}

/// Returns what is said of the node of an index that is on the right of `&&` or `||`, both of whose sides are always
/// evaluated.
fn on_right_side(tree: &SourceTree, index: usize) -> Option<&'static str> {
    for node in tree.within(index, tree.all().len()) {
        match node.kind {
            NodeKind::Binary(Op::And) if node.second <= index => {
                return Some(
                    " is called whatever the left side of `&&` is, in this profile: to call it only then, write an `if`",
                );
            }
            NodeKind::Binary(Op::Or) if node.second <= index => {
                return Some(
                    " is called whatever the left side of `||` is, in this profile: to call it only else, write an `if`",
                );
            }
            // the sides of every other operator are meant to be evaluated
            _ => {}
        }
    }
    None
}

/// Returns what is said of the order of the arguments of a function that takes two, its greatest second argument, and
/// what is said of one that is greater.
fn pair_of(intrinsic: Intrinsic) -> Option<(&'static str, i32, &'static str)> {
    match intrinsic {
        Intrinsic::Cannon => Some((
            "the order is wrong: the degree comes first, as in `cannon(degree, range)`",
            MOST_RANGE,
            "a shot flies at most 700 metres",
        )),
        Intrinsic::Drive => Some((
            "the order is wrong: the degree comes first, as in `drive(degree, speed)`",
            MOST_SPEED,
            "a speed is at most 100",
        )),
        Intrinsic::Scan => Some((
            "the order is wrong: the degree comes first, as in `scan(degree, resolution)`",
            MOST_RESOLUTION,
            "a resolution is at most 10 degrees",
        )),
        // no other function takes two
        _ => None,
    }
}

/// Warns of the two arguments of the call of a node's index: in the wrong order, or a second one that is too great.
fn warn_of_pair(
    out: &mut Warnings,
    subject: &Subject<'_>,
    index: usize,
    node: &Node,
    intrinsic: Intrinsic,
) {
    let last = index.saturating_sub(1);
    let before = subject.tree.first_of(last).saturating_sub(1);
    let Some((order, most, beyond)) = pair_of(intrinsic) else {
        return;
    };
    let (first, second) = (only_value(subject, before), only_value(subject, last));
    let is_swapped = are_swapped(subject, index, before) || may_be_swapped(most, first, second);
    if is_swapped {
        out.warn(
            node.token,
            Said::Written(order, Rewrite::Exchanged(node.token), ""),
        );
    } else if let Some(second) = second
        && second > most
    {
        out.warn(node.token, on_great(intrinsic, node.token, beyond));
    } else if matches!(second, Some(..0)) {
        out.warn(node.token, on_negative(intrinsic, node.token));
    } else if intrinsic == Intrinsic::Cannon && matches!(second, Some(1..=MOST_POWER)) {
        out.tell(
            node.token,
            "a range is in metres: this shot bursts at the robot itself, and hurts it; write `cannon(degree, range)`",
        );
    } else {
        warn_of_meanings(out, subject, index, node, intrinsic);
    }
}

/// Reports whether the names of two arguments of a call of an index say that they are in the wrong order, or what they mean; the first
/// one is the node of another index.
fn are_swapped(subject: &Subject<'_>, index: usize, before: usize) -> bool {
    let (Some(left), Some(right)) = (
        subject.tree.get(before),
        subject.tree.get(index.saturating_sub(1)),
    ) else {
        return false;
    };
    is_named(subject.tokens, left, &OTHERS) && is_named(subject.tokens, right, &DEGREES)
        || on_degree(subject.meanings.get(before)).is_some()
            && left.kind != right.kind
            && is_looked_at(subject, index, right)
        || matches!(left.kind, NodeKind::Constant(1..)) && is_looked_at(subject, index, right)
}

/// Returns what is said of a second argument that is too great, by the token of its call.
fn on_great(intrinsic: Intrinsic, token: usize, words: &'static str) -> Said {
    if intrinsic == Intrinsic::Scan {
        Said::Written(words, Rewrite::Limited(token, "10"), "")
    } else {
        Said::Words(words)
    }
}

/// Returns what is said of a second argument below 0, by the token of its call.
fn on_negative(intrinsic: Intrinsic, token: usize) -> Said {
    if intrinsic == Intrinsic::Drive {
        Said::Written(
            "a speed is never negative: to drive backwards turn the degree by 180",
            Rewrite::Backwards(token),
            "",
        )
    } else {
        Said::Words("this argument is at least 0")
    }
}

/// Reports whether an argument of a call of an index is a variable that is a degree elsewhere in its function.
fn is_looked_at(subject: &Subject<'_>, index: usize, argument: &Node) -> bool {
    match argument.kind {
        NodeKind::Fetch(var) => is_degree(subject.tree, index, var),
        _ => false,
    }
}

/// Warns of the arguments of a call that takes a degree and another value, by what they mean.
fn warn_of_meanings(
    out: &mut Warnings,
    subject: &Subject<'_>,
    index: usize,
    node: &Node,
    intrinsic: Intrinsic,
) {
    let last = index.saturating_sub(1);
    let first = subject.tree.outermost(node.first, index);
    if let (Some(left), Some(right)) = (subject.tree.get(first), subject.tree.get(last))
        && matches!(left.kind, NodeKind::Fetch(_))
        && left.kind == right.kind
    {
        out.tell(right.token, on_same(intrinsic));
    }
    if warn_of_place(out, subject, index, node, intrinsic) {
        return;
    }
    if let Some(words) = on_degree(subject.meanings.get(first))
        && let Some(argument) = subject.tree.get(first)
    {
        out.warn(
            argument.token,
            on_answer(subject, index, node.token, first, words),
        );
    }
    if let Some(words) = on_other(intrinsic, subject.meanings.get(last))
        && let Some(argument) = subject.tree.get(last)
    {
        out.tell(argument.token, words);
    }
}

/// Returns what is said of a degree that is the other argument, too.
fn on_same(intrinsic: Intrinsic) -> &'static str {
    match intrinsic {
        Intrinsic::Cannon => "this is the degree, and no range",
        Intrinsic::Drive => "this is the degree, and no speed",
        _ => "this is the degree, and no resolution",
    }
}

/// Returns what is said of a value that is no degree where one is wanted.
fn on_degree(meaning: Meaning) -> Option<&'static str> {
    match meaning {
        Meaning::Range => Some(
            "this is a range, as `scan` answers it, and no degree: give the degree of that look",
        ),
        Meaning::Farther => Some("this comes from a range, and is no degree"),
        Meaning::Parts => Some("this is in 100,000ths, and no degree"),
        Meaning::Speed => Some("this is a speed, and no degree"),
        Meaning::Damage => Some("this is a damage, and no degree"),
        Meaning::Coordinate => Some("this is a coordinate, and no degree"),
        Meaning::Distance | Meaning::Reckoned => {
            Some("this comes from a coordinate, and is no degree")
        }
        // no other value surely is another one than a degree
        _ => None,
    }
}

/// Returns what is said of a value that surely isn't meant as the other argument of a call.
fn on_other(intrinsic: Intrinsic, meaning: Meaning) -> Option<&'static str> {
    match (intrinsic, meaning) {
        (Intrinsic::Cannon, Meaning::Parts) => Some("this is in 100,000ths, and no range"),
        (Intrinsic::Drive, Meaning::Parts) => Some("this is in 100,000ths, and no speed"),
        (Intrinsic::Scan, Meaning::Parts) => Some("this is in 100,000ths, and no resolution"),
        (Intrinsic::Cannon, Meaning::Speed) => Some("this is a speed, and no range"),
        (Intrinsic::Cannon, Meaning::Damage) => Some("this is a damage, and no range"),
        (Intrinsic::Drive, Meaning::Coordinate) => Some("this is a coordinate, and no speed"),
        (Intrinsic::Drive, Meaning::Distance) => {
            Some("this comes from a coordinate, and is no speed")
        }
        (Intrinsic::Scan, Meaning::Range) => Some("this is a range, and no resolution"),
        (Intrinsic::Scan, Meaning::Speed) => Some("this is a speed, and no resolution"),
        (Intrinsic::Scan, Meaning::Damage) => Some("this is a damage, and no resolution"),
        (Intrinsic::Scan, Meaning::Coordinate) => Some("this is a coordinate, and no resolution"),
        (Intrinsic::Scan, Meaning::Distance) => {
            Some("this comes from a coordinate, and is no resolution")
        }
        _ => None,
    }
}

/// Warns of gaps between the looks of a scan, and of a quotient that `atan` takes.
fn warn_of_look(
    out: &mut Warnings,
    subject: &Subject<'_>,
    index: usize,
    node: &Node,
    intrinsic: Intrinsic,
) {
    let (tree, constants) = (subject.tree, subject.constants);
    if intrinsic == Intrinsic::Scan && leaves_gaps(tree, constants, index, node, MOST_RESOLUTION) {
        out.tell(
            node.token,
            "there are gaps between these looks: the degree goes on by more than twice the resolution, so take smaller steps",
        );
    }
    let last = index.saturating_sub(1);
    if intrinsic == Intrinsic::Atan
        && (is_bare_quotient(subject, index) || matches!(constants.get(last), Some(1..=99)))
    {
        out.warn(
            node.token,
            Said::Written(
                "`atan` takes 100,000ths",
                Rewrite::Multiplied(node.token),
                "atan(100000 * y / x)",
            ),
        );
    }
    if let Some(words) = on_angle(subject, index, node, intrinsic) {
        out.tell(node.token, words);
    }
    if matches!(intrinsic, Intrinsic::Sin | Intrinsic::Cos | Intrinsic::Tan)
        && let Some(words) = on_degree(subject.meanings.get(last))
        && let Some(argument) = tree.get(last)
    {
        out.tell(argument.token, words);
    }
}

/// Returns what is said of a random number below 1, of a look to a whole circle, and of a factor by which degrees become radians.
fn on_angle(
    subject: &Subject<'_>,
    index: usize,
    node: &Node,
    intrinsic: Intrinsic,
) -> Option<&'static str> {
    let first = subject.tree.outermost(node.first, index);
    match intrinsic {
        Intrinsic::Rand if matches!(subject.constants.get(first), Some(..=1)) => Some(
            "this is always 0: `rand(n)` is one of 0 to n - 1, so a degree is `rand(360)`",
        ),
        Intrinsic::Scan if subject.constants.get(first) == Some(CIRCLE) => Some(
            "360 degrees are 0: this looks to the east alone, by the resolution to both sides; to look round write `angle += 20` in a loop",
        ),
        Intrinsic::Sin | Intrinsic::Cos | Intrinsic::Tan if has_pi(subject, node.first, index) => {
            Some("this takes degrees, and no radians: leave the factor out")
        }
        _ => None,
    }
}

/// Reports whether some node between two indices is a number with the digits of pi.
fn has_pi(subject: &Subject<'_>, first: usize, end: usize) -> bool {
    for at in first..end {
        if matches!(
            subject.constants.get(at),
            Some(314 | 3141 | 3142 | 31415 | 31416 | 314_159)
        ) {
            return true;
        }
    }
    false
}

/// Reports whether the argument of a call of an index is a quotient of which nothing is multiplied, and which has no great
/// number.
fn is_bare_quotient(subject: &Subject<'_>, index: usize) -> bool {
    let Some((node, None)) = subject.valued(index.saturating_sub(1)) else {
        return false;
    };
    if node.kind != NodeKind::Binary(Op::Divide) {
        return false;
    }
    for below in node.first..node.second {
        let Some((part, value)) = subject.valued(below) else {
            return false;
        };
        let is_great = match value {
            Some(number) => number > LEAST_PARTS,
            None => false,
        };
        if part.kind == NodeKind::Binary(Op::Multiply) || is_great {
            return false;
        }
    }
    is_place(subject, node.first, node.second)
}

/// Reports whether some of the nodes from one index to another one comes from a coordinate.
fn is_place(subject: &Subject<'_>, first: usize, end: usize) -> bool {
    for index in first..end {
        if matches!(
            subject.meanings.get(index),
            Meaning::Coordinate | Meaning::Distance
        ) {
            return true;
        }
    }
    false
}

/// Reports whether two arguments fit better the other way round, by the greatest second one.
fn may_be_swapped(most: i32, first: Option<i32>, second: Option<i32>) -> bool {
    match (first, second) {
        (Some(first), Some(second)) if most >= CIRCLE => {
            first >= CIRCLE && first <= most && second < CIRCLE
        }
        // a speed or a resolution that is too great: the first is a usual degree, and the second one isn't
        (Some(first), Some(second))
            if first % QUARTER == 0 && (second % QUARTER != 0 || second >= CIRCLE) => { false }
        // (no resolution is 0)
        (Some(0), Some(_)) if most == MOST_RESOLUTION => false,
        (Some(first), Some(second)) => first <= most && second > most,
        _ => false,
    }
}

/// Names that say a degree.
pub static DEGREES: [&str; 7] = [
    "angle",
    "degree",
    "degrees",
    "deg",
    "dir",
    "direction",
    "heading",
];

/// Names that say the other argument.
pub static OTHERS: [&str; 6] = ["range", "distance", "dist", "speed", "resolution", "res"];

/// Reports whether a node is a variable with one of these names.
fn is_named(tokens: &[Located], node: &Node, names: &[&str]) -> bool {
    for name in names {
        if is_name(tokens, node.token, name.as_bytes()) {
            return matches!(node.kind, NodeKind::Fetch(_));
        }
    }
    false
}
