//! Warnings about variables: set and never read, read and never set or before they are set, and names of the file's
//! that mean another variable.

use crate::indices::{is_name, name_at};
use crate::keeping::warn_of_kept;
use crate::misnamed::{may_mean, on_used};
use crate::rewriting::Rewrite;
use crate::spelling::is_same_but_for_case;
use crate::warnings::{Meant, Said, Subject, Warnings};
use derivations::{Body, Located, Node, NodeKind, SourceTree};
use grammar::{MOST_NAMES, Var, intrinsic_named};
use tokens::{Keyword, Name, Punctuator, Token};

/// The first read and the first setting of a function's variable, by the indices of their nodes.
#[derive(Clone, Copy, Default)]
struct Use {
    read: Option<usize>,
    set: Option<usize>,
}

/// The first read and the first setting of a function's variables, by their numbers.
type Uses = [Use; MOST_NAMES];

/// Warns of the variables of all functions.
pub fn warn_of_variables(out: &mut Warnings, subject: &Subject<'_>) {
    for body in subject.tree.bodies() {
        warn_of_body(out, subject, body);
    }
    for body in subject.tree.bodies() {
        warn_of_copies(out, subject, body);
    }
    for token in subject.declarations.hiding() {
        if !is_parameter(subject.tokens, *token) {
            out.warn(
                *token,
                Said::Named(
                    " is a variable of the function alone: it hides that of the file, so leave its `int` out here",
                ),
            );
        }
    }
}

/// Reports whether the name of a token stands among a function's parameters or their types: before the function's `{`.
fn is_parameter(tokens: &[Located], token: usize) -> bool {
    for located in tokens.get(token..).unwrap_or(&[]) {
        match located.token {
            Token::Punctuator(Punctuator::OpenCurly) => return true,
            Token::Name(_)
            | Token::Keyword(Keyword::Type)
            | Token::Punctuator(
                Punctuator::Comma | Punctuator::Semicolon | Punctuator::CloseRound,
            ) => {}
            _ => return false,
        }
    }
    false
}

/// Warns of the variables of a function.
fn warn_of_body(out: &mut Warnings, subject: &Subject<'_>, body: &Body) {
    let uses = uses_of(subject.tree, body);
    for (number, own) in uses.iter().enumerate() {
        let is_parameter = number < body.parameters;
        if !is_parameter && warn_of_lower(out, subject, body, own) {
            continue;
        }
        if let Some(set) = own.set
            && !is_parameter
            && warn_of_kept(out, subject, body, number, set)
        {
            continue;
        }
        match (own.read, own.set) {
            (None, Some(set)) => {
                let token = token_of(subject.tree, set);
                let said = Said::Variable(
                    " is set and never read",
                    meant_as_set(subject, &uses, token),
                );
                out.warn(token, said);
            }
            (Some(read), None) if !is_parameter => {
                let token = token_of(subject.tree, read);
                let said = Said::Variable(
                    " is read and never set, so it is always 0",
                    meant_as_read(subject, &uses, token),
                );
                out.warn(token, said);
            }
            (Some(read), Some(set)) if !is_parameter && is_early(subject.tree, read, set) => {
                out.warn(
                    token_of(subject.tree, read),
                    Said::Named(" is still 0 here: it is set further down only, so set it above"),
                );
            }
            _ => {}
        }
    }
}

/// Warns of the variable of a function that it doesn't declare, if the file declares one of its name further down. Reports whether it warned.
fn warn_of_lower(out: &mut Warnings, subject: &Subject<'_>, body: &Body, own: &Use) -> bool {
    let Some(first) = own.read.or(own.set) else {
        return false;
    };
    let token = token_of(subject.tree, first);
    let Some(name) = name_at(subject.tokens, token) else {
        return false;
    };
    let is_apart = own.read.is_none()
        || own.set.is_none()
        || is_elsewhere(subject, token, &name, false);
    let is_lower = is_apart
        && is_declared_below(subject, token, &name)
        && !is_declared_in(subject.tokens, body, &name);
    if is_lower {
        out.warn(
            token,
            Said::Named(
                " is a variable of this function alone, and 0 at its beginning: that of the file is declared further down only, so move that above the function",
            ),
        );
    }
    is_lower
}

/// Reports whether a function declares a variable of this name.
fn is_declared_in(tokens: &[Located], body: &Body, name: &Name) -> bool {
    let mut is_declaring = false;
    for located in tokens.get(body.token..body.closing).unwrap_or(&[]) {
        match located.token {
            Token::Keyword(Keyword::Type) => is_declaring = true,
            Token::Name(declared) if is_declaring && declared == *name => return true,
            Token::Name(_) | Token::Punctuator(Punctuator::Comma) => {}
            _ => is_declaring = false,
        }
    }
    false
}

/// Warns of each assignment to a parameter that nothing reads afterwards.
fn warn_of_copies(out: &mut Warnings, subject: &Subject<'_>, body: &Body) {
    let tree = subject.tree;
    for index in body.first..body.end {
        if let Some(node) = tree.get(index)
            && let NodeKind::Store(Var::Local(number), _) = node.kind
            && usize::from(number) < body.parameters
            && !tree.is_used(index)
            && !is_read_behind(tree, body, index, number)
        {
            if subject.declarations.hides(subject.tokens, node.token) {
                out.warn(
                    node.token,
                    Said::Named(
                        " is a parameter here, and hides the variable of the file: give one of them another name",
                    ),
                );
            } else {
                out.warn(
                    node.token,
                    Said::Written(
                        "this sets a copy: what the caller has stays as it is; give the value back by `return`",
                        Rewrite::Returned(node.token, node.token.saturating_add(1)),
                        "",
                    ),
                );
            }
        }
    }
}

/// Reports whether a variable of a function may be read after the node of an index: behind it, or in a loop that has both.
fn is_read_behind(tree: &SourceTree, body: &Body, index: usize, number: u8) -> bool {
    let mut begin = index;
    for node in tree.within(index, body.end) {
        if node.kind == NodeKind::While && node.first < begin {
            begin = node.first;
        }
    }
    for (place, node) in tree.within(begin, body.end).iter().enumerate() {
        let at = begin.saturating_add(place);
        let is_below = begin == index && at <= index;
        if node.kind == NodeKind::Fetch(Var::Local(number)) && !is_below {
            return true;
        }
    }
    false
}

/// Reports whether a variable is read before it is set, by the indices of the nodes, and no loop has both.
fn is_early(tree: &SourceTree, read: usize, set: usize) -> bool {
    for node in tree.within(set, tree.all().len()) {
        if node.kind == NodeKind::While && node.first <= read {
            return false;
        }
    }
    read < set
}

/// Returns the index of the token of the node of an index.
fn token_of(tree: &SourceTree, index: usize) -> usize {
    match tree.get(index) {
        Some(node) => node.token,
        None => 0,
    }
}

/// Returns what may be meant by the variable of a name's token that is never read.
fn meant_as_set(subject: &Subject<'_>, uses: &Uses, token: usize) -> Meant {
    if is_name(subject.tokens, token, b"speed") {
        return Meant::Words("; the robot's speed is set by `drive(degree, speed)`");
    }
    meant(subject, uses, token)
}

/// Returns what may be meant by the variable of a name's token that is never set: also that of another function, by a
/// whole word.
fn meant_as_read(subject: &Subject<'_>, uses: &Uses, token: usize) -> Meant {
    match (meant(subject, uses, token), name_at(subject.tokens, token)) {
        (Meant::Nothing, Some(name)) if is_function(subject, &name) => Meant::Call,
        (Meant::Nothing, Some(name)) if is_elsewhere(subject, token, &name, true) => {
            Meant::Words("; that of another function is another one: declare it outside of both")
        }
        (Meant::Nothing, Some(_)) => Meant::Used,
        (found, _) => found,
    }
}

/// Returns what may be meant by the name of a token: another variable, a call, or a truth value of other languages.
fn meant(subject: &Subject<'_>, uses: &Uses, token: usize) -> Meant {
    let Some(name) = name_at(subject.tokens, token) else {
        return Meant::Nothing;
    };
    match near_variable(subject, uses, token, &name) {
        Some(other) => Meant::Name(other),
        None if intrinsic_named(&name).is_some() => Meant::Call,
        None if is_truth(&name) => {
            Meant::Words("; write 1 for what is true, and 0 for what is false")
        }
        None => Meant::Nothing,
    }
}

/// Reports whether a variable of the file that is declared after a token has this name.
fn is_declared_below(subject: &Subject<'_>, token: usize, name: &Name) -> bool {
    for external in subject.declarations.externals() {
        if *external > token && name_at(subject.tokens, *external) == Some(*name) {
            return true;
        }
    }
    false
}

/// Reports whether a function of the file has this name.
fn is_function(subject: &Subject<'_>, name: &Name) -> bool {
    for body in subject.tree.bodies() {
        if name_at(subject.tokens, body.token) == Some(*name) {
            return true;
        }
    }
    false
}

/// Reports whether another function sets a variable of the name of a token, or only reads it if it needn't be set.
fn is_elsewhere(subject: &Subject<'_>, token: usize, name: &Name, is_set: bool) -> bool {
    for body in subject.tree.bodies() {
        let is_here = body.token <= token && token <= body.closing;
        for node in subject.tree.within(body.first, body.end) {
            if !is_here
                && (set_by(node).is_some() || !is_set && matches!(node.kind, NodeKind::Fetch(_)))
                && name_at(subject.tokens, node.token) == Some(*name)
            {
                return true;
            }
        }
    }
    false
}

/// Reports whether a name is a truth value of other languages.
pub fn is_truth(name: &Name) -> bool {
    let bytes = name.as_bytes();
    is_same_but_for_case(bytes, b"true") || is_same_but_for_case(bytes, b"false")
}

/// Returns the index of the token of another variable's name that may be meant by the one of a token: a variable of the
/// function, or else of the file if it is declared before that token.
fn near_variable(subject: &Subject<'_>, uses: &Uses, token: usize, name: &Name) -> Option<usize> {
    for own in uses {
        if let Some(local) = own.read.or(own.set) {
            let other = token_of(subject.tree, local);
            if may_be_meant(subject.tokens, other, name) {
                return Some(other);
            }
        }
    }
    for external in subject.declarations.externals() {
        if *external < token && may_be_meant(subject.tokens, *external, name) {
            return Some(*external);
        }
    }
    None
}

/// Reports whether the token of an index is another name, which may be meant by this one.
fn may_be_meant(tokens: &[Located], index: usize, name: &Name) -> bool {
    match name_at(tokens, index) {
        Some(other) => other != *name && may_mean(name.as_bytes(), other.as_bytes()),
        None => false,
    }
}

/// Finds at which nodes the variables of a function are read and set.
fn uses_of(tree: &SourceTree, body: &Body) -> Uses {
    let mut uses = [Use::default(); MOST_NAMES];
    for index in body.first..body.end {
        if let Some(node) = tree.get(index) {
            note_use(&mut uses, index, node, tree.is_used(index));
        }
    }
    uses
}

/// Notes what the node of an index does with a variable of the function.
fn note_use(uses: &mut Uses, index: usize, node: &Node, is_used: bool) {
    let (var, is_read, is_set) = match (node.kind, set_by(node)) {
        (NodeKind::Fetch(var), _) => (var, true, false),
        (_, Some(var)) => (var, is_used, true),
        // no other node speaks of a variable
        _ => return,
    };
    let Var::Local(number) = var else {
        return;
    };
    if let Some(own) = uses.get_mut(usize::from(number)) {
        if is_read {
            own.read = own.read.or(Some(index));
        }
        if is_set {
            own.set = own.set.or(Some(index));
        }
    }
}

/// Returns the variable that a node sets, if it sets one itself.
/// It isn't inlined, since the page's module is to be small.
#[inline(never)]
pub fn set_by(node: &Node) -> Option<Var> {
    match node.kind {
        NodeKind::Store(var, _)
        | NodeKind::PrefixIncrement(var, _)
        | NodeKind::PostfixIncrement(var, _) => Some(var),
        _ => None,
    }
}
