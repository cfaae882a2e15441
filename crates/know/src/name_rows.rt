//! Names with what they are where they stand, functions and loops, as rows: found by a walk along tokens.

use crate::rows::add_range;
use derivations::{Event, Item, Located, Meaning, Role, SemanticAction, Walk};
use grammar::{Callee, Profile, Var, intrinsic_named};
use tokens::{Name, Token};
use tools::{Array, Draft, Object, Text, begin_row};

/// What a name names.
#[derive(Clone, Copy, PartialEq, Eq)]
enum Named {
    /// A function of the file.
    Function,
    /// An intrinsic function.
    Intrinsic,
    /// A variable of the file.
    External,
    /// A variable of a function.
    Local,
}

/// Adds a row for each name of tokens that fit one after the other, in their order, one for each function and one for
/// each loop. Those of a function follow its names.
pub fn add_names(text: &mut Draft, tokens: &[Located], profile: Profile) {
    let mut names = NameRows {
        text,
        tokens,
        function: 0,
        begun: 0,
    };
    let mut walk = Walk::start(tokens, profile);
    for _ in 0..u64::MAX {
        let pending = walk.derivation().front();
        let place = walk.derivation().place();
        let event = walk.step();
        if walk.is_over() {
            return;
        }
        let Some(pending) = pending else {
            return;
        };
        match pending.item {
            Item::Naming(role) => names.name(place, role, event),
            Item::Make(SemanticAction::Define) => names.end_function(pending.chosen_at, place),
            Item::Make(SemanticAction::Repeat) => names.add_loop(pending.chosen_at, place),
            _ => {}
        }
    }
}

/// What is added to, and how far the walk has come.
#[derive(Drop)]
struct NameRows<'a, 't> {
    text: &'t mut Draft,
    tokens: &'a [Located],
    /// How many functions have begun.
    function: u64,
    /// The index of the name of the last of them.
    begun: usize,
}

impl NameRows<'_, '_> {
    /// Adds the row of the name of an index.
    fn name(&mut self, index: usize, role: Role, event: Event) {
        let Some(located) = self.tokens.get(index) else {
            return;
        };
        let Token::Name(name) = located.token else {
            return;
        };
        if role == Role::Defined {
            self.function = self.function.saturating_add(1);
            self.begun = index;
        }
        if name.is_empty() {
            return;
        }
        let named = named_by(&name, role, event);
        let mut row = begin_row(self.text, "name");
        row.words("name", name.as_str());
        row.words("is", word_of(named));
        row.words("role", word_of_role(role));
        match named {
            Named::Local => row.number("function", self.function),
            Named::Function | Named::Intrinsic | Named::External => {
                row.number_or_null("function", None);
            }
        }
        add_range(&mut row, located.start(), located.end());
        row.end();
        self.text.add("\n");
    }

    /// Adds the row of the function that ends, by the indices of its braces.
    fn end_function(&mut self, open: usize, close: usize) {
        let (Some(name), Some(open), Some(close)) = (
            self.tokens.get(self.begun),
            self.tokens.get(open),
            self.tokens.get(close),
        ) else {
            return;
        };
        let Token::Name(bytes) = name.token else {
            return;
        };
        if bytes.is_empty() {
            return;
        }
        let mut row = begin_row(self.text, "function");
        row.words("name", bytes.as_str());
        row.number("function", self.function);
        add_range(&mut row, name.start(), name.end());
        row.number("open", open.start() as u64);
        row.number("close", close.end() as u64);
        row.end();
        self.text.add("\n");
    }

    /// Adds the row of the loop that ends, by the indices of its `while` and of the token behind it.
    fn add_loop(&mut self, begin: usize, behind: usize) {
        let (Some(word), Some(last)) = (
            self.tokens.get(begin),
            self.tokens.get(behind.saturating_sub(1)),
        ) else {
            return;
        };
        let mut row = begin_row(self.text, "loop");
        row.number("function", self.function);
        add_range(&mut row, word.start(), word.end());
        row.number("close", last.end() as u64);
        row.end();
        self.text.add("\n");
    }
}

/// Returns what a name names, by its role and by what the walk came upon.
fn named_by(name: &Name, role: Role, event: Event) -> Named {
    match role {
        Role::Defined | Role::Called => {
            if intrinsic_named(name).is_some() {
                Named::Intrinsic
            } else {
                Named::Function
            }
        }
        Role::External => Named::External,
        Role::Parameter | Role::Typed | Role::Local => Named::Local,
        Role::Mentioned => match event {
            Event::Named {
                meaning: Meaning::Mentions(Var::External(_)),
                ..
            } => Named::External,
            _ => Named::Local,
        },
    }
}

/// Returns the word for what a name names.
fn word_of(named: Named) -> &'static str {
    match named {
        Named::Function => "function",
        Named::Intrinsic => "intrinsic",
        Named::External => "external",
        Named::Local => "local",
    }
}

/// Returns the word for the role of a name.
fn word_of_role(role: Role) -> &'static str {
    match role {
        Role::Defined => "defined",
        Role::External | Role::Local => "declared",
        Role::Parameter => "parameter",
        Role::Typed => "typed",
        Role::Called => "called",
        Role::Mentioned => "mentioned",
    }
}
