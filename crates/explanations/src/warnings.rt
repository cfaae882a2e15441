//! The warnings about a source that compiles, or about what stands before the fault of one that doesn't.

use crate::aims::{add_thrown, add_turned};
use crate::branches::warn_of_branch;
use crate::calls::warn_of_call;
use crate::comments::{add_swallowing, warn_of_comments};
use crate::constants::Constants;
use crate::declarations::Declarations;
use crate::flow::{warn_of_main, warn_of_recursion, warn_of_uncalled};
use crate::heads::behind_brackets;
use crate::indices::{is_name, name_at, token_at};
use crate::meanings::Meanings;
use crate::misnamed::on_used;
use crate::notes::Note;
use crate::pieces::{add_piece, is_mark};
use crate::reach::Reach;
use crate::rewriting::{Rewrite, add_written};
use crate::rows::warn_of_row;
use crate::searches::{Search, declared};
use crate::statements::warn_of_statement;
use crate::values::{warn_of_operator, warn_of_store};
use crate::variables::{is_truth, warn_of_variables};
use arrayvec::ArrayVec;
use derivations::{Located, Node, NodeKind, SourceTree};
use grammar::{Diagnostic, Profile, intrinsic_named};
use tokens::{Keyword, Punctuator, Token};

/// The most warnings of a source: those that are found after this many are left out.
const MOST_WARNINGS: usize = 1000;

/// A source, and what is known of it up to its fault if it has one.
#[derive(Clone, Copy)]
pub struct Subject<'a> {
    /// Its tokens.
    pub tokens: &'a [Located],
    /// The language profile.
    pub profile: Profile,
    /// Its tree.
    pub tree: &'a SourceTree,
    /// The values of the tree's nodes.
    pub constants: &'a Constants,
    /// What the tree's nodes mean.
    pub meanings: &'a Meanings,
    /// What of the tree is never reached.
    pub reach: &'a Reach,
    /// Its declared variables.
    pub declarations: &'a Declarations,
}

impl<'a> Subject<'a> {
    /// Returns the node of an index, with its value if that is known.
    /// It isn't inlined, since the page's module is to be small.
    #[inline(never)]
    pub fn valued(&self, index: usize) -> Option<(&'a Node, Option<i32>)> {
        Some((self.tree.get(index)?, self.constants.get(index)))
    }
}

/// What a warning says.
#[derive(Clone, Copy)]
pub enum Said {
    /// These words.
    Words(&'static str),
    /// The name that it is about, and then these words.
    Named(&'static str),
    /// That a variable is as these words say, and what may be meant.
    Variable(&'static str, Meant),
    /// How many arguments a function takes, and how many it is given.
    Arguments(usize, usize),
    /// That the comment that begins on this line goes further than was meant.
    Swallowing(u32),
    /// That the variable of this name's token never changes in a loop.
    Unchanged(usize),
    /// That the remainder is that of the number before it alone, and what is meant.
    Grouped,
    /// That the degree of a shot has changed since the look, at the token of an index.
    Turned(usize),
    /// That the range is thrown away that the scan of a token answers.
    Thrown(usize),
    /// These words, how it is written, and an example of that.
    Written(&'static str, Rewrite, &'static str),
}

/// What may be meant by the name of a variable.
#[derive(Clone, Copy)]
pub enum Meant {
    /// Nothing that is known.
    Nothing,
    /// The name that the token of this index is.
    Name(usize),
    /// A call of the robot's own function of this name.
    Call,
    /// What is said of the name itself, if beginners use it.
    Used,
    /// What these words say.
    Words(&'static str),
}

/// A warning: the index of the token that it is about, and what it says.
#[derive(Clone, Copy)]
pub struct Warning {
    token: usize,
    order: usize,
    said: Said,
}

impl Default for Warning {
    fn default() -> Warning {
        Warning {
            token: 0,
            order: 0,
            said: Said::Words(""),
        }
    }
}

impl Warning {
    /// Returns the warning as a line, with the position of its token, which is one of these: the source's.
    pub fn note(&self, tokens: &[Located]) -> Note {
        let mut note = Note::new();
        if let Some(located) = tokens.get(self.token) {
            note.position(located.line, located.column);
        }
        note.add("warning: ");
        if matches!(
            self.said,
            Said::Named(_) | Said::Variable(..) | Said::Arguments(..)
        ) {
            add_name(&mut note, tokens, self.token);
        }
        match self.said {
            Said::Words(words) | Said::Named(words) => note.add(words),
            Said::Variable(words, meant) => {
                note.add(words);
                self.add_meant(&mut note, tokens, meant);
            }
            Said::Arguments(wanted, given) => {
                add_arguments(&mut note, tokens, self.token, wanted, given);
            }
            Said::Written(words, rewrite, example) => {
                note.add(words);
                add_written(&mut note, &[], tokens, rewrite, example);
            }
            Said::Swallowing(line) => add_swallowing(&mut note, line),
            Said::Unchanged(name) => add_unchanged(&mut note, tokens, name),
            Said::Turned(token) => add_turned(&mut note, tokens, token),
            Said::Thrown(scan) => add_thrown(&mut note, tokens, self.token, scan),
            Said::Grouped => add_grouped(&mut note, tokens, self.token),
        }
        note.push('\n');
        note
    }

    /// Adds what may be meant.
    fn add_meant(&self, note: &mut Note, tokens: &[Located], meant: Meant) {
        match meant {
            Meant::Nothing => {}
            Meant::Name(token) => {
                note.add("; perhaps ");
                add_name(note, tokens, token);
                note.add(" is meant");
            }
            Meant::Call => {
                note.add("; perhaps `");
                if let Some(name) = name_at(tokens, self.token) {
                    note.add(name.as_str());
                }
                note.add("()` is meant");
            }
            Meant::Used => add_used(note, tokens, self.token),
            Meant::Words(words) => note.add(words),
        }
    }
}

/// Adds what is said of the name of a token, if beginners use it.
fn add_used(note: &mut Note, tokens: &[Located], token: usize) {
    if let Some(name) = name_at(tokens, token)
        && let Some(words) = on_used(&name)
    {
        note.add("; ");
        note.add(words);
    }
}

/// Adds the name that the token of an index is.
fn add_name(note: &mut Note, tokens: &[Located], token: usize) {
    if let Some(name) = name_at(tokens, token) {
        note.quote(name.as_str());
    }
}

/// Adds that the variable of a name's token never changes in a loop.
fn add_unchanged(note: &mut Note, tokens: &[Located], token: usize) {
    note.add("the condition of this loop can't change, and it never ends if it begins: ");
    add_name(note, tokens, token);
    note.add(" never changes in it");
    if let Some(name) = name_at(tokens, token)
        && !is_truth(&name)
    {
        note.add("; write `");
        let mut own = Note::new();
        if add_asked(&mut own, tokens, token).is_some() {
            note.add(own.as_str());
        } else {
            note.add(name.as_str());
            note.add(" += 1");
        }
        note.add("` there");
    }
}

/// Adds the last assignment before a token by which the variable of its name is set to what an intrinsic function answers.
fn add_asked(note: &mut Note, tokens: &[Located], token: usize) -> Option<()> {
    let name = name_at(tokens, token)?;
    for back in 1..token {
        let at = token.checked_sub(back)?;
        let call = at.saturating_add(2);
        if name_at(tokens, at) == Some(name)
            && is_mark(tokens, at.saturating_add(1), Punctuator::Equals)
        {
            intrinsic_named(&name_at(tokens, call)?)?;
            return add_piece(note, tokens, at, behind_brackets(tokens, call)?);
        }
    }
    None
}

/// Adds that the remainder of a `%`, the token of an index, is that of the number before it alone, and what is meant.
fn add_grouped(note: &mut Note, tokens: &[Located], percent: usize) {
    note.add("`%` comes before `+`, so this remainder is the number before it: write `(");
    let first = percent.saturating_sub(3);
    match (
        name_at(tokens, first),
        token_at(tokens, percent.saturating_sub(2)),
        token_at(tokens, percent.saturating_sub(1)),
        token_at(tokens, percent.saturating_add(1)),
    ) {
        (
            Some(name),
            Token::Punctuator(Punctuator::Plus),
            Token::Constant(more),
            Token::Constant(whole),
        ) => {
            note.add(name.as_str());
            note.count(" + ", u64::from(more), ")");
            note.count(" % ", u64::from(whole), "`");
        }
        _ => note.add("a + b) % c`"),
    }
}

/// What is said of arguments that are dropped: how the function is asked for what was meant, or that it speaks of the robot alone.
static DROPPED: [(&[u8], &str); 6] = [
    (b"rand", "; one of a to b is `a + rand(b - a + 1)`"),
    (b"atan", "; it takes a quotient: `atan(100000 * y / x)`"),
    (b"damage", ", as it tells the robot's own damage"),
    (
        b"speed",
        ", as it tells the robot's own speed, and sets none",
    ),
    (b"loc_x", ", as it tells where the robot itself is"),
    (b"loc_y", ", as it tells where the robot itself is"),
];

/// Adds how many arguments a function takes, and how many it is given.
fn add_arguments(note: &mut Note, tokens: &[Located], call: usize, wanted: usize, given: usize) {
    match wanted {
        0 => note.add(" takes no arguments"),
        1 => note.add(" takes 1 argument"),
        _ => note.count(" takes ", wanted as u64, " arguments"),
    }
    note.count(", and is given ", given as u64, "");
    if given > wanted {
        note.add(": the others are dropped");
        for (name, words) in &DROPPED {
            if is_name(tokens, call, name) {
                return note.add(words);
            }
        }
    } else if is_name(tokens, call, b"rand") {
        note.add(": it is 0 then, and so this is always 0");
    } else {
        note.add(": those that lack are 0");
    }
    if wanted > 0 {
        add_written(note, &[], tokens, Rewrite::Filled(call, wanted, given), "");
    }
}

/// The warnings about a source.
#[derive(Drop)]
pub struct Warnings {
    list: ArrayVec<Warning, MOST_WARNINGS>,
    /// The index of the token before which those are that they are about.
    end: usize,
}

impl Warnings {
    /// Returns them, in the order of the source.
    pub fn list(&self) -> &[Warning] {
        self.list.as_slice()
    }

    /// Adds a warning, unless its token is behind those that warnings are about. Those about a token are in the order in
    /// which they are found. It isn't inlined, since the page's module is to be small.
    #[inline(never)]
    pub(crate) fn warn(&mut self, token: usize, said: Said) {
        if token >= self.end {
            return;
        }
        let found = self.list.len();
        let order = token.saturating_mul(MOST_WARNINGS).saturating_add(found);
        let _ = self.list.try_push(Warning { token, order, said });
    }

    /// Adds a warning with these words.
    pub(crate) fn tell(&mut self, token: usize, words: &'static str) {
        self.warn(token, Said::Words(words));
    }

    /// Warns of the nodes of a source, as long as more warnings are taken.
    fn warn_of_nodes(&mut self, subject: &Subject<'_>) {
        for (index, node) in subject.tree.all().iter().enumerate() {
            if self.list.is_full() {
                return;
            }
            self.warn_of_node(subject, index, node);
        }
    }

    /// Warns of each `else` whose branch is a `;` alone.
    fn warn_of_empty_branches(&mut self, tokens: &[Located]) {
        for (index, located) in tokens.iter().enumerate() {
            let next = index.saturating_add(1);
            let is_ended = token_at(tokens, next) == Token::Punctuator(Punctuator::Semicolon);
            if located.token == Token::Keyword(Keyword::Else) && is_ended {
                self.tell(
                    next,
                    "the `else` ends with this `;`, and what follows is always done: leave the `;` out",
                );
            }
        }
    }

    /// Warns of the node of an index.
    fn warn_of_node(&mut self, subject: &Subject<'_>, index: usize, node: &Node) {
        match node.kind {
            NodeKind::Call(callee, arguments) => {
                warn_of_call(self, subject, index, node, callee, arguments);
            }
            NodeKind::Binary(op) => warn_of_operator(self, subject, index, node, op),
            NodeKind::Store(var, op) => warn_of_store(self, subject, index, node, var, op),
            NodeKind::Evaluate => {
                warn_of_statement(self, subject, index, node);
                warn_of_row(self, subject, index, node);
            }
            _ => {}
        }
        if subject.reach.is_unreached(index) {
            self.tell(
                node.token,
                "this is never reached: what stands before it returns, or loops forever",
            );
        }
        if matches!(node.kind, NodeKind::If | NodeKind::IfElse | NodeKind::While) {
            warn_of_branch(self, subject, index, node);
        }
    }
}

/// Finds the warnings about a source that compiles by this profile; the tokens are the source's. Those after the first
/// thousand that are found are left out.
pub fn warnings_of(source: &[u8], tokens: &[Located], profile: Profile) -> Warnings {
    let declarations = declared(tokens, profile);
    warnings_up_to(source, tokens, profile, &declarations, tokens.len())
}

/// Finds the warnings about what stands before the fault of a source, which `compile` found by the same profile; the
/// tokens are the source's. Those that go by a whole function are about functions that end before the fault. They are at
/// most a thousand, as those of `warnings_of`.
pub fn warnings_before(
    source: &[u8],
    tokens: &[Located],
    profile: Profile,
    fault: &Diagnostic,
) -> Warnings {
    let mut search = Search::of(tokens, profile);
    let end = search.find(fault);
    warnings_up_to(source, tokens, profile, search.declarations(), end)
}

/// Finds the warnings about the tokens of a source before the one of an index, which is that of its fault if it has one, by
/// the variables that it declares up to there.
/// It isn't inlined, since the page's module is to be small.
#[inline(never)]
pub fn warnings_up_to(
    source: &[u8],
    tokens: &[Located],
    profile: Profile,
    declarations: &Declarations,
    end: usize,
) -> Warnings {
    let tree = SourceTree::of(tokens, profile);
    let constants = Constants::of(&tree);
    let subject = Subject {
        tokens,
        profile,
        tree: &tree,
        constants: &constants,
        meanings: &Meanings::of(&tree, &constants),
        reach: &Reach::of(&tree, &constants),
        declarations,
    };
    let mut warnings = Warnings {
        list: ArrayVec::new(),
        end,
    };
    warn_of_variables(&mut warnings, &subject);
    warnings.warn_of_nodes(&subject);
    warnings.warn_of_empty_branches(tokens);
    warn_of_comments(&mut warnings, source, tokens);
    warn_of_recursion(&mut warnings, &subject);
    if end == tokens.len() {
        warn_of_uncalled(&mut warnings, &subject);
    }
    warn_of_main(&mut warnings, &subject);
    let list = warnings.list.as_mut_slice();
    list.sort_unstable_by_key(|warning| warning.order);
    warnings
}
