//! The leftmost derivation of a source, step by step.

ghost use Rattle.std.specs.Prelude.{◌≡◌, ◌≢◌, ◌+◌, ◌-◌, ◌++◌, ◌∷◌, [], ◌<◌, ◌≤◌, ◌^◌, ℕ, drop, option_copied, option_map, length, map, slice_get, take, false, true, if◌then◌else◌};
ghost use Rattle.grammar.specs.Grammar as table;
ghost use Rattle.grammar.specs.Grammar.{is_lexical_error};
ghost use Rattle.derivations.specs.Positions.{Mark, chosen_items, front_mark, mark, marks_after, nowhere, origin_at, passed_after, passes_with, position_from};
ghost use Rattle.derivations.specs.Scheme.{blank_emitted, known_items};
ghost use Rattle.derivations.specs.Stacks.{IsMove, IsOverfull, Moves, items_of, mark_of, marks_of, most_pending, position_of};
ghost use Rattle.derivations.specs.Steps.{decided_of, end_of, front_of, is_wanted, outcome_of, token_at};
ghost use Rattle.derivations.specs.Table.{item_of};

use crate::addresses::SourcePosition;
use crate::choices::{choice, enters};
use crate::emissions::{Emission, Origin};
use crate::locations::Located;
use crate::scheme::emitted;
use crate::symbols::{Item, Production, Symbol};
use arrayvec::ArrayVec;
use tokens::Token;

/// The most items that are pending. A source has fewer up to its first fault: each of its levels,
/// `grammar::MOST_NESTED` at most, has at most 30, three for each level of operators.
const MOST_PENDING: usize = 2048;

/// How a step ended.
#[derive(Clone, Copy, PartialEq, Eq)]
pub enum StepEnd {
    /// The derivation is one step further.
    Stepped,
    /// The next token doesn't fit. The derivation stays.
    Misfit,
    /// Nothing is left to match. The derivation stays.
    Done,
    /// There is no room for what is still to match: more levels are open than a source may have. The derivation is of
    /// no more use.
    Full,
}

/// An item that is still to be matched or done, and the token at which its production was chosen.
#[derive(Clone, Copy, Default)]
pub struct Pending {
    /// The item.
    pub item: Item,
    /// The index of the token that was next as the production was chosen.
    pub chosen_at: usize,
    // the positions of that token, and of the one after it
    chosen: SourcePosition,
    after_chosen: SourcePosition,
}

/// The pushdown automaton of a derivation, which is shown two tokens at each step: what is still to match, how many
/// tokens it has passed, and how many levels are open.
#[derive(Drop)]
pub(crate) struct Automaton {
    stack: ArrayVec<Pending, MOST_PENDING>,
    place: usize,
    passed: SourcePosition,
    levels: usize,
}

impl Automaton {
    /// Starts before the first token of a file.
    pub(crate) fn start() -> Automaton
        ensures items { items_of result.stack.items ≡ table.Part table.Source ∷ [] }
        ensures marks { marks_of result.stack.items ≡ mark nowhere nowhere ∷ [] }
        ensures place { result.place ≡ 0 }
        ensures passed { result.passed ≡ nowhere }
    {
        Automaton::over(&[Pending {
            item: Item::Part(Symbol::Source),
            chosen_at: 0,
            chosen: SourcePosition::default(),
            after_chosen: SourcePosition::default(),
        }])
    }

    /// Starts at a point at which these items are still to match, the next last.
    fn over(items: &[Pending]) -> Automaton
        ensures stack { length items.now ≤ MOST_PENDING → result.stack.items ≡ items.now }
        ensures place { result.place ≡ 0 }
        ensures passed { result.passed ≡ nowhere }
    {
        let mut stack = ArrayVec::new();
        let _ = stack.try_extend_from_slice(items);
        Automaton {
            stack,
            place: 0,
            passed: SourcePosition::default(),
            levels: 0,
        }
    }

    /// Returns how many tokens it has passed.
    pub(crate) fn place(&self) -> usize
        ensures { result ≡ self.now.place }
    {
        self.place
    }

    /// Returns the item in front, with the token at which its production was chosen.
    fn front(&self) -> Option<&Pending>
        ensures { option_copied result ≡ front_of self.now.stack.items }
    {
        self.stack.as_slice().last()
    }

    /// Does one step, by the next token and the one after it.
    pub(crate) fn step(&mut self, next: &Located, after: &Located) -> StepEnd
        ensures ends { result ≢ StepEnd.Full
            → result ≡ outcome_of (front_of self.old.stack.items) next.now.token after.now.token }
        ensures moves { result ≡ StepEnd.Stepped → Moves self.old self.new next.now after.now }
        ensures full { result ≡ StepEnd.Full → IsOverfull self.old next.now after.now }
    {
        let Some(pending) = self.front() else {
            return StepEnd::Done;
        };
        let item = pending.item;
        match decided(item, &next.token, &after.token) {
            Move::Misfit => StepEnd::Misfit,
            Move::Replace(production) => {
                self.enter(item, next, after);
                self.replace(&production, place_of(next), place_of(after))
            }
            Move::Pass(tokens) => {
                self.leave(item);
                self.note(tokens, next);
                self.pass(tokens)
            }
        }
    }

    /// Counts the level that the production of an item opens, if it does.
    fn enter(&mut self, item: Item, next: &Located, after: &Located)
        ensures stack { self.new.stack.items ≡ self.old.stack.items }
        ensures place { self.new.place ≡ self.old.place }
        ensures passed { self.new.passed ≡ self.old.passed }
    {
        if let Item::Part(symbol) = item {
            let opens = enters(symbol, &next.token, &after.token);
            self.levels = self.levels.saturating_add(usize::from(opens));
        }
    }

    /// Counts the level that an item closes, if it does.
    fn leave(&mut self, item: Item)
        ensures stack { self.new.stack.items ≡ self.old.stack.items }
        ensures place { self.new.place ≡ self.old.place }
        ensures passed { self.new.passed ≡ self.old.passed }
    {
        if item == Item::Close {
            self.levels = self.levels.saturating_sub(1);
        }
    }

    /// Notes where the token is that is passed, if one is.
    fn note(&mut self, tokens: usize, next: &Located)
        ensures stack { self.new.stack.items ≡ self.old.stack.items }
        ensures place { self.new.place ≡ self.old.place }
        ensures some { 0 < tokens → self.new.passed ≡ position_of next.now }
        ensures none { tokens ≡ 0 → self.new.passed ≡ self.old.passed }
    {
        if tokens > 0 {
            self.passed = place_of(next);
        }
    }

    /// Goes past the item in front, and this many tokens.
    fn pass(&mut self, tokens: usize) -> StepEnd
        ensures end { result ≡ StepEnd.Stepped }
        ensures stack { self.new.stack.items ≡ take (length self.old.stack.items - 1) self.old.stack.items }
        ensures place { self.old.place + tokens < 2 ^ 64 → self.new.place ≡ self.old.place + tokens }
        ensures passed { self.new.passed ≡ self.old.passed }
    {
        let _ = self.stack.pop();
        self.place = self.place.saturating_add(tokens);
        StepEnd::Stepped
    }

    /// Replaces the item in front by its production, which is chosen by the tokens at these positions.
    fn replace(
        &mut self,
        production: &Production,
        chosen: SourcePosition,
        after_chosen: SourcePosition,
    ) -> StepEnd
        ensures end { result ≢ StepEnd.Full → result ≡ StepEnd.Stepped }
        ensures full { result ≡ StepEnd.Full
            → most_pending < length (production.now ++ drop 1 (items_of self.old.stack.items)) }
        ensures items { result ≡ StepEnd.Stepped
            → items_of self.new.stack.items ≡ production.now ++ drop 1 (items_of self.old.stack.items) }
        ensures marks { result ≡ StepEnd.Stepped → marks_of self.new.stack.items
            ≡ map (λ item. mark chosen after_chosen) production.now ++ drop 1 (marks_of self.old.stack.items) }
        ensures place { self.new.place ≡ self.old.place }
        ensures passed { self.new.passed ≡ self.old.passed }
    {
        self.take_front();
        let items = production.items();
        for i in 0..items.len() {
            let Some(item) = from_end(items, i) else {
                return StepEnd::Full;
            };
            let pending = Pending {
                item,
                chosen_at: self.place,
                chosen,
                after_chosen,
            };
            if !self.push(pending) {
                return StepEnd::Full;
            }
        }
        StepEnd::Stepped
    }

    /// Takes the item in front away.
    fn take_front(&mut self)
        ensures stack { self.new.stack.items ≡ take (length self.old.stack.items - 1) self.old.stack.items }
        ensures place { self.new.place ≡ self.old.place }
        ensures passed { self.new.passed ≡ self.old.passed }
    {
        let _ = self.stack.pop();
    }

    /// Puts an item in front. Answers whether there was room.
    fn push(&mut self, pending: Pending) -> bool
        ensures stack { result ≡ true → self.new.stack.items ≡ self.old.stack.items ++ pending ∷ [] }
        ensures full { result ≡ false → length self.old.stack.items ≡ most_pending }
        ensures place { self.new.place ≡ self.old.place }
        ensures passed { self.new.passed ≡ self.old.passed }
    {
        self.stack.try_push(pending).is_ok()
    }

    /// Returns what the next step emits, by the translation scheme.
    pub(crate) fn emission(&self, next: &Token) -> Emission
        ensures actions { result.actions.now ≡ blank_emitted (items_of self.now.stack.items) next.now }
        ensures origin { is_lexical_error next.now ≡ false
            → result.origin ≡ origin_at (items_of self.now.stack.items) }
    {
        match self.front() {
            Some(pending) => emitted(pending.item, next, before_last(self.stack.as_slice())),
            None => Emission::of(&[], Origin::Next),
        }
    }

    /// Returns the position of the token that what the next step emits comes from.
    pub(crate) fn origin(&self, origin: Origin, next: &Located) -> SourcePosition
        ensures { result ≡ position_from origin (front_mark (marks_of self.now.stack.items)) self.now.passed
            (position_of next.now) }
    {
        match origin {
            Origin::Chosen => self.chosen(),
            Origin::AfterChosen => self.after_chosen(),
            Origin::Passed => self.passed,
            Origin::Next => place_of(next),
        }
    }

    /// Returns the position of the token at which the production of the item in front was chosen.
    fn chosen(&self) -> SourcePosition
        ensures { result ≡ (front_mark (marks_of self.now.stack.items)).chosen }
    {
        match self.front() {
            Some(pending) => pending.chosen,
            None => SourcePosition { line: 0, column: 0 },
        }
    }

    /// Returns the position of the token after that one.
    fn after_chosen(&self) -> SourcePosition
        ensures { result ≡ (front_mark (marks_of self.now.stack.items)).after_chosen }
    {
        match self.front() {
            Some(pending) => pending.after_chosen,
            None => SourcePosition { line: 0, column: 0 },
        }
    }
}

/// Returns the item of this index from the end.
fn from_end(items: &[Item], i: usize) -> Option<Item>
    requires { i < length items.now }
    ensures { result ≡ slice_get items.now (length items.now - (i + 1)) }
{
    items.get(items.len() - (i + 1)).copied()
}

/// Returns a stack without its last item, the one in front.
fn before_last(stack: &[Pending]) -> &[Pending]
    ensures { result.now ≡ take (length stack.now - 1) stack.now }
{
    &stack[..stack.len().saturating_sub(1)]
}

/// Returns the two items in front of a stack, the next first.
pub(crate) fn two_in_front(stack: &[Pending]) -> [Option<Item>; 2]
    ensures { known_items result ≡ take 2 (items_of stack.now) }
{
    [last_item(stack), last_item(before_last(stack))]
}

/// Returns the last item of a stack.
fn last_item(stack: &[Pending]) -> Option<Item>
    ensures { result ≡ option_map (λ pending. pending.item) (front_of stack.now) }
{
    match stack.last() {
        Some(pending) => Some(pending.item),
        None => None,
    }
}

/// Returns the position at which a token begins.
pub(crate) fn place_of(token: &Located) -> SourcePosition
    ensures { result ≡ position_of token.now }
{
    SourcePosition {
        line: token.line,
        column: token.column,
    }
}

/// A derivation: how far it has come in the tokens of a source, what is still to match, and how many levels are open.
#[derive(Drop)]
pub struct Derivation<'a> {
    tokens: &'a [Located],
    automaton: Automaton,
}

impl<'a> Derivation<'a> {
    /// Starts the derivation of these tokens, of which the last is the end or a lexical error.
    pub fn start(tokens: &'a [Located]) -> Derivation<'a> {
        Derivation {
            tokens,
            automaton: Automaton::start(),
        }
    }

    /// Derives tokens until the one of an index is next for the first time, or one doesn't fit, or the derivation is
    /// done.
    pub fn reached(tokens: &'a [Located], index: usize) -> Derivation<'a> {
        let mut derivation = Derivation::start(tokens);
        derivation.run_to(index);
        derivation
    }

    /// Steps on until the token of an index is next, or one doesn't fit, or the derivation is done.
    fn run_to(&mut self, index: usize) {
        for _ in 0..u64::MAX {
            if self.place() >= index || self.step() != StepEnd::Stepped {
                return;
            }
        }
    }

    /// Reports whether all of these tokens would fit here instead of those that are left.
    pub(crate) fn matches_all(&self, tokens: &[Located]) -> bool {
        let mut derivation = Derivation {
            tokens,
            automaton: Automaton::over(self.stack()),
        };
        derivation.run_to(tokens.len());
        derivation.place() >= tokens.len()
    }

    /// Returns the index of the next token.
    pub fn place(&self) -> usize {
        self.automaton.place
    }

    /// Returns the next token: after the last one, the end.
    pub fn next(&self) -> Token
        ensures { result ≡ token_at self.now.tokens.now self.now.automaton.place }
    {
        match self.next_located() {
            Some(located) => located.token,
            None => Token::End,
        }
    }

    /// Returns the next token where it is, if one is left.
    pub(crate) fn next_located(&self) -> Option<&'a Located>
        ensures { option_copied result ≡ slice_get self.now.tokens.now self.now.automaton.place }
    {
        self.tokens.get(self.automaton.place)
    }

    /// Returns the item in front, and the token at which its production was chosen.
    pub fn front(&self) -> Option<Pending>
        ensures { result ≡ front_of self.now.automaton.stack.items }
    {
        self.automaton.front().copied()
    }

    /// Returns the item in front where it is.
    pub(crate) fn front_pending(&self) -> Option<&Pending>
        ensures { option_copied result ≡ front_of self.now.automaton.stack.items }
    {
        self.automaton.front()
    }

    /// Returns what is still to match or to do, the next last.
    pub fn stack(&self) -> &[Pending] {
        self.automaton.stack.as_slice()
    }

    /// Returns how many levels are open.
    pub fn levels(&self) -> usize {
        self.automaton.levels
    }

    /// Returns the production of the symbol in front, if there is one.
    pub fn production(&self) -> Option<Production> {
        let after = located_at(self.tokens, self.place().saturating_add(1));
        match self.front()?.item {
            Item::Part(symbol) => choice(symbol, &self.next(), &after.token),
            _ => None,
        }
    }

    /// Does one step.
    pub fn step(&mut self) -> StepEnd
        ensures { result ≢ StepEnd.Full → result ≡ outcome_of (front_of self.old.automaton.stack.items)
            (token_at self.old.tokens.now self.old.automaton.place)
            (token_at self.old.tokens.now (self.old.automaton.place + 1)) }
    {
        let behind = self.automaton.place.saturating_add(1);
        match (self.next_located(), self.tokens.get(behind)) {
            (Some(next), Some(after)) => self.automaton.step(next, after),
            _ => self.step_at_end(),
        }
    }

    /// Does one step where fewer than two tokens are left. Apart from `step`, which copies no tokens.
    fn step_at_end(&mut self) -> StepEnd
        ensures { result ≢ StepEnd.Full → result ≡ outcome_of (front_of self.old.automaton.stack.items)
            (token_at self.old.tokens.now self.old.automaton.place)
            (token_at self.old.tokens.now (self.old.automaton.place + 1)) }
    {
        let next = located_at(self.tokens, self.automaton.place);
        let after = located_at(self.tokens, self.automaton.place.saturating_add(1));
        self.automaton.step(&next, &after)
    }

    /// Returns what the next step emits, by the translation scheme.
    pub fn emission(&self) -> Emission {
        match self.next_located() {
            Some(located) => self.automaton.emission(&located.token),
            None => self.automaton.emission(&Token::End),
        }
    }
}

/// Returns the token of an index, with its position: after the last one, the end.
fn located_at(tokens: &[Located], index: usize) -> Located
    ensures { result.token ≡ token_at tokens.now index }
{
    match tokens.get(index) {
        Some(located) => *located,
        None => Located::default(),
    }
}

/// Reports whether a token is the one that an item wants.
fn fits(item: Item, next: &Token) -> bool
    ensures { result ≡ is_wanted (item_of item) next.now }
{
    match (item, next) {
        (Item::Exactly(wanted), Token::Punctuator(punctuator)) => *punctuator == wanted,
        (Item::AKeyword(wanted), Token::Keyword(word)) => *word == wanted,
        (Item::Naming(_), Token::Name(_)) => true,
        (Item::Number, Token::Constant(_)) => true,
        (Item::Ending, Token::End) => true,
        _ => false,
    }
}

/// What a step does with the item in front.
enum Move {
    /// It goes past the item, and this many tokens.
    Pass(usize),
    /// It replaces the item by this production.
    Replace(Production),
    /// The next token doesn't fit.
    Misfit,
}

/// Returns what a step does with an item, by the next token and the one after it.
fn decided(item: Item, next: &Token, after: &Token) -> Move
    ensures end { end_of result ≡ decided_of (item_of item) next.now after.now }
    ensures does { IsMove (item_of item) next.now after.now result }
{
    match item {
        _ if matches!(*next, Token::Fault(_)) => Move::Misfit,
        Item::Part(symbol) => match choice(symbol, next, after) {
            Some(production) => Move::Replace(production),
            None => Move::Misfit,
        },
        Item::Make(_) | Item::Close => Move::Pass(0),
        item if fits(item, next) => Move::Pass(1),
        _ => Move::Misfit,
    }
}
