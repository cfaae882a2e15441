//! What functions and turns of loops take, summed up along the ways through a source, in memory of fixed size.
//!
//! What is added up is the caller's. The rules are those of `cycles`, which goes over trees, and so asks for memory. No
//! contract says so: tests compare what is found with what `cycles` says, and with the instructions of listings.

use crate::addresses::SourcePosition;
use crate::locations::Located;
use crate::steps::place_of;
use crate::symbols::SemanticAction;
use crate::walks::{Event, Meaning, Walk};
use arrayvec::ArrayVec;
use grammar::{Callee, Intrinsic, MOST_NAMES, MOST_NESTED, Op, Profile};
use tokens::{Keyword, Token};

/// The most loops of a source that compiles: each has at least four instructions.
const MOST_LOOPS: usize = 1000;

/// The most that is open at once: a level has at most ten left sides, a test, a call and two bodies.
const MOST_OPEN: usize = 16 * MOST_NESTED as usize;

/// What is added up along the ways through a piece of a program.
pub trait Sum: Copy + PartialEq {
    /// Makes the sum of this number of cycles that ask nothing.
    fn cycles(number: u32) -> Self;

    /// Makes the sum of the cycle that asks this function.
    fn asking(asked: Intrinsic) -> Self;

    /// Makes the sum of a function of which nothing is known.
    fn unknown() -> Self;

    /// Returns the sum of these ways, and after each of them one of the next ones.
    fn then(self, next: Self) -> Self;

    /// Returns the sum of these ways and the others.
    fn or(self, other: Self) -> Self;

    /// Returns the sum of any number of these ways, one after the other.
    fn any_number(self) -> Self;
}

/// A loop of a source.
#[derive(Clone, Copy)]
pub struct Loop<S> {
    /// Where its word stands.
    pub position: SourcePosition,
    /// The sum of a turn, from its test to where the loop begins again; none if it never does.
    pub turn: Option<S>,
}

impl<S> Default for Loop<S> {
    fn default() -> Loop<S> {
        Loop {
            position: SourcePosition::default(),
            turn: None,
        }
    }
}

/// The sums of statements up to each of their ends. An end that is never reached has none.
#[derive(Clone, Copy)]
struct Ends<S> {
    through: Option<S>,
    returns: Option<S>,
}

impl<S: Sum> Ends<S> {
    /// Makes the ends of what is always passed through.
    fn through(sum: S) -> Ends<S> {
        Ends {
            through: Some(sum),
            returns: None,
        }
    }

    /// Makes the ends of a `return`.
    fn returning(sum: S) -> Ends<S> {
        Ends {
            through: None,
            returns: Some(sum),
        }
    }

    /// Makes the ends of a loop: any number of turns, then its test, and what is behind it or returns inside of it.
    fn of_loop(turn: Option<S>, test: S, inside: Ends<S>) -> Ends<S> {
        let turns = match turn {
            Some(turn) => turn.any_number(),
            None => S::cycles(0),
        };
        let leaving = Ends {
            through: Some(S::cycles(0)),
            returns: inside.returns,
        };
        leaving.after(turns.then(test))
    }

    /// Returns these ends after a sum.
    fn after(self, first: S) -> Ends<S> {
        Ends::through(first).followed(self)
    }

    /// Returns these ends, and where they are passed through, the next ones.
    fn followed(self, next: Ends<S>) -> Ends<S> {
        Ends {
            through: behind(self.through, next.through),
            returns: either(self.returns, behind(self.through, next.returns)),
        }
    }

    /// Returns these ends and the others.
    fn or(self, other: Ends<S>) -> Ends<S> {
        Ends {
            through: either(self.through, other.through),
            returns: either(self.returns, other.returns),
        }
    }
}

/// Returns the sum up to an end, and from there to the next one, if both are reached.
fn behind<S: Sum>(first: Option<S>, next: Option<S>) -> Option<S> {
    match (first, next) {
        (Some(first), Some(next)) => Some(first.then(next)),
        _ => None,
    }
}

/// Returns the sum up to one end or the other.
fn either<S: Sum>(one: Option<S>, other: Option<S>) -> Option<S> {
    match (one, other) {
        (Some(one), Some(other)) => Some(one.or(other)),
        (Some(one), None) => Some(one),
        (None, other) => other,
    }
}

/// What is open in a function while its source is gone through.
#[derive(Clone, Copy)]
enum Open<S> {
    /// A value, with its sum.
    Value(S),
    /// A call, with the sum of its arguments so far.
    Call(Callee, S),
    /// A body, with the ends of its statements so far, and the index of its loop if it is one.
    Body(Ends<S>, usize),
}

impl<S: Sum> Default for Open<S> {
    fn default() -> Open<S> {
        Open::Value(S::cycles(0))
    }
}

/// The sums of a source that compiles: of its functions, and of the turns of its loops.
#[derive(Drop)]
pub struct Sums<'a, S> {
    tokens: &'a [Located],
    profile: Profile,
    /// The sums of functions by their numbers, from the call after its arguments to its value, as known before.
    known: [S; MOST_NAMES],
    /// Those that are found by them.
    found: [S; MOST_NAMES],
    /// How many functions there are.
    functions: usize,
    /// The number of the function that was begun last.
    number: usize,
    loops: ArrayVec<Loop<S>, MOST_LOOPS>,
    open: ArrayVec<Open<S>, MOST_OPEN>,
}

impl<'a, S: Sum> Sums<'a, S> {
    /// Sums up a source.
    ///
    /// In each pass over it, one more function may call another. Where a function calls itself, nothing more is found.
    pub fn of(tokens: &'a [Located], profile: Profile) -> Sums<'a, S> {
        let mut sums = Sums {
            tokens,
            profile,
            known: [S::unknown(); MOST_NAMES],
            found: [S::unknown(); MOST_NAMES],
            functions: 0,
            number: 0,
            loops: ArrayVec::new(),
            open: ArrayVec::new(),
        };
        sums.pass();
        for _ in 0..sums.functions {
            if sums.found == sums.known {
                break;
            }
            sums.pass();
        }
        sums
    }

    /// Returns the loops, in the order of the source.
    pub fn loops(&self) -> &[Loop<S>] {
        self.loops.as_slice()
    }

    /// Goes through the source by what was found before.
    fn pass(&mut self) {
        self.known = self.found;
        self.functions = 0;
        self.loops.clear();
        let mut walk = Walk::start(self.tokens, self.profile);
        for _ in 0..u64::MAX {
            match walk.step() {
                Event::Passed => {}
                Event::Named { meaning, .. } => self.name(meaning),
                Event::Number { .. } => self.value(1),
                Event::Made {
                    action,
                    chosen_at,
                    ..
                } => self.make(action, chosen_at),
                Event::Refused { .. } | Event::Done => break,
            }
        }
    }

    /// Takes a name: a call or a function that it begins. No other takes cycles itself.
    fn name(&mut self, meaning: Meaning) {
        match meaning {
            Meaning::Calls(callee) => self.open(Open::Call(callee, S::cycles(0))),
            Meaning::Begins(number) => {
                self.number = usize::from(number);
                self.functions = self.functions.saturating_add(1);
            }
            _ => {}
        }
    }

    /// Takes a tree that is made.
    fn make(&mut self, action: SemanticAction, chosen_at: usize) {
        match action {
            SemanticAction::Fetch | SemanticAction::Zero => self.value(1),
            SemanticAction::Store(_) => self.lengthen(0, 1),
            // the constant of `0 - e` stands first, those of `e == 0` and `e ^ -1` behind
            SemanticAction::Negate => self.lengthen(1, 1),
            SemanticAction::Not | SemanticAction::Complement => self.lengthen(0, 2),
            SemanticAction::PrefixIncrement(_) => self.value(2),
            SemanticAction::PostfixIncrement(_) => self.value(4),
            SemanticAction::Operate(op) => self.operate(op),
            SemanticAction::Pass => self.pass_argument(),
            SemanticAction::Invoke => self.invoke(),
            SemanticAction::Empty => self.begin(chosen_at),
            SemanticAction::Evaluate => {
                let taken = self.taken();
                self.state(Ends::through(taken));
            }
            SemanticAction::GiveBack => {
                let taken = self.taken();
                self.state(Ends::returning(taken));
            }
            SemanticAction::Decide => self.decide(),
            SemanticAction::DecideElse => self.decide_else(),
            SemanticAction::Repeat => self.repeat(),
            SemanticAction::Define => self.define(),
        }
    }

    /// Opens something.
    fn open(&mut self, open: Open<S>) {
        let _ = self.open.try_push(open);
    }

    /// Opens a value that takes this number of cycles.
    fn value(&mut self, cycles: u32) {
        self.open(Open::Value(S::cycles(cycles)));
    }

    /// Lets the last value take these numbers of cycles more, before it and behind it.
    fn lengthen(&mut self, before: u32, behind: u32) {
        let value = S::cycles(before).then(self.take_value());
        self.open(Open::Value(value.then(S::cycles(behind))));
    }

    /// Takes the last value.
    fn take_value(&mut self) -> S {
        match self.open.pop() {
            Some(Open::Value(value)) => value,
            _ => S::cycles(0),
        }
    }

    /// Takes the last value, and the cycle that takes it: of a statement, of a test, of a return.
    fn taken(&mut self) -> S {
        self.take_value().then(S::cycles(1))
    }

    /// Takes the last body: its ends, and the index of its loop.
    fn take_body(&mut self) -> (Ends<S>, usize) {
        match self.open.pop() {
            Some(Open::Body(ends, index)) => (ends, index),
            _ => (Ends::through(S::cycles(0)), 0),
        }
    }

    /// Takes the last two values as the sides of an operator.
    fn operate(&mut self, op: Op) {
        let right = self.take_value();
        let left = self.take_value();
        let cycle = S::cycles(1);
        let behind_left = match op {
            Op::And if self.profile.short_circuit() => {
                cycle.then(right.then(S::cycles(3)).or(cycle))
            }
            Op::Or if self.profile.short_circuit() => {
                cycle.then(right.then(cycle).or(S::cycles(3)))
            }
            // all others have both of their sides
            _ => right.then(cycle),
        };
        self.open(Open::Value(left.then(behind_left)));
    }

    /// Adds the last value to the arguments of the call below it.
    fn pass_argument(&mut self) {
        let value = self.take_value();
        if let Some(Open::Call(callee, arguments)) = self.open.pop() {
            self.open(Open::Call(callee, arguments.then(value)));
        }
    }

    /// Makes a value of the last call.
    fn invoke(&mut self) {
        let Some(Open::Call(callee, arguments)) = self.open.pop() else {
            return;
        };
        let run = match callee {
            Callee::Function(number) => self.run(usize::from(number)),
            Callee::Intrinsic(asked) => S::asking(asked),
        };
        self.open(Open::Value(S::cycles(1).then(arguments).then(run)));
    }

    /// Returns the sum of the function of this number, as far as it is known.
    fn run(&self, number: usize) -> S {
        self.known.get(number).copied().unwrap_or(S::unknown())
    }

    /// Begins a body, by the token that it is named by.
    fn begin(&mut self, token: usize) {
        let index = self.loops.len();
        self.open(Open::Body(Ends::through(S::cycles(0)), index));
        if let Some(located) = self.tokens.get(token)
            && located.token == Token::Keyword(Keyword::While)
        {
            let _ = self.loops.try_push(Loop {
                position: place_of(located),
                turn: None,
            });
        }
    }

    /// Adds a statement of these ends to the last body.
    fn state(&mut self, ends: Ends<S>) {
        let (before, index) = self.take_body();
        self.open(Open::Body(before.followed(ends), index));
    }

    /// Adds an `if` without `else`.
    fn decide(&mut self) {
        let (branch, _) = self.take_body();
        let test = self.taken();
        let around = Ends::through(S::cycles(0));
        self.state(branch.or(around).after(test));
    }

    /// Adds an `if` with `else`. The end of its first branch takes two cycles more.
    fn decide_else(&mut self) {
        let (second, _) = self.take_body();
        let (first, _) = self.take_body();
        let test = self.taken();
        let over = Ends::through(S::cycles(2));
        self.state(first.followed(over).or(second).after(test));
    }

    /// Adds a `while`. The end of its turn takes two cycles.
    fn repeat(&mut self) {
        let (inside, index) = self.take_body();
        let test = self.taken();
        let turn = behind(Some(test), behind(inside.through, Some(S::cycles(2))));
        if let Some(noted) = self.loops.get_mut(index) {
            noted.turn = turn;
        }
        self.state(Ends::of_loop(turn, test, inside));
    }

    /// Ends a function: after its statements two cycles return 0.
    fn define(&mut self) {
        let (body, _) = self.take_body();
        let through = behind(body.through, Some(S::cycles(2)));
        let ends = either(body.returns, through).unwrap_or(S::unknown());
        if let Some(found) = self.found.get_mut(self.number) {
            *found = S::cycles(1).then(ends);
        }
    }
}
