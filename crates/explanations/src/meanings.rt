//! What values mean: which is a degree, a range, a speed, a damage or a coordinate, by where it comes from.

use crate::constants::Constants;
use derivations::{Body, MOST_NODES, Node, NodeKind, SourceTree};
use grammar::{Callee, Intrinsic, MOST_NAMES, Op, StoreOp, Var};

/// How many times the nodes are gone through: a value goes through one more call each time.
const ROUNDS: usize = 4;

/// The most variables of all functions together.
const MOST_LOCALS: usize = MOST_NAMES * MOST_NAMES;

/// What a value means.
#[derive(Clone, Copy, PartialEq, Eq, Default)]
pub enum Meaning {
    /// Nothing that is known yet: no value was seen, or only 0, 1 or -1.
    #[default]
    Open,
    /// A number that the source has.
    Number,
    /// What `scan` answers.
    Range,
    /// A range that something was added to.
    Farther,
    /// What sine, cosine and tangent answer.
    Parts,
    /// What `speed` answers.
    Speed,
    /// What `damage` answers.
    Damage,
    /// What `loc_x` or `loc_y` answers.
    Coordinate,
    /// How far two coordinates are apart, or a coordinate that a number was added to.
    Distance,
    /// What is reckoned from a coordinate: something else was added to it, or it is one of several such values.
    Reckoned,
    /// Several things, or another one.
    Mixed,
}

impl Meaning {
    /// Returns what a variable means that has one value or another one.
    fn or(self, other: Meaning) -> Meaning {
        if self == other || other == Meaning::Open {
            self
        } else if self == Meaning::Open {
            other
        } else if self.is_place() && other.is_place() {
            Meaning::Reckoned
        } else {
            Meaning::Mixed
        }
    }

    /// Returns what the sum or the difference of two values means.
    fn plus(self, other: Meaning) -> Meaning {
        if self == Meaning::Reckoned || other == Meaning::Reckoned {
            Meaning::Reckoned
        } else if self.is_place() && other.is_place_or_number()
            || other.is_place() && self.is_place_or_number()
        {
            Meaning::Distance
        } else if self.is_place() || other.is_place() {
            Meaning::Reckoned
        } else if self.is_range() && other.is_number() || other.is_range() && self.is_number() {
            Meaning::Farther
        } else {
            Meaning::Mixed
        }
    }

    /// Reports whether it is a coordinate, or comes from one.
    pub fn is_place(self) -> bool {
        matches!(
            self,
            Meaning::Coordinate | Meaning::Distance | Meaning::Reckoned
        )
    }

    /// Reports whether it is that or a number.
    fn is_place_or_number(self) -> bool {
        self.is_place() || self.is_number()
    }

    /// Reports whether it is a number.
    fn is_number(self) -> bool {
        matches!(self, Meaning::Open | Meaning::Number)
    }

    /// Reports whether it is a range, or comes from one.
    fn is_range(self) -> bool {
        matches!(self, Meaning::Range | Meaning::Farther)
    }

    /// Returns the least and the greatest value, if they are known.
    pub fn bounds(self) -> Option<(i32, i32)> {
        match self {
            Meaning::Damage => Some((0, 99)),
            Meaning::Coordinate => Some((0, 999)),
            Meaning::Speed => Some((0, 100)),
            Meaning::Range => Some((0, 1414)),
            _ => None,
        }
    }
}

/// What the nodes of a tree mean, the variables of its file, those of its functions, and what these answer.
#[derive(Drop)]
pub struct Meanings {
    nodes: [Meaning; MOST_NODES],
    externals: [Meaning; MOST_NAMES],
    locals: [Meaning; MOST_LOCALS],
    answers: [Meaning; MOST_NAMES],
}

impl Meanings {
    /// Finds what the nodes of a tree mean, by the values that are known.
    pub fn of(tree: &SourceTree, constants: &Constants) -> Meanings {
        let mut meanings = Meanings {
            nodes: [Meaning::Open; MOST_NODES],
            externals: [Meaning::Open; MOST_NAMES],
            locals: [Meaning::Open; MOST_LOCALS],
            answers: [Meaning::Open; MOST_NAMES],
        };
        for _ in 0..ROUNDS {
            for body in tree.bodies() {
                meanings.pass(tree, constants, body);
            }
        }
        meanings
    }

    /// Returns what the node of an index means.
    /// It isn't inlined, since the page's module is to be small.
    #[inline(never)]
    pub fn get(&self, index: usize) -> Meaning {
        self.nodes.get(index).copied().unwrap_or(Meaning::Mixed)
    }

    /// Passes the nodes of a function.
    fn pass(&mut self, tree: &SourceTree, constants: &Constants, body: &Body) {
        for index in body.first..body.end {
            if let Some(node) = tree.get(index) {
                let meaning = self.meaning(constants, body, index, node);
                if let Some(kept) = self.nodes.get_mut(index) {
                    *kept = meaning;
                }
                self.give(tree, body, index, node, meaning);
            }
        }
    }

    /// Returns what a node means, by those below it.
    fn meaning(&self, constants: &Constants, body: &Body, index: usize, node: &Node) -> Meaning {
        let last = self.get(index.saturating_sub(1));
        match node.kind {
            NodeKind::Constant(_) => match constants.get(index) {
                Some(-1..=1) => Meaning::Open,
                _ => Meaning::Number,
            },
            NodeKind::Fetch(var) => self.variable(body, var),
            NodeKind::Store(_, StoreOp::Set) => last,
            NodeKind::Store(var, StoreOp::Add | StoreOp::Subtract) => self
                .variable(body, var)
                .plus(last),
            NodeKind::Negate => Meaning::Open.plus(last),
            NodeKind::Binary(Op::Add | Op::Subtract) => {
                self.get(node.second.saturating_sub(1)).plus(last)
            }
            NodeKind::Call(callee, _) => self.answer(callee),
            _ => Meaning::Mixed,
        }
    }

    /// Returns what a variable means.
    fn variable(&self, body: &Body, var: Var) -> Meaning {
        let found = match var {
            Var::External(number) => self.externals.get(usize::from(number)),
            Var::Local(number) => self.locals.get(place_of(body.number, number)),
        };
        found.copied().unwrap_or(Meaning::Mixed)
    }

    /// Returns what a function answers.
    fn answer(&self, callee: Callee) -> Meaning {
        match callee {
            Callee::Intrinsic(Intrinsic::Scan) => Meaning::Range,
            Callee::Intrinsic(Intrinsic::Speed) => Meaning::Speed,
            Callee::Intrinsic(Intrinsic::Sin | Intrinsic::Cos | Intrinsic::Tan) => Meaning::Parts,
            Callee::Intrinsic(Intrinsic::Damage) => Meaning::Damage,
            Callee::Intrinsic(Intrinsic::LocX | Intrinsic::LocY) => Meaning::Coordinate,
            Callee::Intrinsic(_) => Meaning::Mixed,
            Callee::Function(number) => {
                self.answers
                    .get(usize::from(number))
                    .copied()
                    .unwrap_or(Meaning::Mixed)
            }
        }
    }

    /// Gives what a node means to the variable that it sets, to the parameters of the function that it calls, or to what
    /// its function answers.
    fn give(
        &mut self,
        tree: &SourceTree,
        body: &Body,
        index: usize,
        node: &Node,
        meaning: Meaning,
    ) {
        match node.kind {
            NodeKind::Store(var, _) => self.set(body.number, var, meaning),
            NodeKind::PrefixIncrement(var, _) | NodeKind::PostfixIncrement(var, _) => {
                self.set(body.number, var, Meaning::Number);
            }
            NodeKind::Return => {
                let answered = self.get(index.saturating_sub(1));
                if let Some(answer) = self.answers.get_mut(usize::from(body.number)) {
                    *answer = answer.or(answered);
                }
            }
            NodeKind::Call(Callee::Function(number), _) => self.pass_arguments(
                tree, index, node, number,
            ),
            _ => {}
        }
    }

    /// Gives what the arguments of a call mean to the parameters of its function.
    fn pass_arguments(&mut self, tree: &SourceTree, index: usize, node: &Node, function: u8) {
        let mut begin = node.first;
        for parameter in 0..MOST_NAMES {
            if begin >= index {
                return;
            }
            let argument = tree.outermost(begin, index);
            let meaning = self.get(argument);
            self.set(function, Var::Local(parameter as u8), meaning);
            begin = argument.saturating_add(1);
        }
    }

    /// Gives a variable of a function, or of the file, a further meaning.
    fn set(&mut self, function: u8, var: Var, meaning: Meaning) {
        match var {
            Var::External(number) => {
                if let Some(kept) = self.externals.get_mut(usize::from(number)) {
                    *kept = kept.or(meaning);
                }
            }
            Var::Local(number) => {
                if let Some(kept) = self.locals.get_mut(place_of(function, number)) {
                    *kept = kept.or(meaning);
                }
            }
        }
    }
}

/// Returns the place of a function's variable among those of all functions.
fn place_of(function: u8, number: u8) -> usize {
    usize::from(function)
        .saturating_mul(MOST_NAMES)
        .saturating_add(usize::from(number))
}
