//! What lies between questions, on all ways through a piece of a program.

ghost use Rattle.std.specs.Prelude.{◌≡◌, Option, Some};
ghost use Rattle.cycles.specs.declared.spans.Span as span;
ghost use Rattle.cycles.specs.Ends as ends;
ghost use Rattle.cycles.specs.Ends.{behind, one_of};
ghost use Rattle.cycles.specs.Told.{told_end};
ghost use Rattle.facts.specs.Ways.{AreTold, Between, any_between, cycles_of, either_between, then_between};

use cycles::Span;
use derivations::Sum;
use grammar::Intrinsic;

/// Between which questions cycles are counted.
#[derive(Clone, Copy)]
enum Pair {
    /// From each question to the next one.
    Neighbours,
    /// From a scan to each shot before the next scan.
    Shots,
}

impl Pair {
    /// Reports whether cycles are counted from this question on.
    fn begins(self, asked: Intrinsic) -> bool {
        match self {
            Pair::Neighbours => true,
            Pair::Shots => asked == Intrinsic::Scan,
        }
    }

    /// Reports whether they are counted up to this question.
    fn ends(self, asked: Intrinsic) -> bool {
        match self {
            Pair::Neighbours => true,
            Pair::Shots => asked == Intrinsic::Cannon,
        }
    }
}

/// The cycles from one question to another.
///
/// Of several such stretches it has the fewest cycles and the most, and the questions of the one with the most.
#[derive(Clone, Copy, PartialEq, Eq)]
pub struct Stretch {
    /// The cycles after the first question, up to the other one.
    pub cycles: Span,
    /// The first question; none if the stretch begins where the piece of the program does.
    pub from: Option<Intrinsic>,
    /// The other question; none if the stretch ends where the piece does.
    pub to: Option<Intrinsic>,
}

impl Stretch {
    /// Makes a stretch of cycles without a question at its ends.
    fn of(cycles: Span) -> Stretch
        ensures { result.cycles ≡ cycles }
    {
        Stretch {
            cycles,
            from: None,
            to: None,
        }
    }
}

/// The ways through a piece of a program, by the stretches on them between questions of each pair.
#[derive(Clone, Copy, PartialEq, Eq)]
pub struct Ways {
    neighbours: Stretches,
    shots: Stretches,
    /// Whether all functions that are called are known.
    is_known: bool,
}

impl Ways {
    /// Returns the stretches from each question to the next one, if there are any and all functions are known.
    pub fn gap(self) -> Option<Stretch> {
        self.between(self.neighbours)
    }

    /// Returns the stretches from a scan to each shot before the next scan, if there are any and all functions are known.
    pub fn shot(self) -> Option<Stretch> {
        self.between(self.shots)
    }

    /// Returns the stretches from one question to another, if all functions are known.
    fn between(self, stretches: Stretches) -> Option<Stretch> {
        if self.is_known { stretches.inner } else { None }
    }
}

impl Sum for Ways {
    fn cycles(number: u32) -> Ways {
        Ways {
            neighbours: Stretches::cycles(number),
            shots: Stretches::cycles(number),
            is_known: true,
        }
    }

    fn asking(asked: Intrinsic) -> Ways {
        Ways {
            neighbours: Stretches::asking(Pair::Neighbours, asked),
            shots: Stretches::asking(Pair::Shots, asked),
            is_known: true,
        }
    }

    fn unknown() -> Ways {
        let mut ways = Ways::cycles(0);
        ways.is_known = false;
        ways
    }

    fn then(self, next: Ways) -> Ways {
        Ways {
            neighbours: self.neighbours.then(next.neighbours),
            shots: self.shots.then(next.shots),
            is_known: self.is_known && next.is_known,
        }
    }

    fn or(self, other: Ways) -> Ways {
        Ways {
            neighbours: self.neighbours.or(other.neighbours),
            shots: self.shots.or(other.shots),
            is_known: self.is_known && other.is_known,
        }
    }

    fn any_number(self) -> Ways {
        Ways {
            neighbours: self.neighbours.any_number(),
            shots: self.shots.any_number(),
            is_known: self.is_known,
        }
    }
}

/// The stretches on all ways through a piece of a program. A kind of stretch that no way has is none.
#[derive(Clone, Copy, PartialEq, Eq)]
struct Stretches {
    /// The whole of a way on which no stretch begins.
    quiet: Option<Stretch>,
    /// From the beginning to a question, if no stretch has begun before it.
    first: Option<Stretch>,
    /// From the last question at which a stretch begins to the end.
    last: Option<Stretch>,
    /// From one question to another.
    inner: Option<Stretch>,
}

impl Stretches {
    /// Makes the stretches of this number of cycles that ask nothing.
    fn cycles(number: u32) -> Stretches {
        Stretches {
            quiet: Some(Stretch::of(Span::exactly(number))),
            first: None,
            last: None,
            inner: None,
        }
    }

    /// Makes the stretches of the cycle that asks this function.
    fn asking(pair: Pair, asked: Intrinsic) -> Stretches {
        let mut stretches = Stretches::cycles(1);
        if pair.ends(asked) {
            let mut first = Stretch::of(Span::exactly(1));
            first.to = Some(asked);
            stretches.first = Some(first);
        }
        if pair.begins(asked) {
            let mut last = Stretch::of(Span::exactly(0));
            last.from = Some(asked);
            stretches.last = Some(last);
            stretches.quiet = None;
        }
        stretches
    }

    /// Returns the stretches of these ways, and after each of them one of the next ways.
    fn then(self, next: Stretches) -> Stretches
        ensures { (a b : Between) → AreTold self a → AreTold next b → AreTold result (then_between a b) }
    {
        Stretches {
            quiet: joined(self.quiet, next.quiet),
            first: longer(self.first, joined(self.quiet, next.first)),
            last: longer(next.last, joined(self.last, next.quiet)),
            inner: longer(
                longer(self.inner, next.inner),
                joined(self.last, next.first),
            ),
        }
    }

    /// Returns the stretches of these ways and the others.
    fn or(self, other: Stretches) -> Stretches
        ensures { (a b : Between) → AreTold self a → AreTold other b → AreTold result (either_between a b) }
    {
        Stretches {
            quiet: longer(self.quiet, other.quiet),
            first: longer(self.first, other.first),
            last: longer(self.last, other.last),
            inner: longer(self.inner, other.inner),
        }
    }

    /// Returns the stretches of any number of these ways, one after the other.
    fn any_number(self) -> Stretches
        ensures { (a : Between) → AreTold self a → AreTold result (any_between a) }
    {
        let quiet = repeated(self.quiet);
        let last = joined(self.last, quiet);
        Stretches {
            quiet,
            first: joined(quiet, self.first),
            last,
            inner: longer(self.inner, joined(last, self.first)),
        }
    }
}

/// Returns a stretch without a question at its ends any number of times, perhaps never.
fn repeated(quiet: Option<Stretch>) -> Option<Stretch>
    ensures { (s : Option span.Span) → cycles_of quiet ≡ told_end s → cycles_of result ≡ told_end (Some (ends.repeated s)) }
{
    let cycles = match quiet {
        Some(quiet) => quiet.cycles.any_number(),
        None => Span::exactly(0),
    };
    Some(Stretch::of(cycles))
}

/// Returns one stretch with the next one behind it, if there are both.
fn joined(one: Option<Stretch>, next: Option<Stretch>) -> Option<Stretch>
    ensures { (s t : Option span.Span) → cycles_of one ≡ told_end s → cycles_of next ≡ told_end t
        → cycles_of result ≡ told_end (behind s t) }
{
    match (one, next) {
        (Some(one), Some(next)) => Some(Stretch {
            cycles: one.cycles.plus(next.cycles),
            from: one.from,
            to: next.to,
        }),
        _ => None,
    }
}

/// Returns the cycles of both stretches, and the questions of the one with more of them.
fn longer(one: Option<Stretch>, other: Option<Stretch>) -> Option<Stretch>
    ensures { (s t : Option span.Span) → cycles_of one ≡ told_end s → cycles_of other ≡ told_end t
        → cycles_of result ≡ told_end (one_of s t) }
{
    match (one, other) {
        (Some(one), Some(other)) => {
            let most = if is_less(one.cycles, other.cycles) {
                other
            } else {
                one
            };
            Some(Stretch {
                cycles: one.cycles.or(other.cycles),
                from: most.from,
                to: most.to,
            })
        }
        (Some(one), None) => Some(one),
        (None, other) => other,
    }
}

/// Reports whether one span has a lesser most than another.
fn is_less(one: Span, other: Span) -> bool {
    match (one.most, other.most) {
        (Some(one), Some(other)) => one < other,
        (Some(_), None) => true,
        (None, _) => false,
    }
}
