//! What the runs of functions take, by their numbers.

ghost use Rattle.std.specs.Prelude.{◌≡◌, ℕ, IfOk, length};
ghost use Rattle.cycles.specs.Runs.{run_of, run_within};
ghost use Rattle.cycles.specs.Spans.{anything};
ghost use Rattle.cycles.specs.Statements.{ends_of};
ghost use Rattle.cycles.specs.Tables.{HasRuns, body_numbered, rows_in, run_in};
ghost use Rattle.cycles.specs.Told.{told, told_ends};
ghost use Rattle.cycles.specs.declared.spans.Ends as ends;
ghost use Rattle.cycles.specs.declared.spans.Span as span;
ghost use Rattle.trees.specs.Trees.{body_tree};

use crate::counted::Counted;
use crate::ends::{behind, one_of};
use crate::spans::{Ends, Span};
use grammar::Profile;
use std::alloc::{AllocError, Global};
use trees::{Function, Statement, TreeMaker};

/// How many numbers a function may have.
const NUMBERS: usize = 256;

/// A function, and what its run takes, from the call after its arguments to its value.
#[derive(Clone, Copy, PartialEq, Eq, Drop)]
pub struct Run {
    /// The function's number.
    pub function: u8,
    /// The run's cycles.
    pub cycles: Span,
    /// The run's questions.
    pub questions: Span,
}

/// Lists the maker's functions in the order of the source, by the runs of these by their cycles and by their questions.
///
/// # Errors
///
/// A request of memory that was refused.
pub fn all_runs(
    alloc: Global,
    maker: &TreeMaker,
    cycles: &Runs,
    questions: &Runs,
) -> Result<Vec<Run>, AllocError>
    ensures { IfOk result (λ rows. rows.items ≡ rows_in cycles.now questions.now maker.now.functions) }
{
    let mut rows = Vec::new(alloc);
    for function in maker.functions() {
        rows.push(Run {
            function: function.number,
            cycles: cycles.run(function.number),
            questions: questions.run(function.number),
        })?;
    }
    Ok(rows)
}

/// What each function's run takes, from the call after its arguments to its value, as far as that is known.
#[derive(Clone, Copy)]
pub struct Runs {
    /// What is counted.
    pub(crate) counted: Counted,
    /// The profile that the program goes by.
    pub(crate) profile: Profile,
    /// The run of each number of a function.
    spans: [Span; NUMBERS],
    /// The run of any other number.
    other: Span,
}

impl Runs {
    /// Finds out what the runs of the maker's functions take by this profile.
    pub fn of(maker: &TreeMaker, profile: Profile, counted: Counted) -> Runs
        ensures counted { result.counted ≡ counted }
        ensures profile { result.profile ≡ profile }
        ensures runs { HasRuns result
            (run_within counted profile (body_numbered maker.now.functions) (length maker.now.functions)) }
    {
        let functions = maker.functions();
        let mut runs = Runs::unknown(profile, counted);
        for _ in 0..functions.len() {
            runs = runs.round(functions);
        }
        runs
    }

    /// Makes the table of runs that aren't known yet.
    fn unknown(profile: Profile, counted: Counted) -> Runs
        ensures counted { result.counted ≡ counted }
        ensures profile { result.profile ≡ profile }
        ensures runs { HasRuns result (λ k. anything) }
    {
        let other = Span::anything();
        Runs {
            counted,
            profile,
            spans: [other; NUMBERS],
            other,
        }
    }

    /// Returns the run of the function of this number.
    pub fn run(&self, number: u8) -> Span
        ensures { result ≡ run_in self.now number }
    {
        self.spans[usize::from(number)]
    }

    /// Returns what each run takes if what it calls takes what is known.
    fn round(&self, functions: &[Function]) -> Runs
        ensures counted { result.counted ≡ self.now.counted }
        ensures profile { result.profile ≡ self.now.profile }
        ensures runs { (runs : ℕ → span.Span) → HasRuns self.now runs
            → HasRuns result (λ k. run_of self.now.counted
            (ends_of self.now.counted self.now.profile runs (body_numbered functions.now k))) }
    {
        let other = self.counted.run_of(Ends::passed());
        let mut spans = [other; NUMBERS];
        let mut index = functions.len();
        while index > 0 {
            index -= 1;
            let number = functions[index].number;
            spans[usize::from(number)] = self.of_body(&functions[index].body);
        }
        Runs {
            counted: self.counted,
            profile: self.profile,
            spans,
            other,
        }
    }

    /// Returns the run of a function by its statements.
    fn of_body(&self, body: &[Statement]) -> Span
        ensures { (runs : ℕ → span.Span) → HasRuns self.now runs
            → result ≡ told (run_of self.now.counted
            (ends_of self.now.counted self.now.profile runs (body_tree body.now))) }
    {
        self.counted.run_of(self.statements(body))
    }
}

impl Counted {
    /// Returns the run of a function by the ends of its statements.
    fn run_of(self, body: Ends) -> Span
        ensures { (e : ends.Ends) → body ≡ told_ends e → result ≡ told (run_of self e) }
    {
        let through = behind(body.through, Some(self.two_cycles()));
        match one_of(body.returns, through) {
            Some(span) => self.cycle().plus(span),
            None => self.cycle().plus(Span::anything()),
        }
    }
}
