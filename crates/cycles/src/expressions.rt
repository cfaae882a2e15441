//! What the values of expressions take.

ghost use Rattle.std.specs.Prelude.{◌≡◌, ℕ, map, Some};
ghost use Rattle.arith.specs.declared.operators.Op.TheVariants as op;
ghost use Rattle.cycles.specs.Counting.{asking, quiet};
ghost use Rattle.cycles.specs.Expressions.{arguments_span, binary_span, callee_span, cycle, full_span, short_span};
ghost use Rattle.cycles.specs.Expressions.{four_cycles, span_of, three_cycles, two_cycles};
ghost use Rattle.cycles.specs.Spans.{exactly};
ghost use Rattle.cycles.specs.Statements.{taken};
ghost use Rattle.cycles.specs.Tables.{HasRuns};
ghost use Rattle.cycles.specs.Told.{told};
ghost use Rattle.cycles.specs.declared.spans.Span as span;
ghost use Rattle.trees.specs.Trees.{arguments, expr_tree};

use crate::counted::Counted;
use crate::runs::Runs;
use crate::spans::Span;
use grammar::{Callee, Intrinsic, Op, Profile};
use trees::Expr;

impl Counted {
    /// Returns what a cycle counts that asks nothing.
    fn quiet(self) -> u32
        ensures { result ≡ quiet self }
    {
        match self {
            Counted::Cycles => 1,
            Counted::Questions | Counted::QuestionsOf(_) => 0,
        }
    }

    /// Returns what a cycle counts that asks this function.
    fn asking(self, asked: Intrinsic) -> u32
        ensures { result ≡ asking self asked }
    {
        match self {
            Counted::Cycles | Counted::Questions => 1,
            Counted::QuestionsOf(kind) => u32::from(kind == asked),
        }
    }

    /// Returns the span of a cycle that asks nothing.
    pub fn cycle(self) -> Span
        ensures { result ≡ told (cycle self) }
    {
        Span::exactly(self.quiet())
    }

    /// Returns the span of two of them.
    pub fn two_cycles(self) -> Span
        ensures { result ≡ told (two_cycles self) }
    {
        self.cycle().plus(self.cycle())
    }

    /// Returns the span of three of them.
    fn three_cycles(self) -> Span
        ensures { result ≡ told (three_cycles self) }
    {
        self.cycle().plus(self.two_cycles())
    }

    /// Returns the span of four of them.
    fn four_cycles(self) -> Span
        ensures { result ≡ told (four_cycles self) }
    {
        self.cycle().plus(self.three_cycles())
    }

    /// Returns the span of an operator with both of its sides.
    fn full(self, left: Span, right: Span) -> Span
        ensures { (s t : span.Span) → left ≡ told s → right ≡ told t → result ≡ told (full_span self s t) }
    {
        left.plus(right.plus(self.cycle()))
    }

    /// Returns the span of `&&` that leaves out its right side if the left decides.
    fn short_and(self, left: Span, right: Span) -> Span
        ensures { (s t : span.Span) → left ≡ told s → right ≡ told t → result ≡ told (short_span self op.And s t) }
    {
        let decided = self.cycle();
        let tested = right.plus(self.three_cycles());
        left.plus(self.cycle().plus(tested.or(decided)))
    }

    /// Returns the span of `||` that leaves out its right side if the left decides.
    fn short_or(self, left: Span, right: Span) -> Span
        ensures { (s t : span.Span) → left ≡ told s → right ≡ told t → result ≡ told (short_span self op.Or s t) }
    {
        let decided = self.three_cycles();
        let tested = right.plus(self.cycle());
        left.plus(self.cycle().plus(decided.or(tested)))
    }

    /// Returns the span of an operator by a profile.
    fn binary(self, profile: Profile, op: Op, left: Span, right: Span) -> Span
        ensures { (s t : span.Span) → left ≡ told s → right ≡ told t
            → result ≡ told (binary_span self profile op s t) }
    {
        match op {
            Op::And if profile.short_circuit() => self.short_and(left, right),
            Op::Or if profile.short_circuit() => self.short_or(left, right),
            // (of a new operator for which this is wrong the contract isn't proved)
            _ => self.full(left, right),
        }
    }
}

impl Runs {
    /// Returns the span of what is called, after its arguments.
    fn callee(&self, callee: Callee) -> Span
        ensures { (runs : ℕ → span.Span) → HasRuns self.now runs
            → result ≡ told (callee_span self.now.counted self.now.profile runs callee) }
    {
        match callee {
            Callee::Function(number) => self.run(number),
            Callee::Intrinsic(asked) => Span::exactly(self.counted.asking(asked)),
        }
    }

    /// Returns the span of an expression.
    #[cycle(expressions)]
    pub fn expression(&self, expr: &Expr) -> Span
        ensures { (runs : ℕ → span.Span) → HasRuns self.now runs
            → result ≡ told (span_of self.now.counted self.now.profile runs (expr_tree expr.now)) }
    {
        let cycle = self.counted.cycle();
        match expr {
            Expr::Constant(_) | Expr::Variable(_) => cycle,
            Expr::Binary(op, left, right) => {
                let left = self.expression(left);
                let right = self.expression(right);
                self.counted.binary(self.profile, *op, left, right)
            }
            Expr::Assign(_, _, right) => self.expression(right).plus(cycle),
            Expr::Postfix(_, _) => self.counted.four_cycles(),
            Expr::Call(callee, arguments) => {
                let arguments = self.arguments(arguments);
                cycle.plus(arguments.plus(self.callee(*callee)))
            }
        }
    }

    /// Returns the span of the arguments of a call.
    #[cycle(expressions)]
    fn arguments(&self, exprs: &[Expr]) -> Span
        ensures { (runs : ℕ → span.Span) → HasRuns self.now runs
            → result ≡ told (arguments_span self.now.counted self.now.profile runs
            (arguments (map expr_tree exprs.now))) }
    {
        let mut span = Span::exactly(0);
        let mut index = exprs.len();
        while index > 0 {
            index -= 1;
            span = self.expression(&exprs[index]).plus(span);
        }
        span
    }
}
