//! How many cycles statements take up to each of their ends.

ghost use Rattle.std.specs.Prelude.{◌≡◌, ℕ};
ghost use Rattle.grammar.specs.Tree.{Body};
ghost use Rattle.cycles.specs.Statements.{ends_of, taken, turn_span};
ghost use Rattle.cycles.specs.Tables.{HasRuns};
ghost use Rattle.cycles.specs.Told.{told, told_end, told_ends};
ghost use Rattle.cycles.specs.Turns.{turn_of};
ghost use Rattle.cycles.specs.declared.spans.Ends as ends;
ghost use Rattle.cycles.specs.declared.spans.Span as span;
ghost use Rattle.trees.specs.Trees.{body_tree, expr_tree, statement_tree};

use crate::counted::Counted;
use crate::ends::{before, behind};
use crate::runs::Runs;
use crate::spans::{Ends, Span};
use trees::{Expr, Statement};

impl Runs {
    /// Returns the span of an expression and of the cycle that takes its value.
    fn taken(&self, expr: &Expr) -> Span
        ensures { (runs : ℕ → span.Span) → HasRuns self.now runs
            → result ≡ told (taken self.now.counted self.now.profile runs (expr_tree expr.now)) }
    {
        self.expression(expr).plus(self.counted.cycle())
    }

    /// Returns the ends of statements.
    #[cycle(statements)]
    pub fn statements(&self, statements: &[Statement]) -> Ends
        ensures { (runs : ℕ → span.Span) → HasRuns self.now runs
            → result ≡ told_ends (ends_of self.now.counted self.now.profile runs (body_tree statements.now)) }
    {
        let mut ends = Ends::passed();
        let mut index = statements.len();
        while index > 0 {
            index -= 1;
            ends = self.statement(&statements[index], ends);
        }
        ends
    }

    /// Returns the ends of a statement and of the next ones.
    #[cycle(statements)]
    fn statement(&self, statement: &Statement, next: Ends) -> Ends
        ensures { (runs : ℕ → span.Span) (rest : Body) → HasRuns self.now runs
            → next ≡ told_ends (ends_of self.now.counted self.now.profile runs rest)
            → result ≡ told_ends (ends_of self.now.counted self.now.profile runs (statement_tree statement.now rest)) }
    {
        match statement {
            Statement::ExpressionStatement(expr) => next.after(self.taken(expr)),
            Statement::IfStatement(test, branch) => {
                let branch = self.statements(branch);
                branch.followed(next).or(next).after(self.taken(test))
            }
            Statement::IfElseStatement(test, first, second) => {
                let first = self.statements(first);
                let second = self.statements(second);
                let over = next.after(self.counted.two_cycles());
                let branches = first.followed(over).or(second.followed(next));
                branches.after(self.taken(test))
            }
            Statement::While(test, body) => {
                let inside = self.statements(body);
                let test = self.taken(test);
                next.behind_loop(self.counted.turn(test, inside), test, inside)
            }
            Statement::Return(expr) => Ends::returning(self.taken(expr)),
        }
    }

    /// Returns the span of a turn of a loop.
    pub fn turn(&self, test: &Expr, body: &[Statement]) -> Option<Span>
        ensures { (runs : ℕ → span.Span) → HasRuns self.now runs
            → result ≡ told_end (turn_of self.now.counted self.now.profile runs (expr_tree test.now)
            (body_tree body.now)) }
    {
        self.counted.turn(self.taken(test), self.statements(body))
    }
}

impl Counted {
    /// Returns the span of a turn up to where its loop begins again, by its test and the ends inside of it.
    fn turn(self, test: Span, inside: Ends) -> Option<Span>
        ensures { (s : span.Span) (e : ends.Ends) → test ≡ told s → inside ≡ told_ends e
            → result ≡ told_end (turn_span self s e) }
    {
        before(test, behind(inside.through, Some(self.two_cycles())))
    }
}
