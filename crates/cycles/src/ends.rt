//! The ends of statements, one after the other.

ghost use Rattle.std.specs.Prelude.{◌≡◌, Option};
ghost use Rattle.cycles.specs.Ends.{after, before, behind, followed, one_branch, one_of, passed, repeated};
ghost use Rattle.cycles.specs.Statements.{loop_ends, return_ends};
ghost use Rattle.cycles.specs.Told.{told, told_end, told_ends};
ghost use Rattle.cycles.specs.declared.spans.Ends as ends;
ghost use Rattle.cycles.specs.declared.spans.Span as span;

use crate::spans::{Ends, Span};

/// Returns a span and then an end.
pub fn before(first: Span, end: Option<Span>) -> Option<Span>
    ensures { (s : span.Span) (o : Option span.Span) → first ≡ told s → end ≡ told_end o
        → result ≡ told_end (before s o) }
{
    match end {
        None => None,
        Some(end) => Some(first.plus(end)),
    }
}

/// Returns an end, and if it is reached, another.
pub fn behind(first: Option<Span>, end: Option<Span>) -> Option<Span>
    ensures { (a o : Option span.Span) → first ≡ told_end a → end ≡ told_end o
        → result ≡ told_end (behind a o) }
{
    match first {
        None => None,
        Some(first) => before(first, end),
    }
}

/// Returns one end or the other.
pub fn one_of(first: Option<Span>, second: Option<Span>) -> Option<Span>
    ensures { (a b : Option span.Span) → first ≡ told_end a → second ≡ told_end b
        → result ≡ told_end (one_of a b) }
{
    match first {
        None => second,
        Some(first) => match second {
            None => Some(first),
            Some(second) => Some(first.or(second)),
        },
    }
}

/// Returns what comes up to an end that is reached any number of times.
fn repeated(end: Option<Span>) -> Span
    ensures { (o : Option span.Span) → end ≡ told_end o → result ≡ told (repeated o) }
{
    match end {
        None => Span::exactly(0),
        Some(end) => end.any_number(),
    }
}

impl Ends {
    /// Makes the ends of no statements.
    pub fn passed() -> Ends
        ensures { result ≡ told_ends passed }
    {
        Ends {
            through: Some(Span::exactly(0)),
            returns: None,
        }
    }

    /// Returns these ends after a span.
    pub fn after(self, first: Span) -> Ends
        ensures { (s : span.Span) (e : ends.Ends) → first ≡ told s → self ≡ told_ends e
            → result ≡ told_ends (after s e) }
    {
        Ends {
            through: before(first, self.through),
            returns: before(first, self.returns),
        }
    }

    /// Returns these ends, and if they are passed through, the next ones.
    pub fn followed(self, next: Ends) -> Ends
        ensures { (e n : ends.Ends) → self ≡ told_ends e → next ≡ told_ends n
            → result ≡ told_ends (followed e n) }
    {
        Ends {
            through: behind(self.through, next.through),
            returns: one_of(self.returns, behind(self.through, next.returns)),
        }
    }

    /// Returns these ends or the others.
    pub fn or(self, other: Ends) -> Ends
        ensures { (e n : ends.Ends) → self ≡ told_ends e → other ≡ told_ends n
            → result ≡ told_ends (one_branch e n) }
    {
        Ends {
            through: one_of(self.through, other.through),
            returns: one_of(self.returns, other.returns),
        }
    }

    /// Makes the ends of a return.
    pub fn returning(taken: Span) -> Ends
        ensures { (s : span.Span) → taken ≡ told s → result ≡ told_ends (return_ends s) }
    {
        Ends {
            through: None, // never
            returns: Some(taken),
        }
    }

    /// Returns the ends of a loop, by its turn up to where it begins again, its test, the ends inside of it, and these
    /// ends after it.
    pub fn behind_loop(self, turn: Option<Span>, test: Span, inside: Ends) -> Ends
        ensures { (o : Option span.Span) (s : span.Span) (e next : ends.Ends) → turn ≡ told_end o → test ≡ told s
            → inside ≡ told_ends e → self ≡ told_ends next → result ≡ told_ends (loop_ends o s e next) }
    {
        let returning = Ends {
            through: None,
            returns: inside.returns,
        };
        returning.or(self).after(test).after(repeated(turn))
    }
}
