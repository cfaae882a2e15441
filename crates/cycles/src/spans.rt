//! Spans: how many cycles or questions something takes at least and at most.

ghost use Rattle.std.specs.Prelude.{◌≡◌, ℕ, Option, Some};
ghost use Rattle.cycles.specs.Spans.{◌⊕◌, anything, either, exactly, most_of_any, most_of_both, most_of_either};
ghost use Rattle.cycles.specs.Ends.{repeated};
ghost use Rattle.cycles.specs.Told.{told, told_most};
ghost use Rattle.cycles.specs.declared.spans.Span as span;

/// The least and the most of what is counted, such as cycles.
///
/// A number above `u32::MAX` isn't kept: a greater least counts as `u32::MAX`, and a greater most as no bound.
#[derive(Clone, Copy, PartialEq, Eq)]
pub struct Span {
    /// The least.
    pub least: u32,
    /// The most; `None` if nothing bounds it.
    pub most: Option<u32>,
}

/// The spans of some statements, up to each of their ends. An end that is never reached has no span.
#[derive(Clone, Copy, PartialEq, Eq)]
pub struct Ends {
    /// Up to where the statements are passed through.
    pub through: Option<Span>,
    /// Up to where the function returns.
    pub returns: Option<Span>,
}

impl Span {
    /// Makes the span of exactly this number.
    pub fn exactly(number: u32) -> Span
        ensures { result ≡ exactly number }
    {
        Span {
            least: number,
            most: Some(number),
        }
    }

    /// Makes the span from 0 without a bound, of what isn't known.
    pub fn anything() -> Span
        ensures { result ≡ anything }
    {
        Span {
            least: 0,
            most: None,
        }
    }

    /// Returns the span of one thing after the other.
    pub fn plus(self, next: Span) -> Span
        ensures { (s t : span.Span) → self ≡ told s → next ≡ told t → result ≡ told (s ⊕ t) }
    {
        Span {
            least: self.least.saturating_add(next.least),
            most: most_of_both(self.most, next.most),
        }
    }

    /// Returns the span of one thing or the other: the lesser least, the greater most.
    pub fn or(self, other: Span) -> Span
        ensures { (s t : span.Span) → self ≡ told s → other ≡ told t → result ≡ told (either s t) }
    {
        Span {
            least: self.least.min(other.least),
            most: most_of_either(self.most, other.most),
        }
    }

    /// Returns the span of a thing that is done any number of times, perhaps never.
    pub fn any_number(self) -> Span
        ensures { (s : span.Span) → self ≡ told s → result ≡ told (repeated (Some s)) }
    {
        Span {
            least: 0,
            most: most_of_any(self.most),
        }
    }
}

/// Returns the most of one thing after the other, if it is bounded and at most `u32::MAX`.
fn most_of_both(first: Option<u32>, second: Option<u32>) -> Option<u32>
    ensures { (a b : Option ℕ) → first ≡ told_most a → second ≡ told_most b
        → result ≡ told_most (most_of_both a b) }
{
    match (first, second) {
        (Some(first), Some(second)) => first.checked_add(second),
        _ => None,
    }
}

/// Returns the most of one thing or the other.
fn most_of_either(first: Option<u32>, second: Option<u32>) -> Option<u32>
    ensures { (a b : Option ℕ) → first ≡ told_most a → second ≡ told_most b
        → result ≡ told_most (most_of_either a b) }
{
    match (first, second) {
        (Some(first), Some(second)) => Some(first.max(second)),
        _ => None,
    }
}

/// Returns the most of a thing any number of times: none but of nothing.
fn most_of_any(most: Option<u32>) -> Option<u32>
    ensures { (a : Option ℕ) → most ≡ told_most a → result ≡ told_most (most_of_any a) }
{
    match most {
        Some(0) => Some(0),
        _ => None,
    }
}
