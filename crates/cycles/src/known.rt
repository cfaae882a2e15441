//! Programs that show the rules of spans.

ghost use Rattle.cycles.specs.KnownSpans.{KnownQuestions, KnownRuns, KnownTurns};

/// Proves that functions and turns of known programs take what was counted by hand.
pub fn known_spans()
    ensures runs { KnownRuns }
    ensures turns { KnownTurns }
    ensures questions { KnownQuestions }
{}
