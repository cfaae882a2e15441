//! Laws of spans, each stated as the contract of a function.

ghost use Rattle.cycles.specs.Laws.{CyclesAreReplies, ExpressionsTake, LoopsAreTurns, RunsTake, StatementsTake};
ghost use Rattle.cycles.specs.Laws.{TurnsTake};

/// Proves that each reply that a run gets is one cycle.
pub fn cycles_are_replies()
    ensures { CyclesAreReplies }
{}

/// Proves that what the value of an expression takes is within its span, whatever replies come.
pub fn expressions_take()
    ensures { ExpressionsTake }
{}

/// Proves that what statements take up to each of their ends is within the span of this end.
pub fn statements_take()
    ensures { StatementsTake }
{}

/// Proves that what a function takes, from the call after its arguments to its value, is within its span.
pub fn runs_take()
    ensures { RunsTake }
{}

/// Proves that what a turn takes, from its test to where the loop begins again, is within its span.
pub fn turns_take()
    ensures { TurnsTake }
{}

/// Proves that a loop does what its turns do, one after another.
pub fn loops_are_turns()
    ensures { LoopsAreTurns }
{}
