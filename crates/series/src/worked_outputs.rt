//! Known outputs of the definitions.

ghost use Rattle.series.specs.KnownOutputs.{KnownLines, KnownOutputs, KnownReports};

/// Proves that the definitions give these names, columns and lines, these reports and totals of known outcomes, and
/// these outputs of known files.
pub fn known_outputs()
    ensures texts { KnownLines }
    ensures reports { KnownReports }
    ensures outputs { KnownOutputs }
{}
