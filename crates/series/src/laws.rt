//! Laws on the output of runs.

ghost use Rattle.series.specs.SameReport.{SameReport};

/// Proves that the report of a match is the same text in each series that contains it, whatever the series' first
/// number and count.
pub fn same_report()
    ensures { SameReport }
{}
