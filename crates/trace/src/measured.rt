//! What calls and turns took in a match, beside what is proved of them before it.

use crate::clocks::Taken;
use crate::items::{add_count, add_table, mean};
use crate::reports::Subject;
use facts::{Facts, Part, add_span};
use std::alloc::AllocError;
use tools::{Draft, Text};

/// The names of the columns.
const COLUMNS: &str = "   line   count   least    mean    most  proved      cycles of\n";

/// Adds a row for each function that was called and for each loop: how often, the fewest cycles that it took, the mean,
/// and the most, beside those that are proved. The only error is that memory was refused.
pub fn add_measured(text: &mut Draft, subject: &Subject<'_>) -> Result<(), AllocError> {
    let (note, program) = (subject.noted.note, subject.noted.program);
    let Ok(facts) = Facts::of(text.alloc(), note.text.as_slice(), program.profile()) else {
        return Err(AllocError);
    };
    let (calls, turns) = subject.tally.clock.taken();
    let mut rows = Draft::new(text.alloc());
    for part in &facts.functions {
        if let Some(taken) = calls.get(usize::from(part.number))
            && taken.count > 0
        {
            add_row(&mut rows, subject, part, taken, "call")?;
        }
    }
    for (part, taken) in facts.loops.iter().zip(turns) {
        add_row(&mut rows, subject, part, taken, "turn")?;
    }
    add_table(text, COLUMNS, rows)
}

/// Adds the row of a function or a loop. What has no room in a line is cut.
fn add_row(
    rows: &mut Draft,
    subject: &Subject<'_>,
    part: &Part,
    taken: &Taken,
    what: &str,
) -> Result<(), AllocError> {
    let mut proved = Draft::new(rows.alloc());
    match part.cycles {
        Some(span) => add_span(&mut proved, span),
        None => proved.add("never again"),
    }
    let mut row = Draft::new(rows.alloc());
    write!(row, "{:>7}", part.line);
    add_taken(&mut row, taken);
    let name = subject
        .noted
        .named()
        .function_name(usize::from(part.number));
    write!(row, "  {:<11} a {what} of {name}", proved.finish()?);
    let width = subject.columns.saturating_sub(1);
    writeln!(rows, "{:.width$}", row.finish()?);
    Ok(())
}

/// Adds how often something was done, and the fewest cycles that it took, the mean and the most: none if it was never
/// done.
fn add_taken(row: &mut Draft, taken: &Taken) {
    add_count(row, taken.count);
    if taken.count == 0 {
        row.add("       -       -       -");
        return;
    }
    for cycles in [taken.least, mean(taken.all, taken.count), taken.most] {
        add_count(row, cycles);
    }
}
