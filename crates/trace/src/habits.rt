//! What a robot does again and again: its calls, the directions that they were for, and where it waited.

use crate::items::{Items, add_count, add_table};
use crate::reports::Subject;
use crate::tallies::{Calls, RobotCounts};
use code::Intrinsic;
use std::alloc::AllocError;
use tools::{Draft, Text};
use watching::largest;

/// The report has a streak if it took at least one in this number of a robot's cycles.
const TOLD_PART: u64 = 10;

/// The degrees of the directions.
const DEGREES: &str =
    "   degrees           0      45      90     135     180     225     270     315\n";

/// Adds the longest streak of calls from one address, if it took much of the robot's time: how many, of what, and where.
pub fn add_streak(text: &mut Draft, subject: &Subject<'_>) -> Result<(), AllocError> {
    let Some(streak) = subject.tally.longest else {
        return Ok(());
    };
    let cycles = u64::from(streak.cycles());
    if streak.count == 1 || cycles < subject.tally.cycles() / TOLD_PART {
        return Ok(());
    }
    let (line, function) = subject.noted.position(streak.first.address);
    let (count, name) = (streak.count, streak.first.intrinsic.name());
    let mut items = Items::new("in a row", text, subject.columns);
    write!(items.begin(), "{count} {name} in line {line} of {function}");
    let (first, last) = (streak.first.cycle, streak.last);
    write!(items.begin(), "cycles {first} to {last}");
    add_replies(items.begin(), "reply ", Some([streak.least, streak.most]));
    items.end(text)
}

/// Adds a robot's calls of intrinsic functions.
pub fn add_calls(text: &mut Draft, subject: &Subject<'_>) -> Result<(), AllocError> {
    let mut items = Items::new("calls", text, subject.columns);
    for (intrinsic, calls) in Intrinsic::ALL.iter().zip(&subject.tally.calls) {
        if calls.all > 0 {
            let item = items.begin();
            write!(item, "{} {}", calls.all, intrinsic.name());
            add_answers(item, *intrinsic, calls);
        }
    }
    items.end(text)
}

/// Adds what the field answered calls of a function.
fn add_answers(text: &mut Draft, intrinsic: Intrinsic, calls: &Calls) {
    match intrinsic {
        Intrinsic::Drive => return,
        Intrinsic::Cannon => write!(text, " ({} refused", calls.zero),
        Intrinsic::Scan => {
            write!(text, " ({} saw nobody", calls.zero);
            add_replies(text, ", else ", calls.replies);
        }
        _ => add_replies(text, " (", calls.replies),
    }
    text.add(")");
}

/// Adds the least and the greatest reply after some words, one if they are the same: nothing if there are none.
fn add_replies(text: &mut Draft, before: &str, replies: Option<[i32; 2]>) {
    let Some(span) = replies else {
        return;
    };
    let [least, most] = span;
    write!(text, "{before}{least}");
    if least < most {
        write!(text, " to {most}");
    }
}

/// Adds how often a robot saw others, shot and asked to drive in each direction.
pub fn add_directions(text: &mut Draft, tally: &RobotCounts) -> Result<(), AllocError> {
    let mut rows = Draft::new(text.alloc());
    let (saw, shot, drove) = (&tally.saw, &tally.shot, &tally.drove);
    for (name, counts) in [("saw", saw), ("shot", shot), ("drove", drove)] {
        if largest(counts).is_some() {
            write!(rows, "     {name:<9}");
            for count in counts {
                add_count(&mut rows, *count);
            }
            rows.add("\n");
        }
    }
    add_table(text, DEGREES, rows)
}
