//! From which range a robot's shots reach whom they are aimed at.

use crate::items::{add_count, add_table};
use crate::tallies::RobotCounts;
use std::alloc::AllocError;
use tools::{Draft, Text};
use watching::largest;

/// The least ranges that are told apart, in metres.
const METRES: &str =
    "   range             0     100     200     300     400     500     600     700\n";

/// Adds how many bursts were aimed at a robot and how many of these took something from it, by the range that was asked
/// for.
pub fn add_ranges(text: &mut Draft, tally: &RobotCounts) -> Result<(), AllocError> {
    let mut rows = Draft::new(text.alloc());
    if largest(&tally.aimed).is_some() {
        let (aimed, reached) = (&tally.aimed, &tally.reached);
        for (name, counts) in [("aimed", aimed), ("reached", reached)] {
            write!(rows, "     {name:<9}");
            for count in counts {
                add_count(&mut rows, *count);
            }
            rows.add("\n");
        }
    }
    add_table(text, METRES, rows)
}
