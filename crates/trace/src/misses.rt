//! By how much a robot's shots missed, by what their bursts took.

use crate::aims::Miss;
use crate::items::{add_count, add_table, mean};
use std::alloc::AllocError;
use tools::{Draft, Text};

/// What a burst takes by its ring, in percent, with the words for it.
const RINGS: [(u8, &str); 4] = [(10, "10%"), (5, "5%"), (3, "3%"), (0, "missed")];

/// The names of the columns.
const COLUMNS: &str =
    "   aimed         shots     far    near    left   right    mean   range     age\n";

/// What is counted of the shots whose targets were in one ring, or outside of all.
#[derive(Clone, Copy, Default, Drop)]
pub struct MissCounts {
    /// How many there are.
    shots: u64,
    /// How many burst too far, too near, too far to the left, and too far to the right.
    sides: [u64; 4],
    /// How far they burst from their targets in all, in tenths of a metre.
    distances: u64,
    /// The ranges that were asked for in all, in metres.
    ranges: u64,
    /// How many were aimed at a robot that a scan saw.
    aimed: u64,
    /// The cycles from these scans to the shots in all.
    ages: u64,
}

/// What is counted of a robot's shots, by the rings.
pub type Misses = [MissCounts; RINGS.len()];

impl MissCounts {
    /// Counts a shot.
    fn count(&mut self, miss: &Miss) {
        self.shots = self.shots.saturating_add(1);
        let sides = [miss.far > 0, miss.far < 0, miss.left > 0, miss.left < 0];
        for (count, is_so) in self.sides.iter_mut().zip(sides) {
            *count = count.saturating_add(u64::from(is_so));
        }
        self.distances = self.distances.saturating_add(u64::from(miss.distance));
        self.ranges = self.ranges.saturating_add(u64::from(miss.range));
        if let Some(age) = miss.age {
            self.aimed = self.aimed.saturating_add(1);
            self.ages = self.ages.saturating_add(u64::from(age));
        }
    }
}

/// Counts a shot for the ring that its target was in.
pub fn count_miss(misses: &mut Misses, miss: &Miss) {
    for (counts, (percent, _)) in misses.iter_mut().zip(RINGS) {
        if percent == miss.percent {
            counts.count(miss);
        }
    }
}

/// Adds a row for each ring that had a target in it: how many shots, to which sides their bursts missed, and how far in
/// the mean, in metres; the mean of their ranges, and of the cycles since the target was seen.
pub fn add_misses(text: &mut Draft, misses: &Misses) -> Result<(), AllocError> {
    let mut rows = Draft::new(text.alloc());
    for (counts, (_, words)) in misses.iter().zip(RINGS) {
        if counts.shots > 0 {
            add_row(&mut rows, words, counts);
        }
    }
    add_table(text, COLUMNS, rows)
}

/// Adds the row of a ring.
fn add_row(rows: &mut Draft, words: &str, counts: &MissCounts) {
    write!(rows, "     {words:<9}");
    add_count(rows, counts.shots);
    for count in &counts.sides {
        add_count(rows, *count);
    }
    let tenths = mean(counts.distances, counts.shots);
    write!(rows, "{:>6}.{}", tenths / 10, tenths % 10);
    add_count(rows, mean(counts.ranges, counts.shots));
    if counts.aimed > 0 {
        add_count(rows, mean(counts.ages, counts.aimed));
    } else {
        rows.add("       -");
    }
    rows.add("\n");
}
