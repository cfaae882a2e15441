//! Which hits count, by their numbers.

use crate::commands::number_of;
use crate::refusals::Refusal;
use settings::MOST_CYCLES;

/// How the number of a hit compares with another one.
#[derive(Clone, Copy)]
enum Comparison {
    Is,
    IsAtLeast,
    IsAtMost,
    IsAbove,
    IsBelow,
    /// It is a multiple of it.
    IsEach,
}

/// How comparisons are written: of two that begin alike the longer one is first.
const WRITTEN: [(&str, Comparison); 6] = [
    ("==", Comparison::Is),
    (">=", Comparison::IsAtLeast),
    ("<=", Comparison::IsAtMost),
    (">", Comparison::IsAbove),
    ("<", Comparison::IsBelow),
    ("%", Comparison::IsEach),
];

/// The hits that count, of those that are numbered from 1.
#[derive(Clone, Copy)]
pub struct Count {
    comparison: Comparison,
    number: u32,
}

impl Count {
    /// Reads a comparison and a number, or a number alone: that hit.
    pub fn read(words: &str) -> Result<Count, Refusal<'_>> {
        let mut comparison = Comparison::Is;
        let mut digits = words;
        for (mark, other) in &WRITTEN {
            if let Some(rest) = words.strip_prefix(*mark) {
                comparison = *other;
                digits = rest.trim();
                break;
            }
        }
        match number_of(digits, 0, MOST_CYCLES) {
            Ok(number) => Ok(Count { comparison, number }),
            Err(_) => Err(Refusal::Count(words)),
        }
    }

    /// Reports whether the hit of a number counts.
    pub fn holds(self, hit: u32) -> bool {
        let number = self.number;
        match self.comparison {
            Comparison::Is => hit == number,
            Comparison::IsAtLeast => hit >= number,
            Comparison::IsAtMost => hit <= number,
            Comparison::IsAbove => hit > number,
            Comparison::IsBelow => hit < number,
            Comparison::IsEach => hit.checked_rem(number) == Some(0),
        }
    }
}
